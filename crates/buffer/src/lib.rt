// What a decoder holds, over any judge of bytes: what `feed` and `next` of src/decoder.rs do to it,
// and what calling them again and again comes to. Document 01, "The stream". Laws only, no code: specs/ says
// what the calls do, proofs/ what holds of them.

#![tactic(auto)]
