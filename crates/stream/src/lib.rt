// The left-to-right reading of a byte stream, over any judge of bytes: document 01, "The stream".
// Laws only, no code: specs/ says what the reading is, proofs/ what holds of it. It knows no frame;
// who uses it brings the judge.

#![tactic(auto)]
