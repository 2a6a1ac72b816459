// The envelope: `judge` decides everything about a frame (taken whole, refused, or not enough yet)
// and builds no record. What follows the payload is judged by `frame::finish`. Ports the order of `decode` in
// src/command.rs; document 01, "The envelope".
#![tactic(auto, using(crate::proofs::Order::ways))]

ghost use Rattle.std.specs.Prelude.{◌≡◌};
ghost use Rattle.refusals.specs.Refusals.{consumed};
ghost use Rattle.judge.specs.Judge.{judge_of};

use refusals::DecodeError;

// What the bytes from the first on are: a good frame, up to the place that is answered, or the refusal of
// `decode`. A byte that starts no frame costs one comparison: it is judged before anything is called.
// `frame::open` has the same first tests and waits for one byte less: one function for both would be no plainer.
pub fn judge(buf: &[u8]) -> Result<usize, DecodeError>
    ensures { consumed result ≡ judge_of buf.now }
{
    match buf {
        [] => Err(DecodeError::IncompleteData),
        [start, ..] if *start != format::FRAME_START_SHORT => Err(DecodeError::InvalidFrame),
        [_] | [_, _] => Err(DecodeError::IncompleteData),
        [_, payload_len, id, ..] => {
            let read = layout::fields_end(&buf[format::PAYLOAD_AT..], *id, 1)?;
            if *payload_len as usize != read {
                return Err(DecodeError::InvalidFrame);
            }
            frame::finish(buf, *payload_len)
        }
    }
}
