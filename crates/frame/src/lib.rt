// Frames, opened and wrapped in one place, whatever is inside. specs/Frame.antt says how a frame is written and
// what its parts are in a slice. `judge` reads the fields of a reply and calls `finish`; `encode` writes the payload
// of a command and calls `wrap`. Document 01, "The envelope"; document 02, W2.
#![tactic(auto, using(crate::proofs::Ways::ways))]

ghost use Rattle.std.specs.Prelude.{◌≡◌, ◌+◌, ◌≤◌, length};
ghost use Rattle.refusals.specs.Refusals.{consumed};
ghost use Rattle.frame.specs.Opening.{judge_sum_of, finish_of, open_of};
ghost use Rattle.frame.specs.Wrapping.{WrapIs};

use refusals::{DecodeError, EncodeError};

// The sum is worked out last, and of a frame that ends well only.
fn judge_sum(buf: &[u8], n: usize, expected: u16) -> Result<usize, DecodeError>
    requires { n + 5 ≤ length buf.now }
    ensures { consumed result ≡ judge_sum_of buf.now n expected }
{
    let end = n + format::PAYLOAD_AT;
    let count = n + format::FRAME_EXTRA;
    let actual = checksum::checksum(&buf[format::PAYLOAD_AT..end]);
    if expected == actual {
        Ok(count)
    } else {
        Err(DecodeError::ChecksumMismatch { expected, actual })
    }
}

// What follows the `n` payload bytes of a frame: where the frame ends, or why it is none.
pub fn finish(buf: &[u8], n: u8) -> Result<usize, DecodeError>
    ensures { consumed result ≡ finish_of buf.now n }
{
    let len = n as usize;
    let (expected, last) = packer::unpack_u16(buf, len + format::PAYLOAD_AT)?;
    match buf.get(last) {
        None => Err(DecodeError::IncompleteData),
        Some(&format::FRAME_END) => judge_sum(buf, len, expected),
        Some(_) => Err(DecodeError::InvalidFrame),
    }
}

// The frame at the front of `buf`, whatever its payload holds: where it ends, or why there is none. Byte 1 is the
// length of the payload, which begins at byte 2. `judge::judge` tests the id too, and so waits for a byte more.
pub fn open(buf: &[u8]) -> Result<usize, DecodeError>
    ensures { consumed result ≡ open_of buf.now }
{
    match buf {
        [] => Err(DecodeError::IncompleteData),
        [start, ..] if *start != format::FRAME_START_SHORT => Err(DecodeError::InvalidFrame),
        [_] => Err(DecodeError::IncompleteData),
        [_, n, ..] => finish(buf, *n),
    }
}

// Writes a frame around the `len` payload bytes that stand at byte 2 of `buf`, and returns the frame's size.
// Tests 6 (PayloadTooLong), then 5 (BufferTooSmall); a refusal writes nothing. Its callers test so themselves, each in its own order
// of refusals, before they write a payload; it relies on none of them.
pub fn wrap(len: usize, buf: &mut [u8]) -> Result<usize, EncodeError>
    ensures { WrapIs len buf.old result buf.new }
{
    if format::PAYLOAD_MAX < len {
        return Err(EncodeError::PayloadTooLong); // refusal 6, tested before 5
    }
    if buf.len() < len + format::FRAME_EXTRA {
        return Err(EncodeError::BufferTooSmall); // refusal 5
    }
    let end = format::PAYLOAD_AT + len;
    let sum = checksum::checksum(&buf[format::PAYLOAD_AT..end]);
    packer::pack_u8(buf, 0, format::FRAME_START_SHORT)?;
    packer::pack_u8(buf, 1, len as u8)?;
    packer::pack_u16(buf, end, sum)?;
    packer::pack_u8(buf, end + 2, format::FRAME_END)
}
