// The writers' cases: a scale's bits, a position, a slice's length, and the value's bits. The slice
// holds A5 everywhere, so that what is not written shows.
use crate::answers::Answers;
use crate::cases;
use refusals::EncodeError;
use std::io;

fn packed(
    letter: u8,
    scale: f32,
    slice: &mut [u8],
    pos: usize,
    value: u32,
) -> Result<usize, EncodeError> {
    match letter {
        b'B' => packer::pack_u8(slice, pos, (value % 256) as u8),
        b'S' => packer::pack_u16(slice, pos, (value % 65536) as u16),
        b'U' => packer::pack_u32(slice, pos, value),
        b'I' => packer::pack_i32(slice, pos, packer::as_i32(value)),
        _ => packer::pack_f32(slice, pos, floats::f32_from_bits(value), scale),
    }
}

// A count of bytes, or the number of the refusal.
pub(crate) fn count(answers: &mut Answers, written: Result<usize, EncodeError>) -> io::Result<()> {
    match written {
        Ok(count) => answers.given(count),
        Err(e) => answers.refused(e.number()),
    }
}

pub(crate) fn case(answers: &mut Answers, letter: u8, case: &[u8]) -> io::Result<()> {
    if case.len() < 10 {
        return answers.cut_short();
    }
    let scale = cases::scale_of(case);
    let value = cases::word_at(case, 6);
    let pos = usize::from(case[4]);
    let room = usize::from(case[5]);
    let mut space = cases::UNTOUCHED;
    let slice = &mut space[..room];
    count(answers, packed(letter, scale, slice, pos, value))?;
    answers.bytes(slice)
}
