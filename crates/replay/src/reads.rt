// The readers' cases: a scale's bits, a position, and the slice that is read.
use crate::answers::Answers;
use crate::cases;
use refusals::DecodeError;
use std::io;
use std::io::Write;

// The position after a number that was read, and its bits.
pub(crate) fn number<T: Into<u32> + Copy>(
    answers: &mut Answers,
    read: Result<(T, usize), DecodeError>,
) -> io::Result<()> {
    match read {
        Ok((value, next)) => {
            answers.given(next)?;
            answers.word(value.into())
        }
        Err(e) => answers.refused(e.number()),
    }
}

pub(crate) fn float(
    answers: &mut Answers,
    read: Result<(f32, usize), DecodeError>,
) -> io::Result<()> {
    match read {
        Ok((value, next)) => {
            answers.given(next)?;
            answers.float(value)
        }
        Err(e) => answers.refused(e.number()),
    }
}

// What was copied out of the slice. Where a reader refuses, the Rust leaves zeros in the array.
pub(crate) fn copied<const N: usize>(
    answers: &mut Answers,
    read: Result<([u8; N], usize), DecodeError>,
) -> io::Result<()> {
    match read {
        Ok((_, next)) => answers.given(next)?,
        Err(e) => answers.refused(e.number())?,
    }
    answers.bytes(&read.map_or([0; N], |(bytes, _)| bytes))
}

fn one(answers: &mut Answers, letter: u8, scale: f32, pos: usize, slice: &[u8]) -> io::Result<()> {
    match letter {
        b'b' => number(answers, packer::unpack_u8(slice, pos)),
        b's' => number(answers, packer::unpack_u16(slice, pos)),
        b'u' => number(answers, packer::unpack_u32(slice, pos)),
        b't' => {
            let read = packer::unpack_i16(slice, pos);
            number(
                answers,
                read.map(|(value, next)| (packer::as_u32(i32::from(value)), next)),
            )
        }
        b'i' => {
            let read = packer::unpack_i32(slice, pos);
            number(
                answers,
                read.map(|(value, next)| (packer::as_u32(value), next)),
            )
        }
        b'h' => float(answers, packer::unpack_f16(slice, pos, scale)),
        b'w' => float(answers, packer::unpack_f32(slice, pos, scale)),
        b'F' => float(answers, packer::unpack_f32_auto(slice, pos)),
        b'n' => copied::<39>(answers, names::unpack_c_string(slice, pos)),
        b'm' => copied::<47>(answers, names::unpack_c_string(slice, pos)),
        _ => copied(answers, packer::unpack_uuid(slice, pos)),
    }
}

pub(crate) fn case(answers: &mut Answers, letter: u8, case: &[u8]) -> io::Result<()> {
    if case.len() < 5 {
        return answers.cut_short();
    }
    let scale = cases::scale_of(case);
    one(answers, letter, scale, usize::from(case[4]), &case[5..])
}

// The text of a name: the case is the name's bytes.
pub(crate) fn name_text(answers: &mut Answers, name: &[u8]) -> io::Result<()> {
    if text::has_text(name) {
        write!(answers.out, " text")?;
        answers.bytes(text::text(name))
    } else {
        write!(answers.out, " none")
    }
}
