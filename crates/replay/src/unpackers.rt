// The cases of the thin `Unpacker`: several reads, each from where the one before it left the position; and
// four in a row on one and the same.
use crate::answers::Answers;
use crate::{cases, reads, thin};
use std::io;

// One read and then the position that it leaves.
fn read(
    answers: &mut Answers,
    slice: &[u8],
    pos: usize,
    scale: f32,
    code: u8,
) -> io::Result<usize> {
    let left = match code {
        0 => {
            let read = thin::u8_at(slice, pos);
            reads::number(answers, read.placed())?;
            read.pos
        }
        1 => {
            let read = thin::u32_at(slice, pos);
            reads::number(answers, read.placed())?;
            read.pos
        }
        2 => {
            let read = thin::f32_at(slice, pos, scale);
            reads::float(answers, read.placed())?;
            read.pos
        }
        _ => {
            let read = thin::name39_at(slice, pos);
            reads::copied(answers, read.placed())?;
            read.pos
        }
    };
    answers.position(left)?;
    Ok(left)
}

fn reads_of(
    answers: &mut Answers,
    slice: &[u8],
    start: usize,
    scale: f32,
    codes: &[u8],
) -> io::Result<()> {
    answers.position(thin::start(slice))?;
    let mut pos = start;
    for &code in codes {
        pos = read(answers, slice, pos, scale, code)?;
    }
    Ok(())
}

pub(crate) fn case(answers: &mut Answers, case: &[u8]) -> io::Result<()> {
    if case.len() < 6 {
        return answers.cut_short();
    }
    let end = 6 + usize::from(case[5]);
    if case.len() < end {
        return answers.cut_short();
    }
    let scale = cases::scale_of(case);
    let pos = usize::from(case[4]);
    reads_of(answers, &case[end..], pos, scale, &case[6..end])
}

pub(crate) fn in_a_row(answers: &mut Answers, case: &[u8]) -> io::Result<()> {
    if case.len() < 4 {
        return answers.cut_short();
    }
    let row = thin::in_a_row(&case[4..], cases::scale_of(case));
    reads::number(answers, row.byte.placed())?;
    reads::copied(answers, row.name.placed())?;
    reads::number(answers, row.number.placed())?;
    reads::float(answers, row.scaled.placed())?;
    answers.position(row.scaled.pos)
}
