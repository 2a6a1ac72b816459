// Text for standard output, gathered so that many short lines are few writes. Every write is checked.
ghost use Rattle.std.specs.Prelude.{◌≡◌, ◌≤◌, [], length, IfOk, OnOk};

use crate::failure::Failure;
use crate::waiting;
use arrayvec::ArrayString;
use decoder::Figures;
use std::fmt::Write;
use std::io::{Error, ErrorKind};
use std::rt::Runtime;
use std::{fmt, fs};

#[derive(Drop)]
pub(crate) struct Output<'a, R> {
    pub(crate) rt: &'a R,
    text: ArrayString<4096>,
}

impl<'a, R: Runtime> Output<'a, R> {
    pub(crate) fn new(rt: &'a R) -> Self {
        Output {
            rt,
            text: ArrayString::new(),
        }
    }

    // The id on a line of its own. What waits is written first if fewer than 8 bytes are free. A line needs only 4, but then
    // lines of 4 bytes would go out in writes of 4,096. A file that is full at a multiple of that would take such a write whole,
    // and the next one might end in SIGXFSZ, with no message. A write of 4,092 bytes is cut short there, and that is said.
    pub(crate) fn id(&mut self, id: u8) -> Result<(), Failure> {
        if self.text.remaining_capacity() < 8 {
            self.flush()?;
        }
        let mut digits = itoa::Buffer::new();
        self.text.push_str(digits.format(id));
        self.text.push_str("\n");
        Ok(())
    }

    // Writes what waits. The count of turns is there only so that the loop can be proved to end.
    pub(crate) fn flush(&mut self) -> Result<(), Failure>
        ensures { OnOk result (self.new.text.bytes ≡ []) }
    {
        let mut rest = self.text.as_str().as_bytes();
        for _ in 0..u64::MAX {
            if rest.is_empty() {
                break;
            }
            let count = self.write_some(rest)?;
            rest = &rest[count..];
        }
        self.text.clear();
        Ok(())
    }

    // One write: how many bytes it took, none where it is to be made again. A file takes part of a write only
    // where it is full, and a write after that may end in a signal (SIGXFSZ), so none is made.
    fn write_some(&self, bytes: &[u8]) -> Result<usize, Failure>
        ensures { IfOk result (λ count. count ≤ length bytes.now) }
    {
        match self.rt.write_some(bytes) {
            Ok(0) => Err(Failure::Output(Error::from(ErrorKind::WriteZero))),
            Ok(count) if count < bytes.len() && self.is_file() => Err(Failure::FullFile),
            Ok(count) => Ok(count),
            Err(error) => {
                waiting::wait(self.rt, error).map_err(Failure::Output)?;
                Ok(0)
            }
        }
    }

    // Whether standard output is a file, not a pipe or a terminal.
    fn is_file(&self) -> bool {
        match fs::metadata(self.rt, "/proc/self/fd/1") {
            Ok(metadata) => metadata.is_file(),
            Err(_) => false,
        }
    }

    // Writes the last line.
    pub(crate) fn figures(&mut self, figures: Figures) -> Result<(), Failure> {
        self.flush()?;
        // There is room, as nothing waits.
        let _ = writeln!(self.text, "{}", FiguresLine(figures));
        self.flush()
    }
}

// The figures as they are printed.
#[derive(Clone, Copy)]
pub(crate) struct FiguresLine(pub(crate) Figures);

impl fmt::Display for FiguresLine {
    fn fmt<W: fmt::Write>(&self, f: &mut fmt::Formatter<W>) -> fmt::Result {
        let Figures {
            fed,
            handed,
            passed,
            cleared,
            held,
        } = self.0;
        write!(
            f,
            "fed {fed} handed {handed} passed {passed} cleared {cleared} held {held}"
        )
    }
}
