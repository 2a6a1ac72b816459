// Text for standard output, gathered so that many short answers are few writes. The buffer is no `BufWriter`, which allocates: a
// replay can't run out of memory.
use arrayvec::ArrayVec;
use std::io;
use std::io::{Stderr, Stdout, Write};

#[derive(Drop)]
pub(crate) struct Output {
    out: Stdout,
    errors: Stderr,
    text: ArrayVec<u8, 65536>,
    // Whether every write so far got through.
    pub(crate) ok: bool,
}

impl Output {
    pub(crate) fn new(out: Stdout, errors: Stderr) -> Output {
        Output {
            out,
            errors,
            text: ArrayVec::new(),
            ok: true,
        }
    }

    // Writes what is gathered. A failure is said on standard error, and the case at hand goes on: a later write may get through.
    pub(crate) fn send(&mut self) {
        if let Err(error) = self.out.write_all(self.text.as_slice()) {
            let _ = eprintln!(self.errors; "replay: standard output: {error}");
            self.ok = false;
        }
        self.text.clear();
    }

    // One byte of the text.
    pub(crate) fn put(&mut self, byte: u8) {
        if self.text.is_full() {
            self.send();
        }
        // There is room, as the text is not full.
        let _ = self.text.try_push(byte);
    }

    // The end of an answer's line. What is gathered is written once it is much.
    pub(crate) fn end_line(&mut self) -> io::Result<()> {
        writeln!(self, "")?;
        if 32768 <= self.text.len() {
            self.send();
        }
        Ok(())
    }
}

impl Write for Output {
    fn write(&mut self, bytes: &[u8]) -> io::Result<usize> {
        if self.text.is_full() {
            self.send();
        }
        self.text.write(bytes)
    }

    fn flush(&mut self) -> io::Result<()> {
        self.send();
        Ok(())
    }
}
