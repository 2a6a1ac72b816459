// Standard output for the vectors. A write that fails is said on standard error, with this program's name, and the
// vectors go on: a later write may get through.
use std::fmt::Display;
use std::io;

#[derive(Drop)]
pub(crate) struct Said<'a, R>(pub(crate) &'a R);

impl<'a, R: Eprint> Said<'a, R> {
    fn checked(&self, written: io::Result<()>) -> io::Result<()> {
        if let Err(error) = written {
            let _ = eprintln!(self.0; "vectors: standard output: {error}");
        }
        Ok(())
    }
}

impl<'a, R: Print + Eprint> Print for Said<'a, R> {
    fn print<D: Display + Drop>(&self, value: D) -> io::Result<()> {
        self.checked(self.0.print(value))
    }

    fn println<D: Display + Drop>(&self, value: D) -> io::Result<()> {
        self.checked(self.0.println(value))
    }

    fn write_all(&self, bytes: &[u8]) -> io::Result<()> {
        self.checked(self.0.write_all(bytes))
    }
}
