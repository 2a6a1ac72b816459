// Answers as text. A case's answer is one line. A word that is too much for a line (a reply has 256) goes into a digest, which
// oracle/answers works out alike.
ghost use Rattle.std.specs.Prelude.{◌<◌};

use crate::output::Output;
use std::io;
use std::io::Write;

// Where the text goes, the digest of the case at hand, and whether its words are to be shown too.
#[derive(Drop)]
pub(crate) struct Answers {
    pub(crate) out: Output,
    pub(crate) sum: u32,
    pub(crate) whole: bool,
}

fn hex_digit(value: u8) -> u8
    requires { value < 16 }
{
    if value < 10 {
        b'0' + value
    } else {
        b'a' - 10 + value
    }
}

// One step of the digest: times a primitive root of the prime 4294967291, so that no two changes of sign cancel.
fn step(sum: u32, half: u32) -> u32 {
    (((sum as u64) * 1664525 + (half as u64)) % 4294967291) as u32
}

impl Answers {
    // A word of 32 bits in hexadecimal, a space before it.
    pub(crate) fn word(&mut self, bits: u32) -> io::Result<()> {
        self.bytes(&bits.to_be_bytes())
    }

    // Bytes, two digits each, a space before them. Digit by digit, because most of the text is these, and a `write!` for each
    // byte took three times the instructions.
    pub(crate) fn bytes(&mut self, bytes: &[u8]) -> io::Result<()> {
        self.out.put(b' ');
        for &byte in bytes {
            self.out.put(hex_digit(byte / 16));
            self.out.put(hex_digit(byte % 16));
        }
        Ok(())
    }

    // A float by its bits; any NaN is `nan`.
    pub(crate) fn float(&mut self, value: f32) -> io::Result<()> {
        if value.is_nan() {
            return write!(self.out, " nan");
        }
        self.word(floats::f32_to_bits(value))
    }

    // A position in decimal, a space before it.
    pub(crate) fn position(&mut self, pos: usize) -> io::Result<()> {
        write!(self.out, " {pos}")
    }

    // A count, or the position after what was read or written.
    pub(crate) fn given(&mut self, count: usize) -> io::Result<()> {
        write!(self.out, " given {count}")
    }

    pub(crate) fn refused(&mut self, number: u8) -> io::Result<()> {
        write!(self.out, " refused {number}")
    }

    // A case that ends before all that its letter asks for.
    pub(crate) fn cut_short(&mut self) -> io::Result<()> {
        write!(self.out, " cut short")
    }

    // A case that asks for more room than `UNTOUCHED` has.
    pub(crate) fn too_much_room(&mut self) -> io::Result<()> {
        write!(self.out, " too much room")
    }

    // Takes a word into the digest by its halves, which are both below the prime.
    pub(crate) fn mix(&mut self, bits: u32) -> io::Result<()> {
        self.sum = step(step(self.sum, bits / 65536), bits % 65536);
        if self.whole {
            self.word(bits)?;
        }
        Ok(())
    }

    pub(crate) fn mix_wide(&mut self, number: u64) -> io::Result<()> {
        self.mix((number / 4294967296) as u32)?;
        self.mix((number % 4294967296) as u32)
    }

    pub(crate) fn mix_words(&mut self, words: &[u32]) -> io::Result<()> {
        for &word in words {
            self.mix(word)?;
        }
        Ok(())
    }

    pub(crate) fn mix_bytes(&mut self, bytes: &[u8]) -> io::Result<()> {
        for &byte in bytes {
            self.mix(u32::from(byte))?;
        }
        Ok(())
    }

    // The digest of what was taken in.
    pub(crate) fn digest(&mut self) -> io::Result<()> {
        self.word(self.sum)
    }
}
