// The thin `Unpacker` of the crate `unpacker`, called as the Rust calls it: each function makes one over a
// lent slice, reads by its methods, and hands back what they answered and where the position then stands.
ghost use Rattle.std.specs.Prelude.{◌≡◌};
ghost use Rattle.unpacker.specs.Unpacker.{unsigned_read, scaled_read, name_read};
ghost use Rattle.replay.specs.InARow.{number_told, name_told, in_a_row, row_four};

use refusals::DecodeError;
use unpacker::Unpacker;

// What a read answers, and where it leaves the position: beside the answer, because a name that is refused moves it too.
#[derive(Clone, Copy)]
pub(crate) struct Read<T> {
    pub(crate) answer: Result<T, DecodeError>,
    pub(crate) pos: usize,
}

impl<T: Copy> Read<T> {
    // The value with the place behind what was read.
    pub(crate) fn placed(self) -> Result<(T, usize), DecodeError> {
        self.answer.map(|value| (value, self.pos))
    }
}

pub(crate) fn start(buf: &[u8]) -> usize
    ensures { result ≡ 0 }
{
    Unpacker::new(buf).pos
}

// One function for each method, because each promises another read.
pub(crate) fn u8_at(buf: &[u8], pos: usize) -> Read<u8>
    ensures { number_told result ≡ unsigned_read 1 buf.now pos }
{
    let mut u = Unpacker { buf, pos };
    Read {
        answer: u.unpack_u8(),
        pos: u.pos,
    }
}

pub(crate) fn u32_at(buf: &[u8], pos: usize) -> Read<u32>
    ensures { number_told result ≡ unsigned_read 4 buf.now pos }
{
    let mut u = Unpacker { buf, pos };
    Read {
        answer: u.unpack_u32(),
        pos: u.pos,
    }
}

pub(crate) fn f32_at(buf: &[u8], pos: usize, scale: f32) -> Read<f32>
    ensures { number_told result ≡ scaled_read 4 scale buf.now pos }
{
    let mut u = Unpacker { buf, pos };
    Read {
        answer: u.unpack_f32(scale),
        pos: u.pos,
    }
}

pub(crate) fn name39_at(buf: &[u8], pos: usize) -> Read<[u8; 39]>
    ensures { name_told 39 result ≡ name_read 39 buf.now pos }
{
    let mut u = Unpacker { buf, pos };
    Read {
        answer: u.unpack_c_string(),
        pos: u.pos,
    }
}

// Four reads in a row.
#[derive(Clone, Copy)]
pub(crate) struct Row {
    pub(crate) byte: Read<u8>,
    pub(crate) name: Read<[u8; 39]>,
    pub(crate) number: Read<u32>,
    pub(crate) scaled: Read<f32>,
}

pub(crate) fn in_a_row(buf: &[u8], scale: f32) -> Row
    ensures { row_four result ≡ in_a_row scale buf.now }
{
    let mut u = Unpacker::new(buf);
    Row {
        byte: Read {
            answer: u.unpack_u8(),
            pos: u.pos,
        },
        name: Read {
            answer: u.unpack_c_string(),
            pos: u.pos,
        },
        number: Read {
            answer: u.unpack_u32(),
            pos: u.pos,
        },
        scaled: Read {
            answer: u.unpack_f32(scale),
            pos: u.pos,
        },
    }
}
