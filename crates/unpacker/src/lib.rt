// A thin `Unpacker` over a lent slice: the slice, and the position of the next read. Ports `Unpacker`
// of src/packer.rs: `new`, and of its methods one of each sort, a byte, a 32-bit number, a scaled
// number and a name.
#![tactic(auto)]

ghost use Rattle.std.specs.Prelude.{◌≡◌};
ghost use Rattle.names.specs.Names.{name_at, named};
ghost use Rattle.refusals.specs.Refusals.{refused, decode_refusal, consumed};
ghost use Rattle.unpacker.specs.Unpacker.{fresh, placed, name_end, unsigned_read, scaled_read, name_read, ReadIs};

use refusals::DecodeError;

#[derive(Clone, Copy)]
pub struct Unpacker<'a> {
    pub buf: &'a [u8],
    pub pos: usize,
}

// Where the Rust's loop over a name that is refused stops: at the end, or where it was past that
// already, if it is for want of bytes; else after all the room, so that the sum fits.
fn name_end(error: DecodeError, buf: &[u8], pos: usize, room: usize) -> usize
    requires { refused (decode_refusal error) ≡ (name_at room buf.now pos).answer }
    ensures { result ≡ name_end room buf.now pos (refused (decode_refusal error)) }
{
    match error {
        DecodeError::IncompleteData => pos.max(buf.len()),
        _ => pos + room,
    }
}

// The Rust's `consume` tests before it moves, so that a number that is refused leaves the position as
// it was. The methods keep the Rust's names, one for each sort of number.
impl<'a> Unpacker<'a> {
    pub fn new(buf: &'a [u8]) -> Unpacker<'a>
        ensures { result ≡ fresh buf.entry }
    {
        Unpacker { buf, pos: 0 }
    }

    pub fn unpack_u8(&mut self) -> Result<u8, DecodeError>
        ensures { ReadIs (unsigned_read 1) self.old (consumed (placed result self.new.pos)) self.new }
    {
        let (value, next) = packer::unpack_u8(self.buf, self.pos)?;
        self.pos = next;
        Ok(value)
    }

    pub fn unpack_u32(&mut self) -> Result<u32, DecodeError>
        ensures { ReadIs (unsigned_read 4) self.old (consumed (placed result self.new.pos)) self.new }
    {
        let (value, next) = packer::unpack_u32(self.buf, self.pos)?;
        self.pos = next;
        Ok(value)
    }

    pub fn unpack_f32(&mut self, scale: f32) -> Result<f32, DecodeError>
        ensures { ReadIs (scaled_read 4 scale) self.old (consumed (placed result self.new.pos)) self.new }
    {
        let (value, next) = packer::unpack_f32(self.buf, self.pos, scale)?;
        self.pos = next;
        Ok(value)
    }

    #[tactic(auto, unfolding(crate::specs::Unpacker::name_end))]
    pub fn unpack_c_string<const N: usize>(&mut self) -> Result<[u8; N], DecodeError>
        ensures { ReadIs (name_read N) self.old (named N (placed result self.new.pos)) self.new }
    {
        match names::unpack_c_string(self.buf, self.pos) {
            Ok(name) => {
                let (bytes, next) = name;
                self.pos = next;
                Ok(bytes)
            }
            Err(error) => {
                self.pos = name_end(error, self.buf, self.pos, N);
                Err(error)
            }
        }
    }
}
