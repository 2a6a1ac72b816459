// Numbers in a lent slice of bytes. Ports src/packer.rs: what its `Unpacker` and `Packer` do at
// their position stands here as functions of the slice and the position. The pair is no struct, because document 01 asks
// for the position by value; crate `unpacker` has the struct. The readers and writers keep the names of the Rust's methods:
// each is one call of `unpack_be` or `pack_be` over the width, and one generic function over a trait would be no plainer.
#![tactic(auto)]

ghost use Rattle.std.specs.Prelude.{◌≡◌, ◌+◌, ◌*◌, ◌%◌, ◌≤◌, ◌<◌, ◌^◌, length, IfOk};
ghost use Rattle.std.specs.Int.Signed.{mag};
ghost use Rattle.floats.specs.Numbers.{times_scale};
ghost use Rattle.packer.specs.Numbers.{be_at, big_endian, signed_of, unsigned_of};
ghost use Rattle.refusals.specs.Refusals.{consumed};
ghost use Rattle.packer.specs.Unpacking.{end_within, consume_at, unsigned_at, signed_at, scaled_at, float_at, uuid_at, NumberBelow};
ghost use Rattle.packer.specs.Packing.{written, packed, room_at, PackIs};

use refusals::{DecodeError, EncodeError};

// The big-endian number of the `width` bytes at `pos`.
fn be(buf: &[u8], pos: usize, width: usize) -> u32
    requires { (width ≤ 4) × (pos + width ≤ length buf.now) }
    ensures { (result ≡ be_at buf.now pos width) × (result < 256 ^ width) }
{
    let mut number = 0u32;
    for k in 0..width {
        number = number * 256 + buf[pos + k] as u32;
    }
    number
}

// The place after `width` bytes at `pos`, if so many lie there among `len`.
fn end_within(len: usize, pos: usize, width: usize) -> Option<usize>
    ensures { result ≡ end_within len pos width }
{
    let end = pos.checked_add(width)?;
    if end <= len { Some(end) } else { None }
}

// The place after the `width` bytes at `pos`, where they are there: the test of the Rust's `consume`.
pub fn consume(buf: &[u8], pos: usize, width: usize) -> Result<usize, DecodeError>
    ensures answer { consumed result ≡ consume_at width buf.now pos }
    ensures inside { IfOk result (λ next. (next ≡ pos + width) × (next ≤ length buf.now)) }
{
    end_within(buf.len(), pos, width).ok_or(DecodeError::IncompleteData)
}

// The place after `width` bytes that are to be written at `pos`, where there is room for them. Apart from `consume`, because
// each names its own refusal.
pub fn reserve(buf: &[u8], pos: usize, width: usize) -> Result<usize, EncodeError>
    ensures answer { packed result ≡ room_at width buf.now pos }
    ensures inside { IfOk result (λ end. (end ≡ pos + width) × (end ≤ length buf.now)) }
{
    end_within(buf.len(), pos, width).ok_or(EncodeError::BufferTooSmall)
}

// The number of the `width` bytes at `pos`, where they are there.
fn unpack_be(buf: &[u8], pos: usize, width: usize) -> Result<(u32, usize), DecodeError>
    requires { width ≤ 4 }
    ensures { (consumed result ≡ unsigned_at width buf.now pos) × NumberBelow (256 ^ width) result }
{
    let next = consume(buf, pos, width)?;
    Ok((be(buf, pos, width), next))
}

// The Rust's `number as i32`. It and the three like it are std's casts under clauses in the words of the specs.
pub fn as_i32(number: u32) -> i32
    ensures { result ≡ signed_of 4294967296 number }
{
    number.cast_signed()
}

// The Rust's `number as i16`, of the lowest 16 bits, in an i32.
pub fn as_i16(number: u32) -> i32
    ensures { result ≡ signed_of 65536 (number % 65536) }
{
    ((number % 65536) as u16).cast_signed() as i32
}

pub fn unpack_u32(buf: &[u8], pos: usize) -> Result<(u32, usize), DecodeError>
    ensures { consumed result ≡ unsigned_at 4 buf.now pos }
{
    unpack_be(buf, pos, 4)
}

pub fn unpack_i32(buf: &[u8], pos: usize) -> Result<(i32, usize), DecodeError>
    ensures { consumed result ≡ signed_at 4 buf.now pos }
{
    let (number, next) = unpack_be(buf, pos, 4)?;
    Ok((as_i32(number), next))
}

pub fn unpack_u16(buf: &[u8], pos: usize) -> Result<(u16, usize), DecodeError>
    ensures { consumed result ≡ unsigned_at 2 buf.now pos }
{
    let (number, next) = unpack_be(buf, pos, 2)?;
    Ok((number as u16, next))
}

pub fn unpack_i16(buf: &[u8], pos: usize) -> Result<(i16, usize), DecodeError>
    ensures { consumed result ≡ signed_at 2 buf.now pos }
{
    let (number, next) = unpack_be(buf, pos, 2)?;
    Ok(((number as u16).cast_signed(), next))
}

pub fn unpack_u8(buf: &[u8], pos: usize) -> Result<(u8, usize), DecodeError>
    ensures { consumed result ≡ unsigned_at 1 buf.now pos }
{
    let (number, next) = unpack_be(buf, pos, 1)?;
    Ok((number as u8, next))
}

// A signed 32-bit number over a scale: w_s of document 01, "Reply fields".
pub fn unpack_f32(buf: &[u8], pos: usize, scale: f32) -> Result<(f32, usize), DecodeError>
    ensures { consumed result ≡ scaled_at 4 scale buf.now pos }
{
    let (raw, next) = unpack_i32(buf, pos)?;
    Ok((floats::scaled(raw, scale), next))
}

// A signed 16-bit number over a scale: h_s.
pub fn unpack_f16(buf: &[u8], pos: usize, scale: f32) -> Result<(f32, usize), DecodeError>
    ensures { consumed result ≡ scaled_at 2 scale buf.now pos }
{
    let (raw, next) = unpack_i16(buf, pos)?;
    Ok((floats::scaled(raw as i32, scale), next))
}

// A binary32 by its bits: F.
pub fn unpack_f32_auto(buf: &[u8], pos: usize) -> Result<(f32, usize), DecodeError>
    ensures { consumed result ≡ float_at buf.now pos }
{
    let (bits, next) = unpack_u32(buf, pos)?;
    Ok((floats::f32_from_bits(bits), next))
}

pub fn unpack_uuid(buf: &[u8], pos: usize) -> Result<([u8; 12], usize), DecodeError>
    ensures { consumed result ≡ uuid_at buf.now pos }
{
    let next = consume(buf, pos, 12)?;
    let mut bytes = [0u8; 12];
    bytes.copy_from_slice(&buf[pos..next]);
    Ok((bytes, next))
}

// Writes the last `width` bytes of the number at `pos`, the lowest first, since each is what a
// division leaves.
fn put_be(buf: &mut [u8], pos: usize, width: usize, number: u32)
    requires { pos + width ≤ length buf.old }
    ensures { buf.new ≡ written buf.old pos (big_endian width number) }
{
    let mut rest = number;
    for k in (0..width).rev() {
        buf[pos + k] = (rest % 256) as u8;
        rest /= 256;
    }
}

// The same where there is room, and nothing where there is none.
pub fn pack_be(buf: &mut [u8], pos: usize, width: usize, number: u32) -> Result<usize, EncodeError>
    ensures { PackIs (big_endian width number) buf.old pos result buf.new }
{
    let end = reserve(buf, pos, width)?;
    put_be(buf, pos, width, number);
    Ok(end)
}

// The Rust's `value as u32`, the inverse of `as_i32`.
pub fn as_u32(value: i32) -> u32
    ensures { result ≡ unsigned_of (256 ^ 4) value }
{
    value.cast_unsigned()
}

// The Rust's `value as u16`, in a u32.
pub fn as_u16(value: i16) -> u32
    ensures { result ≡ unsigned_of (256 ^ 2) value }
{
    value.cast_unsigned() as u32
}

pub fn pack_u32(buf: &mut [u8], pos: usize, value: u32) -> Result<usize, EncodeError>
    ensures { PackIs (big_endian 4 value) buf.old pos result buf.new }
{
    pack_be(buf, pos, 4, value)
}

pub fn pack_i32(buf: &mut [u8], pos: usize, value: i32) -> Result<usize, EncodeError>
    ensures { PackIs (big_endian 4 (unsigned_of (256 ^ 4) value)) buf.old pos result buf.new }
{
    pack_be(buf, pos, 4, as_u32(value))
}

pub fn pack_u16(buf: &mut [u8], pos: usize, value: u16) -> Result<usize, EncodeError>
    ensures { PackIs (big_endian 2 value) buf.old pos result buf.new }
{
    pack_be(buf, pos, 2, value as u32)
}

pub fn pack_i16(buf: &mut [u8], pos: usize, value: i16) -> Result<usize, EncodeError>
    ensures { PackIs (big_endian 2 (unsigned_of (256 ^ 2) value)) buf.old pos result buf.new }
{
    pack_be(buf, pos, 2, as_u16(value))
}

pub fn pack_u8(buf: &mut [u8], pos: usize, value: u8) -> Result<usize, EncodeError>
    ensures { PackIs (big_endian 1 value) buf.old pos result buf.new }
{
    pack_be(buf, pos, 1, value as u32)
}

// A value times its scale, toward zero and held: document 01, "Numbers".
pub fn pack_f32(buf: &mut [u8], pos: usize, value: f32, scale: f32) -> Result<usize, EncodeError>
    ensures { PackIs (big_endian 4 (unsigned_of (256 ^ 4) (times_scale value scale))) buf.old pos result buf.new }
{
    pack_i32(buf, pos, floats::unscaled(value, scale))
}

// Bytes as they are, all of them or none.
pub fn pack_bytes(buf: &mut [u8], pos: usize, part: &[u8]) -> Result<usize, EncodeError>
    ensures { PackIs part.now buf.old pos result buf.new }
{
    let end = reserve(buf, pos, part.len())?;
    buf[pos..end].copy_from_slice(part);
    Ok(end)
}
