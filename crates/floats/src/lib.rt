// Whole numbers to and from IEEE 754 binary32: document 01, "Numbers".
// Ports the casts `as f32`, `as i32` and `f32::from_bits` of src/packer.rs, and `f32::to_bits`.
// Every function takes every argument.
#![tactic(auto)]

ghost use Rattle.std.specs.Prelude.{◌≡◌};
ghost use Rattle.std.specs.Float.Ieee as Ieee;
ghost use Rattle.std.specs.Float.{binary32};
ghost use Rattle.floats.specs.Numbers.{over_scale, times_scale};

// The binary32 nearest to `n`, ties to even: Rust's `n as f32`. The one routine that makes a whole
// number a float.
//
// A binary32 has 24 significant bits, and an i32 may need more. So `n` is split into two halves:
// it is high * 65536 + low, with `high` from -32768 to 32767 and `low` from 0 to 65535. Both have
// at most 16 bits, so that a float holds each exactly. The product is exact too: 65536 is a power
// of two, which changes only the exponent. The addition is the one step that rounds: to the nearest
// binary32, and at a tie to the one whose last bit is 0.
//
// Example: 16777219 is 2^24 + 3, so `high` is 256 and `low` is 3. Between 2^24 and 2^25 a binary32
// is a 24-bit number times 2, and 16777216.0 + 3.0 lies halfway between two of these, 8388609 * 2
// and 8388610 * 2. The last bit of 8388610 is 0, so the result is 8388610 * 2, which is 16777220.
//
// `>>` rounds down: -1 has the halves -1 and 65535. `/` would round toward zero and make `high` 0.
pub fn i32_to_f32(n: i32) -> f32
    ensures { result ≡ Ieee.of_int binary32 n }
{
    let high = (n >> 16) as i16;
    let low = (n & 0xffff) as u16;
    (high as f32) * 65536.0 + (low as f32)
}

// A field's raw number over its scale, as `unpack_f32` and `unpack_f16` read it.
#[tactic(auto, unfolding(crate::specs::Numbers::over_scale))]
pub fn scaled(n: i32, scale: f32) -> f32
    ensures { result ≡ over_scale n scale }
{
    i32_to_f32(n) / scale
}

// `x` toward zero, held at the ends of the range, 0 for a NaN: Rust's `x as i32`. Rattle's own `as`
// is defined only where it loses nothing.
pub fn f32_to_i32(x: f32) -> i32
    ensures { result ≡ Ieee.to_signed 31 x }
{
    std::num::saturating_f32_to_i32(x)
}

// A value times its scale as the whole number that is sent, as `pack_f32` writes it.
#[tactic(auto, unfolding(crate::specs::Numbers::times_scale))]
pub fn unscaled(value: f32, scale: f32) -> i32
    ensures { result ≡ times_scale value scale }
{
    f32_to_i32(value * scale)
}

// The binary32 that `bits` stand for. Rattle's `f32::from_bits` asks that it is no NaN's pattern, and
// there is one NaN with no payload: each such pattern gives it.
pub fn f32_from_bits(bits: u32) -> f32
    ensures { result ≡ Ieee.of_bits binary32 bits }
{
    std::num::f32_from_bits_with_nan(bits)
}

// The bits that stand for `x`. Rattle's `f32::to_bits` is undefined at a NaN: here it has the one
// pattern, quiet, with no sign and no payload.
pub fn f32_to_bits(x: f32) -> u32
    ensures { result ≡ Ieee.to_bits binary32 x }
{
    std::num::f32_to_bits_with_nan(x)
}
