// What a case asks with: numbers at a place of its bytes, and the buffers that are lent.
ghost use Rattle.std.specs.Prelude.{◌<◌};

// A buffer that holds A5 everywhere, so that what is not written shows.
pub(crate) const UNTOUCHED: [u8; 1024] = [0xA5; 1024];

// 32 bits, 0 where the case ends before them.
pub(crate) fn word_at(case: &[u8], pos: usize) -> u32 {
    match packer::unpack_u32(case, pos) {
        Ok((word, _)) => word,
        Err(_) => 0,
    }
}

// A scale by its bits, which stand at the front.
pub(crate) fn scale_of(case: &[u8]) -> f32 {
    floats::f32_from_bits(word_at(case, 0))
}

// 16 bits, 0 where the case ends before them.
pub(crate) fn half_at(case: &[u8], pos: usize) -> usize
    ensures { result < 65536 }
{
    match packer::unpack_u16(case, pos) {
        Ok((half, _)) => usize::from(half),
        Err(_) => 0,
    }
}
