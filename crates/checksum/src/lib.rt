// CRC-16/XMODEM, bit by bit. The Rust takes it from the crate crc: `CRC16.checksum` in src/command.rs.
#![tactic(auto)]

ghost use Rattle.std.specs.Prelude.{◌≡◌};
ghost use Rattle.checksum.specs.Xmodem.{checksum_of, step_of, byte_in_of};

// The bit that leaves, times 0x1021, is the polynomial or nothing: no branch on it.
fn step(register: u16) -> u16
    ensures { result ≡ step_of register }
{
    (register << 1) ^ ((register >> 15) * 0x1021)
}

// The register once a byte more has gone in. The sum of a message is the register after all its bytes,
// from 0: for a message whose bytes stand in no slice.
pub fn byte_in(register: u16, byte: u8) -> u16
    ensures { result ≡ byte_in_of register byte }
{
    let mut mixed = register ^ ((byte as u16) << 8);
    for _ in 0..8u8 {
        mixed = step(mixed);
    }
    mixed
}

// The sum of a message: the remainder of its bits, with sixteen zeros after them, divided by
// 0x11021.
pub fn checksum(bytes: &[u8]) -> u16
    ensures { result ≡ checksum_of bytes.now }
{
    bytes
        .iter()
        .fold(0, |register, &byte| byte_in(register, byte))
}
