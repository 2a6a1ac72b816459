// Names: bytes that end with a NUL, in a room of so many bytes. Ports `unpack_c_string` of
// src/packer.rs, the position handed in and the place after the NUL handed back; document 01,
// "Reply fields", has the rule.
// The slice and the position are two parameters: document 01 asks for the position by value.
#![tactic(auto)]

ghost use Rattle.std.specs.Prelude.{◌≡◌, length, drop};
ghost use Rattle.names.specs.Names.{nul_within, name_at, named, sent_of, name_sent};
ghost use Rattle.refusals.specs.Refusals.{consumed};

use refusals::DecodeError;

// The place after the first NUL among the `room` bytes from `pos` on.
pub fn find_nul(buf: &[u8], pos: usize, room: usize) -> Result<usize, DecodeError>
    ensures { consumed result ≡ nul_within room (drop pos buf.now) pos }
{
    let left = buf.get(pos..).unwrap_or(&[]);
    match left.iter().take(room).position(|byte| *byte == 0) {
        Some(before) => Ok(pos + before + 1),
        None if left.len() < room => Err(DecodeError::IncompleteData),
        None => Err(DecodeError::InvalidFrame),
    }
}

// The name at `pos`, of N bytes through its NUL and zeros after it, and the place after its NUL.
#[tactic(auto, using(crate::proofs::Places::nul_ends))]
pub fn unpack_c_string<const N: usize>(
    buf: &[u8],
    pos: usize,
) -> Result<([u8; N], usize), DecodeError>
    ensures { named N result ≡ name_at N buf.now pos }
{
    let next = find_nul(buf, pos, N)?;
    let name = &buf[pos..next];
    let mut bytes = [0; N];
    bytes[..name.len()].copy_from_slice(name);
    Ok((bytes, next))
}

// How many bytes of a name are sent, the NUL among them, document 02, W4; the Rust only reads names.
// `held` is the whole room of the name. It is bad without a NUL, or with a byte other than zero
// after the first one.
#[tactic(auto, using(crate::proofs::Scanning::found_ends))]
pub fn sent_len(held: &[u8]) -> Option<usize>
    ensures { name_sent result ≡ sent_of (length held.now) held.now }
{
    let next = find_nul(held, 0, held.len()).ok()?;
    held[next..].iter().all(|byte| *byte == 0).then_some(next)
}
