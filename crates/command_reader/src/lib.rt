// One command frame read from the front of a slice, and what was read written back: document 02, W2. The Rust only
// writes commands. A hop is the id of ForwardCan, 34, and the id of a controller; the hops are the front part of the
// payload, and the plain command is the rest.
#![tactic(auto)]

ghost use Rattle.std.specs.Prelude.{◌≡◌, ◌≢◌, ℕ, ◌+◌, ◌*◌, ◌≤◌, ◌<◌, length, slice_index};
ghost use Rattle.command_reader.specs.Reader.{hop_size, content_of, read_of, SaysRead, ReadIs, part_place, hop_part_of};
ghost use Rattle.command_reader.specs.Writer.{WriteIs};

use format::{BEHIND_PAYLOAD, FORWARD_CAN, FRAME_EXTRA, PAYLOAD_AT, PAYLOAD_MAX};
use raw_command::RawCommand;
use refusals::{DecodeError, WriteBackError};

// What `read_command` returns of a frame that it reads: the frame's count, the command, and how many bytes at the
// payload's front are hops, two for each.
#[derive(Clone, Copy, Debug, PartialEq, Eq)]
pub struct CommandRead {
    pub count: usize,
    pub command: RawCommand,
    pub hops: usize,
}

// How many hops stand at the front: 34 and an id by turns.
fn hop_count(bytes: &[u8]) -> usize
    ensures within { result * 2 ≤ length bytes.now }
    ensures hops { (k : ℕ) → k < result → slice_index bytes.now (k * 2) ≡ 34 }
    ensures ends { result * 2 + 2 ≤ length bytes.now → slice_index bytes.now (result * 2) ≢ 34 }
{
    bytes
        .chunks_exact(2)
        .take_while(|hop| hop[0] == FORWARD_CAN)
        .count()
}

// And how many bytes they take.
fn hops_len(bytes: &[u8]) -> usize
    ensures { (result ≡ hop_size bytes.now) × (result ≤ length bytes.now) }
{
    hop_count(bytes) * 2
}

// The payload from the left: the hops, then the command. `count` is what the frame takes.
fn read_payload(payload: &[u8], count: usize) -> Result<CommandRead, DecodeError>
    ensures { SaysRead (content_of payload.now count) result }
{
    let hops = hops_len(payload);
    let command = raw_command::unpack_command(&payload[hops..])?;
    Ok(CommandRead {
        count,
        command,
        hops,
    })
}

// Reads the command frame at the front of `buf`; later bytes don't matter. The payload is judged only of a frame that
// is whole, ends well and has the right sum.
pub fn read_command(buf: &[u8]) -> Result<CommandRead, DecodeError>
    ensures { ReadIs buf.now result }
{
    let count = frame::open(buf)?;
    read_payload(&buf[PAYLOAD_AT..count - BEHIND_PAYLOAD], count)
}

// The hop part of the command frame at the front of `buf`: those very bytes of the caller's. The empty part at the
// front if the frame is refused: no Option, so that it is a part of the caller's slice in each case, as a name's text is. Reads the frame again; a caller who has its `CommandRead` can take the
// `hops` bytes from byte 2 on instead.
pub fn hop_part(buf: &[u8]) -> &[u8]
    ensures { (result.now ≡ hop_part_of buf.now) × (result.ref_ptr.0 ≡ buf.entry.ref_ptr.0) × (result.ref_ptr.1 ≡ buf.entry.ref_ptr.1 + part_place (read_of buf.now)) }
{
    match read_command(buf) {
        Ok(read) => &buf[PAYLOAD_AT..PAYLOAD_AT + read.hops],
        Err(_) => &buf[..0],
    }
}

// Writes the frame of a hop part and a command at the front of `buf`, as `read_command` reads it. A refusal writes
// nothing. The hop part is judged whole, however long it is, before the length of the payload.
pub fn write_command(
    hops: &[u8],
    command: RawCommand,
    buf: &mut [u8],
) -> Result<usize, WriteBackError>
    ensures { WriteIs hops.now command buf.old result buf.new }
{
    if hops_len(hops) != hops.len() {
        return Err(WriteBackError::InvalidFrame); // refusal 2, tested before 6
    }
    let parts = raw_command::parts_of(command);
    let plain_len = 1 + parts.width;
    if PAYLOAD_MAX - plain_len < hops.len() {
        return Err(WriteBackError::PayloadTooLong); // refusal 6, tested before 5
    }
    let len = hops.len() + plain_len;
    if buf.len() < len + FRAME_EXTRA {
        return Err(WriteBackError::BufferTooSmall); // refusal 5
    }
    let end = packer::pack_bytes(buf, PAYLOAD_AT, hops)?;
    raw_command::pack_parts(parts, buf, end)?;
    Ok(frame::wrap(len, buf)?)
}
