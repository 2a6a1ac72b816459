// The frame of a command. Ports `encode` of src/command.rs; document 01, "Commands" and "Six refusals".
#![tactic(auto)]

ghost use Rattle.std.specs.Prelude.{◌≡◌, ◌+◌, ◌*◌, ◌≤◌, length, Ok};
ghost use Rattle.command.specs.Commands.{size_of};
ghost use Rattle.encode.specs.Payload.{hop_bytes, payload_of};
ghost use Rattle.packer.specs.Packing.{PackIs};
ghost use Rattle.encode.specs.Encode.{EncodeIs};

use command::Command;
use format::{FORWARD_CAN, FRAME_EXTRA, PAYLOAD_AT, PAYLOAD_MAX};
use refusals::EncodeError;

// A hop takes two bytes of the payload and a command at least one: more hops never fit.
const HOPS_MAX: usize = (PAYLOAD_MAX - 1) / 2;

// The length of a payload: two bytes for each of the hops not yet counted, and `plain` for the command. It and the writer of the
// hops are recursions and no loops, because document 01 asks for them so: "writing recurses on the hops left".
fn payload_len(hops: &[u8], plain: usize) -> usize
    requires { (length hops.now ≤ 127) × (plain ≤ 5) }
    ensures { result ≡ 2 * length hops.now + plain }
{
    match hops {
        [] => plain,
        [_, rest @ ..] => 2 + payload_len(rest, plain),
    }
}

// The forwarding prefix: the id of ForwardCan and its own for each of the hops not yet written. Returns the place behind it, and
// no Result, because there is room: so the recursion's result is a register, and each hop costs two bytes' writing.
fn pack_hops(hops: &[u8], buf: &mut [u8], pos: usize) -> usize
    requires { pos + 2 * length hops.now ≤ length buf.old }
    ensures { PackIs (hop_bytes hops.now) buf.old pos (Ok result) buf.new }
{
    let [id, rest @ ..] = hops else {
        return pos;
    };
    let Ok(id_at) = packer::pack_u8(buf, pos, FORWARD_CAN) else {
        unreachable!();
    };
    let Ok(next) = packer::pack_u8(buf, id_at, *id) else {
        unreachable!();
    };
    pack_hops(rest, buf, next)
}

// The hops, and then the command.
fn pack_payload(
    command: Command,
    hops: &[u8],
    buf: &mut [u8],
    pos: usize,
) -> Result<usize, EncodeError>
    requires { pos + (2 * length hops.now + size_of command) ≤ length buf.old }
    ensures { PackIs (payload_of command hops.now) buf.old pos result buf.new }
{
    let next = pack_hops(hops, buf, pos);
    command::pack_into(command, buf, next)
}

// Writes the frame of a command at the front of `buf`. Each of `hops` is a controller that forwards what
// follows it, the first of them the outermost ForwardCan of the Rust. Ports `encode`, which sets the payload
// no limit and may leave part of a frame behind where it refuses; this one then writes nothing.
pub fn encode(command: Command, hops: &[u8], buf: &mut [u8]) -> Result<usize, EncodeError>
    ensures { EncodeIs command hops.now buf.old result buf.new }
{
    // No theorem bounds the stack, so more hops are refused before any recursion: its depth is at most 128.
    if HOPS_MAX < hops.len() {
        return Err(EncodeError::PayloadTooLong);
    }
    let len = payload_len(hops, command::command_len(command));
    let frame_len = len + FRAME_EXTRA;
    // `wrap` tests both again, because it relies on no caller; here nothing is written yet.
    if PAYLOAD_MAX < len {
        return Err(EncodeError::PayloadTooLong); // refusal 6, tested before 5
    }
    if buf.len() < frame_len {
        return Err(EncodeError::BufferTooSmall); // refusal 5
    }
    pack_payload(command, hops, buf, PAYLOAD_AT)?;
    frame::wrap(len, buf)
}
