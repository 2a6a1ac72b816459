// Plain commands with the whole numbers that are sent: to bytes of a payload and back, with no float. Ports
// `Command::pack_into` of src/command.rs; document 01, "Commands", and document 02, W2.
#![tactic(auto)]

ghost use Rattle.std.specs.Prelude.{◌≡◌, false, ◌+◌, ◌≤◌, ◌<◌, eqb, length, get_or, ◌↔◌, IsTrue, EachIndex, slice_index};
ghost use Rattle.format.specs.Format.{id_of};
ghost use Rattle.packer.specs.Numbers.{be_at, signed_of};
ghost use Rattle.packer.specs.Packing.{PackIs};
ghost use Rattle.raw_command.specs.Commands.{form_of, width_of, most_of, plain_of, PartsIs, parts_bytes};
ghost use Rattle.raw_command.specs.Reading.{is_forward, numbered, plain_with, plain_in, unpacked_command};

use format::CommandId;
use refusals::{DecodeError, EncodeError};

// A plain command with the whole number that is sent. Not one generic enum with `command::Command`, which has the values of a caller; `command::raw_of`
// turns them into these.
#[derive(Clone, Copy, Debug, PartialEq, Eq)]
pub enum RawCommand {
    FwVersion,
    GetValues,
    SetDuty(i32),
    SetCurrent(i32),
    SetCurrentBrake(i32),
    SetRpm(i32),
    SetPos(i32),
    SetHandbrake(i32),
    Reboot,
    Alive,
    GetValuesSelective(u32),
    GetValuesSetupSelective(u32),
    SetCurrentRel(i32),
    SetOdometer(u32),
    GetStats(u16),
    ResetStats(bool),
    Shutdown(bool, bool),
    FwInfo,
    MotorEstop(u16),
}

// A plain command as it is written: its id, and a number of `width` bytes.
#[derive(Clone, Copy)]
pub struct Parts {
    pub id: u8,
    pub width: usize,
    pub number: u32,
}

// What follows an id: `width` bytes, none above `most`.
#[derive(Clone, Copy)]
struct Carried {
    width: usize,
    most: u8,
}

// A number behind an id, in as many bytes as the id carries.
fn sent(id: CommandId, number: u32) -> Parts
    ensures { (result.id ≡ id_of id) × (result.width ≡ width_of (form_of id)) × (result.number ≡ number) }
{
    Parts {
        id: id as u8,
        width: carried_by(id).width,
        number,
    }
}

// The parts of a plain command: the one place where each has its id and its number; the width is what the id carries. A flag
// is 0 or 1; Shutdown's two are a byte each of one number.
pub fn parts_of(command: RawCommand) -> Parts
    ensures { PartsIs command result }
{
    match command {
        RawCommand::FwVersion => sent(CommandId::FwVersion, 0),
        RawCommand::GetValues => sent(CommandId::GetValues, 0),
        RawCommand::SetDuty(duty) => sent(CommandId::SetDuty, packer::as_u32(duty)),
        RawCommand::SetCurrent(current) => sent(CommandId::SetCurrent, packer::as_u32(current)),
        RawCommand::SetCurrentBrake(current) => sent(
            CommandId::SetCurrentBrake,
            packer::as_u32(current),
        ),
        RawCommand::SetRpm(rpm) => sent(CommandId::SetRpm, packer::as_u32(rpm)),
        RawCommand::SetPos(position) => sent(CommandId::SetPos, packer::as_u32(position)),
        RawCommand::SetHandbrake(current) => sent(CommandId::SetHandbrake, packer::as_u32(current)),
        RawCommand::Reboot => sent(CommandId::Reboot, 0),
        RawCommand::Alive => sent(CommandId::Alive, 0),
        RawCommand::GetValuesSelective(mask) => sent(CommandId::GetValuesSelective, mask),
        RawCommand::GetValuesSetupSelective(mask) => sent(CommandId::GetValuesSetupSelective, mask),
        RawCommand::SetCurrentRel(current_rel) => sent(
            CommandId::SetCurrentRel,
            packer::as_u32(current_rel),
        ),
        RawCommand::SetOdometer(odometer) => sent(CommandId::SetOdometer, odometer),
        RawCommand::GetStats(mask) => sent(CommandId::GetStats, mask as u32),
        RawCommand::ResetStats(ack) => sent(CommandId::ResetStats, u32::from(ack)),
        RawCommand::Shutdown(force, restart) => sent(
            CommandId::Shutdown,
            u32::from(force) * 256 + u32::from(restart),
        ),
        RawCommand::FwInfo => sent(CommandId::FwInfo, 0),
        RawCommand::MotorEstop(time) => sent(CommandId::MotorEstop, time as u32),
    }
}

// The bytes of a plain command at a position, its id first. Ports `Command::pack_into`, which leaves the id behind
// if its value does not fit; this one then writes nothing. The room is asked for in two steps, since of any parts the id's
// byte and `width` may be too many for one number.
pub fn pack_parts(parts: Parts, buf: &mut [u8], pos: usize) -> Result<usize, EncodeError>
    ensures { PackIs (parts_bytes parts) buf.old pos result buf.new }
{
    let behind = packer::reserve(buf, pos, 1)?;
    packer::reserve(buf, behind, parts.width)?;
    packer::pack_u8(buf, pos, parts.id)?;
    packer::pack_be(buf, behind, parts.width, parts.number)
}

// What follows each id, for writing and for reading. A flag is 0 or 1, so that no byte of one is above 1.
fn carried_by(id: CommandId) -> Carried
    ensures { (result.width ≡ width_of (form_of id)) × (result.most ≡ most_of (form_of id)) }
{
    match id {
        CommandId::FwVersion
        | CommandId::GetValues
        | CommandId::Reboot
        | CommandId::Alive
        | CommandId::ForwardCan
        | CommandId::FwInfo => Carried {
            width: 0,
            most: 255,
        },
        CommandId::SetDuty
        | CommandId::SetCurrent
        | CommandId::SetCurrentBrake
        | CommandId::SetRpm
        | CommandId::SetPos
        | CommandId::SetHandbrake
        | CommandId::GetValuesSelective
        | CommandId::GetValuesSetupSelective
        | CommandId::SetCurrentRel
        | CommandId::SetOdometer => Carried {
            width: 4,
            most: 255,
        },
        CommandId::GetStats | CommandId::MotorEstop => Carried {
            width: 2,
            most: 255,
        },
        CommandId::ResetStats => Carried { width: 1, most: 1 },
        CommandId::Shutdown => Carried { width: 2, most: 1 },
    }
}

// Whether no byte is above `most`.
fn at_most(bytes: &[u8], most: u8) -> bool
    ensures { IsTrue result ↔ EachIndex bytes.now (λ k. slice_index bytes.now k ≤ most) }
{
    bytes.iter().all(|byte| *byte <= most)
}

// The four bytes behind the id. By std and not by `packer`, because they are known to be there.
#[tactic(auto, unfolding(packer::specs::Numbers::be_at))]
fn word_in(bytes: &[u8]) -> u32
    requires { 5 ≤ length bytes.now }
    ensures { result ≡ be_at bytes.now 1 4 }
{
    u32::from_be_bytes([bytes[1], bytes[2], bytes[3], bytes[4]])
}

// The two bytes behind the id.
#[tactic(auto, unfolding(packer::specs::Numbers::be_at))]
fn half_in(bytes: &[u8]) -> u16
    requires { 3 ≤ length bytes.now }
    ensures { result ≡ be_at bytes.now 1 2 }
{
    u16::from_be_bytes([bytes[1], bytes[2]])
}

// A flag among the bytes.
fn flag_in(bytes: &[u8], at: usize) -> bool
    requires { at < length bytes.now }
    ensures { result ≡ eqb (get_or bytes.now at 0) 1 }
{
    bytes[at] == 1
}

// The four bytes behind the id as a signed number.
fn signed_in(bytes: &[u8]) -> i32
    requires { 5 ≤ length bytes.now }
    ensures { result ≡ signed_of 4294967296 (be_at bytes.now 1 4) }
{
    packer::as_i32(word_in(bytes))
}

// The command with an id, and with the value in the bytes behind it; the inverse of `parts_of`. ForwardCan is no plain
// command and does not come here.
fn command_of(id: CommandId, bytes: &[u8]) -> RawCommand
    requires { (length bytes.now ≡ 1 + width_of (form_of id)) × (is_forward id ≡ false) }
    ensures { plain_of result ≡ numbered id (be_at bytes.now 1 (width_of (form_of id))) }
{
    match id {
        CommandId::FwVersion => RawCommand::FwVersion,
        CommandId::GetValues => RawCommand::GetValues,
        CommandId::SetDuty => RawCommand::SetDuty(signed_in(bytes)),
        CommandId::SetCurrent => RawCommand::SetCurrent(signed_in(bytes)),
        CommandId::SetCurrentBrake => RawCommand::SetCurrentBrake(signed_in(bytes)),
        CommandId::SetRpm => RawCommand::SetRpm(signed_in(bytes)),
        CommandId::SetPos => RawCommand::SetPos(signed_in(bytes)),
        CommandId::SetHandbrake => RawCommand::SetHandbrake(signed_in(bytes)),
        CommandId::Reboot => RawCommand::Reboot,
        CommandId::Alive => RawCommand::Alive,
        CommandId::ForwardCan => unreachable!(),
        CommandId::GetValuesSelective => RawCommand::GetValuesSelective(word_in(bytes)),
        CommandId::GetValuesSetupSelective => RawCommand::GetValuesSetupSelective(word_in(bytes)),
        CommandId::SetCurrentRel => RawCommand::SetCurrentRel(signed_in(bytes)),
        CommandId::SetOdometer => RawCommand::SetOdometer(word_in(bytes)),
        CommandId::GetStats => RawCommand::GetStats(half_in(bytes)),
        CommandId::ResetStats => RawCommand::ResetStats(flag_in(bytes, 1)),
        CommandId::Shutdown => RawCommand::Shutdown(flag_in(bytes, 1), flag_in(bytes, 2)),
        CommandId::FwInfo => RawCommand::FwInfo,
        CommandId::MotorEstop => RawCommand::MotorEstop(half_in(bytes)),
    }
}

// The value behind an id, judged by what the id carries.
fn unpack_value(id: CommandId, bytes: &[u8]) -> Result<RawCommand, DecodeError>
    requires { is_forward id ≡ false }
    ensures { unpacked_command result ≡ plain_with id bytes.now }
{
    let carried = carried_by(id);
    if bytes.len() != 1 + carried.width {
        return Err(DecodeError::InvalidFrame);
    }
    if !at_most(&bytes[1..], carried.most) {
        return Err(DecodeError::InvalidFrame);
    }
    Ok(command_of(id, bytes))
}

// The plain command that bytes are, from the id to the last: document 02, W2, "the payload from the left". A hop is no
// plain command.
pub fn unpack_command(bytes: &[u8]) -> Result<RawCommand, DecodeError>
    ensures { unpacked_command result ≡ plain_in bytes.now }
{
    let [first, ..] = *bytes else {
        return Err(DecodeError::InvalidFrame);
    };
    if first == format::FORWARD_CAN {
        return Err(DecodeError::InvalidFrame);
    }
    let id = CommandId::try_from(first)?;
    unpack_value(id, bytes)
}
