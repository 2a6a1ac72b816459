// The cases of `read_command` and `write_command`. Those that read: a slice; what was read is written back. Those that
// write: the command's place in the list of `encode`'s cases, its number's bits, the buffer's length, and the hop part.
// A number is the whole number that is sent.
use crate::answers::Answers;
use crate::commands::Number;
use crate::{cases, replies};
use raw_command::RawCommand;
use std::io;

fn raw(place: u8, n: Number) -> RawCommand {
    match place {
        0 => RawCommand::FwVersion,
        1 => RawCommand::GetValues,
        2 => RawCommand::SetDuty(n.signed),
        3 => RawCommand::SetCurrent(n.signed),
        4 => RawCommand::SetCurrentBrake(n.signed),
        5 => RawCommand::SetRpm(n.signed),
        6 => RawCommand::SetPos(n.signed),
        7 => RawCommand::SetHandbrake(n.signed),
        8 => RawCommand::Reboot,
        9 => RawCommand::Alive,
        10 => RawCommand::GetValuesSelective(n.bits),
        11 => RawCommand::GetValuesSetupSelective(n.bits),
        12 => RawCommand::SetCurrentRel(n.signed),
        13 => RawCommand::SetOdometer(n.bits),
        14 => RawCommand::GetStats(n.half),
        15 => RawCommand::ResetStats(n.first),
        16 => RawCommand::Shutdown(n.first, n.second),
        17 => RawCommand::FwInfo,
        _ => RawCommand::MotorEstop(n.half),
    }
}

// The inverse of `raw`: a command's place, and its number's bits, 0 where it carries none.
fn of_command(command: RawCommand) -> [u32; 2] {
    match command {
        RawCommand::FwVersion => [0, 0],
        RawCommand::GetValues => [1, 0],
        RawCommand::SetDuty(duty) => [2, packer::as_u32(duty)],
        RawCommand::SetCurrent(current) => [3, packer::as_u32(current)],
        RawCommand::SetCurrentBrake(current) => [4, packer::as_u32(current)],
        RawCommand::SetRpm(rpm) => [5, packer::as_u32(rpm)],
        RawCommand::SetPos(position) => [6, packer::as_u32(position)],
        RawCommand::SetHandbrake(current) => [7, packer::as_u32(current)],
        RawCommand::Reboot => [8, 0],
        RawCommand::Alive => [9, 0],
        RawCommand::GetValuesSelective(mask) => [10, mask],
        RawCommand::GetValuesSetupSelective(mask) => [11, mask],
        RawCommand::SetCurrentRel(current_rel) => [12, packer::as_u32(current_rel)],
        RawCommand::SetOdometer(odometer) => [13, odometer],
        RawCommand::GetStats(mask) => [14, mask as u32],
        RawCommand::ResetStats(ack) => [15, u32::from(ack)],
        RawCommand::Shutdown(force, restart) => [16, flags(force, restart)],
        RawCommand::FwInfo => [17, 0],
        RawCommand::MotorEstop(time) => [18, time as u32],
    }
}

// Two flags as the lowest bits of a number, the first the lowest.
fn flags(first: bool, second: bool) -> u32 {
    u32::from(first) + 2 * u32::from(second)
}

// Writes into a buffer of so many bytes of A5, all of which go into the digest.
fn written(answers: &mut Answers, hops: &[u8], command: RawCommand, room: usize) -> io::Result<()> {
    let mut space = cases::UNTOUCHED;
    let Some(buf) = space.get_mut(..room) else {
        return answers.too_much_room();
    };
    match command_reader::write_command(hops, command, buf) {
        Ok(count) => answers.given(count)?,
        Err(e) => answers.refused(e.number())?,
    }
    answers.mix_bytes(buf)
}

pub(crate) fn write(answers: &mut Answers, case: &[u8]) -> io::Result<()> {
    if case.len() < 7 {
        return answers.cut_short();
    }
    let command = raw(case[0], Number::from(cases::word_at(case, 1)));
    written(answers, &case[7..], command, cases::half_at(case, 5))?;
    answers.digest()
}

// `len` is what `read_command` says of the hop part's length; `hops` is the part that `hop_part` gives. The length is
// below 256: the remainder is for the prover.
fn mix_read(answers: &mut Answers, command: RawCommand, len: usize, hops: &[u8]) -> io::Result<()> {
    answers.mix_words(&of_command(command))?;
    answers.mix((len % 4294967296) as u32)?;
    answers.mix_bytes(hops)
}

// What was read is written back, with room for a byte more. A refusal goes into the digest as FwVersion behind no hops.
pub(crate) fn read(answers: &mut Answers, slice: &[u8]) -> io::Result<()> {
    let read = command_reader::read_command(slice);
    let hops = command_reader::hop_part(slice);
    replies::count(answers, read.map(|read| read.count))?;
    match read {
        Ok(read) => {
            mix_read(answers, read.command, read.hops, hops)?;
            written(answers, hops, read.command, read.count.saturating_add(1))?;
        }
        Err(_) => mix_read(answers, RawCommand::FwVersion, 0, hops)?,
    }
    answers.digest()
}
