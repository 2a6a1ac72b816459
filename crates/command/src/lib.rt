// Plain commands to a VESC motor controller, as a caller gives them. Ports the first half of src/command.rs without
// `encode`: masks, commands and `pack_into`; document 01, "Commands". Their ids and bytes are in crate `raw_command`.
#![tactic(auto)]

ghost use Rattle.std.specs.Prelude.{◌≡◌};
ghost use Rattle.packer.specs.Packing.{PackIs};
ghost use Rattle.command.specs.Commands.{raw_of, bytes_of, size_of};

use raw_command::RawCommand;
use refusals::EncodeError;

mod masks;

pub use masks::{StatsMask, ValuesMask, ValuesSetupMask};

// Commands that can be sent to a VESC controller. The Rust's ForwardCan is not among them: the controllers
// that a command is forwarded through are given to `encode::encode` beside it.
#[derive(Clone, Copy, Debug, PartialEq)]
pub enum Command {
    // Requests firmware version information.
    FwVersion,
    // Requests the complete set of telemetry data.
    GetValues,
    // Sets the motor duty cycle ratio, typically -1.0 to 1.0.
    SetDuty(f32),
    // Sets the motor current in amperes; negative values drive reverse.
    SetCurrent(f32),
    // Sets the motor braking current in amperes.
    SetCurrentBrake(f32),
    // Sets the motor speed in revolutions per minute; negative values drive reverse.
    SetRpm(i32),
    // Sets the motor position.
    SetPos(f32),
    // Sets the handbrake current in amperes.
    SetHandbrake(f32),
    // Reboots the controller.
    Reboot,
    // Keeps the connection alive and resets the command timeout.
    Alive,
    // Requests the telemetry fields of a `ValuesMask`.
    GetValuesSelective(u32),
    // Requests the setup telemetry fields of a `ValuesSetupMask`.
    GetValuesSetupSelective(u32),
    // Sets the motor current as a relative normalized value.
    SetCurrentRel(f32),
    // Sets the odometer value.
    SetOdometer(u32),
    // Requests the runtime statistics of a `StatsMask`.
    GetStats(u16),
    // Resets runtime statistics; `true` requests an ack reply.
    ResetStats(bool),
    // Requests shutdown or restart: whether by force, and whether to restart.
    Shutdown(bool, bool),
    // Requests firmware build information.
    FwInfo,
    // Triggers emergency stop and ignores input for so many milliseconds.
    MotorEstop(u16),
}

// The command with the whole number that is sent: a value times its scale, toward zero and held. A function and no `From`,
// because README.md names it, and it loses what the scale cuts off.
pub fn raw_of(command: Command) -> RawCommand
    ensures { result ≡ raw_of command }
{
    match command {
        Command::FwVersion => RawCommand::FwVersion,
        Command::GetValues => RawCommand::GetValues,
        Command::SetDuty(duty) => RawCommand::SetDuty(floats::unscaled(duty, 100000.0)),
        Command::SetCurrent(current) => RawCommand::SetCurrent(floats::unscaled(current, 1000.0)),
        Command::SetCurrentBrake(current) => RawCommand::SetCurrentBrake(floats::unscaled(
            current, 1000.0,
        )),
        Command::SetRpm(rpm) => RawCommand::SetRpm(rpm),
        Command::SetPos(position) => RawCommand::SetPos(floats::unscaled(position, 1000000.0)),
        Command::SetHandbrake(current) => RawCommand::SetHandbrake(floats::unscaled(
            current, 1000.0,
        )),
        Command::Reboot => RawCommand::Reboot,
        Command::Alive => RawCommand::Alive,
        Command::GetValuesSelective(mask) => RawCommand::GetValuesSelective(mask),
        Command::GetValuesSetupSelective(mask) => RawCommand::GetValuesSetupSelective(mask),
        Command::SetCurrentRel(current_rel) => RawCommand::SetCurrentRel(floats::unscaled(
            current_rel,
            100000.0,
        )),
        Command::SetOdometer(odometer) => RawCommand::SetOdometer(odometer),
        Command::GetStats(mask) => RawCommand::GetStats(mask),
        Command::ResetStats(ack) => RawCommand::ResetStats(ack),
        Command::Shutdown(force, restart) => RawCommand::Shutdown(force, restart),
        Command::FwInfo => RawCommand::FwInfo,
        Command::MotorEstop(time) => RawCommand::MotorEstop(time),
    }
}

// How many bytes a plain command has in a payload.
pub fn command_len(command: Command) -> usize
    ensures { result ≡ size_of command }
{
    let parts = raw_command::parts_of(raw_of(command));
    1 + parts.width
}

// A plain command's bytes at a position, its id first: all of them, or none if they do not fit.
pub fn pack_into(command: Command, buf: &mut [u8], pos: usize) -> Result<usize, EncodeError>
    ensures { PackIs (bytes_of command) buf.old pos result buf.new }
{
    raw_command::pack_parts(raw_command::parts_of(raw_of(command)), buf, pos)
}
