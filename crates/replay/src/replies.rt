// The cases of `decode`: a slice. A reply is its kind and every field of all five records as a word of 32
// bits, in the order of the structs.
use crate::answers::Answers;
use firmware::{FwInfo, FwVersion};
use refusals::DecodeError;
use reply::CommandReply;
use std::io;
use std::io::Write;
use telemetry::{SetupValues, Stats, Values};

// A float by its bits; every NaN has the same.
fn bits(value: f32) -> u32 {
    floats::f32_to_bits(value)
}

fn of_values(v: Values) -> [u32; 25] {
    [
        v.mask,
        bits(v.temp_mosfet),
        bits(v.temp_motor),
        bits(v.avg_current_motor),
        bits(v.avg_current_input),
        bits(v.avg_current_d),
        bits(v.avg_current_q),
        bits(v.duty_cycle),
        bits(v.rpm),
        bits(v.voltage_in),
        bits(v.amp_hours),
        bits(v.amp_hours_charged),
        bits(v.watt_hours),
        bits(v.watt_hours_charged),
        packer::as_u32(v.tachometer),
        packer::as_u32(v.tachometer_abs),
        u32::from(u8::from(v.fault_code)),
        bits(v.pid_pos),
        u32::from(v.controller_id),
        bits(v.temp_mosfet1),
        bits(v.temp_mosfet2),
        bits(v.temp_mosfet3),
        bits(v.avg_voltage_d),
        bits(v.avg_voltage_q),
        u32::from(v.status),
    ]
}

fn of_setup_values(v: SetupValues) -> [u32; 23] {
    [
        v.mask,
        bits(v.temp_mosfet),
        bits(v.temp_motor),
        bits(v.avg_current_motor),
        bits(v.avg_current_input),
        bits(v.duty_cycle),
        bits(v.rpm),
        bits(v.speed),
        bits(v.voltage_in),
        bits(v.battery_level),
        bits(v.amp_hours),
        bits(v.amp_hours_charged),
        bits(v.watt_hours),
        bits(v.watt_hours_charged),
        bits(v.distance),
        bits(v.distance_abs),
        bits(v.pid_pos),
        u32::from(u8::from(v.fault_code)),
        u32::from(v.controller_id),
        u32::from(v.num_vescs),
        bits(v.watt_hours_battery_left),
        v.odometer,
        v.uptime_ms,
    ]
}

fn of_stats(s: Stats) -> [u32; 12] {
    [
        s.mask,
        bits(s.speed_avg),
        bits(s.speed_max),
        bits(s.power_avg),
        bits(s.power_max),
        bits(s.current_avg),
        bits(s.current_max),
        bits(s.temp_mosfet_avg),
        bits(s.temp_mosfet_max),
        bits(s.temp_motor_avg),
        bits(s.temp_motor_max),
        bits(s.count_time),
    ]
}

fn mix_fw_version(answers: &mut Answers, v: FwVersion) -> io::Result<()> {
    answers.mix_bytes(&[v.major, v.minor])?;
    answers.mix_bytes(&v.hw_name)?;
    answers.mix_bytes(&v.uuid)?;
    answers.mix_bytes(&[
        u8::from(v.pairing_done),
        v.test_version_number,
        u8::from(v.hw_type),
        v.custom_config_num,
        u8::from(v.has_phase_filters),
        u8::from(v.qml_hw),
        v.qml_app,
        v.nrf_flags,
    ])?;
    answers.mix_bytes(&v.fw_name)?;
    answers.mix(v.hw_crc)
}

fn mix_fw_info(answers: &mut Answers, v: FwInfo) -> io::Result<()> {
    answers.mix_bytes(&[v.major, v.minor, v.test_version_number])?;
    answers.mix_bytes(&v.commit_hash)?;
    answers.mix_bytes(&v.user_commit_hash)
}

// Takes a whole reply into the digest: the records of other kinds too, so that one that is not empty shows.
pub(crate) fn mix(answers: &mut Answers, reply: CommandReply) -> io::Result<()> {
    answers.mix(u32::from(reply.kind.number()))?;
    answers.mix_words(&of_values(reply.values))?;
    answers.mix_words(&of_setup_values(reply.setup_values))?;
    answers.mix_words(&of_stats(reply.stats))?;
    mix_fw_version(answers, reply.fw_version)?;
    mix_fw_info(answers, reply.fw_info)
}

// A count, or the refusal with the values returned with it, in the words of oracle/answers: no `Display` of `DecodeError`, which
// would be these for no other program.
pub(crate) fn count(answers: &mut Answers, answer: Result<usize, DecodeError>) -> io::Result<()> {
    let e = match answer {
        Ok(count) => return answers.given(count),
        Err(e) => e,
    };
    answers.refused(e.number())?;
    match e {
        DecodeError::IncompleteData | DecodeError::InvalidFrame => Ok(()),
        DecodeError::UnknownPacket { id } => write!(answers.out, " {id}"),
        DecodeError::ChecksumMismatch { expected, actual } => {
            write!(answers.out, " {expected} {actual}")
        }
    }
}

// A refusal comes with the empty reply: so does the answer that the Rust's is made to be.
pub(crate) fn case(answers: &mut Answers, slice: &[u8]) -> io::Result<()> {
    let decoded = reply::decode(slice);
    count(answers, decoded.map(|(count, _)| count))?;
    let reply = match decoded {
        Ok((_, reply)) => reply,
        Err(_) => reply::empty(),
    };
    mix(answers, reply)?;
    answers.digest()
}
