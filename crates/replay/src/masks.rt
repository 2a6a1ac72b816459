// The case of the masks: every constant of the three, in the order of the bits. And a record's mask asked for bits: the sort
// of record (a byte), the mask and the bits (four bytes each). The names stand here as in crate `command`, so that each is asked
// for as a caller asks.
use crate::answers::Answers;
use crate::cases;
use command::{StatsMask, ValuesMask, ValuesSetupMask};
use std::io;
use std::io::Write;
use telemetry::{SetupValues, Stats, Values};

fn words(answers: &mut Answers, words: &[u32]) -> io::Result<()> {
    for &word in words {
        answers.word(word)?;
    }
    Ok(())
}

pub(crate) fn case(answers: &mut Answers) -> io::Result<()> {
    let values = [
        ValuesMask::TEMP_MOSFET,
        ValuesMask::TEMP_MOTOR,
        ValuesMask::AVG_CURRENT_MOTOR,
        ValuesMask::AVG_CURRENT_INPUT,
        ValuesMask::AVG_CURRENT_D,
        ValuesMask::AVG_CURRENT_Q,
        ValuesMask::DUTY_CYCLE,
        ValuesMask::RPM,
        ValuesMask::VOLTAGE_IN,
        ValuesMask::AMP_HOURS,
        ValuesMask::AMP_HOURS_CHARGED,
        ValuesMask::WATT_HOURS,
        ValuesMask::WATT_HOURS_CHARGED,
        ValuesMask::TACHOMETER,
        ValuesMask::TACHOMETER_ABS,
        ValuesMask::FAULT_CODE,
        ValuesMask::PID_POS,
        ValuesMask::CONTROLLER_ID,
        ValuesMask::TEMP_MOSFET_ALL,
        ValuesMask::AVG_VOLTAGE_D,
        ValuesMask::AVG_VOLTAGE_Q,
        ValuesMask::STATUS,
    ];
    let setup_values = [
        ValuesSetupMask::TEMP_MOSFET,
        ValuesSetupMask::TEMP_MOTOR,
        ValuesSetupMask::AVG_CURRENT_MOTOR,
        ValuesSetupMask::AVG_CURRENT_INPUT,
        ValuesSetupMask::DUTY_CYCLE,
        ValuesSetupMask::RPM,
        ValuesSetupMask::SPEED,
        ValuesSetupMask::VOLTAGE_IN,
        ValuesSetupMask::BATTERY_LEVEL,
        ValuesSetupMask::AMP_HOURS,
        ValuesSetupMask::AMP_HOURS_CHARGED,
        ValuesSetupMask::WATT_HOURS,
        ValuesSetupMask::WATT_HOURS_CHARGED,
        ValuesSetupMask::DISTANCE,
        ValuesSetupMask::DISTANCE_ABS,
        ValuesSetupMask::PID_POS,
        ValuesSetupMask::FAULT_CODE,
        ValuesSetupMask::CONTROLLER_ID,
        ValuesSetupMask::NUM_VESCS,
        ValuesSetupMask::WATT_HOURS_BATTERY_LEFT,
        ValuesSetupMask::ODOMETER,
        ValuesSetupMask::UPTIME_MS,
    ];
    let stats = [
        StatsMask::SPEED_AVG as u32,
        StatsMask::SPEED_MAX as u32,
        StatsMask::POWER_AVG as u32,
        StatsMask::POWER_MAX as u32,
        StatsMask::CURRENT_AVG as u32,
        StatsMask::CURRENT_MAX as u32,
        StatsMask::TEMP_MOSFET_AVG as u32,
        StatsMask::TEMP_MOSFET_MAX as u32,
        StatsMask::TEMP_MOTOR_AVG as u32,
        StatsMask::TEMP_MOTOR_MAX as u32,
        StatsMask::COUNT_TIME as u32,
    ];
    words(answers, &values)?;
    words(answers, &setup_values)?;
    words(answers, &stats)
}

pub(crate) fn asked(answers: &mut Answers, case: &[u8]) -> io::Result<()> {
    if case.len() < 9 {
        return answers.cut_short();
    }
    let mask = cases::word_at(case, 1);
    let bits = cases::word_at(case, 5);
    let has = match case[0] {
        0 => Values {
            mask,
            ..telemetry::no_values()
        }
        .has(bits),
        1 => SetupValues {
            mask,
            ..telemetry::no_setup_values()
        }
        .has(bits),
        _ => Stats {
            mask,
            ..telemetry::no_stats()
        }
        .has((bits % 65536) as u16),
    };
    write!(answers.out, "{}", if has { " yes" } else { " no" })
}
