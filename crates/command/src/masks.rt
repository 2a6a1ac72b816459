// Masks: which telemetry fields a selective query asks for. Ports the three bitflags of src/command.rs, each as constants that
// a caller joins by `|`: `Command` takes the bits as a number, and README.md shows them so.
ghost use Rattle.std.specs.Prelude.{◌++◌, ◌≡◌};
ghost use Rattle.format.specs.Format.{values_bit_count, setup_bit_count, stats_bit_count};
ghost use Rattle.command.specs.Masks.{powers};

// The fields that `Command::GetValuesSelective` asks for.
#[derive(Clone, Copy)]
pub struct ValuesMask;

impl ValuesMask {
    pub const TEMP_MOSFET: u32 = 1 << 0;

    pub const TEMP_MOTOR: u32 = 1 << 1;

    pub const AVG_CURRENT_MOTOR: u32 = 1 << 2;

    pub const AVG_CURRENT_INPUT: u32 = 1 << 3;

    pub const AVG_CURRENT_D: u32 = 1 << 4;

    pub const AVG_CURRENT_Q: u32 = 1 << 5;

    pub const DUTY_CYCLE: u32 = 1 << 6;

    pub const RPM: u32 = 1 << 7;

    pub const VOLTAGE_IN: u32 = 1 << 8;

    pub const AMP_HOURS: u32 = 1 << 9;

    pub const AMP_HOURS_CHARGED: u32 = 1 << 10;

    pub const WATT_HOURS: u32 = 1 << 11;

    pub const WATT_HOURS_CHARGED: u32 = 1 << 12;

    pub const TACHOMETER: u32 = 1 << 13;

    pub const TACHOMETER_ABS: u32 = 1 << 14;

    pub const FAULT_CODE: u32 = 1 << 15;

    pub const PID_POS: u32 = 1 << 16;

    pub const CONTROLLER_ID: u32 = 1 << 17;

    pub const TEMP_MOSFET_ALL: u32 = 1 << 18;

    pub const AVG_VOLTAGE_D: u32 = 1 << 19;

    pub const AVG_VOLTAGE_Q: u32 = 1 << 20;

    pub const STATUS: u32 = 1 << 21;
}

// The fields that `Command::GetValuesSetupSelective` asks for.
#[derive(Clone, Copy)]
pub struct ValuesSetupMask;

impl ValuesSetupMask {
    pub const TEMP_MOSFET: u32 = 1 << 0;

    pub const TEMP_MOTOR: u32 = 1 << 1;

    pub const AVG_CURRENT_MOTOR: u32 = 1 << 2;

    pub const AVG_CURRENT_INPUT: u32 = 1 << 3;

    pub const DUTY_CYCLE: u32 = 1 << 4;

    pub const RPM: u32 = 1 << 5;

    pub const SPEED: u32 = 1 << 6;

    pub const VOLTAGE_IN: u32 = 1 << 7;

    pub const BATTERY_LEVEL: u32 = 1 << 8;

    pub const AMP_HOURS: u32 = 1 << 9;

    pub const AMP_HOURS_CHARGED: u32 = 1 << 10;

    pub const WATT_HOURS: u32 = 1 << 11;

    pub const WATT_HOURS_CHARGED: u32 = 1 << 12;

    pub const DISTANCE: u32 = 1 << 13;

    pub const DISTANCE_ABS: u32 = 1 << 14;

    pub const PID_POS: u32 = 1 << 15;

    pub const FAULT_CODE: u32 = 1 << 16;

    pub const CONTROLLER_ID: u32 = 1 << 17;

    pub const NUM_VESCS: u32 = 1 << 18;

    pub const WATT_HOURS_BATTERY_LEFT: u32 = 1 << 19;

    pub const ODOMETER: u32 = 1 << 20;

    pub const UPTIME_MS: u32 = 1 << 21;
}

// The statistics that `Command::GetStats` asks for.
#[derive(Clone, Copy)]
pub struct StatsMask;

impl StatsMask {
    pub const SPEED_AVG: u16 = 1 << 0;

    pub const SPEED_MAX: u16 = 1 << 1;

    pub const POWER_AVG: u16 = 1 << 2;

    pub const POWER_MAX: u16 = 1 << 3;

    pub const CURRENT_AVG: u16 = 1 << 4;

    pub const CURRENT_MAX: u16 = 1 << 5;

    pub const TEMP_MOSFET_AVG: u16 = 1 << 6;

    pub const TEMP_MOSFET_MAX: u16 = 1 << 7;

    pub const TEMP_MOTOR_AVG: u16 = 1 << 8;

    pub const TEMP_MOTOR_MAX: u16 = 1 << 9;

    pub const COUNT_TIME: u16 = 1 << 10;
}

// Every mask, in the order of its bits: the test that none is missing and none stands twice.
fn each() -> [u32; format::MASK_BITS]
    ensures { result ≡ powers values_bit_count ++ (powers setup_bit_count ++ powers stats_bit_count) }
{
    [
        ValuesMask::TEMP_MOSFET,
        ValuesMask::TEMP_MOTOR,
        ValuesMask::AVG_CURRENT_MOTOR,
        ValuesMask::AVG_CURRENT_INPUT,
        ValuesMask::AVG_CURRENT_D,
        ValuesMask::AVG_CURRENT_Q,
        ValuesMask::DUTY_CYCLE,
        ValuesMask::RPM,
        ValuesMask::VOLTAGE_IN,
        ValuesMask::AMP_HOURS,
        ValuesMask::AMP_HOURS_CHARGED,
        ValuesMask::WATT_HOURS,
        ValuesMask::WATT_HOURS_CHARGED,
        ValuesMask::TACHOMETER,
        ValuesMask::TACHOMETER_ABS,
        ValuesMask::FAULT_CODE,
        ValuesMask::PID_POS,
        ValuesMask::CONTROLLER_ID,
        ValuesMask::TEMP_MOSFET_ALL,
        ValuesMask::AVG_VOLTAGE_D,
        ValuesMask::AVG_VOLTAGE_Q,
        ValuesMask::STATUS,
        ValuesSetupMask::TEMP_MOSFET,
        ValuesSetupMask::TEMP_MOTOR,
        ValuesSetupMask::AVG_CURRENT_MOTOR,
        ValuesSetupMask::AVG_CURRENT_INPUT,
        ValuesSetupMask::DUTY_CYCLE,
        ValuesSetupMask::RPM,
        ValuesSetupMask::SPEED,
        ValuesSetupMask::VOLTAGE_IN,
        ValuesSetupMask::BATTERY_LEVEL,
        ValuesSetupMask::AMP_HOURS,
        ValuesSetupMask::AMP_HOURS_CHARGED,
        ValuesSetupMask::WATT_HOURS,
        ValuesSetupMask::WATT_HOURS_CHARGED,
        ValuesSetupMask::DISTANCE,
        ValuesSetupMask::DISTANCE_ABS,
        ValuesSetupMask::PID_POS,
        ValuesSetupMask::FAULT_CODE,
        ValuesSetupMask::CONTROLLER_ID,
        ValuesSetupMask::NUM_VESCS,
        ValuesSetupMask::WATT_HOURS_BATTERY_LEFT,
        ValuesSetupMask::ODOMETER,
        ValuesSetupMask::UPTIME_MS,
        StatsMask::SPEED_AVG as u32,
        StatsMask::SPEED_MAX as u32,
        StatsMask::POWER_AVG as u32,
        StatsMask::POWER_MAX as u32,
        StatsMask::CURRENT_AVG as u32,
        StatsMask::CURRENT_MAX as u32,
        StatsMask::TEMP_MOSFET_AVG as u32,
        StatsMask::TEMP_MOSFET_MAX as u32,
        StatsMask::TEMP_MOTOR_AVG as u32,
        StatsMask::TEMP_MOTOR_MAX as u32,
        StatsMask::COUNT_TIME as u32,
    ]
}
