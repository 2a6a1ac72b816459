// The telemetry records. Ports `Values`, `SetupValues` and `Stats` of src/command.rs, and their filling
// field by field. The walk over the mask stands in the crate `tables`: it leaves 0 for a field that was
// not sent, and 0 is a zero of every kind, so that no field is tested again. A record keeps the mask, which the
// Rust's does not: it tells a zero that was sent from a field that was not.
#![tactic(auto)]

ghost use Rattle.std.specs.Prelude.{true, ◌↔◌, ◌≡◌, ◌%◌};
ghost use Rattle.floats.specs.Numbers.{over_scale};
ghost use Rattle.packer.specs.Numbers.{signed_of};
ghost use Rattle.tables.specs.Bits.{HasBits};
ghost use Rattle.telemetry.specs.Telemetry.{no_values, no_setup_values, no_stats, values_of, setup_values_of, stats_of};

use codes::FaultCode;
use tables::one_byte;

// The telemetry of GetValues and GetValuesSelective, and the mask as received, unknown bits too. GetValues, which
// sends no mask, has all 22 bits.
#[derive(Clone, Copy, Debug, Default)]
pub struct Values {
    pub mask: u32,
    pub temp_mosfet: f32,
    pub temp_motor: f32,
    pub avg_current_motor: f32,
    pub avg_current_input: f32,
    pub avg_current_d: f32,
    pub avg_current_q: f32,
    pub duty_cycle: f32,
    pub rpm: f32,
    pub voltage_in: f32,
    pub amp_hours: f32,
    pub amp_hours_charged: f32,
    pub watt_hours: f32,
    pub watt_hours_charged: f32,
    pub tachometer: i32,
    pub tachometer_abs: i32,
    pub fault_code: FaultCode,
    pub pid_pos: f32,
    pub controller_id: u8,
    pub temp_mosfet1: f32,
    pub temp_mosfet2: f32,
    pub temp_mosfet3: f32,
    pub avg_voltage_d: f32,
    pub avg_voltage_q: f32,
    pub status: u8,
}

// The telemetry of GetValuesSetupSelective, and the mask as received.
#[derive(Clone, Copy, Debug, Default)]
pub struct SetupValues {
    pub mask: u32,
    pub temp_mosfet: f32,
    pub temp_motor: f32,
    pub avg_current_motor: f32,
    pub avg_current_input: f32,
    pub duty_cycle: f32,
    pub rpm: f32,
    pub speed: f32,
    pub voltage_in: f32,
    pub battery_level: f32,
    pub amp_hours: f32,
    pub amp_hours_charged: f32,
    pub watt_hours: f32,
    pub watt_hours_charged: f32,
    pub distance: f32,
    pub distance_abs: f32,
    pub pid_pos: f32,
    pub fault_code: FaultCode,
    pub controller_id: u8,
    pub num_vescs: u8,
    pub watt_hours_battery_left: f32,
    pub odometer: u32,
    pub uptime_ms: u32,
}

// The statistics of GetStats, and the mask as received: 32 bits, where the query's has 16.
#[derive(Clone, Copy, Debug, Default)]
pub struct Stats {
    pub mask: u32,
    pub speed_avg: f32,
    pub speed_max: f32,
    pub power_avg: f32,
    pub power_max: f32,
    pub current_avg: f32,
    pub current_max: f32,
    pub temp_mosfet_avg: f32,
    pub temp_mosfet_max: f32,
    pub temp_motor_avg: f32,
    pub temp_motor_max: f32,
    pub count_time: f32,
}

// Each record has its `has`, because a caller asks the record that he holds; the test stands in `tables`.
impl Values {
    // Whether the readings of these bits of `ValuesMask` were sent, each of them.
    pub fn has(self, values_bits: u32) -> bool
        ensures { (result ≡ true) ↔ HasBits self.mask values_bits }
    {
        tables::has_bits(self.mask, values_bits)
    }
}

impl SetupValues {
    // Whether the readings of these bits of `ValuesSetupMask` were sent, each of them.
    pub fn has(self, setup_bits: u32) -> bool
        ensures { (result ≡ true) ↔ HasBits self.mask setup_bits }
    {
        tables::has_bits(self.mask, setup_bits)
    }
}

impl Stats {
    // Whether the readings of these bits of `StatsMask` were sent, each of them. They are 16 bits, as in a query.
    pub fn has(self, stats_bits: u16) -> bool
        ensures { (result ≡ true) ↔ HasBits self.mask stats_bits }
    {
        tables::has_bits(self.mask, stats_bits as u32)
    }
}

// h_s: a signed 16-bit number over a scale.
fn half_over(raw: u32, scale: f32) -> f32
    ensures { result ≡ over_scale (signed_of 65536 (raw % 65536)) scale }
{
    floats::scaled(packer::as_i16(raw), scale)
}

// w_s: a signed 32-bit number over a scale.
fn word_over(raw: u32, scale: f32) -> f32
    ensures { result ≡ over_scale (signed_of 4294967296 raw) scale }
{
    floats::scaled(packer::as_i32(raw), scale)
}

// The records with nothing in them, by the names that the specs have for them.
pub fn no_values() -> Values
    ensures { result ≡ no_values }
{
    Values::default()
}

// The record of a mask, and of the raw numbers that the walk over it read, a row of the table each. The rows go by their
// numbers: a pattern of 24 names would have each twice.
pub fn values_of(mask: u32, raw: [u32; format::TABLE_ROWS]) -> Values
    ensures { result ≡ values_of mask raw }
{
    Values {
        mask,
        temp_mosfet: half_over(raw[0], 10.0),
        temp_motor: half_over(raw[1], 10.0),
        avg_current_motor: word_over(raw[2], 100.0),
        avg_current_input: word_over(raw[3], 100.0),
        avg_current_d: word_over(raw[4], 100.0),
        avg_current_q: word_over(raw[5], 100.0),
        duty_cycle: half_over(raw[6], 1000.0),
        rpm: word_over(raw[7], 1.0),
        voltage_in: half_over(raw[8], 10.0),
        amp_hours: word_over(raw[9], 10000.0),
        amp_hours_charged: word_over(raw[10], 10000.0),
        watt_hours: word_over(raw[11], 10000.0),
        watt_hours_charged: word_over(raw[12], 10000.0),
        tachometer: packer::as_i32(raw[13]),
        tachometer_abs: packer::as_i32(raw[14]),
        fault_code: FaultCode::from(one_byte(raw[15])),
        pid_pos: word_over(raw[16], 1000000.0),
        controller_id: one_byte(raw[17]),
        temp_mosfet1: half_over(raw[18], 10.0),
        temp_mosfet2: half_over(raw[19], 10.0),
        temp_mosfet3: half_over(raw[20], 10.0),
        avg_voltage_d: word_over(raw[21], 1000.0),
        avg_voltage_q: word_over(raw[22], 1000.0),
        status: one_byte(raw[23]),
    }
}

pub fn no_setup_values() -> SetupValues
    ensures { result ≡ no_setup_values }
{
    SetupValues::default()
}

// The record of GetValuesSetupSelective.
pub fn setup_values_of(mask: u32, raw: [u32; format::TABLE_ROWS]) -> SetupValues
    ensures { result ≡ setup_values_of mask raw }
{
    SetupValues {
        mask,
        temp_mosfet: half_over(raw[0], 10.0),
        temp_motor: half_over(raw[1], 10.0),
        avg_current_motor: word_over(raw[2], 100.0),
        avg_current_input: word_over(raw[3], 100.0),
        duty_cycle: half_over(raw[4], 1000.0),
        rpm: word_over(raw[5], 1.0),
        speed: word_over(raw[6], 1000.0),
        voltage_in: half_over(raw[7], 10.0),
        battery_level: half_over(raw[8], 1000.0),
        amp_hours: word_over(raw[9], 10000.0),
        amp_hours_charged: word_over(raw[10], 10000.0),
        watt_hours: word_over(raw[11], 10000.0),
        watt_hours_charged: word_over(raw[12], 10000.0),
        distance: word_over(raw[13], 1000.0),
        distance_abs: word_over(raw[14], 1000.0),
        pid_pos: word_over(raw[15], 1000000.0),
        fault_code: FaultCode::from(one_byte(raw[16])),
        controller_id: one_byte(raw[17]),
        num_vescs: one_byte(raw[18]),
        watt_hours_battery_left: word_over(raw[19], 1000.0),
        odometer: raw[20],
        uptime_ms: raw[21],
    }
}

pub fn no_stats() -> Stats
    ensures { result ≡ no_stats }
{
    Stats::default()
}

// The record of GetStats. A float (F) is sent by its bits.
pub fn stats_of(mask: u32, raw: [u32; format::TABLE_ROWS]) -> Stats
    ensures { result ≡ stats_of mask raw }
{
    Stats {
        mask,
        speed_avg: floats::f32_from_bits(raw[0]),
        speed_max: floats::f32_from_bits(raw[1]),
        power_avg: floats::f32_from_bits(raw[2]),
        power_max: floats::f32_from_bits(raw[3]),
        current_avg: floats::f32_from_bits(raw[4]),
        current_max: floats::f32_from_bits(raw[5]),
        temp_mosfet_avg: floats::f32_from_bits(raw[6]),
        temp_mosfet_max: floats::f32_from_bits(raw[7]),
        temp_motor_avg: floats::f32_from_bits(raw[8]),
        temp_motor_max: floats::f32_from_bits(raw[9]),
        count_time: floats::f32_from_bits(raw[10]),
    }
}
