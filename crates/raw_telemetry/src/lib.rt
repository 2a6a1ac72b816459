// Telemetry as the frames carry it: the records of crate `telemetry` before any scaling, under the same field names. The Rust has no such
// records. Document 02, W4: "whole numbers before scaling, floats by their bits, flag and kind bytes as carried". A half (h_s of document 01)
// is an i16 and a word (w_s) an i32, so that every record fits its frame. Here too the walk over the mask stands in crate `tables`: a record
// becomes a number for each row of its table, and back.
#![tactic(auto)]

ghost use Rattle.std.specs.Prelude.{◌≡◌, ◌%◌};
ghost use Rattle.packer.specs.Numbers.{signed_of};
ghost use Rattle.tables.specs.Tables.{values_table, setup_table, stats_table};
ghost use Rattle.tables.specs.Rows.{padded};
ghost use Rattle.raw_telemetry.specs.Rows.{numbers_of};
ghost use Rattle.raw_telemetry.specs.Records.{values_rows, setup_rows, stats_rows, raw_values_of, raw_setup_values_of, raw_stats_of, no_raw_values, no_raw_setup_values, no_raw_stats};

use tables::one_byte;

// No generic records with those of `telemetry`: each field has another type there.
// What GetValues and GetValuesSelective carry, and the mask, whose bits are those of `ValuesMask`. GetValues carries no mask.
#[derive(Clone, Copy, Debug, Default, PartialEq, Eq)]
pub struct RawValues {
    pub mask: u32,
    pub temp_mosfet: i16,
    pub temp_motor: i16,
    pub avg_current_motor: i32,
    pub avg_current_input: i32,
    pub avg_current_d: i32,
    pub avg_current_q: i32,
    pub duty_cycle: i16,
    pub rpm: i32,
    pub voltage_in: i16,
    pub amp_hours: i32,
    pub amp_hours_charged: i32,
    pub watt_hours: i32,
    pub watt_hours_charged: i32,
    pub tachometer: i32,
    pub tachometer_abs: i32,
    pub fault_code: u8,
    pub pid_pos: i32,
    pub controller_id: u8,
    pub temp_mosfet1: i16,
    pub temp_mosfet2: i16,
    pub temp_mosfet3: i16,
    pub avg_voltage_d: i32,
    pub avg_voltage_q: i32,
    pub status: u8,
}

// What GetValuesSetupSelective carries, and the mask, whose bits are those of `ValuesSetupMask`.
#[derive(Clone, Copy, Debug, Default, PartialEq, Eq)]
pub struct RawSetupValues {
    pub mask: u32,
    pub temp_mosfet: i16,
    pub temp_motor: i16,
    pub avg_current_motor: i32,
    pub avg_current_input: i32,
    pub duty_cycle: i16,
    pub rpm: i32,
    pub speed: i32,
    pub voltage_in: i16,
    pub battery_level: i16,
    pub amp_hours: i32,
    pub amp_hours_charged: i32,
    pub watt_hours: i32,
    pub watt_hours_charged: i32,
    pub distance: i32,
    pub distance_abs: i32,
    pub pid_pos: i32,
    pub fault_code: u8,
    pub controller_id: u8,
    pub num_vescs: u8,
    pub watt_hours_battery_left: i32,
    pub odometer: u32,
    pub uptime_ms: u32,
}

// What GetStats carries, floats by their bits, and the mask, whose bits are those of `StatsMask`.
#[derive(Clone, Copy, Debug, Default, PartialEq, Eq)]
pub struct RawStats {
    pub mask: u32,
    pub speed_avg: u32,
    pub speed_max: u32,
    pub power_avg: u32,
    pub power_max: u32,
    pub current_avg: u32,
    pub current_max: u32,
    pub temp_mosfet_avg: u32,
    pub temp_mosfet_max: u32,
    pub temp_motor_avg: u32,
    pub temp_motor_max: u32,
    pub count_time: u32,
}

// h_s: the lowest 16 bits, signed.
fn half(raw: u32) -> i16
    ensures { result ≡ signed_of 65536 (raw % 65536) }
{
    packer::as_i16(raw) as i16
}

// The record of GetValues and GetValuesSelective with nothing in it, by the name that the specs have for it.
pub fn no_values() -> RawValues
    ensures { result ≡ no_raw_values }
{
    RawValues::default()
}

// The record of a mask, and of the raw numbers that the walk over it read, a row of the table each; by their numbers, as in
// `telemetry`, whose records have the same fields at other types.
pub fn values_of(mask: u32, raw: [u32; format::TABLE_ROWS]) -> RawValues
    ensures { result ≡ raw_values_of mask raw }
{
    RawValues {
        mask,
        temp_mosfet: half(raw[0]),
        temp_motor: half(raw[1]),
        avg_current_motor: packer::as_i32(raw[2]),
        avg_current_input: packer::as_i32(raw[3]),
        avg_current_d: packer::as_i32(raw[4]),
        avg_current_q: packer::as_i32(raw[5]),
        duty_cycle: half(raw[6]),
        rpm: packer::as_i32(raw[7]),
        voltage_in: half(raw[8]),
        amp_hours: packer::as_i32(raw[9]),
        amp_hours_charged: packer::as_i32(raw[10]),
        watt_hours: packer::as_i32(raw[11]),
        watt_hours_charged: packer::as_i32(raw[12]),
        tachometer: packer::as_i32(raw[13]),
        tachometer_abs: packer::as_i32(raw[14]),
        fault_code: one_byte(raw[15]),
        pid_pos: packer::as_i32(raw[16]),
        controller_id: one_byte(raw[17]),
        temp_mosfet1: half(raw[18]),
        temp_mosfet2: half(raw[19]),
        temp_mosfet3: half(raw[20]),
        avg_voltage_d: packer::as_i32(raw[21]),
        avg_voltage_q: packer::as_i32(raw[22]),
        status: one_byte(raw[23]),
    }
}

// And back: the number of each row, as it is sent where the mask has the row's bit; zeros past the last row of a shorter table.
pub fn values_numbers(values: RawValues) -> [u32; format::TABLE_ROWS]
    ensures { result ≡ padded (numbers_of values_table (values_rows values)) }
{
    [
        packer::as_u16(values.temp_mosfet),
        packer::as_u16(values.temp_motor),
        packer::as_u32(values.avg_current_motor),
        packer::as_u32(values.avg_current_input),
        packer::as_u32(values.avg_current_d),
        packer::as_u32(values.avg_current_q),
        packer::as_u16(values.duty_cycle),
        packer::as_u32(values.rpm),
        packer::as_u16(values.voltage_in),
        packer::as_u32(values.amp_hours),
        packer::as_u32(values.amp_hours_charged),
        packer::as_u32(values.watt_hours),
        packer::as_u32(values.watt_hours_charged),
        packer::as_u32(values.tachometer),
        packer::as_u32(values.tachometer_abs),
        values.fault_code as u32,
        packer::as_u32(values.pid_pos),
        values.controller_id as u32,
        packer::as_u16(values.temp_mosfet1),
        packer::as_u16(values.temp_mosfet2),
        packer::as_u16(values.temp_mosfet3),
        packer::as_u32(values.avg_voltage_d),
        packer::as_u32(values.avg_voltage_q),
        values.status as u32,
    ]
}

// The record of GetValuesSetupSelective with nothing in it.
pub fn no_setup_values() -> RawSetupValues
    ensures { result ≡ no_raw_setup_values }
{
    RawSetupValues::default()
}

// The record of a mask, and of the raw numbers that the walk over it read, a row of the table each.
pub fn setup_values_of(mask: u32, raw: [u32; format::TABLE_ROWS]) -> RawSetupValues
    ensures { result ≡ raw_setup_values_of mask raw }
{
    RawSetupValues {
        mask,
        temp_mosfet: half(raw[0]),
        temp_motor: half(raw[1]),
        avg_current_motor: packer::as_i32(raw[2]),
        avg_current_input: packer::as_i32(raw[3]),
        duty_cycle: half(raw[4]),
        rpm: packer::as_i32(raw[5]),
        speed: packer::as_i32(raw[6]),
        voltage_in: half(raw[7]),
        battery_level: half(raw[8]),
        amp_hours: packer::as_i32(raw[9]),
        amp_hours_charged: packer::as_i32(raw[10]),
        watt_hours: packer::as_i32(raw[11]),
        watt_hours_charged: packer::as_i32(raw[12]),
        distance: packer::as_i32(raw[13]),
        distance_abs: packer::as_i32(raw[14]),
        pid_pos: packer::as_i32(raw[15]),
        fault_code: one_byte(raw[16]),
        controller_id: one_byte(raw[17]),
        num_vescs: one_byte(raw[18]),
        watt_hours_battery_left: packer::as_i32(raw[19]),
        odometer: raw[20],
        uptime_ms: raw[21],
    }
}

// And back: the number of each row, as it is sent where the mask has the row's bit; zeros past the last row of a shorter table.
pub fn setup_values_numbers(values: RawSetupValues) -> [u32; format::TABLE_ROWS]
    ensures { result ≡ padded (numbers_of setup_table (setup_rows values)) }
{
    [
        packer::as_u16(values.temp_mosfet),
        packer::as_u16(values.temp_motor),
        packer::as_u32(values.avg_current_motor),
        packer::as_u32(values.avg_current_input),
        packer::as_u16(values.duty_cycle),
        packer::as_u32(values.rpm),
        packer::as_u32(values.speed),
        packer::as_u16(values.voltage_in),
        packer::as_u16(values.battery_level),
        packer::as_u32(values.amp_hours),
        packer::as_u32(values.amp_hours_charged),
        packer::as_u32(values.watt_hours),
        packer::as_u32(values.watt_hours_charged),
        packer::as_u32(values.distance),
        packer::as_u32(values.distance_abs),
        packer::as_u32(values.pid_pos),
        values.fault_code as u32,
        values.controller_id as u32,
        values.num_vescs as u32,
        packer::as_u32(values.watt_hours_battery_left),
        values.odometer,
        values.uptime_ms,
        0,
        0,
    ]
}

// The record of GetStats with nothing in it.
pub fn no_stats() -> RawStats
    ensures { result ≡ no_raw_stats }
{
    RawStats::default()
}

// The record of a mask, and of the raw numbers that the walk over it read, a row of the table each.
pub fn stats_of(mask: u32, raw: [u32; format::TABLE_ROWS]) -> RawStats
    ensures { result ≡ raw_stats_of mask raw }
{
    RawStats {
        mask,
        speed_avg: raw[0],
        speed_max: raw[1],
        power_avg: raw[2],
        power_max: raw[3],
        current_avg: raw[4],
        current_max: raw[5],
        temp_mosfet_avg: raw[6],
        temp_mosfet_max: raw[7],
        temp_motor_avg: raw[8],
        temp_motor_max: raw[9],
        count_time: raw[10],
    }
}

// And back: the number of each row, as it is sent where the mask has the row's bit; zeros past the last row of a shorter table.
pub fn stats_numbers(stats: RawStats) -> [u32; format::TABLE_ROWS]
    ensures { result ≡ padded (numbers_of stats_table (stats_rows stats)) }
{
    [
        stats.speed_avg,
        stats.speed_max,
        stats.power_avg,
        stats.power_max,
        stats.current_avg,
        stats.current_max,
        stats.temp_mosfet_avg,
        stats.temp_mosfet_max,
        stats.temp_motor_avg,
        stats.temp_motor_max,
        stats.count_time,
        0,
        0,
        0,
        0,
        0,
        0,
        0,
        0,
        0,
        0,
        0,
        0,
        0,
    ]
}
