// The raw numbers of the masked replies: one walk over a table of bits and widths, whichever reply it
// is. Ports the field reading of `unpack_get_values_selective`, `unpack_get_values_setup_selective`
// and `unpack_get_stats` of src/command.rs. A byte past the end of a slice is read as 0: `judge` has
// seen that a good frame has every byte. Document 02, W4, has them written by the same tables.
#![tactic(auto)]

ghost use Rattle.std.specs.Prelude.{true, ◌↔◌, ◌≡◌, ◌%◌, ◌<◌, ◌≤◌, drop, get_or};
ghost use Rattle.packer.specs.Numbers.{be_at, total, numbers_at, digits};
ghost use Rattle.packer.specs.Packing.{PackIs};
ghost use Rattle.tables.specs.Tables.{Field, takes, widths};
ghost use Rattle.tables.specs.Bits.{HasBits};
ghost use Rattle.tables.specs.Sorts.{table_of, known_bits};
ghost use Rattle.tables.specs.Rows.{row_of, rows_of, padded};

use refusals::EncodeError;

// Which record a masked reply carries, and so which table it goes by.
#[derive(Clone, Copy, Debug, PartialEq, Eq)]
pub enum Sort {
    Values,
    SetupValues,
    Stats,
}

// Whether a mask has every bit of `bits`: the Rust's `contains`.
#[tactic(auto, using(crate::proofs::Bits::by_and))]
pub fn has_bits(mask: u32, bits: u32) -> bool
    ensures { (result ≡ true) ↔ HasBits mask bits }
{
    mask & bits == bits
}

// Whether a mask has no bit but those of the reply's table. A match of its own, because a function that gave the number of bits
// would need a bound for the shift besides.
#[tactic(auto, unfolding(crate::specs::Sorts::known_bits))]
pub fn known_bits(sort: Sort, mask: u32) -> bool
    ensures { result ≡ known_bits sort mask }
{
    match sort {
        Sort::Values => mask < 1 << format::VALUES_BITS,
        Sort::SetupValues => mask < 1 << format::SETUP_BITS,
        Sort::Stats => mask < 1 << format::STATS_BITS,
    }
}

// A row of a table: the bit of the mask that governs a field, and the field's width in bytes.
struct Row {
    bit: u32,
    width: usize,
}

impl Row {
    // The bytes that the field takes under a mask.
    fn takes(&self, mask: u32) -> usize
        requires { self.now.bit < 32 }
        ensures { (f : Field) → self.now ≡ row_of f → result ≡ takes mask f }
    {
        if (mask >> self.bit) % 2 == 1 {
            self.width
        } else {
            0
        }
    }
}

// A table has a row a field, in the order sent. Bit 18 governs three.
static VALUES_TABLE: [Row; format::TABLE_ROWS] = [
    Row { bit: 0, width: 2 }, // temp_mosfet
    Row { bit: 1, width: 2 }, // temp_motor
    Row { bit: 2, width: 4 }, // avg_current_motor
    Row { bit: 3, width: 4 }, // avg_current_input
    Row { bit: 4, width: 4 }, // avg_current_d
    Row { bit: 5, width: 4 }, // avg_current_q
    Row { bit: 6, width: 2 }, // duty_cycle
    Row { bit: 7, width: 4 }, // rpm
    Row { bit: 8, width: 2 }, // voltage_in
    Row { bit: 9, width: 4 }, // amp_hours
    Row { bit: 10, width: 4 }, // amp_hours_charged
    Row { bit: 11, width: 4 }, // watt_hours
    Row { bit: 12, width: 4 }, // watt_hours_charged
    Row { bit: 13, width: 4 }, // tachometer
    Row { bit: 14, width: 4 }, // tachometer_abs
    Row { bit: 15, width: 1 }, // fault_code
    Row { bit: 16, width: 4 }, // pid_pos
    Row { bit: 17, width: 1 }, // controller_id
    Row { bit: 18, width: 2 }, // temp_mosfet1
    Row { bit: 18, width: 2 }, // temp_mosfet2
    Row { bit: 18, width: 2 }, // temp_mosfet3
    Row { bit: 19, width: 4 }, // avg_voltage_d
    Row { bit: 20, width: 4 }, // avg_voltage_q
    Row { bit: 21, width: 1 }, // status
];

static SETUP_TABLE: [Row; format::SETUP_BITS] = [
    Row { bit: 0, width: 2 }, // temp_mosfet
    Row { bit: 1, width: 2 }, // temp_motor
    Row { bit: 2, width: 4 }, // avg_current_motor
    Row { bit: 3, width: 4 }, // avg_current_input
    Row { bit: 4, width: 2 }, // duty_cycle
    Row { bit: 5, width: 4 }, // rpm
    Row { bit: 6, width: 4 }, // speed
    Row { bit: 7, width: 2 }, // voltage_in
    Row { bit: 8, width: 2 }, // battery_level
    Row { bit: 9, width: 4 }, // amp_hours
    Row { bit: 10, width: 4 }, // amp_hours_charged
    Row { bit: 11, width: 4 }, // watt_hours
    Row { bit: 12, width: 4 }, // watt_hours_charged
    Row { bit: 13, width: 4 }, // distance
    Row { bit: 14, width: 4 }, // distance_abs
    Row { bit: 15, width: 4 }, // pid_pos
    Row { bit: 16, width: 1 }, // fault_code
    Row { bit: 17, width: 1 }, // controller_id
    Row { bit: 18, width: 1 }, // num_vescs
    Row { bit: 19, width: 4 }, // watt_hours_battery_left
    Row { bit: 20, width: 4 }, // odometer
    Row { bit: 21, width: 4 }, // uptime_ms
];

static STATS_TABLE: [Row; format::STATS_BITS] = [
    Row { bit: 0, width: 4 }, // speed_avg
    Row { bit: 1, width: 4 }, // speed_max
    Row { bit: 2, width: 4 }, // power_avg
    Row { bit: 3, width: 4 }, // power_max
    Row { bit: 4, width: 4 }, // current_avg
    Row { bit: 5, width: 4 }, // current_max
    Row { bit: 6, width: 4 }, // temp_mosfet_avg
    Row { bit: 7, width: 4 }, // temp_mosfet_max
    Row { bit: 8, width: 4 }, // temp_motor_avg
    Row { bit: 9, width: 4 }, // temp_motor_max
    Row { bit: 10, width: 4 }, // count_time
];

// The rows of the table that a masked reply goes by.
fn rows(sort: Sort) -> &'static [Row]
    ensures { result.now ≡ rows_of (table_of sort) }
{
    match sort {
        Sort::Values => &VALUES_TABLE,
        Sort::SetupValues => &SETUP_TABLE,
        Sort::Stats => &STATS_TABLE,
    }
}

// The bytes that the fields of a masked reply take. The sort comes from the reader and the mask from the bytes or a record, so that
// the two are no struct.
pub fn span(sort: Sort, mask: u32) -> usize
    ensures { result ≡ total (widths mask (table_of sort)) }
{
    let mut sum = 0;
    for row in rows(sort) {
        sum += row.takes(mask);
    }
    sum
}

// A byte of a slice.
pub fn byte_at(buf: &[u8], pos: usize) -> u8
    ensures { result ≡ get_or buf.now pos 0 }
{
    buf.get(pos).copied().unwrap_or(0)
}

// The slice from `pos` on, or nothing where that lies past the end. A position by value, as document 01 asks.
fn from_place(buf: &[u8], pos: usize) -> &[u8]
    ensures { result.now ≡ drop pos buf.now }
{
    &buf[pos.min(buf.len())..]
}

// The number of the `width` bytes at `at`. No call of packer's `be`, which asks that all its bytes are there: a byte past
// the end is read as 0 here.
fn number_at(part: &[u8], at: usize, width: usize) -> u32
    requires { (at ≤ 96) × (width ≤ 4) }
    ensures { result ≡ be_at part.now at width }
{
    let mut number = 0u32;
    for k in 0..width {
        number = number * 256 + byte_at(part, at + k) as u32;
    }
    number
}

// The number of the four bytes at `pos`: a mask, for one.
pub fn word_at(buf: &[u8], pos: usize) -> u32
    ensures { result ≡ be_at buf.now pos 4 }
{
    number_at(from_place(buf, pos), 0, 4)
}

// The raw numbers of the fields of a masked reply that a mask has, in the table's order: 0 for a field
// that the mask lacks, and zeros past the last row of a shorter table.
pub fn unpack_fields(buf: &[u8], pos: usize, sort: Sort, mask: u32) -> [u32; format::TABLE_ROWS]
    ensures { result ≡ padded (numbers_at (widths mask (table_of sort)) buf.now pos) }
{
    let part = from_place(buf, pos);
    let mut raw = [0; format::TABLE_ROWS];
    let mut at = 0;
    for (k, row) in rows(sort).iter().enumerate() {
        let width = row.takes(mask);
        raw[k] = number_at(part, at, width);
        at += width;
    }
    raw
}

// The byte that a raw number of one byte is.
pub fn one_byte(raw: u32) -> u8
    ensures { result ≡ raw % 256 }
{
    (raw % 256) as u8
}

// Writes at `pos` the fields of a masked reply that a mask has, in the table's order, from their raw
// numbers: all of them, or nothing where the room is too small. The number of a field that the mask
// lacks is not looked at.
pub fn pack_fields(
    buf: &mut [u8],
    pos: usize,
    sort: Sort,
    mask: u32,
    raw: [u32; format::TABLE_ROWS],
) -> Result<usize, EncodeError>
    ensures { PackIs (digits (widths mask (table_of sort)) raw) buf.old pos result buf.new }
{
    packer::reserve(buf, pos, span(sort, mask))?;
    let mut at = pos;
    for (row, &number) in rows(sort).iter().zip(&raw) {
        at = packer::pack_be(buf, at, row.takes(mask), number)?;
    }
    Ok(at)
}
