// Replies from a VESC motor controller. Ports the second half of src/command.rs: `CommandReply`, its reading, and `decode`. Where
// the Rust has an enum, a reply is a struct: its kind, one telemetry record of each sort by value, and the names beside them, as
// document 01 fixes it. Every function takes every slice.
#![tactic(auto)]

ghost use Rattle.std.specs.Prelude.{◌≡◌};
ghost use Rattle.tables.specs.Sorts.{table_of};
ghost use Rattle.tables.specs.Rows.{padded};
ghost use Rattle.layout.specs.Layout.{masked, raw_of};
ghost use Rattle.frame.specs.Frame.{short, payload_in};
ghost use Rattle.reply.specs.Reply.{kind_number, blank_of, empty_reply, get_values_of, get_values_selective_of, get_values_setup_selective_of, get_stats_of, fw_version_reply_of, fw_info_reply_of, reply_of};
ghost use Rattle.reply.specs.Decode.{reply_in, decode_of, decoded};

use firmware::{FwInfo, FwVersion};
use refusals::DecodeError;
use tables::Sort;
use telemetry::{SetupValues, Stats, Values};

// The kind of a reply: which of the Rust's variants it is.
#[derive(Clone, Copy, Debug, PartialEq, Eq)]
pub enum Kind {
    FwVersion = format::FW_VERSION as isize,
    GetValues = format::GET_VALUES as isize,
    GetValuesSelective = format::GET_VALUES_SELECTIVE as isize,
    GetValuesSetupSelective = format::GET_VALUES_SETUP_SELECTIVE as isize,
    GetStats = format::GET_STATS as isize,
    ResetStats = format::RESET_STATS as isize,
    FwInfo = format::FW_INFO as isize,
}

// A reply: its kind says which record it carries; the others hold zeros.
#[derive(Clone, Copy)]
pub struct CommandReply {
    pub kind: Kind,
    pub values: Values,
    pub setup_values: SetupValues,
    pub stats: Stats,
    pub fw_version: FwVersion,
    pub fw_info: FwInfo,
}

impl Kind {
    // A reply's number is its id. README.md names this call.
    pub fn number(self) -> u8
        ensures { result ≡ kind_number self }
    {
        self as u8
    }
}

// A reply of a kind, with nothing in its records.
#[tactic(auto, unfolding(crate::specs::Reply::blank_of))]
fn blank(kind: Kind) -> CommandReply
    ensures { result ≡ blank_of kind }
{
    CommandReply {
        kind,
        values: telemetry::no_values(),
        setup_values: telemetry::no_setup_values(),
        stats: telemetry::no_stats(),
        fw_version: firmware::no_fw_version(),
        fw_info: firmware::no_fw_info(),
    }
}

// The reply where there is none.
#[tactic(auto, unfolding(crate::specs::Reply::empty_reply))]
pub fn empty() -> CommandReply
    ensures { result ≡ empty_reply }
{
    blank(Kind::FwVersion)
}

// GetValues carries no mask: it has all 22 bits.
fn unpack_get_values(payload: &[u8]) -> CommandReply
    ensures { result ≡ get_values_of payload.now }
{
    let raw = tables::unpack_fields(payload, 1, Sort::Values, format::ALL_VALUES);
    CommandReply {
        values: telemetry::values_of(format::ALL_VALUES, raw),
        ..blank(Kind::GetValues)
    }
}

// What a masked reply carries after its id: the mask of four bytes, and the raw numbers of the fields that it has.
pub fn masked_fields(payload: &[u8], sort: Sort) -> (u32, [u32; format::TABLE_ROWS])
    ensures mask { result.0 ≡ (raw_of (masked (table_of sort)) payload.now 1).0 }
    ensures numbers { result.1 ≡ padded (raw_of (masked (table_of sort)) payload.now 1).1 }
{
    let mask = tables::word_at(payload, 1);
    (mask, tables::unpack_fields(payload, 5, sort, mask))
}

// This reader and the two after it differ in the field that they fill, which no parameter can name.
fn unpack_get_values_selective(payload: &[u8]) -> CommandReply
    ensures { result ≡ get_values_selective_of payload.now }
{
    let (mask, raw) = masked_fields(payload, Sort::Values);
    CommandReply {
        values: telemetry::values_of(mask, raw),
        ..blank(Kind::GetValuesSelective)
    }
}

fn unpack_get_values_setup_selective(payload: &[u8]) -> CommandReply
    ensures { result ≡ get_values_setup_selective_of payload.now }
{
    let (mask, raw) = masked_fields(payload, Sort::SetupValues);
    CommandReply {
        setup_values: telemetry::setup_values_of(mask, raw),
        ..blank(Kind::GetValuesSetupSelective)
    }
}

fn unpack_get_stats(payload: &[u8]) -> CommandReply
    ensures { result ≡ get_stats_of payload.now }
{
    let (mask, raw) = masked_fields(payload, Sort::Stats);
    CommandReply {
        stats: telemetry::stats_of(mask, raw),
        ..blank(Kind::GetStats)
    }
}

fn unpack_fw_version(payload: &[u8]) -> CommandReply
    ensures { result ≡ fw_version_reply_of payload.now }
{
    CommandReply {
        fw_version: firmware::unpack_fw_version(payload),
        ..blank(Kind::FwVersion)
    }
}

fn unpack_fw_info(payload: &[u8]) -> CommandReply
    ensures { result ≡ fw_info_reply_of payload.now }
{
    CommandReply {
        fw_info: firmware::unpack_fw_info(payload),
        ..blank(Kind::FwInfo)
    }
}

// The reply that a good frame's payload carries, by its id. By the byte and not by `Kind`, because it takes every slice.
pub fn unpack_from(payload: &[u8]) -> CommandReply
    ensures { result ≡ reply_of payload.now }
{
    match tables::byte_at(payload, 0) {
        format::FW_VERSION => unpack_fw_version(payload),
        format::GET_VALUES => unpack_get_values(payload),
        format::GET_VALUES_SELECTIVE => unpack_get_values_selective(payload),
        format::GET_VALUES_SETUP_SELECTIVE => unpack_get_values_setup_selective(payload),
        format::GET_STATS => unpack_get_stats(payload),
        format::RESET_STATS => blank(Kind::ResetStats),
        format::FW_INFO => unpack_fw_info(payload),
        _ => empty(),
    }
}

// The payload of the good frame that `frame` starts with, as long as the length byte says: the part of the slice that goes to the
// field readers. Of other bytes, what there is of such a part.
pub fn payload(frame: &[u8]) -> &[u8]
    ensures { result.now ≡ payload_in short frame.now }
{
    if frame.len() < format::PAYLOAD_AT {
        return &frame[..0];
    }
    let part = &frame[format::PAYLOAD_AT..];
    let len = usize::from(frame[1]).min(part.len());
    &part[..len]
}

// The reply of the good frame that `frame` starts with.
#[tactic(auto, unfolding(crate::specs::Decode::reply_in))]
pub fn reply_in(frame: &[u8]) -> CommandReply
    ensures { result ≡ reply_in frame.now }
{
    unpack_from(payload(frame))
}

// The reply that a good frame carries, or why there is none. Ports `decode` of src/command.rs: judged first, and the fields
// read only of a good frame.
pub fn decode(buf: &[u8]) -> Result<(usize, CommandReply), DecodeError>
    ensures { decoded result ≡ decode_of buf.now }
{
    let count = judge::judge(buf)?;
    Ok((count, reply_in(buf)))
}
