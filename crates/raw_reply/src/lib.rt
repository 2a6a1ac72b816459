// Replies as their frames carry them, before any scaling: document 02, W4. The Rust reads a frame only into its scaled values. A raw reply
// is filled by the fields' own names, as an update of `blank` of its kind.
#![tactic(auto)]

ghost use Rattle.std.specs.Prelude.{◌≡◌};
ghost use Rattle.raw_reply.specs.RawReply.{blank_raw, raw_as, raw_reply_of, reply_from};
ghost use Rattle.raw_reply.specs.Reading.{raw_read, raw_read_of};
ghost use Rattle.reply.specs.declared.Kind.TheVariants as kind;

use firmware::{FwInfo, FwVersion, RawFwVersion};
use raw_telemetry::{RawSetupValues, RawStats, RawValues};
use refusals::DecodeError;
use reply::{CommandReply, Kind};
use tables::Sort;

// A raw reply: its kind says which record it carries. The reader leaves zeros in the others. `FwInfo` has no number that is scaled, and
// no flag, so it is its own raw record. It has the shape of `CommandReply`, and the readers below that of crate `reply`'s: one generic
// reply would need a trait of four types and eight functions with laws, which is longer than both.
#[derive(Clone, Copy)]
pub struct RawReply {
    pub kind: Kind,
    pub values: RawValues,
    pub setup_values: RawSetupValues,
    pub stats: RawStats,
    pub fw_version: RawFwVersion,
    pub fw_info: FwInfo,
}

// A raw reply of a kind, with nothing in its records.
#[tactic(auto, unfolding(crate::specs::RawReply::blank_raw))]
pub fn blank(kind: Kind) -> RawReply
    ensures { result ≡ blank_raw kind }
{
    RawReply {
        kind,
        values: raw_telemetry::no_values(),
        setup_values: raw_telemetry::no_setup_values(),
        stats: raw_telemetry::no_stats(),
        fw_version: firmware::no_raw_fw_version(),
        fw_info: firmware::no_fw_info(),
    }
}

// GetValues carries no mask: it has all 22 bits.
fn unpack_get_values(payload: &[u8]) -> RawReply
    ensures { result ≡ raw_as kind.GetValues payload.now }
{
    let raw = tables::unpack_fields(payload, 1, Sort::Values, format::ALL_VALUES);
    RawReply {
        values: raw_telemetry::values_of(format::ALL_VALUES, raw),
        ..blank(Kind::GetValues)
    }
}

// This reader and the two after it differ in the field that they fill, as those of `reply` do.
fn unpack_get_values_selective(payload: &[u8]) -> RawReply
    ensures { result ≡ raw_as kind.GetValuesSelective payload.now }
{
    let (mask, raw) = reply::masked_fields(payload, Sort::Values);
    RawReply {
        values: raw_telemetry::values_of(mask, raw),
        ..blank(Kind::GetValuesSelective)
    }
}

fn unpack_get_values_setup_selective(payload: &[u8]) -> RawReply
    ensures { result ≡ raw_as kind.GetValuesSetupSelective payload.now }
{
    let (mask, raw) = reply::masked_fields(payload, Sort::SetupValues);
    RawReply {
        setup_values: raw_telemetry::setup_values_of(mask, raw),
        ..blank(Kind::GetValuesSetupSelective)
    }
}

fn unpack_get_stats(payload: &[u8]) -> RawReply
    ensures { result ≡ raw_as kind.GetStats payload.now }
{
    let (mask, raw) = reply::masked_fields(payload, Sort::Stats);
    RawReply {
        stats: raw_telemetry::stats_of(mask, raw),
        ..blank(Kind::GetStats)
    }
}

fn unpack_fw_version(payload: &[u8]) -> RawReply
    ensures { result ≡ raw_as kind.FwVersion payload.now }
{
    RawReply {
        fw_version: firmware::unpack_raw_fw_version(payload),
        ..blank(Kind::FwVersion)
    }
}

fn unpack_fw_info(payload: &[u8]) -> RawReply
    ensures { result ≡ raw_as kind.FwInfo payload.now }
{
    RawReply {
        fw_info: firmware::unpack_fw_info(payload),
        ..blank(Kind::FwInfo)
    }
}

// The raw reply that a good frame's payload carries, by its id. By the byte and not by `Kind`, because it takes every slice.
fn raw_from(payload: &[u8]) -> RawReply
    ensures { result ≡ raw_reply_of payload.now }
{
    match tables::byte_at(payload, 0) {
        format::FW_VERSION => unpack_fw_version(payload),
        format::GET_VALUES => unpack_get_values(payload),
        format::GET_VALUES_SELECTIVE => unpack_get_values_selective(payload),
        format::GET_VALUES_SETUP_SELECTIVE => unpack_get_values_setup_selective(payload),
        format::GET_STATS => unpack_get_stats(payload),
        format::RESET_STATS => blank(Kind::ResetStats),
        format::FW_INFO => unpack_fw_info(payload),
        _ => blank(Kind::FwVersion),
    }
}

// Reads the reply frame at the front of `buf` into its raw reply. Refuses as `decode` does, with the same values, and gives the same count.
pub fn read_reply(buf: &[u8]) -> Result<(usize, RawReply), DecodeError>
    ensures { raw_read result ≡ raw_read_of buf.now }
{
    let count = judge::judge(buf)?;
    Ok((count, raw_from(reply::payload(buf))))
}

// The reply with its scaled values: of what `read_reply` read, the one that `decode` gives of the same frame.
impl From<RawReply> for CommandReply {
    ghost from_gives = { λ raw given. given ≡ reply_from raw };

    fn from(raw: RawReply) -> CommandReply {
        CommandReply {
            kind: raw.kind,
            values: telemetry::values_of(
                raw.values.mask,
                raw_telemetry::values_numbers(raw.values),
            ),
            setup_values: telemetry::setup_values_of(
                raw.setup_values.mask,
                raw_telemetry::setup_values_numbers(raw.setup_values),
            ),
            stats: telemetry::stats_of(raw.stats.mask, raw_telemetry::stats_numbers(raw.stats)),
            fw_version: FwVersion::from(raw.fw_version),
            fw_info: raw.fw_info,
        }
    }
}
