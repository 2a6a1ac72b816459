// A raw reply written as a frame: document 02, W4. The Rust only reads replies. The frame holds what `raw_reply::read_reply` reads: the id,
// then the fields that the mask has, by the tables of crate `tables`, or the bytes and names of a firmware reply.
#![tactic(auto)]

ghost use Rattle.std.specs.Prelude.{◌≡◌, true, ◌&&◌, ◌∷◌, ◌+◌, ◌≤◌, length, take, replicate};
ghost use Rattle.refusals.specs.Answers.{place_or};
ghost use Rattle.format.specs.Format.{payload_at, payload_max, name_room, hash_room, all_values};
ghost use Rattle.packer.specs.Numbers.{total, digits};
ghost use Rattle.packer.specs.Packing.{PackIs};
ghost use Rattle.names.specs.Names.{sent_of};
ghost use Rattle.tables.specs.Tables.{widths, values_table};
ghost use Rattle.tables.specs.Sorts.{table_of};
ghost use Rattle.layout.specs.Layout.{mask_widths};
ghost use Rattle.layout.specs.Replies.{fw_version_layout, fw_version_rest, fw_info_layout};
ghost use Rattle.layout.specs.Writing.{written};
ghost use Rattle.firmware.specs.RawVersion.{version_raws, info_raws};
ghost use Rattle.raw_telemetry.specs.Rows.{numbers_of};
ghost use Rattle.raw_telemetry.specs.Records.{values_rows};
ghost use Rattle.reply.specs.Reply.{kind_number};
ghost use Rattle.reply.specs.declared.Kind.TheVariants as kind;
ghost use Rattle.reply_writer.specs.Writer.{is_name, known_mask, good_names, payload_of, WriteIs};

use firmware::{FwInfo, RawFwVersion};
use format::{FRAME_EXTRA, PAYLOAD_AT};
use raw_reply::RawReply;
use raw_telemetry::RawValues;
use refusals::{EncodeError, ReplyWriteError};
use reply::Kind;
use tables::Sort;

// Whether the mask of the kind that is written has no bit but its table's. GetValues sends no mask. Each match on the kind has other
// arms beside the masked replies, so that a function for their sort and mask would be one match more.
fn known_mask(reply: RawReply) -> bool
    ensures { result ≡ known_mask reply }
{
    match reply.kind {
        Kind::GetValuesSelective => tables::known_bits(Sort::Values, reply.values.mask),
        Kind::GetValuesSetupSelective => tables::known_bits(
            Sort::SetupValues,
            reply.setup_values.mask,
        ),
        Kind::GetStats => tables::known_bits(Sort::Stats, reply.stats.mask),
        Kind::FwVersion | Kind::GetValues | Kind::ResetStats | Kind::FwInfo => true,
    }
}

// Whether bytes are a name that can be sent.
fn is_name(held: &[u8]) -> bool
    ensures { result ≡ is_name (length held.now) held.now }
{
    names::sent_len(held).is_some()
}

// Whether the names of the kind that is written can be sent.
fn good_names(reply: RawReply) -> bool
    ensures { result ≡ good_names reply }
{
    match reply.kind {
        Kind::FwVersion => is_name(&reply.fw_version.hw_name) && is_name(&reply.fw_version.fw_name),
        Kind::FwInfo => is_name(&reply.fw_info.commit_hash)
            && is_name(&reply.fw_info.user_commit_hash),
        Kind::GetValues
        | Kind::GetValuesSelective
        | Kind::GetValuesSetupSelective
        | Kind::GetStats
        | Kind::ResetStats => true,
    }
}

// The bytes of a name that are sent, the NUL among them; none of one that is bad.
fn name_len(held: &[u8]) -> usize
    ensures { (result ≡ place_or 0 (sent_of (length held.now) held.now)) × (result ≤ length held.now) }
{
    names::sent_len(held).unwrap_or(0)
}

// A name at a position, without the zeros behind its NUL.
fn pack_name(held: &[u8], buf: &mut [u8], pos: usize) -> Result<usize, EncodeError>
    ensures { PackIs (take (place_or 0 (sent_of (length held.now) held.now)) held.now) buf.old pos result buf.new }
{
    packer::pack_bytes(buf, pos, &held[..name_len(held)])
}

// The bytes of a masked reply: the id, the mask, and the fields that the mask has.
fn masked_len(sort: Sort, mask: u32) -> usize
    ensures { (result ≡ 5 + total (widths mask (table_of sort))) × (result ≤ payload_max) }
{
    5 + tables::span(sort, mask)
}

// The bytes of FwVersion: the id, 26 others, and its names.
fn fw_version_len(version: RawFwVersion) -> usize
    ensures { (result ≡ length (kind_number kind.FwVersion ∷ written fw_version_layout (version_raws version))) × (result ≤ payload_max) }
{
    27 + name_len(&version.hw_name) + name_len(&version.fw_name)
}

// The bytes of FwInfo: the id, three others, and its names.
fn fw_info_len(info: FwInfo) -> usize
    ensures { (result ≡ length (kind_number kind.FwInfo ∷ written fw_info_layout (info_raws info))) × (result ≤ payload_max) }
{
    4 + name_len(&info.commit_hash) + name_len(&info.user_commit_hash)
}

// The bytes of the payload. GetValues has every field, and no mask.
fn payload_len(reply: RawReply) -> usize
    ensures { (result ≡ length (payload_of reply)) × (result ≤ payload_max) }
{
    match reply.kind {
        Kind::FwVersion => fw_version_len(reply.fw_version),
        Kind::GetValues => 1 + tables::span(Sort::Values, format::ALL_VALUES),
        Kind::GetValuesSelective => masked_len(Sort::Values, reply.values.mask),
        Kind::GetValuesSetupSelective => masked_len(Sort::SetupValues, reply.setup_values.mask),
        Kind::GetStats => masked_len(Sort::Stats, reply.stats.mask),
        Kind::ResetStats => 1,
        Kind::FwInfo => fw_info_len(reply.fw_info),
    }
}

// A masked reply: the id, the mask, and the fields that the mask has, from the raw numbers of all.
fn pack_masked(
    id: u8,
    sort: Sort,
    mask: u32,
    raw: [u32; format::TABLE_ROWS],
    buf: &mut [u8],
) -> Result<usize, EncodeError>
    requires { payload_at + length (digits (1 ∷ mask_widths mask (table_of sort)) (id ∷ mask ∷ raw)) ≤ length buf.old }
    ensures { PackIs (digits (1 ∷ mask_widths mask (table_of sort)) (id ∷ mask ∷ raw)) buf.old payload_at result buf.new }
{
    let mask_at = packer::pack_u8(buf, PAYLOAD_AT, id)?;
    let fields_at = packer::pack_u32(buf, mask_at, mask)?;
    tables::pack_fields(buf, fields_at, sort, mask, raw)
}

// GetValues: the id, and every field.
fn pack_get_values(values: RawValues, buf: &mut [u8]) -> Result<usize, EncodeError>
    requires { payload_at + length (digits (1 ∷ widths all_values values_table) (kind_number kind.GetValues ∷ numbers_of values_table (values_rows values))) ≤ length buf.old }
    ensures { PackIs (digits (1 ∷ widths all_values values_table) (kind_number kind.GetValues ∷ numbers_of values_table (values_rows values))) buf.old payload_at result buf.new }
{
    let fields_at = packer::pack_u8(buf, PAYLOAD_AT, format::GET_VALUES)?;
    tables::pack_fields(
        buf,
        fields_at,
        Sort::Values,
        format::ALL_VALUES,
        raw_telemetry::values_numbers(values),
    )
}

// What follows hw_name in FwVersion.
fn pack_fw_version_after(
    version: RawFwVersion,
    buf: &mut [u8],
    pos: usize,
) -> Result<usize, EncodeError>
    requires { pos + length (written fw_version_rest (version_raws version).1.1) ≤ length buf.old }
    ensures { PackIs (written fw_version_rest (version_raws version).1.1) buf.old pos result buf.new }
{
    let single = [
        version.pairing_done,
        version.test_version_number,
        version.hw_type,
        version.custom_config_num,
        version.has_phase_filters,
        version.qml_hw,
        version.qml_app,
        version.nrf_flags,
    ];
    let single_at = packer::pack_bytes(buf, pos, &version.uuid)?;
    let fw_name_at = packer::pack_bytes(buf, single_at, &single)?;
    let crc_at = pack_name(&version.fw_name, buf, fw_name_at)?;
    packer::pack_u32(buf, crc_at, version.hw_crc)
}

fn pack_fw_version(version: RawFwVersion, buf: &mut [u8]) -> Result<usize, EncodeError>
    requires { payload_at + length (kind_number kind.FwVersion ∷ written fw_version_layout (version_raws version)) ≤ length buf.old }
    ensures { PackIs (kind_number kind.FwVersion ∷ written fw_version_layout (version_raws version)) buf.old payload_at result buf.new }
{
    let front = [format::FW_VERSION, version.major, version.minor];
    let hw_name_at = packer::pack_bytes(buf, PAYLOAD_AT, &front)?;
    let uuid_at = pack_name(&version.hw_name, buf, hw_name_at)?;
    pack_fw_version_after(version, buf, uuid_at)
}

fn pack_fw_info(info: FwInfo, buf: &mut [u8]) -> Result<usize, EncodeError>
    requires { payload_at + length (kind_number kind.FwInfo ∷ written fw_info_layout (info_raws info)) ≤ length buf.old }
    ensures { PackIs (kind_number kind.FwInfo ∷ written fw_info_layout (info_raws info)) buf.old payload_at result buf.new }
{
    let front = [
        format::FW_INFO,
        info.major,
        info.minor,
        info.test_version_number,
    ];
    let commit_at = packer::pack_bytes(buf, PAYLOAD_AT, &front)?;
    let user_at = pack_name(&info.commit_hash, buf, commit_at)?;
    pack_name(&info.user_commit_hash, buf, user_at)
}

// The payload at its place in a buffer that has room for it.
fn pack_payload(reply: RawReply, buf: &mut [u8]) -> Result<usize, EncodeError>
    requires { payload_at + length (payload_of reply) ≤ length buf.old }
    ensures { PackIs (payload_of reply) buf.old payload_at result buf.new }
{
    match reply.kind {
        Kind::FwVersion => pack_fw_version(reply.fw_version, buf),
        Kind::GetValues => pack_get_values(reply.values, buf),
        Kind::GetValuesSelective => pack_masked(
            format::GET_VALUES_SELECTIVE,
            Sort::Values,
            reply.values.mask,
            raw_telemetry::values_numbers(reply.values),
            buf,
        ),
        Kind::GetValuesSetupSelective => pack_masked(
            format::GET_VALUES_SETUP_SELECTIVE,
            Sort::SetupValues,
            reply.setup_values.mask,
            raw_telemetry::setup_values_numbers(reply.setup_values),
            buf,
        ),
        Kind::GetStats => pack_masked(
            format::GET_STATS,
            Sort::Stats,
            reply.stats.mask,
            raw_telemetry::stats_numbers(reply.stats),
            buf,
        ),
        Kind::ResetStats => packer::pack_u8(buf, PAYLOAD_AT, format::RESET_STATS),
        Kind::FwInfo => pack_fw_info(reply.fw_info, buf),
    }
}

// Writes the frame of a raw reply at the front of `buf`. A refusal writes nothing.
pub fn write_reply(reply: RawReply, buf: &mut [u8]) -> Result<usize, ReplyWriteError>
    ensures { WriteIs reply buf.old result buf.new }
{
    if !known_mask(reply) {
        return Err(ReplyWriteError::UnknownMaskBits); // refusal 8, tested first
    }
    if !good_names(reply) {
        return Err(ReplyWriteError::BadName); // refusal 7, tested before 5
    }
    let len = payload_len(reply);
    if buf.len() < len + FRAME_EXTRA {
        return Err(ReplyWriteError::BufferTooSmall); // refusal 5, tested last
    }
    // With room, neither refuses: no payload of a reply is too long for a frame, so that `ReplyWriteError` has no PayloadTooLong to
    // be made by `From`.
    pack_payload(reply, buf).map_err(|_| ReplyWriteError::BufferTooSmall)?;
    frame::wrap(len, buf).map_err(|_| ReplyWriteError::BufferTooSmall)
}
