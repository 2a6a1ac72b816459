// Firmware version and build information. Ports `FwVersion` and `FwInfo` of src/command.rs with their readers; the texts of
// their names are the crate `text`'s, over the lent name bytes. A payload that ends early reads as if zeros followed; a good
// frame's never does (judge/specs/Good.antt).
#![tactic(auto, using(crate::proofs::Given::given))]

ghost use Rattle.std.specs.Prelude.{◌≡◌, [], ◌∷◌, ◌≤◌, length, replicate};
ghost use Rattle.packer.specs.Numbers.{numbers_at};
ghost use Rattle.layout.specs.Layout.{name, raw_of, after_of, raws};
ghost use Rattle.layout.specs.Replies.{fw_version_rest};
ghost use Rattle.firmware.specs.RawVersion.{raw_version_by, raw_version_of, version_from, no_raw_fw_version};
ghost use Rattle.firmware.specs.Firmware.{fw_version_of, fw_info_of, no_fw_version, no_fw_info};

use codes::{HwType, QmlHw};

// Firmware version data.
#[derive(Clone, Copy, Debug, Default, PartialEq, Eq)]
pub struct FwVersion {
    pub major: u8,
    pub minor: u8,
    pub hw_name: [u8; format::FW_VERSION_NAME_MAX_LEN],
    pub uuid: [u8; 12],
    pub pairing_done: bool,
    pub test_version_number: u8,
    pub hw_type: HwType,
    pub custom_config_num: u8,
    pub has_phase_filters: bool,
    pub qml_hw: QmlHw,
    pub qml_app: u8,
    pub nrf_flags: u8,
    pub fw_name: [u8; format::FW_VERSION_NAME_MAX_LEN],
    pub hw_crc: u32,
}

// The same, each flag and kind as the byte that was carried: four fields have other types, and a caller names them.
#[derive(Clone, Copy, Debug, Default, PartialEq, Eq)]
pub struct RawFwVersion {
    pub major: u8,
    pub minor: u8,
    pub hw_name: [u8; format::FW_VERSION_NAME_MAX_LEN],
    pub uuid: [u8; 12],
    pub pairing_done: u8,
    pub test_version_number: u8,
    pub hw_type: u8,
    pub custom_config_num: u8,
    pub has_phase_filters: u8,
    pub qml_hw: u8,
    pub qml_app: u8,
    pub nrf_flags: u8,
    pub fw_name: [u8; format::FW_VERSION_NAME_MAX_LEN],
    pub hw_crc: u32,
}

// Firmware build information.
#[derive(Clone, Copy, Debug, Default, PartialEq, Eq)]
pub struct FwInfo {
    pub major: u8,
    pub minor: u8,
    pub test_version_number: u8,
    pub commit_hash: [u8; format::FW_INFO_COMMIT_HASH_MAX_LEN],
    pub user_commit_hash: [u8; format::FW_INFO_COMMIT_HASH_MAX_LEN],
}

// The name at a place of a payload, and the place after it. A refused name reads as zeros, and the place is the end, so that
// nothing more is read.
fn name_or_zeros<const N: usize>(payload: &[u8], at: usize) -> ([u8; N], usize)
    ensures bytes { result.0 ≡ raw_of (name N) payload.now at }
    ensures next { result.1 ≡ after_of (name N) payload.now at }
    ensures within { result.1 ≤ length payload.now }
{
    names::unpack_c_string(payload, at).unwrap_or(([0; N], payload.len()))
}

// The first twelve bytes; of fewer, those and zeros, where `packer::unpack_uuid` refuses.
fn uuid_of(part: &[u8]) -> [u8; 12]
    ensures { result ≡ numbers_at (replicate 12 1) part.now 0 }
{
    let mut uuid = [0u8; 12];
    let there = part.len().min(12);
    uuid[..there].copy_from_slice(&part[..there]);
    uuid
}

// The fields after hw_name: their places in the part do not depend on the name.
fn raw_fw_version_after(
    major: u8,
    minor: u8,
    hw_name: [u8; format::FW_VERSION_NAME_MAX_LEN],
    rest: &[u8],
) -> RawFwVersion
    ensures { result ≡ raw_version_by ((major ∷ minor ∷ []), (hw_name, raws fw_version_rest rest.now 0)) }
{
    let (fw_name, end) = name_or_zeros(rest, 20);
    RawFwVersion {
        major,
        minor,
        hw_name,
        uuid: uuid_of(rest),
        pairing_done: tables::byte_at(rest, 12),
        test_version_number: tables::byte_at(rest, 13),
        hw_type: tables::byte_at(rest, 14),
        custom_config_num: tables::byte_at(rest, 15),
        has_phase_filters: tables::byte_at(rest, 16),
        qml_hw: tables::byte_at(rest, 17),
        qml_app: tables::byte_at(rest, 18),
        nrf_flags: tables::byte_at(rest, 19),
        fw_name,
        hw_crc: tables::word_at(rest, end),
    }
}

// The part after hw_name is handed on from the payload's middle.
pub fn unpack_raw_fw_version(payload: &[u8]) -> RawFwVersion
    ensures { result ≡ raw_version_of payload.now }
{
    let (hw_name, end) = name_or_zeros(payload, 3);
    raw_fw_version_after(
        tables::byte_at(payload, 1),
        tables::byte_at(payload, 2),
        hw_name,
        &payload[end..],
    )
}

// The flags and kinds that the carried bytes stand for; a true flag is a nonzero byte. The other fields as they are.
impl From<RawFwVersion> for FwVersion {
    ghost from_gives = { λ raw given. given ≡ version_from raw };

    fn from(raw: RawFwVersion) -> FwVersion {
        let RawFwVersion {
            hw_name,
            uuid,
            fw_name,
            ..
        } = raw;
        FwVersion {
            major: raw.major,
            minor: raw.minor,
            hw_name,
            uuid,
            pairing_done: raw.pairing_done != 0,
            test_version_number: raw.test_version_number,
            hw_type: HwType::from(raw.hw_type),
            custom_config_num: raw.custom_config_num,
            has_phase_filters: raw.has_phase_filters != 0,
            qml_hw: QmlHw::from(raw.qml_hw),
            qml_app: raw.qml_app,
            nrf_flags: raw.nrf_flags,
            fw_name,
            hw_crc: raw.hw_crc,
        }
    }
}

pub fn unpack_fw_version(payload: &[u8]) -> FwVersion
    ensures { result ≡ fw_version_of payload.now }
{
    FwVersion::from(unpack_raw_fw_version(payload))
}

pub fn unpack_fw_info(payload: &[u8]) -> FwInfo
    ensures { result ≡ fw_info_of payload.now }
{
    let (commit_hash, end) = name_or_zeros(payload, 4);
    let (user_commit_hash, _) = name_or_zeros(payload, end);
    FwInfo {
        major: tables::byte_at(payload, 1),
        minor: tables::byte_at(payload, 2),
        test_version_number: tables::byte_at(payload, 3),
        commit_hash,
        user_commit_hash,
    }
}

// The records with nothing in them, by the names that the specs have for them.
pub fn no_raw_fw_version() -> RawFwVersion
    ensures { result ≡ no_raw_fw_version }
{
    RawFwVersion::default()
}

pub fn no_fw_version() -> FwVersion
    ensures { result ≡ no_fw_version }
{
    FwVersion::default()
}

pub fn no_fw_info() -> FwInfo
    ensures { result ≡ no_fw_info }
{
    FwInfo::default()
}
