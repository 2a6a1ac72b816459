// The numbers of the format, each named once: ids, the bytes and sizes of a frame, the rooms of names, the bits
// of masks, what a decoder holds. Ports `CommandId` and the constants of src/command.rs and src/decoder.rs.
// specs/Format.antt has the same numbers from documents 01 and 02; the contract of `named` holds the two together.
#![tactic(auto)]

ghost use Rattle.std.specs.Prelude.{◌≡◌};
ghost use Rattle.refusals.specs.Refusals.{consumed};
ghost use Rattle.format.specs.Format.{numbers};
ghost use Rattle.format.specs.Ids.{id_named};

use refusals::DecodeError;

// The first byte of each command and reply.
#[derive(Clone, Copy, Debug, PartialEq, Eq)]
pub enum CommandId {
    FwVersion = 0,
    GetValues = 4,
    SetDuty = 5,
    SetCurrent = 6,
    SetCurrentBrake = 7,
    SetRpm = 8,
    SetPos = 9,
    SetHandbrake = 10,
    Reboot = 29,
    Alive = 30,
    ForwardCan = 34,
    GetValuesSelective = 50,
    GetValuesSetupSelective = 51,
    SetCurrentRel = 84,
    SetOdometer = 110,
    GetStats = 128,
    ResetStats = 129,
    Shutdown = 156,
    FwInfo = 157,
    MotorEstop = 159,
}

// The ids as constants, because a match takes no cast.
pub const FW_VERSION: u8 = CommandId::FwVersion as u8;

pub const GET_VALUES: u8 = CommandId::GetValues as u8;

pub const SET_DUTY: u8 = CommandId::SetDuty as u8;

pub const SET_CURRENT: u8 = CommandId::SetCurrent as u8;

pub const SET_CURRENT_BRAKE: u8 = CommandId::SetCurrentBrake as u8;

pub const SET_RPM: u8 = CommandId::SetRpm as u8;

pub const SET_POS: u8 = CommandId::SetPos as u8;

pub const SET_HANDBRAKE: u8 = CommandId::SetHandbrake as u8;

pub const REBOOT: u8 = CommandId::Reboot as u8;

pub const ALIVE: u8 = CommandId::Alive as u8;

pub const FORWARD_CAN: u8 = CommandId::ForwardCan as u8;

pub const GET_VALUES_SELECTIVE: u8 = CommandId::GetValuesSelective as u8;

pub const GET_VALUES_SETUP_SELECTIVE: u8 = CommandId::GetValuesSetupSelective as u8;

pub const SET_CURRENT_REL: u8 = CommandId::SetCurrentRel as u8;

pub const SET_ODOMETER: u8 = CommandId::SetOdometer as u8;

pub const GET_STATS: u8 = CommandId::GetStats as u8;

pub const RESET_STATS: u8 = CommandId::ResetStats as u8;

pub const SHUTDOWN: u8 = CommandId::Shutdown as u8;

pub const FW_INFO: u8 = CommandId::FwInfo as u8;

pub const MOTOR_ESTOP: u8 = CommandId::MotorEstop as u8;

// The command that has an id.
impl TryFrom<u8> for CommandId {
    type Error = DecodeError;

    ghost try_from_gives = { λ byte result. consumed result ≡ id_named byte };

    #[tactic(auto, unfolding(crate::specs::Ids::id_among))]
    fn try_from(byte: u8) -> Result<CommandId, DecodeError> {
        match byte {
            FW_VERSION => Ok(CommandId::FwVersion),
            GET_VALUES => Ok(CommandId::GetValues),
            SET_DUTY => Ok(CommandId::SetDuty),
            SET_CURRENT => Ok(CommandId::SetCurrent),
            SET_CURRENT_BRAKE => Ok(CommandId::SetCurrentBrake),
            SET_RPM => Ok(CommandId::SetRpm),
            SET_POS => Ok(CommandId::SetPos),
            SET_HANDBRAKE => Ok(CommandId::SetHandbrake),
            REBOOT => Ok(CommandId::Reboot),
            ALIVE => Ok(CommandId::Alive),
            FORWARD_CAN => Ok(CommandId::ForwardCan),
            GET_VALUES_SELECTIVE => Ok(CommandId::GetValuesSelective),
            GET_VALUES_SETUP_SELECTIVE => Ok(CommandId::GetValuesSetupSelective),
            SET_CURRENT_REL => Ok(CommandId::SetCurrentRel),
            SET_ODOMETER => Ok(CommandId::SetOdometer),
            GET_STATS => Ok(CommandId::GetStats),
            RESET_STATS => Ok(CommandId::ResetStats),
            SHUTDOWN => Ok(CommandId::Shutdown),
            FW_INFO => Ok(CommandId::FwInfo),
            MOTOR_ESTOP => Ok(CommandId::MotorEstop),
            _ => Err(DecodeError::UnknownPacket { id: byte }),
        }
    }
}

// A frame's first byte, and its last.
pub const FRAME_START_SHORT: u8 = 2;

pub const FRAME_END: u8 = 3;

// Where a frame's payload begins: behind the start byte and the length byte.
pub const PAYLOAD_AT: usize = 2;

// What a frame adds to its payload: the start, length and end bytes, and two of the sum.
pub const FRAME_EXTRA: usize = 5;

// What stands behind the payload: two bytes of the sum, and the end byte.
pub const BEHIND_PAYLOAD: usize = FRAME_EXTRA - PAYLOAD_AT;

// The most that a length byte can say.
pub const PAYLOAD_MAX: usize = 255;

// The rooms of the names in FwVersion, and of those in FwInfo.
pub const FW_VERSION_NAME_MAX_LEN: usize = 39;

pub const FW_INFO_COMMIT_HASH_MAX_LEN: usize = 47;

// The bytes that a decoder has room for.
pub const CAPACITY: usize = 512;

// The most that a drained decoder has unread: all but the last byte of the longest frame.
pub const DRAINED_MOST: usize = 109;

// The rows of the longest field table.
pub const TABLE_ROWS: usize = 24;

// How many bits the masks of GetValuesSelective, GetValuesSetupSelective and GetStats have.
pub const VALUES_BITS: usize = 22;

pub const SETUP_BITS: usize = 22;

pub const STATS_BITS: usize = 11;

// And together.
pub const MASK_BITS: usize = VALUES_BITS + SETUP_BITS + STATS_BITS;

// The mask of every field of GetValues.
pub const ALL_VALUES: u32 = (1 << VALUES_BITS) - 1;

// The numbers above, one after the other: the test that they are those of specs/Format.antt.
pub fn named() -> [u32; 34]
    ensures { result ≡ numbers }
{
    [
        CommandId::FwVersion as u32,
        CommandId::GetValues as u32,
        CommandId::SetDuty as u32,
        CommandId::SetCurrent as u32,
        CommandId::SetCurrentBrake as u32,
        CommandId::SetRpm as u32,
        CommandId::SetPos as u32,
        CommandId::SetHandbrake as u32,
        CommandId::Reboot as u32,
        CommandId::Alive as u32,
        CommandId::ForwardCan as u32,
        CommandId::GetValuesSelective as u32,
        CommandId::GetValuesSetupSelective as u32,
        CommandId::SetCurrentRel as u32,
        CommandId::SetOdometer as u32,
        CommandId::GetStats as u32,
        CommandId::ResetStats as u32,
        CommandId::Shutdown as u32,
        CommandId::FwInfo as u32,
        CommandId::MotorEstop as u32,
        FRAME_START_SHORT as u32,
        FRAME_END as u32,
        PAYLOAD_AT as u32,
        FRAME_EXTRA as u32,
        PAYLOAD_MAX as u32,
        FW_VERSION_NAME_MAX_LEN as u32,
        FW_INFO_COMMIT_HASH_MAX_LEN as u32,
        CAPACITY as u32,
        DRAINED_MOST as u32,
        TABLE_ROWS as u32,
        VALUES_BITS as u32,
        SETUP_BITS as u32,
        STATS_BITS as u32,
        ALL_VALUES,
    ]
}
