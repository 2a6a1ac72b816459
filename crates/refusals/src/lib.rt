// Why an answer is no. Ports `DecodeError` and `EncodeError` of src/command.rs; document 01, "Six
// refusals", gives each its number and says what is returned with it. Document 02 adds the rest. Callers print the
// number: README.md names the call `number`.
#![tactic(auto)]

ghost use Rattle.std.specs.Prelude.{◌≡◌};
ghost use Rattle.refusals.specs.Refusals.{decode_refusal, encode_refusal, write_back_refusal, reply_write_refusal, feed_refusal};

// Why a slice is not read.
#[derive(Clone, Copy, Debug, PartialEq, Eq)]
pub enum DecodeError {
    IncompleteData,
    InvalidFrame,
    UnknownPacket { id: u8 },
    ChecksumMismatch { expected: u16, actual: u16 },
}

// Why a buffer is not written.
#[derive(Clone, Copy, Debug, PartialEq, Eq)]
pub enum EncodeError {
    BufferTooSmall = 5,
    PayloadTooLong = 6,
}

// Why a command that was read is not written back.
#[derive(Clone, Copy, Debug, PartialEq, Eq)]
pub enum WriteBackError {
    InvalidFrame = 2,
    PayloadTooLong = 6,
    BufferTooSmall = 5,
}

// Why a reply is not written.
#[derive(Clone, Copy, Debug, PartialEq, Eq)]
pub enum ReplyWriteError {
    UnknownMaskBits = 8,
    BadName = 7,
    BufferTooSmall = 5,
}

// Why the gateway feed takes nothing.
#[derive(Clone, Copy, Debug, PartialEq, Eq)]
pub enum FeedError {
    NotDrained = 15,
}

impl DecodeError {
    // Document 01's number.
    pub fn number(self) -> u8
        ensures { result ≡ (decode_refusal self).number }
    {
        match self {
            DecodeError::IncompleteData => 1,
            DecodeError::InvalidFrame => 2,
            DecodeError::UnknownPacket { id: _ } => 3,
            DecodeError::ChecksumMismatch {
                expected: _,
                actual: _,
            } => 4,
        }
    }
}

impl EncodeError {
    // Document 01's number.
    pub fn number(self) -> u8
        ensures { result ≡ (encode_refusal self).number }
    {
        self as u8 // 5 or 6
    }
}

impl WriteBackError {
    // Document 01's number.
    pub fn number(self) -> u8
        ensures { result ≡ (write_back_refusal self).number }
    {
        self as u8
    }
}

impl ReplyWriteError {
    // Document 02's number.
    pub fn number(self) -> u8
        ensures { result ≡ (reply_write_refusal self).number }
    {
        self as u8
    }
}

impl FeedError {
    // Document 02's number.
    pub fn number(self) -> u8
        ensures { result ≡ (feed_refusal self).number }
    {
        self as u8
    }
}

// A command that is written back meets both refusals of `encode`.
impl From<EncodeError> for WriteBackError {
    ghost from_gives = { λ error given. write_back_refusal given ≡ encode_refusal error };

    fn from(error: EncodeError) -> WriteBackError {
        match error {
            EncodeError::BufferTooSmall => WriteBackError::BufferTooSmall,
            EncodeError::PayloadTooLong => WriteBackError::PayloadTooLong,
        }
    }
}
