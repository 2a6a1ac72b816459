// The names that a caller uses. Ports src/lib.rs: encode commands, decode replies, decode a stream; and document 02's
// W2, commands read and written back. A crate that uses the types lists their crates too: copy the line of `example` in
// crates.txt. specs/Frames.antt has document 01's proved frames as one table, specs/Demands.antt the three demands.
#![tactic(auto)]

pub use codes::{FaultCode, HwType, QmlHw};
pub use command::{Command, StatsMask, ValuesMask, ValuesSetupMask, raw_of};
pub use command_reader::{CommandRead, hop_part, read_command, write_command};
pub use decoder::{Decoder, Fed, Figures, GatewayFed, Next};
pub use encode::encode;
pub use firmware::{FwInfo, FwVersion};
pub use format::CommandId;
pub use judge::judge;
pub use raw_command::RawCommand;
pub use refusals::{DecodeError, EncodeError, FeedError, WriteBackError};
pub use reply::{CommandReply, Kind, decode};
pub use telemetry::{SetupValues, Stats, Values};
pub use text::{has_text, text};
