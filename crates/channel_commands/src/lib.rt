//! Channel commands: the table of codes, channel command words, and calls of hosts with their replies.
//!
//! `command_of` and `least` equal the table and the lengths of `specs/Codes.antt`, which says each of the 37 codes
//! once; what a command does to a track is for the layers above. Calls, replies and words hold bytes, so contracts
//! speak of them as the plain data of `specs/Data.antt`, by `call_of`, `reply_of` and `ccw_of` of `specs/Views.antt`. A long
//! `Argument` is in memory once, however many words, calls and entries hold it.
#![tactic(auto)]

mod argument;
mod call;
mod ccw;
mod codes;
mod command;

pub use argument::{Argument, INLINE_BYTES};
pub use call::{BreakCause, Call, DeviceCommand, Reply};
pub use ccw::Ccw;
pub use codes::{UnknownCode, command_of, least};
pub use command::{Command, ReadWhat, SearchField, SearchTest, SeekKind, WriteKind};
