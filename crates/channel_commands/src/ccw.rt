//! Channel command words.
use crate::argument::Argument;

/// One word of a channel program.
#[derive(Drop)]
pub enum Ccw {
    /// A device command by its code, with the bytes that the channel moves to the device.
    Device { code: u8, argument: Argument },
    /// Transfer in channel, to a word of the program counted from 0.
    Transfer { to: u8 },
}
