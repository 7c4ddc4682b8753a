//! Calls of hosts and their replies.
use crate::argument::Argument;
use mss_base::{Bytes, VolumeNo};

/// Why a channel program broke off.
#[derive(Clone, Copy)]
pub enum BreakCause {
    /// Its next word leads to no command.
    Program,
    /// A further command would follow the most that a program runs.
    Limit,
}

/// A device command of a host.
#[derive(Drop)]
pub struct DeviceCommand {
    pub code: u8,
    /// The bytes that the channel moves to the device; those past what the command needs are ignored.
    pub argument: Argument,
    /// Whether a further command is to follow in the same chain.
    pub chained: bool,
}

/// What a host asks.
#[derive(Drop)]
pub enum Call {
    /// Mounts a volume; with `bind` its staged pages keep their frames while it is mounted.
    Mount { volume: VolumeNo, bind: bool },
    /// Gives back the mounted volume.
    Demount,
    Command(DeviceCommand),
    /// Ends the chain, for a program that broke off.
    Break { cause: BreakCause },
}

/// What a host is told.
#[derive(Drop)]
pub enum Reply {
    /// The command ended with this unit status, the sum of status modifier 0x40, channel end 0x08, device end 0x04,
    /// unit check 0x02 and unit exception 0x01; `bytes` are what it read.
    Done { status: u8, bytes: Bytes },
    /// The volume is mounted now.
    Mounted,
    /// The volume is given back.
    Demounted,
    /// Not mounted: the host has a volume.
    AlreadyMounted,
    /// Nothing to demount: the host has no volume.
    NotMounted,
    /// Not mounted: no such volume is configured.
    NoVolume,
    /// Neither mounted nor demounted: the host's chain is open.
    InChain,
    /// The chain ended: the program's next word leads to no command.
    ProgramCheck,
    /// The chain ended: the program ran the most commands that a program runs.
    ChainLimit,
    /// The chain ended: a device failed below the command.
    EquipmentCheck,
    /// The chain ended: no frame can be had for the command's page.
    NoSpace,
    /// A write failed below the command and the session stopped: the command counts as unanswered.
    Stopped,
}
