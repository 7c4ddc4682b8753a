// Why a command ends with unit check.
use crate::host::HostState;

/// Why a command ended with unit check; the host's sense tells it.
#[derive(Clone, Copy, Debug, PartialEq, Eq)]
pub enum UnitCheck {
    /// The command is unknown, or its argument, its prior or the file mask forbids it.
    CommandReject,
    /// No volume is mounted.
    InterventionRequired,
    /// A device failed; plain volumes never give it.
    EquipmentCheck,
    /// A new record would cost more than its track has.
    InvalidTrackFormat,
    /// A multi-track command passed the index of the last head.
    EndOfCylinder,
    /// The second pass of the index, or a record that isn't there.
    NoRecordFound,
    /// The file mask forbids the seek, or the switch to the next head.
    FileProtected,
    /// No frame is free for the volume's page; plain volumes never give it.
    NoSpace,
}

/// A command that ended with unit check, and the host as the command left it.
#[derive(Clone, Copy, Debug, PartialEq, Eq)]
pub struct Refusal {
    pub check: UnitCheck,
    pub host: HostState,
}
