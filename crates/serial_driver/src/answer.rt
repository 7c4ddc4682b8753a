// How events ended.

/// How events of a serial run ended.
#[derive(Clone, Copy)]
pub enum DriveAnswer {
    /// Each was done.
    Done,
    /// The last found the core stopped, or stopped it, with this count of faults behind the failed write.
    Stopped { fault: u64 },
    /// The last was the call of a host that found the history full.
    CommandLimit,
    /// The last was refused memory, and all is as it was before it.
    Memory,
}
