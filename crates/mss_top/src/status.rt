//! How a run ended.
ghost use Rattle.std.specs.Prelude.{◌≡◌};
ghost use Rattle.mss_top.specs.Status.{code_of};

/// How a run ended. The earlier of these stands where several come, but `OutputFault` takes the
/// place of any.
#[derive(Clone, Copy, PartialEq, Eq)]
pub enum Status {
    /// All that was asked was done, and told.
    Done,
    /// The words aren't a command.
    WordsRefused,
    /// The source failed.
    InputFault,
    JobRefused,
    /// The devices don't hold what a session begins with, or failed before it.
    RestartRefused,
    /// A write failed in the session, or a read for its report.
    Stopped,
    /// The session has all the entries that it may have, and a host has a further call.
    Limit,
    /// The sink failed.
    OutputFault,
    /// Memory ran out.
    Memory,
}

impl Status {
    /// The exit status of the process, 0 to 8.
    pub fn code(self) -> u8
        ensures { result ≡ code_of self }
    {
        match self {
            Status::Done => 0,
            Status::WordsRefused => 1,
            Status::InputFault => 2,
            Status::JobRefused => 3,
            Status::RestartRefused => 4,
            Status::Stopped => 5,
            Status::Limit => 6,
            Status::OutputFault => 7,
            Status::Memory => 8,
        }
    }
}
