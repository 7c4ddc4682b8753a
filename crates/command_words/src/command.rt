//! What the words ask for.
use std::alloc::AllocError;
use victim_rules::Ruled;

/// A copy of a volume that a run is to take.
#[derive(Clone, Copy)]
pub struct CopyAsked {
    /// The volume, 0 to 31.
    pub volume: u8,
    /// How many entries the history has at the copy's point, 0 to 4,096.
    pub after: u64,
}

/// What the words of the command ask for.
#[derive(Clone, Copy)]
pub enum Command {
    /// A run in one thread.
    Serial {
        /// The number from which turns and load are drawn.
        order: u64,
        /// How many turns are drawn at the start of the run, 0 to 100,000.
        turns: u32,
        /// Of how many programs, 1 to 1,000, a load stands in for the input's job, if one does.
        load: Option<u32>,
        /// The copy that is taken, if one is. There is none of a load.
        copy: Option<CopyAsked>,
    },
    /// A run in one thread, in which rules choose the page that gives its frame to another.
    Policy {
        rules: Ruled,
        /// The rest is that of `Serial`.
        order: u64,
        turns: u32,
        load: Option<u32>,
        copy: Option<CopyAsked>,
    },
    /// A run in threads.
    Threads {
        /// The copy that is taken, if one is.
        copy: Option<CopyAsked>,
    },
    /// A look at the volumes.
    Show,
    /// An audit of the site.
    Audit {
        /// How many frames are allowed, 1 to 200.
        frames: u16,
    },
    /// A comparison of the sessions that choosers make of one job.
    Compare,
}

/// Why words ask for nothing.
#[derive(Clone, Copy)]
pub enum CommandFault {
    /// They are no command with its options.
    Refused,
    /// Memory ran out.
    Memory,
}

impl From<AllocError> for CommandFault {
    ghost use Rattle.std.specs.Prelude.{◌≡◌};
    ghost use Rattle.command_words.specs.declared.command.CommandFault.TheVariants.{Memory};

    ghost from_gives = { λ _ fault. fault ≡ Memory };

    fn from(_error: AllocError) -> CommandFault {
        CommandFault::Memory
    }
}
