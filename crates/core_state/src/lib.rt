//! The core: all that a session knows of its hosts, volumes, frames, recorders and cartridges, and
//! the rules by which it goes on.
//!
//! The core as plain data is `specs/CoreValue.antt`. Which rule an event meets is in
//! `HostRules.antt` and `WorkRules.antt`; what each rule answers, and the core that it leaves, in
//! `HostEvents.antt` and `WorkEvents.antt`, made of the steps in `Steps.antt` and of what is seen
//! of the devices, `Devices.antt`; what many events are, in `Chains.antt`. The layers above rely on
//! these definitions, on `looks` and `make_room`, and on `write_change`, by which alone a row
//! changes.
//!
//! They rely on what the type `Core` keeps between two events (`IsKept` of `specs/TheCore.antt`).
//! At every moment:
//! - `whole.shaped`: each list has its length, and the history 4,096 entries at most, each with its
//!   mark.
//! - `counted`: marks never fall; entries are numbered, and a stop is the last; each fault that is
//!   kept is of a call that failed since the session began, of another one than the others; the
//!   fault of the stop is above them all.
//!
//! While it isn't stopped (`whole.kept`, `specs/IsCore.antt`):
//! - `alone`, `on_mounted`: a volume has one owner at most, and a request is on its host's volume
//!   and cylinder.
//! - `framed`, `owned`: a page has a frame exactly where the frame has the page.
//! - `waiting`, `fit`: the cylinder of a Queued request isn't staged, that of a Ready one is; a
//!   mounted volume has a row.
//! - `tasks_`: tasks of different recorders have different hosts and frames; the frames that they
//!   use move, and no other; their hosts' requests are Moving, and no other; a transfer is due by
//!   its row.
//! - `beside`: each frame is once in the order of touch; a cartridge is in its cell, or in the
//!   recorder that holds it.
//!
//! And over a site that tells (`whole.told`):
//! - `legal`, `agrees`: the history is legal from the volumes shown when it began, and the changes
//!   of rows agree with it.
//! - `stops`: a stop at any moment since the first write, inside a write too, leaves sound content
//!   that shows the volumes after the answered entries, or what the next one may have made of them.
//! - `going`, while it isn't stopped: the devices show the volumes after the history, the hosts are
//!   those after it, both copies of each row hold the row, with so many slots in use as the core
//!   counts, a half-done transfer has copied what it says (`served`), and no loose write lies where
//!   anything is shown or staged (`quiet`).
//!
//! Lemmas that the layers above cite, all in `proofs/`: a whole core after an event is
//! `WholeEvents`, `BesideFacts`, `Moved`, `Synced` and `Begun`, of `EntryLemmas`, `CoreWork`,
//! `RowEvents`, `StopsLemmas` and `ChangeLemmas`; its counts are `CountedFacts`; later moments, one
//! after the other, are `Later`; its tasks, rows, hosts and requests are `TaskLists`, `TaskRows`,
//! `Others`, `RowOwners`, `MovingFacts`, `Serving`, `HostFacts`, `HostTasks`, `HostRequests`,
//! `Fitting` and `CoreFacts`; the first rule of many is `RuleWalks`, with `Limits`. Worked
//! sessions, by computing, are `OneFrame`, `BoundVolumes`, `WriteWhileTaken` and `TwoHostsOneFrame`, each a chain of events by
//! `RunnerWork`.
//!
//! Layers above also cite lemmas of `proofs/`: when a chain goes on (`ChainKept`), looks at lists
//! (`LookLemmas`), a whole core of its parts (`Making`), and the rules of some calls (`RuleRows`).
#![tactic(auto)]

mod change;
pub mod law;
pub mod looks;
mod machine;
mod room;
mod rule;
mod session;
mod task;

pub use change::write_change;
pub use ckd_plain::Entry;
pub use machine::{Core, HostStateList, RecorderList, TaskList};
pub use mss_base::{Config, VolumeList};
pub use room::make_room;
pub use rule::{HostRule, Waiting, WorkAnswer, WorkKind, WorkRule};
pub use session::{
    ENTRY_LIMIT, EntryList, Event, EventList, MarkList, Message, MessageList, Session,
};
pub use task::{Task, touch, touch_all};
pub use volume_table::Rows;
