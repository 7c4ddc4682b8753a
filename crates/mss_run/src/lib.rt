//! A session of hosts and recorders at once, over one lock.
//!
//! `Shared` is a core that hosts and recorders share: each call does one event in one hold of its lock, and the pass
//! that a host hands in comes back having seen what the call saw (`specs/Answers.antt`). So every reply stands in one
//! history, whatever the order in which hosts and recorders come: it is legal from the volumes that were shown when the
//! session began, and what a host has seen is a beginning of it. The core under the lock is always one that its type
//! lets be.
//!
//! `run_actors` runs each host and each recorder of a job as an actor of its own. It tells of each host which places of
//! the history are its own, and whether what it was told there follows its script to the end, and what ended the run
//! (`specs/Owns.antt`, `specs/Runs.antt`). An actor's step is one event, or a host's wait that changed nothing and one
//! event of a recorder behind it. Steps of one actor may share a hold of the lock. The loops call a `Gate` between
//! holds, with the lock free. Who is in stands in the lock beside the core (`specs/Presence.antt`). An actor sleeps
//! only where it finds nothing to do (`specs/Sleep.antt`), and only an event that gives the others nothing wakes nobody.
//!
//! Where a copy of a volume is asked for, a copier stands beside the core under the lock, and is an actor more. It
//! comes back for the copy that was asked for, and stands for the session.
//!
//! The layers above rely on these clauses, on the laws of `law`, and on what a session began with
//! (`specs/Beginning.antt`, with `opens_itself` of `proofs/AnswerFacts.antt`). What a hold of the lock keeps is
//! `specs/Held.antt`; what an event of the core leaves for it, `specs/Happens.antt`. That threads get on, that none
//! waits for ever, and how long they take, no contract says.
#![tactic(auto)]

mod actor;
mod booked;
mod copying;
mod ends;
mod event;
mod held;
mod hold;
mod holds;
mod host;
pub mod law;
mod present;
mod run;
mod script;
mod setup;
mod shared;
mod worker;

pub use actor::{Actor, Gate, OpenGate, Point};
pub use ends::{HostEnd, HostEnds, Places, RunAnswer, RunEnd};
pub use run::run_actors;
pub use setup::Setup;
pub use shared::Shared;
