//! A serial run: the hosts of a job call, and the recorders work, one event after the other, on one core.
//!
//! `Drive` holds a core and the scripts of its job. `run_events` does the events of a list, and `run_turns` those of
//! hosts and recorders by number. `settle` lets the recorders work until nothing is left to do, and `run_to_end` goes
//! on by rounds until no host has a call; both come to an end on every core. `run` does turns, and then rounds. Each is
//! a chain of events from the core before to the core after it (`specs/Drives.antt`, over the relations of
//! `core_state`). What a host does next is `specs/Scripts.antt` of `script_places`. The layers above rely on what the
//! type keeps: each host's entries, in order, follow its script, and a host with an open chain or a request has a call
//! left while the core isn't stopped.
//!
//! Layers above cite lemmas of `proofs/`: reads of a copy beside a core (`ReadFacts`), and what one of them leaves of
//! a run (`TakeFacts`).
#![tactic(auto)]

mod actors;
mod answer;
mod drive;
mod host;
mod rounds;
mod turn;

pub use answer::DriveAnswer;
pub use drive::Drive;
