//! The plain machine: what hosts see of 3330 volumes, with no cartridge, page, table or fault behind them.
//!
//! The definition is `plain` of `specs/Plain.antt`, whose parts stand beside it by subject: the checks, where a command
//! finds its record, what each command does. The layers above rely on it, on legal histories (`specs/History.antt`, which
//! grow by the laws of `laws`), and on what a stop may leave of a write (`specs/Near.antt`). An engine builds its answers
//! of the `steps`, whatever holds its tracks; `plain_machine` is one on tracks in memory.
//!
//! Of the proofs the layers above may cite: `Entries` and `Histories`, on which entries may come next and what a history
//! leaves; `CommandFacts`, `WriteFacts` and `SenseFacts`, on what a command never does, what a write needs and what sense
//! tells; `ResponseFacts`, on calls that need no track.
//!
//! Layers above also cite lemmas of `proofs/`: when a chain goes on (`ChainFacts`), what the checks say of an
//! admitted command (`CheckFacts`), what a call leaves of the other hosts (`HostFacts`) and of the volumes
//! (`VolumeFacts`), one look of a search (`IndexFacts`), and how many records a track has (`TrackFacts`).
#![tactic(auto)]

mod answer;
mod checks;
mod control;
mod done;
mod entry;
mod found;
mod host;
mod index;
pub mod laws;
mod read;
mod response;
mod search;
pub mod steps;
mod unit_check;
mod write;

pub use checks::admitted;
pub use entry::Entry;
pub use host::{HostState, Position, Prior};
pub use unit_check::{Refusal, UnitCheck};
