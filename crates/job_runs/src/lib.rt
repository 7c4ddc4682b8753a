//! A job, run on a site: restart, serial run, and a report or a summary.
//!
//! `play` takes a site up, and lets the hosts of the job call and the recorders work: by turns that it is handed, and
//! then until no host has a call. Its clause `played` (`specs/Runs.antt`) says of the session what hosts and devices
//! are promised; `plain_sessions` has it in plain volumes. `run_job` puts the report behind it, and `run_load` a
//! summary; the clause `ends` of each says what a reader is promised, and `unread` of `run_job` at which track a report
//! may break off. What every session promises, in threads too, is `IsPromised`; a layer above that plays sessions
//! otherwise cites it, with `look` and `put_report`, and the lemmas of `proofs/SessionFacts.antt`.
//!
//! Layers above also cite lemmas of `proofs/`: what a report tells of a copy (`CopyTold`), and a run whose copy is
//! finished (`FinishFacts`).
#![tactic(auto)]

mod load;
mod run;
mod telling;

pub use load::run_load;
pub use run::{JobEnd, Outcome, Played, finish_copy, look, play, put_report, run_job};
