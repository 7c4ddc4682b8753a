//! A job, run on a site in threads: restart, hosts and recorders at once, and a report.
//!
//! `run_at_once` takes a site up, lets each host of the job and each recorder go in a thread of its own, over one lock
//! (`mss_run`), and puts the report behind that. Its clause `ends` (`specs/Runs.antt`) says that the session promises
//! what every session does, whatever the order in which the threads came, how each host ended, and what a reader is
//! promised. That the threads get on, and how fast, no clause says.
//!
//! Layers above cite lemmas of `proofs/`: a session, from its parts (`AtOnce`).
#![tactic(auto)]

mod run;

pub use run::{EndAtOnce, run_at_once};
