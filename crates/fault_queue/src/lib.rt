//! The hosts' requests for cylinders that aren't staged, in order of asking.
//!
//! A clause sees a queue as a list of hosts with their requests (`specs/Requests.antt`); its type keeps that no host has
//! two. The layers above rely on that list, and on the lemmas of `proofs/RequestFacts.antt`.
#![tactic(auto)]

mod queue;

pub use queue::{Queue, Request, RequestState};
