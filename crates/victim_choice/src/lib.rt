//! Which page gives its frame to another, and when frames were last touched.
//!
//! A chooser answers a place of a list of candidates, the least recently touched first. The layers above rely on which
//! places it may answer (`Choose::may`), and on `Chooser`, which keeps what has to hold of one; for a closure that is in
//! `specs/Choosers.antt`. They rely on `Recency`, in a clause the list of all frames by their last touch
//! (`specs/Order.antt`), and on what such a list keeps: the lemmas of `proofs/OrderFacts.antt`.
#![tactic(auto)]

mod choose;
mod kept;
mod recency;

pub use choose::{Candidate, Choose, Lru};
pub use kept::{Chooser, Kept};
pub use recency::{FrameList, Recency};
