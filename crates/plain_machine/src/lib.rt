//! The plain machine, to be run: volumes in memory, to which hosts make their calls.
//!
//! `plain_step` gives each call's reply and the state after it, and equals `plain` of `ckd_plain` (`specs/StateData.antt`
//! says which state the lists in memory stand for). Nothing of the product stands on it: tests run it beside the product.
#![tactic(auto)]

mod index;
mod read;
mod run;
mod search;
mod state;
mod trouble;
mod volume;
mod write;

pub use run::run_command;
pub use state::{PlainState, plain_step};
