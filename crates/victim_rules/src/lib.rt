//! Which page gives its frame to another, by rules that narrow the candidates.
//!
//! A rule holds of some candidates of a list, and narrows it to those, or leaves it as it is where it holds of none
//! (`specs/Rules.antt`). `Ruled` narrows by up to eight rules in turn and answers the first candidate that is left;
//! `read_rules` reads them from a text (`specs/Texts.antt`). `Narrow` narrows by one closure (`specs/Closures.antt`).
//! What a closure narrows to is a law (`law.rt`). The layers above rely on both as choosers of `victim_choice`. Neither
//! takes memory.
#![tactic(auto)]

mod choosing;
pub mod law;
mod narrow;
mod reading;
mod rule;
mod ruled;

pub use narrow::Narrow;
pub use reading::{RulesFault, read_rules};
pub use rule::Rule;
pub use ruled::Ruled;
