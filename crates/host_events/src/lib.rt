//! Events of hosts: a call meets the first rule that applies, and is answered by it.
//!
//! `host_event` does what that rule says; a function stands for each rule that changes something.
//! `host_rule` finds the rule. The laws say what an event adds and what it leaves as it was
//! (`specs/Leaves.antt`), why a call is answered as it is (`specs/Causes.antt`), and that a stopped
//! core stays so. What the rule that is met says of the core is `proofs/RuleFacts.antt`; which rule
//! is met, by what the call finds, `RuleOf.antt`; what an event does, case by case,
//! `Outcomes.antt`; what every reply owes to the core, `ReplyFacts.antt`.
//!
//! Layers above cite lemmas of `proofs/`: causes of answers (`CauseFacts`), what an event leaves
//! (`EventLeaves`), mounts (`Mounts`), and events of a stopped core (`Stopped`).
#![tactic(auto)]

mod answer;
mod copies;
mod event;
mod exception;
pub mod law;
mod mark;
mod prepare;
mod refusal;
mod reply;
mod requests;
mod respond;
mod rule;
mod run;
mod wait;

pub use answer::HostAnswer;
pub use event::{EVENT_ITEMS, host_event};
pub use refusal::{look, refused};
pub use rule::host_rule;
