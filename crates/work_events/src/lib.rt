//! The events of recorders: a recorder meets the first rule that applies to it, and does one step
//! of work by it.
//!
//! `work_event` is the event. What each rule asks is `core_state/specs/WorkRules.antt`, what it
//! answers and leaves is `WorkEvents.antt` there; the contract of `work_event` is that definition,
//! for the rule that is met. That the core stays whole is in its type, so each event function
//! proves it anew.
//!
//! - `rule` finds the rule without memory, over `transfer`, what a task is to copy next, and
//!   `choices`, the frames that a task may take.
//! - `carrying`, `picking`, `copy`, `ending` and `frames` have a function for each rule, over the
//!   steps in `parts`.
//! - `law` has what the layers above rely on besides: `specs/WorkLaws.antt`, in the words of the
//!   subject.
//!
//! The lemma files begin from `proofs/RuleFacts.antt`, which says of each rule what is known of the
//! core that meets it. A whole core after an event is `CarryWhole`, `PickWhole`, `CopyWhole`,
//! `FailedWhole`, `DestageWhole`, `StageWhole`, `FreeWhole` and `AssignWhole`, over `OwnTask`; what
//! the change of a row leaves of a core is `ChangedRows`, over a core with room, for the answers,
//! `RowSteps`, and behind the sync of copies `EndSteps`. What comes of any event, for the laws, is
//! `Outcomes`.
//!
//! Layers above cite lemmas of `proofs/`: what every event of a recorder keeps (`WorkLawFacts`).
#![tactic(auto)]

mod carrying;
mod choices;
mod copy;
mod ending;
mod event;
mod frames;
pub mod law;
mod parts;
mod picking;
mod rule;
mod transfer;

pub use event::work_event;
pub use rule::work_rule;
