//! One job by several choosers, to compare what they bring about.
//!
//! `compared` plays a job by four choosers, each on devices of its own that hold zeros and of which no call fails, and
//! keeps the sessions; `specs/Comparing.antt` says what each of them promises. `put_policies` puts a line for each, with
//! what its console counts (`specs/Texts.antt`). The devices are those of `memory_devices` (`sound_site.rt`), and are let
//! go before the next session begins. Sessions of one host that binds no volume are alike (`law.rt`).
//!
//! Layers above cite lemmas of `proofs/`: one session more, or none (`Added`).
#![tactic(auto)]

mod alone;
mod comparing;
pub mod law;
mod sound_site;
mod texts;

pub use comparing::{Comparison, SessionList, compared};
pub use sound_site::SoundSite;
pub use texts::put_policies;
