//! The text of a job: read to a job, or to the first bad line, and written.
//!
//! `read_job` equals the grammar of `specs/Grammar.antt`, in both directions: a job, or the first bad line with the
//! first kind that applies. `specs/Lines.antt` has the form of each line and `specs/Jobs.antt` what a job keeps.
//! A job's programs and items are those of `channel_program`, so that following a script speaks of the same lists.
//!
//! Layers above cite lemmas of `proofs/`: the test of a serial's word (`Serials`).
#![tactic(auto)]

mod command;
mod job;
mod kind;
mod law;
mod line;
mod lines;
mod numbered;
mod pairs;
mod read;
mod reading;
mod words;
mod write;

pub use job::{HostScript, HostScripts, Item, ItemList, Job};
pub use kind::{JobKind, Keyword, Place};
pub use law::{
    job_back, jobs_are_whole, line_back, lines_back, one_spelling, programs_can_be_run, text_back,
};
pub use pairs::{push_hex, push_hex_byte};
pub use read::{JobFault, read_job};
pub use write::push_job;
