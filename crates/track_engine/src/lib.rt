//! Channel commands on the blocks of a cylinder.
//!
//! `run_command` runs a search, read or write where the data lie: it gives the reply and leaves the host that the
//! plain machine gives on these tracks, and leaves blocks of the new tracks. The layers above rely on `performed` of
//! the plain machine over `tracks_at` (`specs/Tracks.antt`), and on what a stop within a write may leave
//! (`specs/Writing.antt`).
#![tactic(auto)]

mod find;
mod place;
mod read;
mod run;
mod search;
mod write;

pub use place::{CylinderPlace, EngineFault};
pub use run::run_command;
