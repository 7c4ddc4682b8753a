//! The core with which a session begins.
//!
//! The layers above rely on `restart`: it opens the rows of a site, and makes a core of them in which nothing has
//! happened yet (`specs/Begins.antt`). What it makes of the site, and what it refuses, is that of `open_rows` of
//! `mss_restart`, said of a core in `specs/Opening.antt`; with which volumes its session begins is in
//! `specs/TakingUp.antt`.
//!
//! They rely on `law` too: whatever a stop leaves, of a session or of a restart, is taken up; and it changes nothing
//! which copies of rows can't be read, where each copy tells its row alone (`specs/OneCopy.antt` of `mss_restart`).
//!
//! Layers above cite lemmas of `proofs/`: the messages of opening changes (`ConsoleFacts`), the sync at the start
//! (`Syncing`), and the volumes that come of what a stop left (`TakenUp`).
#![tactic(auto)]

mod console;
pub mod law;
mod owners;
mod parts;
mod restarting;

pub use mss_restart::Refused;
pub use restarting::restart;
