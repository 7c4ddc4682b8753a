//! Copies of tracks between a frame and a cartridge, a whole block at a time.
//!
//! A `Transfer` says which cylinder is staged into which frame, or destaged from it, and which track is next.
//! `copy_track` copies that one. The layers above rely on its contract, `CopiesTrack` of `specs/Copies.antt`: one block at
//! most is written, and after success it equals its source. They rely on `law` too: a copy that is due by the volume's row
//! (`specs/Dues.antt`) leaves what is shown at every moment, and once all tracks are copied the row may say so.
//!
//! Layers above cite lemmas of `proofs/`: a write of a whole block (`CopyFacts`), and copies that are due
//! (`DueFacts`).
#![tactic(auto)]

mod copy;
pub mod law;
mod transfer;

pub use copy::copy_track;
pub use transfer::{Transfer, TransferKind};
