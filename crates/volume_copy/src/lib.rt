//! A copy of a volume as it was at one point of the history, taken while hosts go on writing.
//!
//! A `Copier` begins at its point, and takes one track after the other as the devices show it; the track under a
//! host's write is taken before the write. What the copy stands for is said of histories and plain volumes alone
//! (`StandsFor` of `specs/Copies.antt`): a taken track is that of the volume at the point, and any other is the same
//! there as now. Each call keeps it, and so does each event of a session (`law`).
#![tactic(auto)]

mod beside;
mod copier;
pub mod law;
mod reading;
mod taken;

pub use beside::CopiedCore;
pub use copier::{Copier, CopyState};
pub use taken::TRACKS;
