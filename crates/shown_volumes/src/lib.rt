//! The volumes that a content shows, whether the content is sound, and its first fault.
//!
//! `specs/Shown.antt` says which volumes the rows of a content show, `specs/Sound.antt` when rows and blocks agree,
//! `specs/Faults.antt` which fault of a content is the first, `specs/Changing.antt` which blocks the shown volumes
//! stand on and when a row may change. The layers above rely on these definitions and on `law`: what a write, or a
//! change of a row, leaves of the shown volumes. `Refused` names each fault. `frame_in`, `on_cartridge` and
//! `shown_place` find a page and a track by the rows.
//!
//! Proofs above may cite these files of proofs/: `TableFacts` (which rows a content has), `PlaceFacts` (where blocks
//! lie), `ShownFacts` (which blocks are shown), `OutsideFacts` and `FrameFacts` (what writes outside and into frames
//! leave), `AllowedFacts` (what an allowed change needs), `MomentFacts` (what holds at each moment).
//!
//! Layers above also cite lemmas of `proofs/`: the first fault of rows (`FaultFacts`), the walks that look for it
//! (`HalfLemmas`, `PageLemmas`, `WalkFacts`), a row with another mark (`MarkFacts`), another row of one volume
//! (`RowFacts`), what an allowed change makes a row stand on (`UnderFacts`), and what loose writes leave
//! (`QuietFacts`).
#![tactic(auto)]

pub mod law;
mod places;
mod refused;

pub use places::{frame_in, on_cartridge, shown_place};
pub use refused::{Half, Refused};
