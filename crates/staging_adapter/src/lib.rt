//! Where the track that a host names really is: in a frame on a staging disk, or nowhere yet. And which page has each
//! frame.
//!
//! A cylinder that isn't staged has no place, and a reference to it is a cylinder fault. `specs/Translation.antt` says
//! which place a track has. The layers above rely on `translate`, which is exactly this definition, on `law`: tracks lie
//! at one place only where they share a frame, and on `Frames`, which a clause sees as two lists by frame
//! (`specs/Frames.antt`).
#![tactic(auto)]

mod adapter;
mod frames;
pub mod law;

pub use adapter::{Translated, translate};
pub use frames::Frames;
