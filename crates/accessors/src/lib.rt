//! The two accessors, which carry cartridges between cells and recorders on one rail.
//!
//! The left one always stands left of the right one, and so it does at each place of a move: kept by the type `Rail`,
//! and by `plan_move`. `specs/Moves.antt` says which accessor serves a move, and what each does. The layers above rely
//! on `moved_from_to`, and on the places of cells and recorders (`specs/Rails.antt`).
#![tactic(auto)]

mod places;
mod rail;

pub use places::{CELL_PLACES, RAIL_END, cell_place, recorder_place};
pub use rail::{Accessor, MovePlan, Rail, plan_move};
