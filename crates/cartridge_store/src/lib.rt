//! Where the cartridges are: in cells, in an accessor's hand, in recorders.
//!
//! Each cartridge has one place, and no place but one holds it (`specs/Places.antt`). The layers above rely on that,
//! and on `move_to`, which moves one cartridge alone.
#![tactic(auto)]

mod store;

pub use store::{CARTRIDGES, MoveFault, Place, Store};
