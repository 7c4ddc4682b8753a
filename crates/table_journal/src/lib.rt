//! The slots of a block: short notes behind its first 512 bytes, each with a gate, appended one at a time.
//!
//! `specs/Slots.antt` says which slots of a block are in use, and what holds at each moment while one is appended.
//! `read_slots` counts them, `slot` lends the body of one, and `append_slot` adds one by two firm writes. What a body means
//! isn't known here: these are bytes. The layers above rely on these three, and on the lemmas of `proofs/SlotFacts.antt`.
#![tactic(auto)]

mod append;
mod layout;
mod read;

pub use append::{SLOT_ITEMS, append_slot};
pub use layout::{SLOT_BODY_BYTES, SLOT_BYTES, SLOTS, SLOTS_AT};
pub use read::{read_slots, slot};
