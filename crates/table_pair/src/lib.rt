//! The row of a volume in two copies, such that a stop at any moment leaves the old row or the new one.
//!
//! Block v of the table's copy A and block v of its copy B each have a gate, the row's body, a made mark, and slots,
//! which change the row of the body. A change appends a slot to each copy; where a copy has none free, it is
//! rewritten with the new row and without slots. Bodies of version 1 are written anew by `migrate`. How many are in
//! use is told to each call, and told by it (`SlotsUsed`). `specs/Pair.antt` says which row two copies tell, also
//! where one of them can't be read, and what holds at each moment of a change; `specs/Order.antt` says that copy A is
//! done before copy B is touched, and `specs/Slots.antt` what a change leaves, how many slots are in use then, and how
//! few items of the log it makes. The layers above rely on `read_row`, `change_row`, `create_row`, `repair` and
//! `migrate`, over every site, on `law`, and on the lemmas of `proofs/PairFacts.antt` and `proofs/SiteLemmas.antt`.
//!
//! A copy's block is read by its front, and whole only where more slots may follow (`read_copy_block`), so what was
//! read is known by the copy in it (`copy_at` of `specs/Copies.antt`).
//!
//! Layers above cite lemmas of `proofs/`: the moments of a repair (`RepairLemmas`).
#![tactic(auto)]

mod change;
mod copy;
mod create;
mod front;
pub mod law;
mod migrations;
mod read;
mod repairs;
mod write;

pub use change::{CHANGE_ITEMS, change_row};
pub use copy::{
    CopyState, RepairFault, Repaired, RowRead, RowTrouble, SlotsUsed, SlotsUsedList, TableCopy,
    place_of,
};
pub use create::create_row;
pub use migrations::migrate;
pub use read::{by_table, copy_state, read_row};
pub use repairs::repair;
