//! The row of a volume: its serial, its two cartridges, which page has which frame, the state of each cylinder. And the
//! rows of all volumes.
//!
//! `specs/Row.antt` says what a row is, `specs/Grammar.antt` how its 512 bytes spell it, `specs/Changes.antt` which
//! changes are allowed and what each does, `specs/Slots.antt` how a slot behind the row spells a change, and which
//! row a body and its slots tell. Bodies of version 1 are read, and none is written. `decode_row`, `encode_row`,
//! `is_allowed`, `apply`, `encode_slot`, `decode_slot` and `decode_told` are exactly these definitions. The layers
//! above rely on them, and on `law`. `Rows` has a place for each of the 32 volumes; that there are so many, and that
//! what stands in them are rows, is its invariant (`specs/Listed.antt`), which `look` tells. Proofs above may cite
//! these files of proofs/: `RowFacts` (what a change does to each page and each cylinder), `RowLemmas` (what keeps a
//! row one) and `SlotFacts` (that a change is read back from its slot, and that one slot more is one change more).
//!
//! Layers above also cite lemmas of `proofs/`: the pieces of a spelling (`SpellingLemmas`).
#![tactic(auto)]

mod changes;
mod decode;
mod encode;
mod fault;
pub mod law;
mod layout;
mod lists;
mod row;
mod rows;
mod slots;
mod state;

pub use changes::{Change, apply, is_allowed};
pub use decode::{check_row, decode_row, is_old};
pub use encode::encode_row;
pub use fault::{DecodeFault, RowFault, RowField};
pub use layout::{BODY, BODY_BYTES, BODY_END, CHANGE_BYTES, ROW_BYTES, SLOT_BYTES};
pub use lists::{PageList, StateList};
pub use row::VolumeRow;
pub use rows::Rows;
pub use slots::{apply_slot, decode_slot, decode_told, encode_slot};
pub use state::CylinderState;
