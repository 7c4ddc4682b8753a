//! What each host has seen of one history.
//!
//! The history is a list of entries that stands in proofs alone. What threads share is one word, a `Word`, that counts
//! them. A `Book` knows the whole history, each host's `HostPass` a beginning of it and all entries of its own host. So
//! a reply that comes from another thread can say where in the one history it stands, and that what its host had seen
//! before begins that history. The layers above rely on the clauses of the calls (`specs/Books.antt`); the rule of the
//! word is `Kept` of `specs/Rule.antt`, and each of the six kinds of step keeps it (`proofs/Keeps.antt`). The crate
//! starts no thread and waits for nothing, so it needs no handle.
#![tactic(auto)]

mod calls;
mod moves;
mod passes;
mod rule;
mod types;

pub use calls::{append, close, host_pass, look, make, see, start_book};
pub use passes::PassList;
pub use types::{Blank, Book, HostPass, Name, Opening, Word};
