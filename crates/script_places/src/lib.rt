//! Where a host stands in its script, and which call it makes next.
//!
//! A `Place` keeps the item of the script, and where its channel program stands. `entered` is the place at the start of
//! an item, `due_call` the call that comes next, `pass` moves the place behind its reply. Both drivers walk so through the
//! scripts of their hosts. What is left of a script behind a list of calls with their replies is `specs/Scripts.antt`,
//! and when a place is there `specs/Places.antt`. The layers above rely on these clauses, and on the lemmas of
//! `proofs/ScriptFacts.antt`: calls that came next, one by one, follow the script (`plays_follows`), and to its end
//! where none comes next (`plays_to_end`, `ended_has_none`).
//!
//! Layers above cite lemmas of `proofs/`: a place that goes on (`PlaceFacts`).
#![tactic(auto)]

mod place;

pub use place::{Place, due_call, entered, has_call, pass};
