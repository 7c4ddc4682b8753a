//! Channel programs: which call of a host comes next, and when a list of calls with replies follows a script.
//!
//! `next` gives the next call of a program by a cursor, and equals the definition of `specs/Script.antt`; `command_call`
//! makes a command a `Call`. All is said over plain lists of exchanges, a call and its reply each. How a script ends is
//! `specs/Items.antt`. That lists which grow call by call and item by item follow a script are the laws of `law`.
//!
//! Layers above cite lemmas of `proofs/`: items by number (`ItemFacts`).
#![tactic(auto)]

mod calls;
mod cursor;
mod law;
mod program;

pub use calls::command_call;
pub use cursor::{Cursor, NextCall, command_at, next};
pub use law::{
    commands_are_few, finished_script_follows, program_finishes, program_goes_on, script_goes_on,
    script_is_left,
};
pub use program::{Program, WORD_LIMIT, Words};
