//! The parts of the machine, each said by value.
//!
//! Nothing stands on this crate. Its tests show moves of the accessors and of cartridges, recorders,
//! requests for cylinders, choosers, and what two hosts have seen of a history. Codes and channel
//! programs, `tests/test_programs.py` shows on the built program; tracks in frames, `tests/test_rows.py`.
#![tactic(auto)]

#[cfg(test)]
mod books;
#[cfg(test)]
mod cells;
#[cfg(test)]
mod choosers;
#[cfg(test)]
mod rails;
#[cfg(test)]
mod recorders;
#[cfg(test)]
mod requests;
