//! Blocks, tracks and commands, each said by value.
//!
//! Nothing stands on this crate. Its tests show devices in memory with their faults and stops, slots and tracks in
//! blocks made by hand, and channel commands below which a device fails or in which a stop comes. What is said
//! stands in texts, which few functions play, since a test is proved as any function. What commands answer,
//! `tests/test_programs.py` shows on the built program.
#![tactic(auto)]

#[cfg(test)]
mod bench;
#[cfg(test)]
mod commands;
#[cfg(test)]
mod devices;
#[cfg(test)]
mod engine;
#[cfg(test)]
mod lines;
#[cfg(test)]
mod machine;
#[cfg(test)]
mod sites;
#[cfg(test)]
mod slots;
#[cfg(test)]
mod streams;
#[cfg(test)]
mod tracks;
#[cfg(test)]
mod words;
