//! Sessions of the core, worked out by hand, as tests: each answer of hosts and recorders, alone and under the
//! lock, where devices fail, and where events are given; how many writes stand before each entry of whole runs; and
//! which volumes a start shows of what a stop within a session leaves.
//!
//! Nothing stands on this crate. What the built program shows is checked by `tests/`.
#![tactic(auto)]

#[cfg(test)]
mod choosers;
#[cfg(test)]
mod devices;
#[cfg(test)]
mod drives;
#[cfg(test)]
mod events;
#[cfg(test)]
mod items;
#[cfg(test)]
mod jobs;
#[cfg(test)]
mod lock;
#[cfg(test)]
mod marks;
#[cfg(test)]
mod replaced_pages;
#[cfg(test)]
mod running;
#[cfg(test)]
mod steps;
#[cfg(test)]
mod stops;
#[cfg(test)]
mod two_hosts;
