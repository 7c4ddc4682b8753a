//! Jobs in threads behind gates, as tests: that hosts and recorders go on at once, and that each passes its points.
//!
//! Each run goes by `threads`, as the command's does, on devices in memory. What no clause says is what they show: a body
//! that let hosts and recorders act one after another, or that made their ends up, would meet each contract. Nothing
//! stands on this crate.
#![tactic(auto)]

#[cfg(test)]
mod alone;
#[cfg(test)]
mod copier;
#[cfg(test)]
mod copies;
#[cfg(test)]
mod gates;
#[cfg(test)]
mod pairs;
#[cfg(test)]
mod points;
#[cfg(test)]
mod running;
