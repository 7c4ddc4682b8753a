//! Events that give nobody else anything to do. Actors that found nothing may sleep through them.
//!
//! `specs/Quiet.antt` says who finds nothing: a recorder whose rule is the idle one, and a host whose call can but
//! wait. A layer above that lets actors sleep relies on the laws: that a wait which puts nothing down is such a one,
//! and which events leave all those who found nothing with nothing.
#![tactic(auto)]

pub mod law;
