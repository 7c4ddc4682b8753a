// How hosts ended, and what ended a run.
use core_state::Core;
use mss_base::{HostNo, Listed, Site};
use std::marker::Model;
use victim_choice::Choose;
use volume_copy::Copier;

/// Places in a history, in rising order.
pub type Places = Listed<u64>;

/// How a host ended.
#[derive(Drop)]
pub struct HostEnd {
    pub host: HostNo,
    /// Whether it came to the end of its script.
    pub finished: bool,
    /// The places of the entries that it was told of.
    pub own: Places,
}

impl Model for HostEnd {
    ghost use Rattle.mss_run.specs.Runs.{EndData};

    ghost Value = { EndData };

    ghost view = { λ e. record { host = e.host; finished = e.finished; own = e.own.items } };
}

/// The ends of hosts, at most one of each.
pub type HostEnds = Listed<HostEnd>;

/// What ended a run.
#[derive(Clone, Copy)]
pub enum RunAnswer {
    /// Every host came to the end of its script.
    Done,
    /// A write failed, with this count of faults behind it.
    Stopped { fault: u64 },
    /// The history has all the entries that a session may have, and a host has a further call.
    CommandLimit,
    Memory,
}

/// What a run leaves.
#[derive(Drop)]
pub struct RunEnd<S: Site, C: Choose> {
    pub core: Core<S, C>,
    /// The copier, if a copy of a volume is asked for.
    pub copier: Option<Copier>,
    pub hosts: HostEnds,
    pub answer: RunAnswer,
}
