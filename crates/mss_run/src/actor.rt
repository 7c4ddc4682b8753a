// Actors, the gate that they pass between their holds of the lock, and what they share.
use crate::setup::Setup;
use crate::shared::Shared;
use core_state::WorkKind;
use mss_base::{HostNo, RecorderNo, Site};
use std::alloc::Global;
use victim_choice::Choose;

/// Who acts.
#[derive(Clone, Copy)]
pub enum Actor {
    Host(HostNo),
    Recorder(RecorderNo),
    /// Who takes a copy of a volume, where one is asked for.
    Copier,
}

/// Where an actor is when it passes a gate.
#[derive(Clone, Copy)]
pub enum Point {
    /// Before it is counted in, or before a copier's first take.
    Enter,
    /// After an event of this host's own call that was replied or marked, where it let go of the lock.
    Host(HostNo),
    /// After a work event that did something, by whichever actor did it, where it let go of the lock.
    Work(WorkKind),
    /// After a track that the copier took, where others are left.
    Take,
    /// After it was counted out, or after a copier's last take.
    Leave,
}

/// What actors pass between their holds of the lock, with the lock free. It may hold them.
pub trait Gate {
    fn pass(&self, actor: Actor, point: Point);

    /// How many events of one actor may stand in one hold of the lock. It passes behind the last. Where it is 0 or 1,
    /// it passes behind each.
    fn events_in_a_hold(&self) -> u8;
}

/// A gate that holds nobody.
#[derive(Clone, Copy)]
pub struct OpenGate;

/// So many that the lock is handed on seldom, and so few that the others' wait is short, at some microseconds each.
const EVENTS_IN_A_HOLD: u8 = 250;

impl Gate for OpenGate {
    fn pass(&self, _actor: Actor, _point: Point) {}

    fn events_in_a_hold(&self) -> u8 {
        EVENTS_IN_A_HOLD
    }
}

/// What the actors of a run share. Its methods are what an actor does.
#[derive(Drop)]
pub(crate) struct Run<'a, N: Setup, S: Site, C: Choose, G: Gate, R> {
    pub rt: &'a R,
    pub alloc: Global,
    pub shared: &'a Shared<N, S, C>,
    pub gate: &'a G,
}
