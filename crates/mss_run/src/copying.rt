// The copier as an actor.
use crate::actor::{Actor, Gate, Point, Run};
use crate::held::CopyTurn;
use crate::setup::Setup;
use mss_base::Site;
use std::sync::Wait;
use victim_choice::Choose;

impl<N: Setup, S: Site, C: Choose, G: Gate, R: Wait> Run<'_, N, S, C, G, R> {
    /// Takes tracks for the copy, one in each hold, until none is left, no host is in, or the run has ended.
    ///
    /// Where memory is wanting it leaves too: whoever called for the run has the copier back, and `finish` tries again.
    pub fn copy(&self) {
        self.gate.pass(Actor::Copier, Point::Enter);
        for _ in self.rt.forever() {
            match self.shared.take(self.rt) {
                CopyTurn::Took => self.gate.pass(Actor::Copier, Point::Take),
                CopyTurn::Waits => {}
                CopyTurn::Leaves | CopyTurn::Lacks => break,
            }
        }
        self.gate.pass(Actor::Copier, Point::Leave);
    }
}
