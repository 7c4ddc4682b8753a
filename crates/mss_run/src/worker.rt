// A recorder's worker.
use crate::actor::{Actor, Gate, Point, Run};
use crate::hold::Hold;
use crate::setup::Setup;
use core_state::WorkAnswer;
use mss_base::{RecorderNo, Site};
use std::sync::Wait;
use victim_choice::Choose;

impl<N: Setup, S: Site, C: Choose, G: Gate, R: Wait> Run<'_, N, S, C, G, R> {
    /// Works for a recorder, until that is idle and no host is in, or the run has ended.
    pub fn work_for(&self, recorder: RecorderNo) {
        self.gate.pass(Actor::Recorder(recorder), Point::Enter);
        let mut hold = Hold::new(self.gate.events_in_a_hold());
        self.shared.enter_worker(self.rt, &mut hold, recorder);
        for _ in self.rt.forever() {
            match self.shared.turn(self.rt, &mut hold, recorder) {
                Some(WorkAnswer::Did(kind)) if hold.is_free() => {
                    self.gate.pass(Actor::Recorder(recorder), Point::Work(kind));
                }
                Some(WorkAnswer::Stopped { .. } | WorkAnswer::Memory) => {
                    self.shared.end(self.rt, &mut hold);
                }
                Some(WorkAnswer::Did(_) | WorkAnswer::Idle) => {}
                None => break,
            }
        }
        self.gate.pass(Actor::Recorder(recorder), Point::Leave);
    }
}
