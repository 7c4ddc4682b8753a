// The recorders' work.
ghost use Rattle.std.specs.Prelude.{◌≡◌, ◌≤◌, ◌<◌, ℕ};
ghost use Rattle.core_state.specs.Chains.{is_idle, worked};
ghost use Rattle.core_state.specs.WorkEvents.{WorkEvent};
ghost use Rattle.core_state.specs.CoreValue.{seen_core};
ghost use Rattle.core_progress.specs.WorkLeft.{run_left};
ghost use Rattle.serial_driver.specs.declared.answer.DriveAnswer.TheVariants.{Done};
ghost use Rattle.serial_driver.specs.Answers.{of_work};

use crate::answer::DriveAnswer;
use crate::drive::{Drive, answer_of};
use core_progress::law::{idle_cores_are_settled, work_leaves_less, work_leaves_the_run};
use core_state::WorkAnswer;
use host_events::look;
use mss_base::{RecorderNo, Site};
use victim_choice::Choose;

/// How a turn of the recorders ended, and whether each was idle.
#[derive(Clone, Copy)]
pub struct Turn {
    pub answer: DriveAnswer,
    pub idle: bool,
}

/// Whether a recorder had nothing to do.
fn is_idle(told: WorkAnswer) -> bool
    ensures { (recorder : ℕ) → result ≡ is_idle (worked recorder told) }
{
    match told {
        WorkAnswer::Idle => true,
        WorkAnswer::Did(_) => false,
        WorkAnswer::Stopped { .. } => false,
        WorkAnswer::Memory => false,
    }
}

impl<'a, S: Site, C: Choose> Drive<'a, S, C> {
    ghost use Rattle.serial_driver.specs.Drives.{LeavesDrive, SettlesIt, terms_of};
    ghost use Rattle.serial_driver.specs.Turns.{TurnsTo, LeavesLessBy};

    /// An event of the recorder with a number, and what it leaves to do.
    pub(crate) fn work_of(&mut self, number: u8) -> WorkAnswer
        requires low { number < self.old.core.config.recorders }
        requires few { number < 8 }
        ensures event { WorkEvent S.tells (C.may self.old.core.chooser)
            (seen_core S.Site self.old.core) number result (seen_core S.Site self.new.core) }
        ensures less { of_work result ≡ Done → LeavesLessBy
            (seen_core S.Site self.old.core) number result (seen_core S.Site self.new.core) }
        ensures history { self.new.core.history ≡ self.old.core.history }
        ensures leaves { LeavesDrive S.Site self.old self.new (of_work result) }
    {
        let Some(recorder) = RecorderNo::of(number) else {
            unreachable!()
        };
        look(self.core());
        work_leaves_less::<S, C>();
        work_leaves_the_run::<S, C>();
        self.work(recorder)
    }

    /// One event of each recorder, in order, until one ends them.
    fn turn(&mut self) -> Turn
        ensures turns { TurnsTo (terms_of S.Site C.may self.old)
            (seen_core S.Site self.old.core) result (seen_core S.Site self.new.core) }
        ensures leaves { LeavesDrive S.Site self.old self.new result.answer }
    {
        let mut idle = true;
        let recorders = self.core().recorder_count();
        for number in 0..recorders {
            let told = self.work_of(number);
            match answer_of(told) {
                DriveAnswer::Done => {}
                answer => return Turn { answer, idle },
            }
            idle &= is_idle(told);
        }
        Turn {
            answer: DriveAnswer::Done,
            idle,
        }
    }

    /// Lets the recorders work, one event of each in turn, until a whole turn is idle: then nothing is left to do.
    /// An event that finds the core stopped, or stops it, or that is refused memory, ends it before. What is left
    /// of a run doesn't grow.
    pub fn settle(&mut self) -> DriveAnswer
        ensures settles { SettlesIt (terms_of S.Site C.may self.old)
            (seen_core S.Site self.old.core) result (seen_core S.Site self.new.core) }
        ensures run { result ≡ Done → run_left (seen_core S.Site self.new.core)
            ≤ run_left (seen_core S.Site self.old.core) }
        ensures leaves { LeavesDrive S.Site self.old self.new result }
    {
        loop {
            let turn = self.turn();
            match turn.answer {
                DriveAnswer::Done => {}
                halted => return halted,
            }
            if turn.idle {
                look(self.core());
                idle_cores_are_settled();
                return DriveAnswer::Done;
            }
        }
    }
}
