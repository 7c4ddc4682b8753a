// Turns of hosts and recorders, by number.
ghost use Rattle.std.specs.Prelude.{◌≡◌, ◌<◌, ◌+◌, ℕ, length};
ghost use Rattle.channel_program.specs.Script.{FollowsToEnd};
ghost use Rattle.core_state.specs.CoreValue.{seen_core};
ghost use Rattle.serial_driver.specs.declared.answer.DriveAnswer.TheVariants.{Done};
ghost use Rattle.script_places.specs.Scripts.{script_of, exchanges_of};

use crate::answer::DriveAnswer;
use crate::drive::{Drive, answer_of};
use mss_base::Site;
use victim_choice::Choose;

impl<'a, S: Site, C: Choose> Drive<'a, S, C> {
    ghost use Rattle.serial_driver.specs.Drives.{AreTurns, EventTakes, LeavesDrive, RunsEvents};
    ghost use Rattle.serial_driver.specs.Drives.{RunsOn, event_of, events_of, terms_of};

    /// An event of the host or recorder with a number: the hosts of the job come first, in order, and then the
    /// recorders.
    fn act(&mut self, actor: u32) -> DriveAnswer
        requires there { actor < length self.old.scripts + self.old.core.config.recorders }
        ensures takes { EventTakes (terms_of S.Site C.may self.old) self.old.scripts
            (event_of self.old.scripts actor) (seen_core S.Site self.old.core) result
            (seen_core S.Site self.new.core) }
        ensures leaves { LeavesDrive S.Site self.old self.new result }
    {
        let hosts = self.host_count();
        let number = actor as usize;
        if number < hosts {
            return self.host(number);
        }
        // There are at most 8, so that the number of one is a byte.
        let _recorders = self.core().recorder_count();
        answer_of(self.work_of((number - hosts) as u8))
    }

    /// Lets hosts and recorders take the turns of a list, one event each and in order, until one ends them. A turn is a
    /// number: the hosts of the job come first, in order, and then the recorders. The turn of a host that has no call
    /// does nothing.
    pub fn run_turns(&mut self, turns: &[u32]) -> DriveAnswer
        requires turns { AreTurns self.old.scripts self.old.core.config turns.now }
        ensures runs { RunsEvents (terms_of S.Site C.may self.old) self.old.scripts
            (events_of self.old.scripts turns.now) (seen_core S.Site self.old.core) result
            (seen_core S.Site self.new.core) }
        ensures leaves { LeavesDrive S.Site self.old self.new result }
    {
        for turn in turns {
            match self.act(*turn) {
                DriveAnswer::Done => {}
                halted => return halted,
            }
        }
        DriveAnswer::Done
    }

    /// Lets hosts and recorders take the turns of a list, and then goes on by rounds to the end. An event that ends the
    /// turns ends it.
    pub fn run(&mut self, turns: &[u32]) -> DriveAnswer
        requires turns { AreTurns self.old.scripts self.old.core.config turns.now }
        ensures runs { RunsOn (terms_of S.Site C.may self.old) self.old.scripts turns.now
            (seen_core S.Site self.old.core) result (seen_core S.Site self.new.core) }
        ensures ended { result ≡ Done → (h : ℕ) → FollowsToEnd (script_of self.new.scripts h)
            (exchanges_of h self.new.core.history) }
        ensures leaves { LeavesDrive S.Site self.old self.new result }
    {
        match self.run_turns(turns) {
            DriveAnswer::Done => self.run_to_end(),
            halted => halted,
        }
    }
}
