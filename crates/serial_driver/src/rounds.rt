// Rounds: the recorders work, and then each host calls.
ghost use Rattle.std.specs.Prelude.{◌≡◌, ℕ};
ghost use Rattle.channel_program.specs.Script.{FollowsToEnd};
ghost use Rattle.core_state.specs.Chains.{has_call};
ghost use Rattle.core_state.specs.CoreValue.{seen_core};
ghost use Rattle.serial_driver.specs.declared.answer.DriveAnswer.TheVariants.{Done};
ghost use Rattle.script_places.specs.Scripts.{script_of, exchanges_of, calls_of};

use crate::answer::DriveAnswer;
use crate::drive::Drive;
use core_progress::law::{calls_leave_less, kept_waiting_changes_nothing, settled_cores_go_on};
use host_events::look;
use mss_base::Site;
use victim_choice::Choose;

impl<'a, S: Site, C: Choose> Drive<'a, S, C> {
    ghost use Rattle.serial_driver.specs.Drives.{LeavesDrive, HostsTurn, RunsToEnd, hosts_of, terms_of};
    ghost use Rattle.serial_driver.specs.Turns.{RunFalls};

    /// Whether some host has a call.
    fn some_host_calls(&self) -> bool
        ensures { result ≡ has_call (calls_of self.now.scripts) (hosts_of self.now.scripts)
            (seen_core S.Site self.now.core) }
    {
        let count = self.host_count();
        for number in 0..count {
            if self.can_call(number) {
                return true;
            }
        }
        false
    }

    /// One event of each host that has a call, in the order of the job, until one ends them. Where nothing was left
    /// to do before, less of the run is left.
    fn hosts_turn(&mut self) -> DriveAnswer
        ensures turns { HostsTurn (terms_of S.Site C.may self.old) self.old.scripts
            (seen_core S.Site self.old.core) result (seen_core S.Site self.new.core) }
        ensures falls { result ≡ Done → RunFalls self.old.scripts (seen_core S.Site self.old.core)
            (seen_core S.Site self.new.core) }
        ensures leaves { LeavesDrive S.Site self.old self.new result }
    {
        self.look_at_hosts();
        calls_leave_less::<S>();
        kept_waiting_changes_nothing::<S>();
        look(self.core());
        settled_cores_go_on();
        let hosts = self.host_count();
        for number in 0..hosts {
            look(self.core());
            match self.host(number) {
                DriveAnswer::Done => {}
                halted => return halted,
            }
        }
        DriveAnswer::Done
    }

    /// Goes on by rounds while some host has a call: a track is taken for the copy, if there is one, the recorders work
    /// until nothing is left to do, and then each host that has a call makes it, in the order of the job. An event that
    /// finds the core stopped, or stops it, that finds the history full, or that is refused memory, ends it before.
    /// Where none does, each host has followed its script to the end.
    pub fn run_to_end(&mut self) -> DriveAnswer
        ensures runs { RunsToEnd (terms_of S.Site C.may self.old) self.old.scripts
            (seen_core S.Site self.old.core) result (seen_core S.Site self.new.core) }
        ensures ended { result ≡ Done → (h : ℕ) → FollowsToEnd (script_of self.new.scripts h)
            (exchanges_of h self.new.core.history) }
        ensures leaves { LeavesDrive S.Site self.old self.new result }
    {
        loop {
            if !self.some_host_calls() {
                self.look_at_hosts();
                return DriveAnswer::Done;
            }
            // Where memory is wanting the track is taken in a later round.
            let _ = self.take();
            match self.settle() {
                DriveAnswer::Done => {}
                halted => return halted,
            }
            match self.hosts_turn() {
                DriveAnswer::Done => {}
                halted => return halted,
            }
        }
    }
}
