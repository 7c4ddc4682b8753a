//! Laws of restarts. A function calls a law to have it in its proof.
ghost use Rattle.mss_base.specs.Configs.{ConfigData};
ghost use Rattle.mss_base.specs.Content.{Content, SiteLog, content};
ghost use Rattle.std.specs.Prelude.{◌≡◌, ◌+◌, ℕ, List, length, Option, Result, Err};
ghost use Rattle.ckd_track.specs.Data.{Volumes};
ghost use Rattle.volume_table.specs.Row.{RowValue};
ghost use Rattle.shown_volumes.specs.declared.refused.Refused.{Refused};
ghost use Rattle.shown_volumes.specs.declared.refused.Refused.TheVariants.{RowUnread};
ghost use Rattle.shown_volumes.specs.Shown.{volumes_shown};
ghost use Rattle.mss_restart.specs.declared.opening.Opened.{Opened};
ghost use Rattle.mss_restart.specs.Survey.{IsExact, Surveys, TellsNoFailure};
ghost use Rattle.core_state.specs.CoreValue.{CoreValue, DevicesSeen};
ghost use Rattle.core_state.specs.IsCore.{IsTold};
ghost use Rattle.mss_restart.specs.OneCopy.{ArePaired};
ghost use Rattle.core_restart.specs.OneCopy.{AreOneAnswer, IsAnswerOf, RisesTwice, SurveyAnswer};
ghost use Rattle.core_restart.specs.TakingUp.{
  Answer,
  BeginsWith,
  IsLater,
  IsSession,
  IsTakenUp,
  LeavesAll,
  LeavesFront,
  OpensFaultless,
  RestartsOver,
  StartsOver,
  Stop,
  StopsStart,
  left_by,
  shown_for,
};

use mss_base::Site;
use victim_choice::Choose;

/// A core that begins is one of a session of its configuration, and so is each later one.
pub fn sessions_keep_their_volumes<S: Site, C: Choose>()
    ensures begun { (config : ConfigData) (volumes : Volumes) (site : SiteLog)
        (core : CoreValue S C) → BeginsWith config volumes site core → core.config ≡ config
        → IsTold site core → IsSession site core }
    ensures later { (old new : SiteLog) (core left : CoreValue S C) → IsSession old core
        → IsLater old core new left → IsTold new left → IsSession new left }
{}

/// Whatever a stop at any moment of a session leaves, also within a write, has no fault. A restart of it, with the same
/// configuration and no call that fails, begins a session with just the volumes that it shows; or memory runs out.
pub fn restart_takes_up_every_stop<S: Site, C: Choose>()
    ensures leaves { (site : SiteLog) (core : CoreValue S C) → IsSession site core
        → (stop : Stop core.first_write site) → LeavesAll core.config (left_by stop) }
    ensures restart { (site : SiteLog) (core : CoreValue S C) → IsSession site core
        → (stop : Stop core.first_write site) (old new : DevicesSeen) (answer : Answer S C)
        → RestartsOver core.config (left_by stop) old new answer
        → IsTakenUp core.config (volumes_shown (left_by stop)) new.told answer }
{
    ckd_plain::laws::only_the_track_under_a_write_changes();
    ckd_plain::laws::hosts_know_their_marks();
    shown_volumes::law::first_fault_is_of_unsound_content();
}

/// Whatever a stop within a restart leaves, behind its sync of all units, also within a call that fails, has no
/// fault, where what it began from had none. Another restart, of which no call fails, begins a session with the very
/// volumes that the first was to begin with; or memory runs out. Of what had a fault it leaves just what was there, and
/// so where a row couldn't be read; where the sync failed, what a stop before it would have left.
pub fn restart_takes_up_its_own_stops<S: Site, C: Choose>()
    ensures leaves { (config : ConfigData) (old new : DevicesSeen) (answer : Result Opened Refused)
        → OpensFaultless config old new answer
        → (stop : Stop (length old.told.log + 1) new.told)
        → LeavesFront config (content old.told) (left_by stop) }
    ensures restart { (config : ConfigData) (old new : DevicesSeen)
        (answer : Result Opened Refused) → OpensFaultless config old new answer
        → (stop : Stop (length old.told.log + 1) new.told)
        (again left : DevicesSeen) (then : Answer S C)
        → RestartsOver config (left_by stop) again left then
        → IsTakenUp config (shown_for config (content old.told)) left.told then }
    ensures start { (config : ConfigData) (old new : DevicesSeen)
        (answer : Result Opened Refused) → StartsOver config old new answer
        → StopsStart config old.told new.told answer }
{
    shown_volumes::law::first_fault_is_of_unsound_content();
}

/// Where each copy of each row tells the row alone, it changes nothing which copies can't be read: a survey that
/// tells no failed call answers just what the content is, or that memory ran out. A row that it tells as unread was
/// read in vain from both copies. Whatever failed, two surveys that answer what a content is answer the same.
pub fn one_unreadable_copy_changes_nothing()
    ensures exact { (before now frames : ℕ) (asked : ℕ → Option (List ℕ)) (c : Content)
        (result : Result (List (Option RowValue)) Refused) → ArePaired c
        → Surveys before now frames asked c result → TellsNoFailure result
        → IsExact frames asked c result }
    ensures unread { (before now frames volume fault : ℕ) (asked : ℕ → Option (List ℕ))
        (c : Content) → ArePaired c
        → Surveys before now frames asked c (Err (RowUnread volume fault))
        → RisesTwice before now }
    ensures same { (frames : ℕ) (asked : ℕ → Option (List ℕ)) (c : Content)
        (result other : SurveyAnswer) → IsAnswerOf frames asked c result
        → IsAnswerOf frames asked c other → AreOneAnswer result other }
{}
