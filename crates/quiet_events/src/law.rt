//! Laws of what an event leaves others to do. A function calls a law to have it in its proof.
ghost use Rattle.std.specs.Prelude.{◌≡◌, ℕ, length};
ghost use Rattle.channel_commands.specs.Data.{CallData};
ghost use Rattle.core_state.specs.CoreValue.{CoreData};
ghost use Rattle.core_state.specs.HostEvents.{HostEvent, HostTold, waits};
ghost use Rattle.core_state.specs.WorkEvents.{WorkEvent};
ghost use Rattle.core_state.specs.declared.rule.Waiting.{Waiting};
ghost use Rattle.core_state.specs.declared.rule.WorkAnswer.{WorkAnswer};
ghost use Rattle.work_events.specs.WorkLaws.{IsRecorder};
ghost use Rattle.quiet_events.specs.Quiet.{
  GivesNoWork,
  GivesOthersNothing,
  GoesOnAlone,
  RestsBehind,
  WaitsInVain,
};

use mss_base::Site;
use victim_choice::Choose;

/// What a recorder does for its own task gives nobody else anything to do, while that task goes on.
pub fn own_work_gives_others_nothing<S: Site, C: Choose>()
    ensures { (chooser : C) (core : CoreData) (recorder : ℕ) (told : WorkAnswer) (left : CoreData)
        → IsRecorder core recorder → WorkEvent S.tells (C.may chooser) core recorder told left
        → GoesOnAlone left recorder told → GivesOthersNothing recorder core left }
{}

/// A reply behind which the core is at rest gives no recorder anything to do.
pub fn replies_at_rest_give_no_work<S: Site>()
    ensures { (core : CoreData) (h : ℕ) (call : CallData) (told : HostTold) (left : CoreData)
        → HostEvent S.tells core h call told left → RestsBehind told left
        → GivesNoWork core left }
{}

/// A wait that puts no event down is one in vain.
pub fn waits_that_put_nothing_down_are_in_vain<S: Site>()
    ensures { (core : CoreData) (h : ℕ) (call : CallData) (why : Waiting) (left : CoreData)
        → HostEvent S.tells core h call (waits why) left
        → length left.events ≡ length core.events → WaitsInVain core h call }
{}
