//! Laws of recorders' events. A function calls a law to have it in its proof.
ghost use Rattle.std.specs.Prelude.{◌≡◌, ◌⊎◌, ℕ, Some, None};
ghost use Rattle.core_state.specs.Beginning.{IsLater};
ghost use Rattle.core_state.specs.CoreValue.{CoreData};
ghost use Rattle.core_state.specs.HostEvents.{IsSame};
ghost use Rattle.core_state.specs.TheCore.{IsWhole};
ghost use Rattle.core_state.specs.WorkEvents.{WorkEvent};
ghost use Rattle.core_state.specs.WorkRules.{work_rule};
ghost use Rattle.core_state.specs.declared.rule.WorkAnswer.{WorkAnswer};
ghost use Rattle.core_state.specs.declared.rule.WorkAnswer.TheVariants.{Idle, Memory, Stopped};
ghost use Rattle.core_state.specs.declared.rule.WorkRule.TheVariants.{IsIdle};
ghost use Rattle.work_events.specs.WorkLaws.{
  AnswerSays,
  FailsByCopy,
  IsRecorder,
  LeavesHosts,
  NotesChange,
  ShowsTheSame,
  WritesCartridges,
};

use mss_base::Site;
use victim_choice::Choose;

/// An event of a recorder leaves the beginning of the session, and adds to the log alone.
pub fn work_is_later<S: Site, C: Choose>()
    ensures { (chooser : C) (core : CoreData) (recorder : ℕ) (told : WorkAnswer) (left : CoreData)
        → IsRecorder core recorder → WorkEvent S.tells (C.may chooser) core recorder told left
        → IsLater S.tells core left }
{}

/// No event of a recorder changes what hosts were told, nor a host.
pub fn work_leaves_the_history<S: Site, C: Choose>()
    ensures { (chooser : C) (core : CoreData) (recorder : ℕ) (told : WorkAnswer) (left : CoreData)
        → WorkEvent S.tells (C.may chooser) core recorder told left → LeavesHosts core left }
{}

/// No event of a recorder changes what the volumes show: whatever a stop leaves, in the event or
/// behind it, shows what the devices showed before.
pub fn work_shows_the_same<S: Site, C: Choose>()
    ensures { (chooser : C) (core : CoreData) (recorder : ℕ) (told : WorkAnswer) (left : CoreData)
        → IsRecorder core recorder → S.tells → core.stopped ≡ None
        → IsWhole S.tells core.site.told core → IsWhole S.tells left.site.told left
        → WorkEvent S.tells (C.may chooser) core recorder told left → ShowsTheSame core left }
{}

/// A cartridge is written only where a track of a changed cylinder is destaged: the frame's whole
/// block at once, to which the cartridge's is then equal, or, where that fails, some whole block at
/// its place or nothing.
pub fn work_writes_whole_blocks_of_changed_cylinders_only<S: Site, C: Choose>()
    ensures { (chooser : C) (core : CoreData) (recorder : ℕ) (told : WorkAnswer) (left : CoreData)
        → IsRecorder core recorder → S.tells
        → WorkEvent S.tells (C.may chooser) core recorder told left
        → WritesCartridges core recorder left }
{}

/// The events that are noted are those that changed the core: an event of a recorder changes
/// nothing, or it is noted, and the core that it leaves is another one.
pub fn noted_work_changes_the_core<S: Site, C: Choose>()
    ensures { (chooser : C) (core : CoreData) (recorder : ℕ) (told : WorkAnswer) (left : CoreData)
        → IsRecorder core recorder → WorkEvent S.tells (C.may chooser) core recorder told left
        → IsSame S.tells core left ⊎ NotesChange core recorder left }
{}

/// A stopped core answers its fault, and stays as it is.
pub fn stopped_cores_stay<S: Site, C: Choose>()
    ensures { (chooser : C) (core : CoreData) (recorder fault : ℕ) (told : WorkAnswer)
        (left : CoreData) → core.stopped ≡ Some fault
        → WorkEvent S.tells (C.may chooser) core recorder told left
        → (told ≡ Stopped fault) × IsSame S.tells core left }
{}

/// An answer says what came of the event: that a recorder is idle, exactly where no rule applies
/// and memory isn't refused; that the core is stopped, with the fault of the write that failed;
/// that memory was refused, and nothing changed. A request has failed only where a copy did, or the
/// sync that makes its copies firm, with its fault.
pub fn answers_have_their_causes<S: Site, C: Choose>()
    ensures answer { (chooser : C) (core : CoreData) (recorder : ℕ) (told : WorkAnswer)
        (left : CoreData) → IsRecorder core recorder
        → WorkEvent S.tells (C.may chooser) core recorder told left
        → AnswerSays S.tells core recorder told left }
    ensures idle { (chooser : C) (core : CoreData) (recorder : ℕ) (told : WorkAnswer)
        (left : CoreData) → work_rule core recorder ≡ IsIdle
        → WorkEvent S.tells (C.may chooser) core recorder told left
        → (told ≡ Idle) ⊎ (told ≡ Memory) }
    ensures failed { (chooser : C) (core : CoreData) (recorder : ℕ) (told : WorkAnswer)
        (left : CoreData) → IsRecorder core recorder
        → WorkEvent S.tells (C.may chooser) core recorder told left
        → FailsByCopy core recorder left }
{}
