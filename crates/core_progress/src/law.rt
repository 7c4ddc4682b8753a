//! Laws of cores that go on. A function calls a law to have it in its proof.
ghost use Rattle.std.specs.Prelude.{◌≡◌, ◌⊎◌, ◌≤◌, ◌<◌, ◌+◌, ℕ, false, true, List, Some, None};
ghost use Rattle.channel_commands.specs.Data.{CallData};
ghost use Rattle.core_state.specs.declared.rule.WorkAnswer.TheVariants.{Did, Idle};
ghost use Rattle.core_state.specs.declared.rule.WorkKind.{WorkKind};
ghost use Rattle.core_state.specs.declared.rule.WorkRule.TheVariants.{IsIdle};
ghost use Rattle.core_state.specs.Chains.{IsSettled, Step, called, is_end};
ghost use Rattle.core_state.specs.CoreValue.{CoreData};
ghost use Rattle.core_state.specs.HostEvents.{HostTold, HostEvent, IsSame};
ghost use Rattle.core_state.specs.IsCore.{IsCore};
ghost use Rattle.core_state.specs.WorkEvents.{WorkEvent};
ghost use Rattle.core_state.specs.WorkRules.{work_rule};
ghost use Rattle.core_progress.specs.CoreFits.{CoreFits};
ghost use Rattle.core_progress.specs.Progress.{
  AreIdle,
  GoesOn,
  IsKeptOff,
  LeavesRun,
  NextCalls,
  OwnersCall,
  SomeoneCalls,
  SomeoneGoesOn,
  is_kept_waiting,
  is_reply,
};
ghost use Rattle.core_progress.specs.Rounds.{
  AreEvents,
  AreOfHosts,
  AreTwoRounds,
  AreWork,
  CallsAfter,
  HasAnswer,
  HasAsked,
  IsBetweenRounds,
  IsRound,
  NoReply,
  answers_given,
  deeds_done,
  marks_told,
};
ghost use Rattle.core_progress.specs.WorkLeft.{run_left, settle_left};

use mss_base::Site;
use victim_choice::Choose;

/// What keeps recorders and hosts going follows from what every core keeps while it isn't stopped.
pub fn cores_fit()
    ensures { (core : CoreData) → IsCore core → CoreFits core }
{}

/// Where each recorder is idle, nothing is left to do.
pub fn idle_cores_are_settled()
    ensures { (core : CoreData) → IsCore core → AreIdle core → IsSettled core }
{}

/// Where nothing is left to do and no fault stopped the core, each recorder is idle.
pub fn settled_cores_are_idle()
    ensures { (core : CoreData) → IsCore core → IsSettled core → core.stopped ≡ None
        → (i : ℕ) → work_rule core i ≡ IsIdle }
{}

/// Where nothing is left to do and hosts go on with what they began, some host's call isn't kept waiting.
pub fn settled_cores_go_on()
    ensures { (core : CoreData) (calls : NextCalls) → IsCore core → IsSettled core
        → OwnersCall core calls → SomeoneCalls calls → SomeoneGoesOn core calls }
{}

/// A call that isn't kept waiting is told no wait, or asks for its cylinder for the first time.
pub fn calls_go_on<S: Site>()
    ensures { (core : CoreData) (h : ℕ) (call : CallData) (told : HostTold) (left : CoreData)
        → IsCore core → HostEvent S.tells core h call told left
        → is_kept_waiting core h call ≡ false → GoesOn core h call told left }
{}

/// A recorder that answers that it is idle is so by its rule, and changes nothing.
pub fn idle_changes_nothing<S: Site, C: Choose>()
    ensures { (core : CoreData) (recorder : ℕ) (chooser : C) (left : CoreData)
        → WorkEvent S.tells (C.may chooser) core recorder Idle left
        → (work_rule core recorder ≡ IsIdle) × IsSame S.tells core left }
{}

/// Whatever a recorder does leaves less to do.
pub fn work_leaves_less<S: Site, C: Choose>()
    ensures { (core : CoreData) (recorder : ℕ) (chooser : C) (what : WorkKind) (left : CoreData)
        → IsCore core → recorder < core.config.recorders
        → WorkEvent S.tells (C.may chooser) core recorder (Did what) left
        → settle_left left < settle_left core }
{}

/// Whatever a recorder does adds no entry, and takes no host's mark or request.
pub fn work_leaves_the_run<S: Site, C: Choose>()
    ensures { (core : CoreData) (recorder : ℕ) (chooser : C) (what : WorkKind) (left : CoreData)
        → IsCore core → WorkEvent S.tells (C.may chooser) core recorder (Did what) left
        → LeavesRun core left }
{}

/// A call that isn't kept waiting leaves less of the run, unless the run ends with it.
pub fn calls_leave_less<S: Site>()
    ensures { (core : CoreData) (h : ℕ) (call : CallData) (told : HostTold) (left : CoreData)
        → IsCore core → 1 ≤ h → h ≤ 8 → HostEvent S.tells core h call told left
        → is_kept_waiting core h call ≡ false → is_end (called h call told) ≡ false
        → run_left left < run_left core }
{}

/// A call that is kept waiting is told so, or that memory is wanting, and changes nothing.
pub fn kept_waiting_changes_nothing<S: Site>()
    ensures { (core : CoreData) (h : ℕ) (call : CallData) (told : HostTold) (left : CoreData)
        → IsCore core → HostEvent S.tells core h call told left
        → is_kept_waiting core h call ≡ true → IsKeptOff told × IsSame S.tells core left }
{}

/// Where each host that owns a volume had a call, each has one still, until the host that called is replied.
pub fn unreplied_calls_leave_the_owners<S: Site>()
    ensures { (core : CoreData) (h : ℕ) (call : CallData) (told : HostTold) (left : CoreData)
        (calls : NextCalls) → IsCore core → HostEvent S.tells core h call told left
        → is_reply told ≡ false → calls h ≡ Some call
        → OwnersCall core calls → OwnersCall left calls }
{}

/// In a round some host is told something else than to wait, or asks for a cylinder.
pub fn rounds_go_on<S: Site, C: Choose>()
    ensures { (calls : CallsAfter) (hosts : List ℕ) (chooser : C) (core : CoreData)
        (steps : List Step) (left : CoreData) → IsBetweenRounds calls hosts core
        → IsRound S.tells (C.may chooser) calls hosts core steps left
        → HasAnswer steps ⊎ HasAsked core left }
{}

/// In one of two rounds that follow each other some host is told something else than to wait.
pub fn two_rounds_have_an_answer<S: Site, C: Choose>()
    ensures { (calls : CallsAfter) (hosts : List ℕ) (chooser : C) (first second : List Step)
        → AreTwoRounds S.tells (C.may chooser) calls hosts first second
        → HasAnswer first ⊎ HasAnswer second }
{}

/// What recorders do one after the other is at most as much as is left to do.
pub fn work_comes_to_an_end<S: Site, C: Choose>()
    ensures { (chooser : C) (core : CoreData) (steps : List Step) (left : CoreData)
        → AreWork S.tells (C.may chooser) core steps left
        → deeds_done steps + settle_left left ≤ settle_left core }
{}

/// Of events one after the other, at most as many answer a host otherwise than by a wait as are left of the run.
pub fn answers_come_to_an_end<S: Site, C: Choose>()
    ensures { (chooser : C) (core : CoreData) (steps : List Step) (left : CoreData)
        → AreEvents S.tells (C.may chooser) core steps left → AreOfHosts steps
        → answers_given steps ≤ run_left core }
{}

/// Until it is replied a host is told at most once that its write may go on.
pub fn hosts_are_marked_once<S: Site, C: Choose>()
    ensures { (chooser : C) (h : ℕ) (core : CoreData) (steps : List Step) (left : CoreData)
        → AreEvents S.tells (C.may chooser) core steps left → NoReply h steps
        → marks_told h steps ≤ 1 }
{}
