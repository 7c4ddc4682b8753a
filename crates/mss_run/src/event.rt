// Events of a core with a copier beside it, as what they leave of its session.
ghost use Rattle.std.specs.Prelude.{◌≡◌, ◌≤◌, ◌<◌, Bool, is_some, length, true};
ghost use Rattle.mss_base.specs.Sound.{StaysSound};
ghost use Rattle.mss_base.specs.declared.place.UnitNo.{UnitNo};
ghost use Rattle.channel_commands.specs.Views.{call_of};
ghost use Rattle.ckd_plain.specs.History.{IsLegal};
ghost use Rattle.core_state.specs.Beginning.{IsLater};
ghost use Rattle.core_state.specs.CoreValue.{seen_core};
ghost use Rattle.core_state.specs.HostEvents.{IsSame};
ghost use Rattle.core_state.specs.IsCore.{IsCore, opening_of};
ghost use Rattle.core_state.specs.declared.rule.WorkAnswer.TheVariants.{Idle};
ghost use Rattle.core_state.specs.declared.session.TheConstants.{ENTRY_LIMIT};
ghost use Rattle.host_events.specs.Answers.{told_of};
ghost use Rattle.core_state.specs.WorkEvents.{WorkEvent};
ghost use Rattle.volume_copy.specs.Beside.{HostEventBeside, asked_copy};
ghost use Rattle.quiet_events.specs.Quiet.{
  GivesNoWork,
  GivesOthersNothing,
  GoesOnAlone,
  HasNoWork,
  RestsBehind,
  WaitsInVain,
};
ghost use Rattle.mss_run.specs.Happens.{Happens, IsSameButRead, is_in_vain};

use channel_commands::Call;
use core_state::{Core, WorkAnswer};
use host_events::HostAnswer;
use host_events::law::{
    answers_have_their_causes, events_add_one_entry_at_most, events_are_later,
    waits_change_requests_alone,
};
use mss_base::{HostNo, RecorderNo, Site};
use quiet_events::law::{
    own_work_gives_others_nothing, replies_at_rest_give_no_work,
    waits_that_put_nothing_down_are_in_vain,
};
use victim_choice::Choose;
use volume_copy::CopiedCore;
use work_events::law::{
    answers_have_their_causes as work_has_its_causes, work_is_later, work_leaves_the_history,
};

/// How many entries the history has, 4,096 at most. It is legal.
pub(crate) fn entries_of<S: Site, C: Choose>(core: &Core<S, C>) -> usize
    ensures count { result ≡ length core.now.history }
    ensures few { length core.now.history ≤ ENTRY_LIMIT }
    ensures kept { core.now.stopped ≡ None → IsCore core.now }
    ensures began { S.tells → core.now.first_write ≤ length (S.told core.now.site).log }
    ensures legal { S.tells
        → IsLegal (opening_of (S.told core.now.site) core.now) core.now.history }
{
    let _config = &core.config;
    core.history().as_slice().len()
}

/// How many entries the history of a core with a copier beside it has, 4,096 at most. It is legal.
pub(crate) fn entries_beside<S: Site, C: Choose>(copied: &CopiedCore<S, C>) -> usize
    ensures count { result ≡ length copied.now.core.history }
    ensures few { length copied.now.core.history ≤ ENTRY_LIMIT }
    ensures kept { copied.now.core.stopped ≡ None → IsCore copied.now.core }
    ensures began { S.tells
        → copied.now.core.first_write ≤ length (S.told copied.now.core.site).log }
    ensures legal { S.tells → IsLegal
        (opening_of (S.told copied.now.core.site) copied.now.core) copied.now.core.history }
{
    entries_of(copied.core())
}

/// How many events changed the core.
fn events_of<S: Site, C: Choose>(copied: &CopiedCore<S, C>) -> usize
    ensures { result ≡ length copied.now.core.events }
{
    copied.core().events().as_slice().len()
}

/// Whether an event was a wait that put nothing down.
fn is_in_vain(answer: &HostAnswer, before: usize, after: usize) -> bool
    ensures { result ≡ is_in_vain (told_of answer.now) before after }
{
    match answer {
        HostAnswer::Wait(_) => after == before,
        HostAnswer::Replied { .. }
        | HostAnswer::Marked
        | HostAnswer::Stopped { .. }
        | HostAnswer::CommandLimit
        | HostAnswer::Memory => false,
    }
}

/// One event of a host: what it adds to the history, and that it leaves a later moment of the session; and whether it
/// is a wait that changed nothing.
pub(crate) fn host_step<S: Site, C: Choose>(
    copied: &mut CopiedCore<S, C>,
    host: HostNo,
    call: &Call,
) -> (HostAnswer, bool)
    ensures event { HostEventBeside S.Site (is_some (asked_copy copied.old.copier))
        copied.old.core host (call_of call.now) (told_of result.0) copied.new.core }
    ensures history { Happens host (call_of call.now) (told_of result.0)
        copied.old.core.history copied.new.core.history }
    ensures in_vain { result.1 ≡ true
        → IsSameButRead (is_some (asked_copy copied.old.copier)) S.tells
        (seen_core S.Site copied.old.core) (seen_core S.Site copied.new.core) }
    ensures waits { result.1 ≡ true
        → WaitsInVain (seen_core S.Site copied.new.core) host (call_of call.now) }
    ensures rests { RestsBehind (told_of result.0) (seen_core S.Site copied.new.core)
        → GivesNoWork (seen_core S.Site copied.old.core) (seen_core S.Site copied.new.core) }
    ensures later { IsLater S.tells (seen_core S.Site copied.old.core)
        (seen_core S.Site copied.new.core) }
    ensures sound { StaysSound S.never_fails_but copied.old.core.site copied.new.core.site }
    ensures only_reads_fail { (but : UnitNo → Bool) → S.never_fails_but copied.old.core.site but
        → copied.old.core.stopped ≡ None → copied.new.core.stopped ≡ None }
    ensures copier { asked_copy copied.new.copier ≡ asked_copy copied.old.copier }
    ensures chooser { copied.new.core.chooser ≡ copied.old.core.chooser }
{
    events_add_one_entry_at_most::<S>();
    answers_have_their_causes::<S>();
    events_are_later::<S>();
    waits_change_requests_alone::<S>();
    waits_that_put_nothing_down_are_in_vain::<S>();
    replies_at_rest_give_no_work::<S>();
    let _entries = entries_beside(copied);
    let before = events_of(copied);
    let answer = copied.host_event(host, call);
    let after = events_of(copied);
    let in_vain = is_in_vain(&answer, before, after);
    (answer, in_vain)
}

/// One event of a recorder: the history stays, and it leaves a later moment of the session.
pub(crate) fn work_step<S: Site, C: Choose>(
    copied: &mut CopiedCore<S, C>,
    recorder: RecorderNo,
) -> WorkAnswer
    requires { recorder < copied.old.core.config.recorders }
    ensures event { WorkEvent S.tells (C.may copied.old.core.chooser)
        (seen_core S.Site copied.old.core) recorder result (seen_core S.Site copied.new.core) }
    ensures history { copied.new.core.history ≡ copied.old.core.history }
    ensures idle { result ≡ Idle → IsSame S.tells (seen_core S.Site copied.old.core)
        (seen_core S.Site copied.new.core) }
    ensures rests { result ≡ Idle → HasNoWork (seen_core S.Site copied.new.core) recorder }
    ensures alone { GoesOnAlone (seen_core S.Site copied.new.core) recorder result
        → GivesOthersNothing recorder (seen_core S.Site copied.old.core)
        (seen_core S.Site copied.new.core) }
    ensures later { IsLater S.tells (seen_core S.Site copied.old.core)
        (seen_core S.Site copied.new.core) }
    ensures sound { StaysSound S.never_fails_but copied.old.core.site copied.new.core.site }
    ensures only_reads_fail { (but : UnitNo → Bool) → S.never_fails_but copied.old.core.site but
        → copied.old.core.stopped ≡ None → copied.new.core.stopped ≡ None }
    ensures copier { copied.new.copier ≡ copied.old.copier }
    ensures chooser { copied.new.core.chooser ≡ copied.old.core.chooser }
{
    work_leaves_the_history::<S, C>();
    work_is_later::<S, C>();
    work_has_its_causes::<S, C>();
    own_work_gives_others_nothing::<S, C>();
    let _before = entries_beside(copied);
    copied.work_event(recorder)
}
