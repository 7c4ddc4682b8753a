// A core with a copier beside it.
ghost use Rattle.std.specs.Prelude.{◌≡◌, ◌<◌, Bool, true, None, is_some, IfOk, IfSome, OnErr, OnOk};
ghost use Rattle.std.specs.Option.{option_map};
ghost use Rattle.mss_base.specs.Sites.{MayWrite};
ghost use Rattle.mss_base.specs.declared.place.UnitNo.{UnitNo};
ghost use Rattle.channel_commands.specs.Views.{call_of};
ghost use Rattle.core_state.specs.CoreValue.{seen_core};
ghost use Rattle.core_state.specs.IsCore.{IsCore};
ghost use Rattle.core_state.specs.WorkEvents.{WorkEvent};
ghost use Rattle.host_events.specs.Answers.{told_of};
ghost use Rattle.host_events.specs.Parts.{GoesOn};
ghost use Rattle.work_events.specs.declared.ending.TheConstants.{END_ITEMS};
ghost use Rattle.volume_copy.specs.Beside.{
  HostEventBeside,
  IsReadyFor,
  ReadsBeside,
  StandsBeside,
  TakesBeside,
  asked_copy,
};
ghost use Rattle.volume_copy.specs.Copies.{asked_by};
ghost use Rattle.core_state.specs.Pins.{host_at};
ghost use Rattle.volume_copy.specs.Steps.{Guards, KeepsStanding, ReadsCore, TakesNextFrom};

use crate::copier::{Copier, CopyState};
use crate::law::{host_events_leave_copies, work_leaves_copies};
use channel_commands::Call;
use core_state::{Core, WorkAnswer};
use host_events::law::events_are_later;
use host_events::{EVENT_ITEMS, HostAnswer, host_event, look, refused};
use mss_base::{HostNo, NoMemory, RecorderNo, Site};
use std::marker::Model;
use victim_choice::Choose;
use work_events::law::{answers_have_their_causes, work_is_later, work_leaves_the_history};
use work_events::work_event;

/// A core, and the copier beside it, if a copy of a volume is asked for. In a clause it is a `CopiedValue`.
///
/// It keeps that the copier stands for the core's session, and that it begins at its time.
#[derive(Drop)]
pub struct CopiedCore<S: Site, C: Choose> {
    core: Core<S, C>,
    copier: Option<Copier>,
}

impl<S: Site, C: Choose> Model for CopiedCore<S, C> {
    ghost use Rattle.std.specs.Prelude.{IfSome};
    ghost use Rattle.volume_copy.specs.Beside.{CopiedValue, StandsBeside};

    ghost Value = { CopiedValue S C };

    ghost view = { λ c. record { core = c.core; copier = c.copier } };

    ghost invariant = { λ c. IfSome c.copier (StandsBeside S.Site c.core) };
}

/// Takes the track under a host that is about to write on the volume, before its event.
fn guard<S: Site, C: Choose>(
    core: &mut Core<S, C>,
    copier: &mut Copier,
    host: HostNo,
    call: &Call,
) -> Result<(), NoMemory>
    ensures guards { OnOk result
        (Guards copier.new (host_at core.old.hosts host) (call_of call.now)) }
    ensures memory { OnErr result ((copier.new ≡ copier.old) × (core.new ≡ core.old)) }
    ensures keeps { KeepsStanding S.Site core.old core.new copier.old copier.new }
    ensures copier { asked_by copier.new ≡ asked_by copier.old }
    ensures core { ReadsCore S.Site core.old core.new }
{
    copier.before(core, host, call)
}

/// An event of a host, beside this copier.
fn call_beside<S: Site, C: Choose>(
    core: &mut Core<S, C>,
    copier: &mut Copier,
    host: HostNo,
    call: &Call,
) -> HostAnswer
    ensures event { HostEventBeside S.Site true core.old host (call_of call.now)
        (told_of result) core.new }
    ensures stands { StandsBeside S.Site core.old copier.old
        → StandsBeside S.Site core.new copier.new }
    ensures copier { asked_by copier.new ≡ asked_by copier.old }
    ensures chooser { core.new.chooser ≡ core.old.chooser }
    ensures devices { MayWrite S.Site EVENT_ITEMS core.old.site core.new.site }
    ensures only_reads_fail { (but : UnitNo → Bool) → S.never_fails_but core.old.site but
        → core.old.stopped ≡ None → GoesOn (told_of result) }
{
    match guard(core, copier, host, call) {
        Ok(()) => {}
        Err(_) => return refused(core),
    }
    host_events_leave_copies::<S>();
    events_are_later::<S>();
    look(core);
    let _state = copier.state();
    let told = host_event(core, host, call);
    copier.note(core);
    told
}

/// A read for a copy, beside which nothing else happens.
fn take_beside<S: Site, C: Choose>(
    core: &mut Core<S, C>,
    copier: &mut Copier,
) -> Result<CopyState, NoMemory>
    ensures takes { OnOk result
        (TakesNextFrom S.Site core.old core.new copier.old copier.new) }
    ensures memory { OnErr result ((copier.new ≡ copier.old) × (core.new ≡ core.old)) }
    ensures stands { StandsBeside S.Site core.old copier.old
        → StandsBeside S.Site core.new copier.new }
    ensures copier { asked_by copier.new ≡ asked_by copier.old }
    ensures state { IfOk result (λ state. state ≡ copier.new.state) }
    ensures core { ReadsCore S.Site core.old core.new }
{
    copier.take(core)
}

impl<S: Site, C: Choose> CopiedCore<S, C> {
    /// A core with this copier beside it, which begins at once where its time has come.
    pub fn new(core: Core<S, C>, copier: Option<Copier>) -> Self
        requires ready { IfSome copier (IsReadyFor core.history) }
        ensures core { result.core ≡ core }
        ensures copier { asked_copy result.copier ≡ asked_copy copier }
    {
        let mut copier = copier;
        if let Some(copier) = &mut copier {
            copier.note(&core);
        }
        CopiedCore { core, copier }
    }

    /// The core.
    pub fn core(&self) -> &Core<S, C>
        ensures { result.now ≡ self.now.core }
    {
        &self.core
    }

    /// What every core keeps while it isn't stopped, for the proofs of callers that hold one.
    pub fn look(&self)
        ensures kept { self.now.core.stopped ≡ None → IsCore self.now.core }
    {
        look(&self.core);
    }

    /// The core, and the copier that was beside it.
    pub fn into_parts(self) -> (Core<S, C>, Option<Copier>)
        ensures core { result.0 ≡ self.core }
        ensures copier { result.1 ≡ self.copier }
        ensures stands { IfSome self.copier (StandsBeside S.Site self.core) }
    {
        let CopiedCore { core, copier } = self;
        (core, copier)
    }

    /// An event of a host. If it may write on the volume that is copied, the track under it is taken before.
    ///
    /// Memory for the copy comes first: where it is wanting, the answer is that of an event without memory.
    #[inline(always)]
    pub fn host_event(&mut self, host: HostNo, call: &Call) -> HostAnswer
        ensures event { HostEventBeside S.Site
            (is_some (asked_copy self.old.copier)) self.old.core host
            (call_of call.now) (told_of result) self.new.core }
        ensures copier { asked_copy self.new.copier ≡ asked_copy self.old.copier }
        ensures chooser { self.new.core.chooser ≡ self.old.core.chooser }
        ensures devices { MayWrite S.Site EVENT_ITEMS self.old.core.site self.new.core.site }
        ensures only_reads_fail { (but : UnitNo → Bool)
            → S.never_fails_but self.old.core.site but
            → self.old.core.stopped ≡ None → GoesOn (told_of result) }
    {
        match &mut self.copier {
            Some(copier) => call_beside(&mut self.core, copier, host, call),
            None => host_event(&mut self.core, host, call),
        }
    }

    /// An event of a recorder.
    #[inline(always)]
    pub fn work_event(&mut self, recorder: RecorderNo) -> WorkAnswer
        requires recorder { recorder < self.old.core.config.recorders }
        ensures event { WorkEvent S.tells (C.may self.old.core.chooser)
            (seen_core S.Site self.old.core) recorder result (seen_core S.Site self.new.core) }
        ensures copier { self.new.copier ≡ self.old.copier }
        ensures chooser { self.new.core.chooser ≡ self.old.core.chooser }
        ensures devices { MayWrite S.Site END_ITEMS self.old.core.site self.new.core.site }
        ensures only_reads_fail { (but : UnitNo → Bool)
            → S.never_fails_but self.old.core.site but
            → self.new.core.stopped ≡ self.old.core.stopped }
    {
        work_leaves_copies::<S, C>();
        work_leaves_the_history::<S, C>();
        work_is_later::<S, C>();
        answers_have_their_causes::<S, C>();
        look(&self.core);
        work_event(&mut self.core, recorder)
    }

    /// Takes the next track for the copy, if there is one, and tells how far it is then.
    ///
    /// Where memory is wanting nothing changes.
    pub fn take(&mut self) -> Result<Option<CopyState>, NoMemory>
        ensures takes { OnOk result (TakesBeside S.Site self.old self.new) }
        ensures memory { OnErr result (self.new ≡ self.old) }
        ensures core { ReadsBeside S.Site (is_some (asked_copy self.old.copier))
            self.old.core self.new.core }
        ensures copier { asked_copy self.new.copier ≡ asked_copy self.old.copier }
        ensures state { IfOk result (λ state.
            state ≡ option_map (λ c. c.state) self.new.copier) }
    {
        match &mut self.copier {
            Some(copier) => match take_beside(&mut self.core, copier) {
                Ok(state) => Ok(Some(state)),
                Err(_) => Err(NoMemory),
            },
            None => Ok(None),
        }
    }
}
