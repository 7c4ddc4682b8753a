// What the lock keeps, and what an actor does at a time with it.
ghost use Rattle.std.specs.Prelude.{◌≡◌, IfSome, None, Some, false, is_some, true};
ghost use Rattle.std.specs.Option.{option_map};
ghost use Rattle.channel_commands.specs.Views.{call_of};
ghost use Rattle.core_state.specs.CoreValue.{seen_core};
ghost use Rattle.core_state.specs.HostEvents.{IsSame};
ghost use Rattle.core_state.specs.declared.rule.WorkAnswer.TheVariants.{Idle};
ghost use Rattle.host_events.specs.Answers.{told_of};
ghost use Rattle.volume_copy.specs.Beside.{HostEventBeside, IsReadyFor, ReadsBeside, StandsBeside, asked_copy};
ghost use Rattle.quiet_events.specs.Quiet.{GivesNoWork, GivesOthersNothing, GoesOnAlone, RestsBehind};
ghost use Rattle.mss_run.specs.Answers.{Answered, Stepped};
ghost use Rattle.mss_run.specs.Beginning.{OpensWith};
ghost use Rattle.mss_run.specs.Happens.{IsSameButRead};
ghost use Rattle.mss_run.specs.Led.{Helps, HelpsBehind, Works};
ghost use Rattle.mss_run.specs.Presence.{
  CopyTurns,
  IsRest,
  TakesInTurn,
  Turns,
  ended_presence,
  nobody,
  with_host,
  with_worker,
};
ghost use Rattle.mss_run.specs.Sleep.{FindsNoWork, FindsNothing, NoneIsLeft};

use crate::booked::BookedCore;
use crate::present::Presence;
use crate::setup::Setup;
use channel_commands::Call;
use core_state::{Core, WorkAnswer, WorkKind};
use host_events::HostAnswer;
use mss_base::{HostNo, RecorderNo, Site};
use seen_book::{Book, HostPass, Word};
use victim_choice::Choose;
use volume_copy::{Copier, CopyState};

/// What the lock keeps: the session, and who is in.
#[derive(Drop)]
pub(crate) struct Held<N: Setup, S: Site, C: Choose> {
    session: BookedCore<N, S, C>,
    present: Presence,
    /// Whether a host sleeps that nobody has woken since.
    sleeps: bool,
}

/// What a copier does next, by what came of its take.
#[derive(Clone, Copy)]
pub(crate) enum CopyTurn {
    /// It took a track, and others are left.
    Took,
    /// Its copy hasn't begun yet.
    Waits,
    /// No track is left to take, or the run doesn't go on with a host in.
    Leaves,
    /// Memory is wanting.
    Lacks,
}

/// What an actor does at a time with the lock held: an event, or it counts, or it ends the run.
impl<N: Setup, S: Site, C: Choose> Held<N, S, C> {
    /// Before any actor is in.
    pub fn new(core: Core<S, C>, copier: Option<Copier>, book: Book<N>) -> Self
        requires opening { OpensWith N.opening N.setup S.tells (S.never_fails_but core.site)
            (seen_core S.Site core) }
        requires history { book.list ≡ core.history }
        requires ready { IfSome copier (IsReadyFor core.history) }
        requires copy { asked_copy copier ≡ N.setup.copy }
        ensures { result.present ≡ nobody }
    {
        Held {
            session: BookedCore::new(core, copier, book),
            present: Presence::nobody(),
            sleeps: false,
        }
    }

    /// The core, the copier and the book, when the lock is gone.
    pub fn into_parts(self) -> (Core<S, C>, Option<Copier>, Book<N>)
        ensures opening { OpensWith N.opening N.setup S.tells
            (S.never_fails_but result.0.site) (seen_core S.Site result.0) }
        ensures history { result.2.list ≡ result.0.history }
        ensures copy { asked_copy result.1 ≡ N.setup.copy }
        ensures stands { IfSome result.1 (StandsBeside S.Site result.0) }
    {
        let Held { session, .. } = self;
        session.into_parts()
    }

    /// One event of the pass's host, whoever is in.
    pub fn command(
        &mut self,
        word: &Word<N>,
        pass: HostPass<N>,
        call: &Call,
    ) -> (HostPass<N>, HostAnswer)
        ensures event { HostEventBeside S.Site (is_some (asked_copy self.old.session.copier))
            self.old.session.core pass.host (call_of call.now) (told_of result.1)
            self.new.session.core }
        ensures answered { Answered (call_of call.now) pass (told_of result.1) result.0 }
        ensures present { self.new.present ≡ self.old.present }
        ensures sleeps { self.new.sleeps ≡ self.old.sleeps }
    {
        let (pass, answer, _) = self.session.command(word, pass, call);
        (pass, answer)
    }

    /// One event of a recorder, whoever is in.
    pub fn work(&mut self, recorder: RecorderNo) -> WorkAnswer
        ensures works { Works S.tells (C.may self.old.session.core.chooser)
            (seen_core S.Site self.old.session.core) recorder result
            (seen_core S.Site self.new.session.core) }
        ensures present { self.new.present ≡ self.old.present }
    {
        self.session.work(recorder)
    }

    /// One event of the pass's host, unless the run has ended. Where that is a wait that changed nothing, one of a
    /// recorder whose own worker isn't in follows, and is answered too: idle, where no such recorder has work. So one
    /// step does one event at most that changes anything, and where it is idle none.
    ///
    /// Tells last whether it may have given others something to do.
    pub fn step(
        &mut self,
        word: &Word<N>,
        pass: HostPass<N>,
        call: &Call,
    ) -> (HostPass<N>, Option<HostAnswer>, Option<WorkAnswer>, bool)
        ensures stepped { Stepped (call_of call.now) pass result.1 result.0 }
        ensures helps { IfSome result.1 (λ answer. HelpsBehind S.tells
            (C.may self.old.session.core.chooser) (is_some (asked_copy self.old.session.copier))
            self.old.present pass.host (call_of call.now) (told_of answer) result.2
            (seen_core S.Site self.old.session.core) (seen_core S.Site self.new.session.core)) }
        ensures present { self.new.present ≡ self.old.present }
        ensures sleeps { self.new.sleeps ≡ self.old.sleeps }
        ensures over { self.old.present.ended ≡ true
            → (result.1 ≡ None) × (self.new.session ≡ self.old.session) }
        ensures idle { result.2 ≡ Some Idle
            → IsSameButRead (is_some (asked_copy self.old.session.copier)) S.tells
            (seen_core S.Site self.old.session.core) (seen_core S.Site self.new.session.core) }
        ensures nothing { result.2 ≡ Some Idle
            → FindsNothing (seen_core S.Site self.new.session.core) self.new.present pass.host
            (call_of call.now) }
        ensures quiet { result.3 ≡ false → (self.old.sleeps ≡ false)
            × GivesNoWork (seen_core S.Site self.old.session.core)
            (seen_core S.Site self.new.session.core) }
    {
        if self.present.is_over() {
            return (pass, None, None, true);
        }
        let (pass, answer, in_vain) = self.session.command(word, pass, call);
        if in_vain {
            let helped = self.help();
            return (pass, Some(answer), Some(helped), true);
        }
        let stirs = self.may_stir(&answer);
        (pass, Some(answer), None, stirs)
    }

    /// Whether what a host was answered may give others something to do. A reply behind which the core is at rest gives
    /// no recorder anything; to a host that sleeps it may.
    fn may_stir(&self, answer: &HostAnswer) -> bool
        ensures { result ≡ false → (self.now.sleeps ≡ false)
            × RestsBehind (told_of answer.now) (seen_core S.Site self.now.session.core) }
    {
        match answer {
            HostAnswer::Replied { .. } => self.sleeps || !self.session.is_at_rest(),
            _ => true,
        }
    }

    /// Whether what a recorder did may give others something to do. What it did for its own task doesn't, where that
    /// goes on. A frame that it assigned may: it may be the last that isn't bound, and then a host that waits is
    /// refused space.
    fn work_may_stir(&self, recorder: RecorderNo, answer: WorkAnswer) -> bool
        ensures { result ≡ false
            → GoesOnAlone (seen_core S.Site self.now.session.core) recorder answer }
    {
        match answer {
            WorkAnswer::Did(WorkKind::Pick | WorkKind::Fetch | WorkKind::Copy) => {
                !self.session.has_task(recorder)
            }
            _ => true,
        }
    }

    /// Notes that a host sleeps from here on.
    pub fn lie_down(&mut self)
        ensures { self.new ≡ record self.old { sleeps = true } }
    {
        self.sleeps = true;
    }

    /// Notes that all hosts that sleep are being woken.
    pub fn get_up(&mut self)
        ensures { self.new ≡ record self.old { sleeps = false } }
    {
        self.sleeps = false;
    }

    /// One event of the first recorder that has one and whose own worker isn't in.
    fn help(&mut self) -> WorkAnswer
        ensures helps { Helps S.tells (C.may self.old.session.core.chooser)
            (seen_core S.Site self.old.session.core) self.old.present result
            (seen_core S.Site self.new.session.core) }
        ensures present { self.new.present ≡ self.old.present }
        ensures idle { result ≡ Idle → IsSame S.tells (seen_core S.Site self.old.session.core)
            (seen_core S.Site self.new.session.core) }
        ensures nothing { result ≡ Idle
            → NoneIsLeft (seen_core S.Site self.new.session.core) self.new.present }
        ensures sleeps { self.new.sleeps ≡ self.old.sleeps }
    {
        for number in 0..self.session.recorders() {
            let Some(recorder) = RecorderNo::of(number) else {
                unreachable!()
            };
            if self.present.has_worker(recorder) {
                continue;
            }
            match self.session.work(recorder) {
                WorkAnswer::Idle => {}
                answer => return answer,
            }
        }
        WorkAnswer::Idle
    }

    /// One event of a recorder by its own worker. None where that is counted out: the recorder is idle and no host is
    /// in, or the run has ended. It is one hold: so no host that is in loses a worker.
    ///
    /// Tells last whether it may have given others something to do.
    pub fn turn(&mut self, recorder: RecorderNo) -> (Option<WorkAnswer>, bool)
        ensures turns { Turns recorder self.old.present result.0 self.new.present }
        ensures works { IfSome result.0 (λ answer. Works S.tells
            (C.may self.old.session.core.chooser) (seen_core S.Site self.old.session.core)
            recorder answer (seen_core S.Site self.new.session.core)) }
        ensures sleeps { self.new.sleeps ≡ self.old.sleeps }
        ensures over { self.old.present.ended ≡ true → self.new.session ≡ self.old.session }
        ensures idle { IsRest result.0 → IsSame S.tells (seen_core S.Site self.old.session.core)
            (seen_core S.Site self.new.session.core) }
        ensures nothing { result.0 ≡ Some Idle
            → FindsNoWork (seen_core S.Site self.new.session.core) recorder }
        ensures quiet { result.1 ≡ false
            → GivesOthersNothing recorder (seen_core S.Site self.old.session.core)
            (seen_core S.Site self.new.session.core) }
    {
        if self.present.is_over() {
            self.present.set_worker(recorder, false);
            return (None, true);
        }
        match self.session.work(recorder) {
            WorkAnswer::Idle => {
                if self.present.has_hosts() {
                    return (Some(WorkAnswer::Idle), true);
                }
                self.present.set_worker(recorder, false);
                (None, true)
            }
            answer => (Some(answer), self.work_may_stir(recorder, answer)),
        }
    }

    /// Takes the next track for the copy, while the run goes on and some host is in. It is counted nowhere, so it keeps
    /// nobody in.
    pub fn take(&mut self) -> CopyTurn
        ensures takes { TakesInTurn S.Site self.old.present result
            self.old.session self.new.session }
        ensures turns { CopyTurns self.old.present result
            (option_map (λ c. c.state) self.new.session.copier) }
        ensures present { self.new.present ≡ self.old.present }
        ensures sleeps { self.new.sleeps ≡ self.old.sleeps }
        ensures core { ReadsBeside S.Site (is_some (asked_copy self.old.session.copier))
            self.old.session.core self.new.session.core }
        ensures over { self.old.present.ended ≡ true → self.new.session ≡ self.old.session }
    {
        if self.present.is_over() || !self.present.has_hosts() {
            return CopyTurn::Leaves;
        }
        match self.session.take() {
            Ok(Some(CopyState::Taking)) => CopyTurn::Took,
            Ok(Some(CopyState::Armed)) => CopyTurn::Waits,
            Ok(_) => CopyTurn::Leaves,
            Err(_) => CopyTurn::Lacks,
        }
    }

    /// Counts a host in.
    pub fn enter_host(&mut self, host: HostNo)
        ensures { self.new ≡ record self.old { present = with_host host true self.old.present } }
    {
        self.present.set_host(host, true);
    }

    /// Counts a host out.
    pub fn leave_host(&mut self, host: HostNo)
        ensures { self.new ≡ record self.old { present = with_host host false self.old.present } }
    {
        self.present.set_host(host, false);
    }

    /// Counts a recorder's worker in.
    pub fn enter_worker(&mut self, recorder: RecorderNo)
        ensures { self.new
            ≡ record self.old { present = with_worker recorder true self.old.present } }
    {
        self.present.set_worker(recorder, true);
    }

    /// Ends the run, for every actor.
    pub fn end(&mut self)
        ensures { self.new ≡ record self.old { present = ended_presence self.old.present } }
    {
        self.present.end();
    }
}
