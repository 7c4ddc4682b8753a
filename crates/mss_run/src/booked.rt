// A core, a copier beside it, and the book of its history.
ghost use Rattle.std.specs.Prelude.{◌≡◌, ◌≤◌, ◌<◌, IfOk, IfSome, OnErr, OnOk, length, slice_get};
ghost use Rattle.std.specs.Prelude.{true, Some, is_some};
ghost use Rattle.std.specs.List.{list_any};
ghost use Rattle.std.specs.Option.{option_map};
ghost use Rattle.channel_commands.specs.Views.{call_of};
ghost use Rattle.seen_book.specs.Openings.{IsLegalFrom};
ghost use Rattle.host_events.specs.Answers.{told_of};
ghost use Rattle.core_state.specs.CoreValue.{seen_core};
ghost use Rattle.core_state.specs.HostEvents.{IsSame};
ghost use Rattle.core_state.specs.Pins.{task_at};
ghost use Rattle.core_state.specs.declared.rule.WorkAnswer.TheVariants.{Idle};
ghost use Rattle.core_state.specs.declared.session.TheConstants.{ENTRY_LIMIT};
ghost use Rattle.volume_copy.specs.Beside.{
  HostEventBeside,
  IsReadyFor,
  ReadsBeside,
  StandsBeside,
  TakesBeside,
  asked_copy,
};
ghost use Rattle.quiet_events.specs.Quiet.{
  GivesNoWork,
  GivesOthersNothing,
  GoesOnAlone,
  HasNoWork,
  RestsBehind,
  WaitsInVain,
  is_at_rest,
};
ghost use Rattle.mss_run.specs.Answers.{Answered};
ghost use Rattle.mss_run.specs.Beginning.{OpensWith};
ghost use Rattle.mss_run.specs.Happens.{Happens, IsSameButRead};
ghost use Rattle.mss_run.specs.Led.{Works};

use crate::event::{entries_beside, host_step, work_step};
use crate::setup::Setup;
use channel_commands::Call;
use ckd_plain::Entry;
use core_state::{Core, Task, WorkAnswer};
use host_events::HostAnswer;
use mss_base::{NoMemory, RecorderNo, Site};
use seen_book::{Book, HostPass, Name, Word, append, see};
use std::marker::Model;
use victim_choice::Choose;
use volume_copy::{CopiedCore, Copier, CopyState};

/// A core with the copier beside it, and the book of its history, which is out only within an event.
#[derive(Drop)]
pub(crate) struct BookedCore<N: Setup, S: Site, C: Choose> {
    copied: CopiedCore<S, C>,
    book: Option<Book<N>>,
}

impl<N: Setup, S: Site, C: Choose> Model for BookedCore<N, S, C> {
    ghost use Rattle.core_state.specs.CoreValue.{seen_core};
    ghost use Rattle.volume_copy.specs.Beside.{CopiedValue};
    ghost use Rattle.mss_run.specs.Held.{IsHeld};

    ghost Value = { CopiedValue S C };

    ghost view = { λ b. b.copied };

    ghost invariant = { λ b.
        IsHeld N.opening N.setup S.tells (S.never_fails_but b.copied.core.site)
        (seen_core S.Site b.copied.core) b.copied.copier b.book };
}

/// The entry at a place.
fn entry_at(history: &[Entry], place: usize) -> &Entry
    requires { place < length history.now }
    ensures { slice_get history.now place ≡ Some result.now }
{
    &history[place]
}

/// Whether a recorder has a task.
fn has_task<S: Site, C: Choose>(core: &Core<S, C>, recorder: RecorderNo) -> bool
    ensures { result ≡ is_some (task_at core.now.tasks recorder) }
{
    core.task(recorder).is_some()
}

/// Whether any of these recorders has a task.
fn is_any_at_work(tasks: &[Option<Task>]) -> bool
    ensures { result ≡ list_any (λ task. is_some task) tasks.now }
{
    tasks.iter().any(|task| task.is_some())
}

/// Whether no host has a request, and no recorder a task.
fn is_at_rest<S: Site, C: Choose>(core: &Core<S, C>) -> bool
    ensures { result ≡ is_at_rest (seen_core S.Site core.now) }
{
    core.requests.nth(0).is_none() && !is_any_at_work(core.tasks.as_slice())
}

/// Tells book and pass of an event that was answered so. The history is the one after the event, and `before` its
/// length before.
fn told<N: Name>(
    word: &Word<N>,
    book: Book<N>,
    pass: HostPass<N>,
    call: &Call,
    answer: &HostAnswer,
    history: &[Entry],
    before: usize,
) -> (Book<N>, HostPass<N>)
    requires before { before ≡ length book.list }
    requires happens { Happens pass.host (call_of call.now) (told_of answer.now)
        book.list history.now }
    requires legal { IsLegalFrom N.opening history.now }
    requires few { length history.now ≤ ENTRY_LIMIT }
    ensures book { result.0 ≡ record { list = history.now; made = book.made } }
    ensures pass { Answered (call_of call.now) pass (told_of answer.now) result.1 }
{
    // The clauses speak of the call; no code does.
    let _ = call;
    match answer {
        HostAnswer::Replied { .. } => append(word, book, pass, entry_at(history, before)),
        HostAnswer::Stopped { .. } => {
            if before >= history.len() {
                return (book, pass);
            }
            append(word, book, pass, entry_at(history, before))
        }
        HostAnswer::CommandLimit => see(word, book, pass),
        HostAnswer::Marked | HostAnswer::Wait(_) | HostAnswer::Memory => (book, pass),
    }
}

impl<N: Setup, S: Site, C: Choose> BookedCore<N, S, C> {
    /// A core of the session that the name names, with its book and the copier that is asked for.
    pub fn new(core: Core<S, C>, copier: Option<Copier>, book: Book<N>) -> Self
        requires opening { OpensWith N.opening N.setup S.tells (S.never_fails_but core.site)
            (seen_core S.Site core) }
        requires history { book.list ≡ core.history }
        requires ready { IfSome copier (IsReadyFor core.history) }
        requires copy { asked_copy copier ≡ N.setup.copy }
    {
        BookedCore {
            copied: CopiedCore::new(core, copier),
            book: Some(book),
        }
    }

    /// The core, the copier and the book.
    pub fn into_parts(self) -> (Core<S, C>, Option<Copier>, Book<N>)
        ensures opening { OpensWith N.opening N.setup S.tells
            (S.never_fails_but result.0.site) (seen_core S.Site result.0) }
        ensures history { result.2.list ≡ result.0.history }
        ensures copy { asked_copy result.1 ≡ N.setup.copy }
        ensures stands { IfSome result.1 (StandsBeside S.Site result.0) }
    {
        let BookedCore { copied, book } = self;
        let Some(book) = book else { unreachable!() };
        let (core, copier) = copied.into_parts();
        (core, copier, book)
    }

    /// How many recorders are configured, 1 to 8.
    pub fn recorders(&self) -> u8
        ensures count { result ≡ self.now.core.config.recorders }
        ensures few { result ≤ 8 }
    {
        self.copied.core().recorder_count()
    }

    /// Whether no host has a request, and no recorder a task.
    pub fn is_at_rest(&self) -> bool
        ensures { result ≡ is_at_rest (seen_core S.Site self.now.core) }
    {
        is_at_rest(self.copied.core())
    }

    /// Whether a recorder has a task.
    pub fn has_task(&self, recorder: RecorderNo) -> bool
        ensures { result ≡ is_some (task_at self.now.core.tasks recorder) }
    {
        has_task(self.copied.core(), recorder)
    }

    /// One event of the pass's host, of which the book and the pass are told; and whether it is a wait that changed
    /// nothing.
    pub fn command(
        &mut self,
        word: &Word<N>,
        pass: HostPass<N>,
        call: &Call,
    ) -> (HostPass<N>, HostAnswer, bool)
        ensures event { HostEventBeside S.Site (is_some (asked_copy self.old.copier))
            self.old.core pass.host (call_of call.now) (told_of result.1) self.new.core }
        ensures answered { Answered (call_of call.now) pass (told_of result.1) result.0 }
        ensures in_vain { result.2 ≡ true
            → IsSameButRead (is_some (asked_copy self.old.copier)) S.tells
            (seen_core S.Site self.old.core) (seen_core S.Site self.new.core) }
        ensures waits { result.2 ≡ true
            → WaitsInVain (seen_core S.Site self.new.core) pass.host (call_of call.now) }
        ensures rests { RestsBehind (told_of result.1) (seen_core S.Site self.new.core)
            → GivesNoWork (seen_core S.Site self.old.core) (seen_core S.Site self.new.core) }
        ensures copier { asked_copy self.new.copier ≡ asked_copy self.old.copier }
        ensures chooser { self.new.core.chooser ≡ self.old.core.chooser }
    {
        let host = pass.host();
        let before = entries_beside(&self.copied);
        let (answer, in_vain) = host_step(&mut self.copied, host, call);
        let _after = entries_beside(&self.copied);
        let Some(book) = self.book.take() else {
            unreachable!()
        };
        let history = self.copied.core().history().as_slice();
        let (book, pass) = told(word, book, pass, call, &answer, history, before);
        self.book = Some(book);
        (pass, answer, in_vain)
    }

    /// One event of a recorder; none of one that isn't configured. An idle one changes nothing.
    pub fn work(&mut self, recorder: RecorderNo) -> WorkAnswer
        ensures works { Works S.tells (C.may self.old.core.chooser)
            (seen_core S.Site self.old.core) recorder result (seen_core S.Site self.new.core) }
        ensures idle { result ≡ Idle → IsSame S.tells
            (seen_core S.Site self.old.core) (seen_core S.Site self.new.core) }
        ensures rests { result ≡ Idle → recorder < self.old.core.config.recorders
            → HasNoWork (seen_core S.Site self.new.core) recorder }
        ensures alone { GoesOnAlone (seen_core S.Site self.new.core) recorder result
            → GivesOthersNothing recorder (seen_core S.Site self.old.core)
            (seen_core S.Site self.new.core) }
        ensures copier { asked_copy self.new.copier ≡ asked_copy self.old.copier }
        ensures chooser { self.new.core.chooser ≡ self.old.core.chooser }
    {
        if recorder.get() >= self.recorders() {
            return WorkAnswer::Idle;
        }
        let _before = entries_beside(&self.copied);
        work_step(&mut self.copied, recorder)
    }

    /// Takes the next track for the copy, if there is one, and tells how far it is then. Where memory is wanting
    /// nothing changes.
    pub fn take(&mut self) -> Result<Option<CopyState>, NoMemory>
        ensures takes { OnOk result (TakesBeside S.Site self.old self.new) }
        ensures memory { OnErr result (self.new ≡ self.old) }
        ensures core { ReadsBeside S.Site (is_some (asked_copy self.old.copier))
            self.old.core self.new.core }
        ensures copier { asked_copy self.new.copier ≡ asked_copy self.old.copier }
        ensures state { IfOk result (λ state.
            state ≡ option_map (λ c. c.state) self.new.copier) }
    {
        let _before = entries_beside(&self.copied);
        self.copied.take()
    }
}
