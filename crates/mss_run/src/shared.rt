// The core under one lock.
ghost use Rattle.std.specs.Prelude.{◌≡◌, ◌≤◌, All, IfSome, length};
ghost use Rattle.channel_commands.specs.Views.{call_of};
ghost use Rattle.seen_book.specs.Books.{AreNested, AreOfThese, Begins, HaveOneEach};
ghost use Rattle.seen_book.specs.Openings.{IsLegalFrom};
ghost use Rattle.core_state.specs.CoreValue.{seen_core};
ghost use Rattle.core_state.specs.declared.session.TheConstants.{ENTRY_LIMIT};
ghost use Rattle.host_events.specs.Answers.{told_of};
ghost use Rattle.volume_copy.specs.Beside.{IsReadyFor, StandsBeside, asked_copy};
ghost use Rattle.mss_run.specs.Answers.{Answered};
ghost use Rattle.mss_run.specs.Beginning.{OpensWith};

use crate::event::entries_of;
use crate::held::Held;
use crate::setup::Setup;
use channel_commands::Call;
use core_state::{Core, WorkAnswer};
use host_events::HostAnswer;
use mss_base::{RecorderNo, Site};
use seen_book::{Book, HostPass, PassList, Word, close};
use std::sync::{Condvar, Mutex, Wait};
use victim_choice::Choose;
use volume_copy::Copier;

/// A core that hosts and recorders share. Each call does what it does in one hold of the one lock, which actors may
/// keep for their next.
#[derive(Drop)]
pub struct Shared<N: Setup, S: Site, C: Choose> {
    pub(crate) word: Word<N>,
    pub(crate) held: Mutex<Held<N, S, C>>,
    /// Where actors that find nothing to do sleep.
    pub(crate) changed: Condvar,
    recorders: u8,
    copies: bool,
}

impl<N: Setup, S: Site, C: Choose> Shared<N, S, C> {
    /// Puts a core under a lock, with the book of its history, and with a copier, if a copy is asked for. The name
    /// names the core's session and the copy.
    pub fn new(word: Word<N>, book: Book<N>, core: Core<S, C>, copier: Option<Copier>) -> Self
        requires opening { OpensWith N.opening N.setup S.tells (S.never_fails_but core.site)
            (seen_core S.Site core) }
        requires history { book.list ≡ core.history }
        requires ready { IfSome copier (IsReadyFor core.history) }
        requires copy { asked_copy copier ≡ N.setup.copy }
    {
        let recorders = core.recorder_count();
        let copies = copier.is_some();
        Shared {
            word,
            held: Mutex::new(Held::new(core, copier, book)),
            changed: Condvar::new(),
            recorders,
            copies,
        }
    }

    /// One event of the pass's host.
    ///
    /// A reply is an entry of the history. The pass has then seen all that it had seen before, and more, which ends
    /// with this entry, and its own entries got this one. A stop may be such an entry. At the limit the pass has seen
    /// all 4,096 entries. Else it is as it was.
    pub fn command<R: Wait>(
        &self,
        rt: &R,
        pass: HostPass<N>,
        call: &Call,
    ) -> (HostPass<N>, HostAnswer)
        ensures { Answered (call_of call.now) pass (told_of result.1) result.0 }
    {
        self.held.lock(rt).command(&self.word, pass, call)
    }

    /// One event of a recorder. Of one that isn't configured there is none, and it is idle.
    pub fn work<R: Wait>(&self, rt: &R, recorder: RecorderNo) -> WorkAnswer {
        self.held.lock(rt).work(recorder)
    }

    /// How many recorders are configured.
    pub(crate) fn recorders(&self) -> u8 {
        self.recorders
    }

    /// Whether a copy is asked for.
    pub(crate) fn copies(&self) -> bool {
        self.copies
    }

    /// The core, whose session is the one that the name names, and the copier of the copy that it names, which stands
    /// for that session.
    ///
    /// Its history is legal, and each entry is of a host of the name's list. Each pass that is handed in has seen a
    /// beginning of it, and has all entries of its host there. A pass that isn't handed in is given up.
    pub fn close(self, passes: PassList<N>) -> (Core<S, C>, Option<Copier>)
        ensures opening { OpensWith N.opening N.setup S.tells
            (S.never_fails_but result.0.site) (seen_core S.Site result.0) }
        ensures legal { IsLegalFrom N.opening result.0.history }
        ensures few { length result.0.history ≤ ENTRY_LIMIT }
        ensures hosts { AreOfThese N.hosts result.0.history }
        ensures passes { All (Begins result.0.history) passes.items }
        ensures nested { AreNested passes.items }
        ensures one_each { HaveOneEach passes.items }
        ensures copy { asked_copy result.1 ≡ N.setup.copy }
        ensures stands { IfSome result.1 (StandsBeside S.Site result.0) }
    {
        let Shared { word, held, .. } = self;
        let (core, copier, book) = held.into_inner().into_parts();
        let _entries = entries_of(&core);
        close(word, book, passes);
        (core, copier)
    }
}
