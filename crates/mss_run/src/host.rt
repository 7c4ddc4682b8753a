// A host's calls.
ghost use Rattle.std.specs.Prelude.{◌≡◌, []};
ghost use Rattle.channel_commands.specs.Views.{call_of};
ghost use Rattle.mss_run.specs.Owns.{Attempted, Called, Makes, attempt_of, places_of};

use crate::actor::{Actor, Gate, Point, Run};
use crate::ends::Places;
use crate::hold::Hold;
use crate::setup::Setup;
use channel_commands::{Call, Reply};
use core_state::WorkAnswer;
use host_events::HostAnswer;
use mss_base::{HostNo, Site};
use seen_book::{HostPass, Name};
use std::alloc::Global;
use std::marker::Model;
use std::sync::Wait;
use victim_choice::Choose;

/// A reply, and its place in the history.
#[derive(Drop)]
pub(crate) struct Told {
    pub index: u64,
    pub reply: Reply,
}

/// What one attempt of a call came to.
#[derive(Drop)]
pub(crate) enum Attempt {
    /// It has to be tried again.
    Again,
    Replied(Told),
    /// The run has ended.
    Halted,
}

/// Whether a host passes the gate after an event that was answered so.
fn is_point(answer: &Option<HostAnswer>) -> bool {
    matches!(
        answer,
        Some(HostAnswer::Replied { .. } | HostAnswer::Marked)
    )
}

/// What an attempt comes to, by the answer of its event, and by whether what was done for a recorder lets the run go
/// on.
fn attempt_of(answer: Option<HostAnswer>, goes_on: bool) -> Attempt
    ensures { result ≡ attempt_of answer goes_on }
{
    match answer {
        Some(HostAnswer::Replied { index, reply }) => Attempt::Replied(Told { index, reply }),
        Some(HostAnswer::Marked) => Attempt::Again,
        Some(HostAnswer::Wait(_)) => {
            if goes_on {
                Attempt::Again
            } else {
                Attempt::Halted
            }
        }
        Some(HostAnswer::Stopped { .. } | HostAnswer::CommandLimit | HostAnswer::Memory) | None => {
            Attempt::Halted
        }
    }
}

/// A host under way: its pass, and the places of all that it was told.
#[derive(Drop)]
pub(crate) struct Running<N: Name> {
    pass: HostPass<N>,
    own: Places,
}

impl<N: Name> Model for Running<N> {
    ghost use Rattle.std.specs.Prelude.{◌≡◌};
    ghost use Rattle.seen_book.specs.Books.{PassData};
    ghost use Rattle.mss_run.specs.Owns.{places_of};

    ghost Value = { PassData };

    ghost view = { λ r. r.pass };

    ghost invariant = { λ r. r.own.items ≡ places_of r.pass.host r.pass.seen };
}

impl<N: Name> Running<N> {
    fn over(pass: HostPass<N>, own: Places) -> Self
        requires { own.items ≡ places_of pass.host pass.seen }
        ensures { result ≡ pass }
    {
        Running { pass, own }
    }

    /// Before its first call, in a history without entries.
    pub fn start(alloc: Global, pass: HostPass<N>) -> Self
        requires { pass.seen ≡ [] }
        ensures { result ≡ pass }
    {
        let own = Places::new(alloc);
        Running::over(pass, own)
    }

    pub fn into_parts(self) -> (HostPass<N>, Places)
        ensures pass { result.0 ≡ self }
        ensures own { result.1.items ≡ places_of self.host self.seen }
    {
        let Running { pass, own } = self;
        (pass, own)
    }
}

impl<'a, N: Setup, S: Site, C: Choose, G: Gate, R: Wait> Run<'a, N, S, C, G, R> {
    /// Passes the gate after what a host did for a recorder, if it did anything. False where the run has to end.
    fn pass_helped(
        &self,
        hold: &Hold<'a, N, S, C>,
        host: HostNo,
        helped: Option<WorkAnswer>,
    ) -> bool {
        match helped {
            Some(WorkAnswer::Did(kind)) => {
                if hold.is_free() {
                    self.gate.pass(Actor::Host(host), Point::Work(kind));
                }
                true
            }
            Some(WorkAnswer::Stopped { .. } | WorkAnswer::Memory) => false,
            Some(WorkAnswer::Idle) | None => true,
        }
    }

    /// Tries a call once. A host that is told to wait works for a recorder that nobody works for, or sleeps.
    fn try_call(
        &self,
        hold: &mut Hold<'a, N, S, C>,
        pass: HostPass<N>,
        call: &Call,
    ) -> (HostPass<N>, Attempt)
        ensures { Attempted (call_of call.now) pass result.1 result.0 }
    {
        let host = pass.host();
        let (pass, answer, helped) = self.shared.step(self.rt, hold, pass, call);
        if hold.is_free() && is_point(&answer) {
            self.gate.pass(Actor::Host(host), Point::Host(host));
        }
        let goes_on = self.pass_helped(hold, host, helped);
        let attempt = attempt_of(answer, goes_on);
        if matches!(attempt, Attempt::Halted) {
            self.shared.end(self.rt, hold);
        }
        (pass, attempt)
    }

    /// Makes a call until it is replied. None where the run has ended.
    fn call_until_replied(
        &self,
        hold: &mut Hold<'a, N, S, C>,
        mut pass: HostPass<N>,
        call: &Call,
    ) -> (HostPass<N>, Option<Told>)
        ensures { Called (call_of call.now) pass result.1 result.0 }
    {
        for _ in self.rt.forever() {
            let (next, attempt) = self.try_call(hold, pass, call);
            match attempt {
                Attempt::Again => pass = next,
                Attempt::Replied(told) => return (next, Some(told)),
                Attempt::Halted => return (next, None),
            }
        }
        unreachable!()
    }

    /// Makes a host's call, for whose place it takes room first. None where the run has ended.
    pub fn make_call(
        &self,
        hold: &mut Hold<'a, N, S, C>,
        running: Running<N>,
        call: &Call,
    ) -> (Running<N>, Option<Reply>)
        ensures { Makes (call_of call.now) running result.1 result.0 }
    {
        let Running { pass, mut own } = running;
        if own.reserve(1).is_err() {
            self.shared.end(self.rt, hold);
            return (Running::over(pass, own), None);
        }
        let _before = pass.host();
        let (pass, told) = self.call_until_replied(hold, pass, call);
        let _after = pass.host();
        match told {
            Some(told) => {
                let Told { index, reply } = told;
                own.push(index);
                (Running::over(pass, own), Some(reply))
            }
            None => (Running::over(pass, own), None),
        }
    }
}
