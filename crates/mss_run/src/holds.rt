// The events of actors, in their holds of the lock: `Held` says what each does.
//
// What an actor finds to do is a function of what the lock keeps. One that finds nothing sleeps from that very hold on:
// each function that sleeps asks for it. What may give another something to do wakes all: an event, the leave of a
// host, the end of the run. So nobody sleeps who would find something. Behind an event the lock may be kept for the
// actor's next one, since events are short, and to hand the lock to another thread takes as long as some of them: who
// is woken comes when it is free.
//
// Two kinds of events wake nobody. `Held::step` and `Held::turn` tell which they are, and that who finds nothing before
// finds nothing behind them (`quiet_events`). One is a reply behind which no host has a request and no recorder a task,
// where no host sleeps. The other is what a recorder does for its own task, while that goes on: it picks a request,
// fetches a cartridge, or copies a track.
//
// Who comes in wakes nobody either, since a host that is in only keeps workers from leaving, and a worker takes over
// what hosts that wait would do. Nor do `command` and `work`: no actor shares a core with their callers.
//
// A copier finds something as soon as its copy has begun, and has to leave when the last host does, or when the run
// ends. A copy begins behind an entry, so where a copy is asked for each event of a host wakes all. The copier's own
// takes wake nobody: a read of the devices gives no host and no worker anything to do. A host that waits may have
// had a track taken before its call, and sleeps all the same: a copier that has begun doesn't sleep. Nor does the
// copier's leave wake anybody, since nobody waits for it: it isn't counted in.
ghost use Rattle.std.specs.Prelude.{◌≡◌, Some};
ghost use Rattle.std.specs.Option.{option_map};
ghost use Rattle.std.specs.Sync.Mutex.{mutex_guard_value};
ghost use Rattle.channel_commands.specs.Views.{call_of};
ghost use Rattle.core_state.specs.CoreValue.{seen_core};
ghost use Rattle.volume_copy.specs.declared.copier.CopyState.TheVariants.{Armed};
ghost use Rattle.mss_run.specs.Answers.{Stepped};
ghost use Rattle.mss_run.specs.Sleep.{FindsNoWork, FindsNothing};

use crate::held::{CopyTurn, Held};
use crate::hold::Hold;
use crate::setup::Setup;
use crate::shared::Shared;
use channel_commands::Call;
use core_state::WorkAnswer;
use host_events::HostAnswer;
use mss_base::{HostNo, RecorderNo, Site};
use seen_book::HostPass;
use std::sync::{MutexGuard, Wait};
use victim_choice::Choose;

impl<N: Setup, S: Site, C: Choose> Shared<N, S, C> {
    /// Lets go of the lock and sleeps, until another actor wakes all. Only a worker may whose recorder has nothing to
    /// do.
    fn sleep<R: Wait>(&self, rt: &R, held: MutexGuard<'_, Held<N, S, C>>, recorder: RecorderNo)
        requires { FindsNoWork (seen_core S.Site (mutex_guard_value held).session.core) recorder }
    {
        // The clause speaks of it; no code does.
        let _ = recorder;
        let held = self.changed.wait(rt, held);
        drop(held);
    }

    /// Lets go of the lock and sleeps, until another actor wakes all. Only a host may that can but wait, and has no
    /// recorder to work for. It is noted.
    fn sleep_host<R: Wait>(
        &self,
        rt: &R,
        mut held: MutexGuard<'_, Held<N, S, C>>,
        host: HostNo,
        call: &Call,
    )
        requires { FindsNothing (seen_core S.Site (mutex_guard_value held).session.core)
            (mutex_guard_value held).present host (call_of call.now) }
    {
        // The clause speaks of them; no code does.
        let _ = host;
        let _ = call;
        held.lie_down();
        let held = self.changed.wait(rt, held);
        drop(held);
    }

    /// Lets go of the lock and sleeps, until another actor wakes all. Only a copier may whose copy hasn't begun.
    fn sleep_copier<R: Wait>(&self, rt: &R, held: MutexGuard<'_, Held<N, S, C>>)
        requires { option_map (λ c. c.state) (mutex_guard_value held).session.copier ≡ Some Armed }
    {
        let held = self.changed.wait(rt, held);
        drop(held);
    }

    /// Lets go of the lock and wakes all that sleep.
    fn wake(&self, mut held: MutexGuard<'_, Held<N, S, C>>) {
        held.get_up();
        drop(held);
        self.changed.notify_all();
    }

    /// Ends an event: wakes all that sleep, where it may give them something to do. The lock may be kept.
    fn pause<'a>(
        &'a self,
        stirs: bool,
        hold: &mut Hold<'a, N, S, C>,
        mut held: MutexGuard<'a, Held<N, S, C>>,
    ) {
        if stirs {
            held.get_up();
            self.changed.notify_all();
        }
        hold.keep(held);
    }

    /// One event of the pass's host in its hold. A host that found nothing to do, for itself or for a recorder, has
    /// slept.
    pub(crate) fn step<'a, R: Wait>(
        &'a self,
        rt: &R,
        hold: &mut Hold<'a, N, S, C>,
        pass: HostPass<N>,
        call: &Call,
    ) -> (HostPass<N>, Option<HostAnswer>, Option<WorkAnswer>)
        ensures { Stepped (call_of call.now) pass result.1 result.0 }
    {
        let mut held = hold.begin(rt, &self.held);
        let host = pass.host();
        let (pass, answer, helped, stirs) = held.step(&self.word, pass, call);
        match helped {
            Some(WorkAnswer::Idle) => self.sleep_host(rt, held, host, call),
            _ => self.pause(self.copies() || stirs, hold, held),
        }
        (pass, answer, helped)
    }

    /// One event of a recorder in its worker's hold. A worker that found nothing to do has slept.
    pub(crate) fn turn<'a, R: Wait>(
        &'a self,
        rt: &R,
        hold: &mut Hold<'a, N, S, C>,
        recorder: RecorderNo,
    ) -> Option<WorkAnswer> {
        let mut held = hold.begin(rt, &self.held);
        let (answer, stirs) = held.turn(recorder);
        match answer {
            Some(WorkAnswer::Idle) => self.sleep(rt, held, recorder),
            Some(_) => self.pause(stirs, hold, held),
            None => self.wake(held),
        }
        answer
    }

    /// A copier whose copy hasn't begun has slept.
    pub(crate) fn take<R: Wait>(&self, rt: &R) -> CopyTurn {
        let mut held = self.held.lock(rt);
        let turn = held.take();
        match turn {
            CopyTurn::Waits => self.sleep_copier(rt, held),
            CopyTurn::Took | CopyTurn::Leaves | CopyTurn::Lacks => drop(held),
        }
        turn
    }

    pub(crate) fn enter_host<'a, R: Wait>(
        &'a self,
        rt: &R,
        hold: &mut Hold<'a, N, S, C>,
        host: HostNo,
    ) {
        let mut held = hold.begin(rt, &self.held);
        held.enter_host(host);
        hold.keep(held);
    }

    pub(crate) fn leave_host<'a, R: Wait>(
        &'a self,
        rt: &R,
        hold: &mut Hold<'a, N, S, C>,
        host: HostNo,
    ) {
        let mut held = hold.begin(rt, &self.held);
        held.leave_host(host);
        self.wake(held);
    }

    pub(crate) fn enter_worker<'a, R: Wait>(
        &'a self,
        rt: &R,
        hold: &mut Hold<'a, N, S, C>,
        recorder: RecorderNo,
    ) {
        let mut held = hold.begin(rt, &self.held);
        held.enter_worker(recorder);
        hold.keep(held);
    }

    pub(crate) fn end<'a, R: Wait>(&'a self, rt: &R, hold: &mut Hold<'a, N, S, C>) {
        let mut held = hold.begin(rt, &self.held);
        held.end();
        self.wake(held);
    }
}
