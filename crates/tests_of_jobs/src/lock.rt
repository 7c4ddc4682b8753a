// A session under the lock, call by call on one thread.
ghost use Rattle.std.specs.Prelude.{◌≡◌, [], Contains, None};
ghost use Rattle.core_state.specs.CoreValue.{seen_core};
ghost use Rattle.mss_run.specs.Beginning.{OpensWith};

use crate::running::{NONE_FAILS, failing_site, job_of};
use crate::steps::{Events, Row, first_other};
use crate::two_hosts::{ONE_VOLUME, TURNS};
use channel_commands::Call;
use core_restart::restart;
use core_state::{Core, WorkAnswer};
use host_events::HostAnswer;
use job_text::Job;
use mss_base::{HostNo, RecorderNo, Site};
use mss_run::{Setup, Shared};
use seen_book::{Blank, HostPass, PassList, host_pass, make, start_book};
use std::alloc::Global;
use std::marker::Brand;
use std::sync::Wait;
use victim_choice::{Choose, Lru};

/// A core under the lock, with the passes of hosts 1 and 2, each of which is out only within a call.
#[derive(Drop)]
struct Passing<N: Setup, S: Site, C: Choose> {
    shared: Shared<N, S, C>,
    first: Option<HostPass<N>>,
    second: Option<HostPass<N>>,
}

fn asked<N: Setup, S: Site, C: Choose, R: Wait>(
    rt: &R,
    shared: &Shared<N, S, C>,
    place: &mut Option<HostPass<N>>,
    call: &Call,
) -> HostAnswer {
    let Some(pass) = place.take() else {
        return HostAnswer::Memory;
    };
    let (pass, answer) = shared.command(rt, pass, call);
    *place = Some(pass);
    answer
}

impl<R: Wait, N: Setup, S: Site, C: Choose> Events<R> for Passing<N, S, C> {
    fn call(&mut self, rt: &R, host: HostNo, call: &Call) -> HostAnswer {
        match host.get() {
            1 => asked(rt, &self.shared, &mut self.first, call),
            _ => asked(rt, &self.shared, &mut self.second, call),
        }
    }

    fn work(&mut self, rt: &R) -> WorkAnswer {
        match RecorderNo::of(0) {
            Some(recorder) => self.shared.work(rt, recorder),
            None => WorkAnswer::Idle,
        }
    }
}

fn list_of<N: Setup>(
    alloc: Global,
    first: Option<HostPass<N>>,
    second: Option<HostPass<N>>,
) -> Option<PassList<N>> {
    let mut list = PassList::new(alloc);
    list.reserve(2).ok()?;
    let first = first?;
    list.push(first);
    let second = second?;
    list.push(second);
    Some(list)
}

/// How many entries a session has in the end.
fn closed<N: Setup, S: Site + Drop, C: Choose + Drop>(
    alloc: Global,
    session: Passing<N, S, C>,
) -> Option<usize> {
    let Passing {
        shared,
        first,
        second,
    } = session;
    let list = list_of(alloc, first, second)?;
    let (core, _copier) = shared.close(list);
    Some(core.history().as_slice().len())
}

/// What a session is answered otherwise, by the place of its row, and how many entries it has.
type Ended = (Option<usize>, Option<usize>);

/// How a session of this core under a name ends.
fn run_named<N: Setup, S: Site + Drop, C: Choose + Drop, R: Wait>(
    rt: &R,
    alloc: Global,
    blank: Blank,
    core: Core<S, C>,
    hosts: (HostNo, HostNo),
    rows: &[Row],
) -> Ended
    requires word { blank ≡ N.table }
    requires opening { OpensWith N.opening N.setup S.tells (S.never_fails_but core.site)
        (seen_core S.Site core) }
    requires hosts { Contains N.hosts hosts.0 × Contains N.hosts hosts.1 }
    requires differ { (hosts.0 ≡ 1) × (hosts.1 ≡ 2) }
    requires empty { core.history ≡ [] }
    requires copy { N.setup.copy ≡ None }
{
    let (word, book) = start_book::<N>(blank);
    let (book, first) = host_pass(&word, book, hosts.0);
    let (book, second) = host_pass(&word, book, hosts.1);
    let mut session = Passing {
        shared: Shared::new(word, book, core, None),
        first: Some(first),
        second: Some(second),
    };
    let other = first_other(rt, alloc, &mut session, rows);
    (other, closed(alloc, session))
}

/// Runs a session for hosts 1 and 2 through these rows.
fn run<S: Site + Drop, C: Choose + Drop, R: Wait>(
    rt: &R,
    alloc: Global,
    core: Core<S, C>,
    rows: &[Row],
) -> Option<Ended>
    requires { core.history ≡ [] }
{
    let first = HostNo::of(1)?;
    let second = HostNo::of(2)?;
    let blank = make::<Brand>(alloc).ok()?;
    let hosts = (first, second);
    Some(run_named::<Brand, S, C, R>(rt, alloc, blank, core, hosts, rows))
}

/// Runs a session on a job's volumes, on this site, through these rows.
fn run_on<S: Site + Drop, C: Choose + Drop, R: Wait>(
    rt: &R,
    alloc: Global,
    job: &Job,
    site: S,
    chooser: C,
    rows: &[Row],
) -> Option<Ended>
    requires { C.can_choose chooser }
{
    match restart(alloc, site, &job.config, chooser) {
        Ok(core) => run(rt, alloc, core, rows),
        Err(_) => None,
    }
}

fn end_of<R: Wait>(rt: &R, alloc: Global, job: &str, rows: &[Row]) -> Option<Ended> {
    let job = job_of(alloc, job)?;
    let site = failing_site(alloc, NONE_FAILS)?;
    run_on(rt, alloc, &job, site, Lru, rows)
}

#[test]
fn each_call_under_the_lock_has_its_answer(rt: HostRuntime) {
    let ended = end_of(&rt, rt.alloc(), ONE_VOLUME, TURNS);
    assert_eq!(rt; ended, Some((None, Some(5))));
}
