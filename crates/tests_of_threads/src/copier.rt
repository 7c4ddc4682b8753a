// A copier beside hosts: it takes tracks while one of them is in, and keeps none of them in.
ghost use Rattle.std.specs.Prelude.{◌≡◌, []};
ghost use Rattle.volume_copy.specs.Beside.{IsReadyFor};

use crate::gates::{ANSWER, COPIER, ENTER, LEAVE, NONE, Rule, RuleGate, TAKE};
use core_restart::restart;
use core_state::Core;
use job_text::{Job, read_job};
use memory_devices::MemorySite;
use mss_base::{Site, VolumeNo};
use mss_run::{Gate, RunEnd, run_actors};
use std::alloc::Global;
use std::sync::Wait;
use std::thread::Threads;
use victim_choice::{Choose, Lru};
use volume_copy::{Copier, CopyState};

const JOB: &str = "mss 1 frames 1 recorders 1\n\
    volume 0 VOL001\n\
    volume 1 VOL002\n\
    host 1\n\
    mount VOL001\n\
    host 2\n\
    mount VOL002\n\
    done\n";

/// What the counters count.
const ENTERED: usize = 0;

const ANSWERED: usize = 1;

const TAKEN: usize = 2;

const LEFT: usize = 3;

const ANSWERED_2: usize = 4;

/// How many tracks a volume has, but the last.
const TRACKS_BEFORE: u64 = 7_675;

/// The copier comes when host 1 was answered, and host 2 then. Host 1 stays until host 2 was answered, and that one
/// until one track is left at most.
const WHOLE: [Rule; 6] = [
    (COPIER, ENTER, ENTERED, ANSWERED, 1),
    (1, ANSWER, ANSWERED, ANSWERED_2, 1),
    (2, ENTER, NONE, ENTERED, 1),
    (2, ANSWER, ANSWERED_2, TAKEN, TRACKS_BEFORE),
    (COPIER, TAKE, TAKEN, NONE, 0),
    (COPIER, LEAVE, LEFT, NONE, 0),
];

/// The copier comes when host 1 was answered, which stays until then.
const NEVER: [Rule; 4] = [
    (COPIER, ENTER, ENTERED, ANSWERED, 1),
    (1, ANSWER, ANSWERED, ENTERED, 1),
    (COPIER, TAKE, TAKEN, NONE, 0),
    (COPIER, LEAVE, LEFT, NONE, 0),
];

fn is_whole<S: Site, C: Choose>(end: &RunEnd<S, C>) -> bool {
    match &end.copier {
        Some(copier) => matches!(copier.state().0, CopyState::Whole),
        None => false,
    }
}

/// Whether the copy of a run is whole.
fn copied<S: Site + Send + Drop, C: Choose + Send + Drop, G: Gate + Sync, R: Threads + Wait + Sync>(
    rt: &R,
    alloc: Global,
    core: Core<S, C>,
    job: &Job,
    gate: &G,
    copier: Copier,
) -> bool
    requires empty { core.history ≡ [] }
    requires config { core.config ≡ job.now.config }
    requires ready { IsReadyFor core.history copier }
{
    let end = run_actors(rt, alloc, core, job, gate, Some(copier));
    is_whole(&end)
}

/// Whether the copy of a run on this site is whole.
fn copied_on<
    S: Site + Send + Drop,
    C: Choose + Send + Drop,
    G: Gate + Sync,
    R: Threads + Wait + Sync,
>(rt: &R, alloc: Global, job: &Job, site: S, chooser: C, gate: &G, copier: Copier) -> bool
    requires able { C.can_choose chooser }
    requires ready { IsReadyFor [] copier }
{
    match restart(alloc, site, &job.config, chooser) {
        Ok(core) => copied(rt, alloc, core, job, gate, copier),
        Err(_) => false,
    }
}

/// Whether the copy of volume 0 behind so many entries is whole when a run behind this gate has ended.
fn is_copied<R: Threads + Wait + Sync>(
    rt: &R,
    alloc: Global,
    gate: &RuleGate,
    after: u64,
) -> Option<bool> {
    let volume = VolumeNo::of(0)?;
    let job = read_job(alloc, JOB.as_bytes()).ok()?;
    let copier = Copier::new(alloc, volume, after).ok()?;
    let site = MemorySite::new(alloc).ok()?;
    Some(copied_on(rt, alloc, &job, site, Lru, gate, copier))
}

/// Whether the copy is whole, and how often the copier came, took a track that wasn't the last, and left.
type Copied = (bool, u64, u64, u64);

fn counted<R: Threads + Wait + Sync>(
    rt: &R,
    alloc: Global,
    rules: &[Rule],
    after: u64,
) -> Option<Copied> {
    let gate = RuleGate::new(alloc, rules).ok()?;
    let whole = is_copied(rt, alloc, &gate, after)?;
    let counts = gate.counts()?;
    Some((whole, counts[ENTERED], counts[TAKEN], counts[LEFT]))
}

// The copy has begun when the copier comes.
#[test]
fn tracks_are_taken_while_a_host_is_in(rt: HostRuntime) {
    let copied = counted(&rt, rt.alloc(), &WHOLE, 1);
    assert_eq!(rt; copied, Some((true, 1, TRACKS_BEFORE, 1)));
}

// It begins behind the entry of host 2, so that entry has to wake a copier that sleeps: else host 2 waits in vain.
#[test]
fn the_entry_behind_which_a_copy_begins_wakes_the_copier(rt: HostRuntime) {
    let copied = counted(&rt, rt.alloc(), &WHOLE, 2);
    assert_eq!(rt; copied, Some((true, 1, TRACKS_BEFORE, 1)));
}

#[test]
fn a_copier_that_waits_for_its_copy_keeps_nobody_in(rt: HostRuntime) {
    let copied = counted(&rt, rt.alloc(), &NEVER, 3);
    assert_eq!(rt; copied, Some((false, 1, 0, 1)));
}
