// Runs that are given their turns event by event, and whole runs.
ghost use Rattle.serial_driver.specs.Drives.{IsUnused};

use crate::jobs::ONE_SEARCH;
use crate::marks::{Marks, RUNS};
use crate::running::{NONE_FAILS, failing_site, job_of};
use core_restart::restart;
use core_state::{Core, Event, Message};
use job_text::Job;
use mss_base::{HostNo, RecorderNo, Site};
use serial_driver::{Drive, DriveAnswer};
use std::alloc::Global;
use victim_choice::{Choose, Lru};

/// The recorder's steps for a cylinder that was never written: Pick, Assign, nineteen Copy, End.
const STEPS: u32 = 22;

/// Entries and changes: when the host is mounted and asks for the cylinder, when that is staged, and when its
/// search is answered, behind which it has no call left.
const COUNTS: [(usize, usize); 3] = [(1, 1), (1, 3), (2, 3)];

fn counts_of<S: Site, C: Choose>(core: &Core<S, C>) -> (usize, usize) {
    let entries = core.history().as_slice().len();
    (entries, core.console().as_slice().len())
}

fn is_done(answer: DriveAnswer) -> bool {
    match answer {
        DriveAnswer::Done => true,
        _ => false,
    }
}

fn two_host_events<S: Site, C: Choose>(drive: &mut Drive<S, C>, host: HostNo) -> bool {
    is_done(drive.run_events(&[Event::Host(host), Event::Host(host)]))
}

fn recorder_event<S: Site, C: Choose>(drive: &mut Drive<S, C>) -> bool {
    let Some(recorder) = RecorderNo::of(0) else {
        return false;
    };
    if drive.core().config.recorders == 0 {
        return false;
    }
    is_done(drive.run_events(&[Event::Work(recorder)]))
}

fn recorder_events<S: Site, C: Choose>(drive: &mut Drive<S, C>) -> bool {
    for _ in 0..STEPS {
        if !recorder_event(drive) {
            return false;
        }
    }
    true
}

/// The counts, as far as the events are done.
fn counts_in<S: Site, C: Choose>(drive: &mut Drive<S, C>) -> Option<[(usize, usize); 3]> {
    let host = HostNo::of(1)?;
    if !two_host_events(drive, host) {
        return None;
    }
    let asked = counts_of(drive.core());
    if !recorder_events(drive) {
        return None;
    }
    let staged = counts_of(drive.core());
    if !two_host_events(drive, host) {
        return None;
    }
    Some([asked, staged, counts_of(drive.core())])
}

fn are_marked(messages: &[Message], marks: &[u64]) -> bool {
    for (place, message) in messages.iter().enumerate() {
        if marks.get(place).copied() != Some(message.mark) {
            return false;
        }
    }
    messages.len() == marks.len()
}

fn have_marks<S: Site, C: Choose>(core: &Core<S, C>, marks: &Marks) -> bool {
    core.site.writes() == marks.writes
        && core.marks().as_slice() == marks.entries
        && are_marked(core.console().as_slice(), marks.changes)
}

/// Whether a run to its end has these marks; where none are asked, whether given events have their counts.
fn comes_to<S: Site, C: Choose>(drive: &mut Drive<S, C>, marks: Option<&Marks>) -> bool {
    match marks {
        Some(marks) => is_done(drive.run_to_end()) && have_marks(drive.core(), marks),
        None => counts_in(drive) == Some(COUNTS),
    }
}

fn let_go<S: Site + Drop, C: Choose + Drop>(core: Core<S, C>) {
    let (_site, _session, _rows) = core.into_session();
}

fn comes_on<S: Site + Drop, C: Choose + Drop>(
    core: Core<S, C>,
    job: &Job,
    marks: Option<&Marks>,
) -> bool
    requires { IsUnused core job.now }
{
    let Ok(mut drive) = Drive::new(core, job, None) else {
        return false;
    };
    let is_so = comes_to(&mut drive, marks);
    let (core, _) = drive.into_core();
    let_go(core);
    is_so
}

fn comes_by<S: Site + Drop, C: Choose + Drop>(
    alloc: Global,
    job: &Job,
    site: S,
    chooser: C,
    marks: Option<&Marks>,
) -> bool
    requires { C.can_choose chooser }
{
    match restart(alloc, site, &job.config, chooser) {
        Ok(core) => comes_on(core, job, marks),
        Err(_) => false,
    }
}

fn comes_so(alloc: Global, text: &str, marks: Option<&Marks>) -> bool {
    let Some(job) = job_of(alloc, text) else {
        return false;
    };
    match failing_site(alloc, NONE_FAILS) {
        Some(site) => comes_by(alloc, &job, site, Lru, marks),
        None => false,
    }
}

#[test]
fn events_are_done_in_their_order(rt: HostRuntime) {
    assert!(rt; comes_so(rt.alloc(), ONE_SEARCH, None));
}

/// The place of the first run that has other marks.
fn other_marks(alloc: Global) -> Option<usize> {
    for (place, marks) in RUNS.iter().enumerate() {
        if !comes_so(alloc, marks.job, Some(marks)) {
            return Some(place);
        }
    }
    None
}

#[test]
fn each_entry_and_change_has_its_mark(rt: HostRuntime) {
    assert_eq!(rt; other_marks(rt.alloc()), None);
}
