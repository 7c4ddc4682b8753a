// A session of a core, event by event.
use crate::running::{Failing, NONE_FAILS, failing_site, job_of};
use crate::steps::{Events, Row, first_other};
use channel_commands::Call;
use core_restart::restart;
use core_state::looks::state_in;
use core_state::{Core, WorkAnswer};
use host_events::{HostAnswer, host_event};
use job_text::Job;
use mss_base::{Cylinder, HostNo, RecorderNo, Site, VolumeNo};
use std::alloc::Global;
use victim_choice::{Choose, Lru};
use work_events::work_event;

impl<R, S: Site, C: Choose> Events<R> for Core<S, C> {
    fn call(&mut self, _rt: &R, host: HostNo, call: &Call) -> HostAnswer {
        host_event(self, host, call)
    }

    fn work(&mut self, _rt: &R) -> WorkAnswer {
        let Some(recorder) = RecorderNo::of(0) else {
            return WorkAnswer::Idle;
        };
        if self.config.recorders == 0 {
            return WorkAnswer::Idle;
        }
        work_event(self, recorder)
    }
}

/// A session that is worked out: its rows, and what it comes to.
#[derive(Clone, Copy)]
pub struct Course {
    /// The volumes.
    pub job: &'static str,
    pub rows: &'static [Row],
    pub entries: usize,
    /// So many changes of rows.
    pub changes: usize,
    /// The number of the state of volume 0, cylinder 0, where that is asked.
    pub state: Option<u8>,
}

/// The number of the state of volume 0, cylinder 0.
fn state_of<S: Site, C: Choose>(core: &Core<S, C>) -> Option<u8> {
    let volume = VolumeNo::of(0)?;
    let cylinder = Cylinder::of(0)?;
    Some(state_in(&core.rows, volume, cylinder))
}

fn has_come_to<S: Site, C: Choose>(core: &Core<S, C>, course: &Course) -> bool {
    core.history().as_slice().len() == course.entries
        && core.console().as_slice().len() == course.changes
        && (course.state.is_none() || course.state == state_of(core))
}

/// The place of the first row that a session answers otherwise; the count of the rows where it comes to another end.
fn other_row<S: Site, C: Choose>(
    alloc: Global,
    core: &mut Core<S, C>,
    course: &Course,
) -> Option<usize> {
    let other = first_other(&(), alloc, core, course.rows);
    if other.is_none() && !has_come_to(core, course) {
        return Some(course.rows.len());
    }
    other
}

fn site_of<S: Site, C: Choose + Drop>(core: Core<S, C>) -> S {
    let (site, _, _) = core.into_session();
    site
}

/// A session of a job's devices and volumes.
fn begin<S: Site + Drop, C: Choose + Drop>(
    alloc: Global,
    job: &Job,
    site: S,
    chooser: C,
) -> Option<Core<S, C>>
    requires { C.can_choose chooser }
{
    match restart(alloc, site, &job.config, chooser) {
        Ok(core) => Some(core),
        Err(_) => None,
    }
}

/// The site that a session left; or the place of the first row that was answered otherwise.
fn played<S: Site + Drop, C: Choose + Drop>(
    alloc: Global,
    core: Core<S, C>,
    course: &Course,
) -> Result<S, usize> {
    let mut core = core;
    let other = other_row(alloc, &mut core, course);
    let site = site_of(core);
    match other {
        Some(place) => Err(place),
        None => Ok(site),
    }
}

/// Each row is answered so in a session on devices, which comes to that, where the chooser takes the pages that are
/// replaced. Gives the devices, or the place of the first row that is answered otherwise; behind the last row that
/// of an end which is another.
fn answers_on<S: Site + Drop, C: Choose + Drop>(
    alloc: Global,
    site: S,
    chooser: C,
    course: &Course,
) -> Result<S, usize>
    requires { C.can_choose chooser }
{
    let Some(job) = job_of(alloc, course.job) else {
        return Err(usize::MAX);
    };
    match begin(alloc, &job, site, chooser) {
        Some(core) => played(alloc, core, course),
        None => Err(usize::MAX),
    }
}

/// The place of the first row that is answered otherwise on blank devices, of which these calls fail.
pub fn other_by<C: Choose + Drop>(
    alloc: Global,
    failing: Failing,
    chooser: C,
    course: &Course,
) -> Option<usize>
    requires { C.can_choose chooser }
{
    match failing_site(alloc, failing) {
        Some(site) => answers_on(alloc, site, chooser, course).err(),
        None => Some(usize::MAX),
    }
}

/// The place of the first row that is answered otherwise, where the least recently used page is replaced.
pub fn other_answer(alloc: Global, failing: Failing, course: &Course) -> Option<usize> {
    other_by(alloc, failing, Lru, course)
}

fn other_on<S: Site + Drop>(
    alloc: Global,
    site: S,
    first: &Course,
    second: &Course,
) -> Option<usize> {
    match answers_on(alloc, site, Lru, first) {
        Ok(site) => answers_on(alloc, site, Lru, second).err(),
        Err(place) => Some(place),
    }
}

/// The place of the first row that is answered otherwise in two sessions, one after the other. No call of the
/// devices fails.
pub fn other_of_both(alloc: Global, first: &Course, second: &Course) -> Option<usize> {
    match failing_site(alloc, NONE_FAILS) {
        Some(site) => other_on(alloc, site, first, second),
        None => Some(usize::MAX),
    }
}
