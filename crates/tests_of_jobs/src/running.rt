// Jobs of a text, and devices of which calls fail.
use job_text::{Job, read_job};
use memory_devices::{MemorySite, SiteFault};
use std::alloc::Global;

/// The job of a text.
pub fn job_of(alloc: Global, text: &str) -> Option<Job> {
    read_job(alloc, text.as_bytes()).ok()
}

/// Calls of devices that fail, counted from 1; 0 is none.
pub type Failing = [u64; 2];

pub const NONE_FAILS: Failing = [0, 0];

/// Blank devices, of which these calls fail.
pub fn failing_site(alloc: Global, [first, second]: Failing) -> Option<MemorySite> {
    let mut site = MemorySite::new(alloc).ok()?;
    let calls = [SiteFault::Call(first), SiteFault::Call(second)];
    if site.fail(&calls).is_err() {
        return None;
    }
    Some(site)
}
