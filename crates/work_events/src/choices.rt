// Which frames a task may take: free ones, and those of pages that may give them.
ghost use Rattle.std.specs.Prelude.{◌≡◌, ◌<◌, ◌≤◌, ◌||◌, nat_lt, length, is_some, None, IfOk};
ghost use Rattle.std.specs.List.{list_any};
ghost use Rattle.core_state.specs.Pins.{
  candidate,
  candidates,
  changed_in,
  free_frame,
  is_bound,
  is_free,
  is_held,
  is_moving,
  is_ready_on,
};

use crate::transfer::changed_at;
use core_state::looks::is_bound;
use core_state::{Core, Rows};
use fault_queue::{Queue, Request, RequestState};
use mss_base::{FrameNo, Listed, NoMemory, Page, Site, VolumeNo};
use victim_choice::{Candidate, Choose, FrameList};

/// Frames that may be taken, the least recently touched first.
pub type CandidateList = Listed<Candidate>;

/// Whether no page has the frame, and no task uses it.
fn is_free<S: Site, C: Choose>(core: &Core<S, C>, frame: FrameNo) -> bool
    requires { frame < length core.now.owners }
    ensures { result ≡ is_free core.now frame }
{
    core.frames.owner(frame).is_none() && !core.frames.is_moving(frame)
}

/// The lowest such frame.
pub fn free_frame<S: Site, C: Choose>(core: &Core<S, C>) -> Option<FrameNo>
    ensures { result ≡ free_frame core.now }
{
    for number in 0..core.config.frame_count() {
        let frame = FrameNo::of(number as u8).unwrap();
        if is_free(core, frame) {
            return Some(frame);
        }
    }
    None
}

/// Whether the request is Ready, and on the page.
fn is_ready_on(request: &Request, volume: VolumeNo, page: Page) -> bool
    ensures { result ≡ is_ready_on (volume, page) request.now }
{
    matches!(request.state, RequestState::Ready)
        && request.volume == volume
        && request.cylinder.page() == page
}

/// Whether some request is.
fn is_page_held(requests: &Queue, volume: VolumeNo, page: Page) -> bool
    requires few { length requests.now ≤ 8 }
    ensures { result ≡ list_any (λ asked. is_ready_on (volume, page) asked.1) requests.now }
{
    for place in 0..8 {
        let Some(asked) = requests.nth(place) else {
            return false;
        };
        if is_ready_on(&asked.1, volume, page) {
            return true;
        }
    }
    false
}

/// The requests, of which no host has two.
pub fn requests_of<S: Site, C: Choose>(core: &Core<S, C>) -> &Queue
    requires going { core.now.stopped ≡ None }
    ensures value { result.now ≡ core.now.requests }
    ensures few { length result.now ≤ 8 }
{
    &core.requests
}

/// Whether a Ready request is on the frame's page.
fn is_held<S: Site, C: Choose>(core: &Core<S, C>, frame: FrameNo) -> bool
    requires going { core.now.stopped ≡ None }
    requires there { frame < length core.now.owners }
    ensures { result ≡ is_held core.now frame }
{
    match core.frames.owner(frame) {
        Some((volume, page)) => is_page_held(requests_of(core), volume, page),
        None => false,
    }
}

/// Whether the frame stays with its page.
fn stays<S: Site, C: Choose>(core: &Core<S, C>, frame: FrameNo) -> bool
    requires going { core.now.stopped ≡ None }
    requires there { frame < length core.now.owners }
    ensures { result
        ≡ (is_bound core.now frame || is_moving core.now frame || is_held core.now frame) }
{
    is_bound(core.hosts.as_slice(), &core.frames, frame)
        || core.frames.is_moving(frame)
        || is_held(core, frame)
}

/// How many cylinders of a page are changed, 0 to 8.
fn count_changed(rows: &Rows, volume: VolumeNo, page: Page) -> u8
    ensures { result ≡ length (changed_in rows.now (volume, page)) }
{
    let from = u16::from(page.get()) * 8;
    let mut count = 0;
    for offset in 0..8 {
        if changed_at(rows, volume, from + offset).is_some() {
            count += 1;
        }
    }
    count
}

/// The frame, where it may be taken: a page has it, its volume isn't bound, no task uses it, and no
/// Ready request is on the page.
fn candidate<S: Site, C: Choose>(core: &Core<S, C>, frame: FrameNo) -> Option<Candidate>
    requires going { core.now.stopped ≡ None }
    requires there { frame < length core.now.owners }
    ensures { result ≡ candidate core.now frame }
{
    if stays(core, frame) {
        return None;
    }
    let (volume, page) = core.frames.owner(frame)?;
    let changed = count_changed(&core.rows, volume, page);
    Some(Candidate {
        frame,
        volume,
        page,
        changed,
    })
}

/// Whether it may.
fn is_candidate<S: Site, C: Choose>(core: &Core<S, C>, frame: FrameNo) -> bool
    requires going { core.now.stopped ≡ None }
    requires there { frame < length core.now.owners }
    ensures { result ≡ is_some (candidate core.now frame) }
{
    core.frames.owner(frame).is_some() && !stays(core, frame)
}

/// Whether some frame may be taken. It takes no memory.
pub fn has_candidate<S: Site, C: Choose>(core: &Core<S, C>) -> bool
    requires going { core.now.stopped ≡ None }
    ensures { result ≡ nat_lt 0 (length (candidates core.now)) }
{
    for number in 0..core.config.frame_count() {
        let frame = FrameNo::of(number as u8).unwrap();
        if is_candidate(core, frame) {
            return true;
        }
    }
    false
}

/// The frames that may be taken, the least recently touched first.
pub fn candidates<S: Site, C: Choose>(core: &Core<S, C>) -> Result<CandidateList, NoMemory>
    requires going { core.now.stopped ≡ None }
    ensures { IfOk result (λ list. list.items ≡ candidates core.now) }
{
    let mut order = FrameList::new(core.alloc);
    core.recency.order(&mut order)?;
    let frames = order.as_slice();
    let mut list = Listed::new(core.alloc);
    list.reserve(frames.len())?;
    for frame in frames {
        if let Some(choice) = candidate(core, *frame) {
            list.push(choice);
        }
    }
    Ok(list)
}
