// The lists of a row.
ghost use Rattle.std.specs.Prelude.{◌≡◌, ◌≤◌, ◌+◌, ◌<◌, ℕ, None, IfOk, length, map, replicate, slice_index};
ghost use Rattle.mss_base.specs.Geometry.{volume_cylinders, volume_pages};
ghost use Rattle.volume_table.specs.Grammar.{page_of};
ghost use Rattle.volume_table.specs.States.{state_number};

use crate::layout::{PAGES, STATES};
use crate::state::CylinderState;
use mss_base::{FrameNo, Listed, NoMemory};
use std::alloc::Global;

/// The frame of each page, by the page's number.
pub type PageList = Listed<Option<FrameNo>>;

/// The state of each cylinder, by its number.
pub type StateList = Listed<CylinderState>;

/// No frame for any of the 51 pages.
pub fn blank_pages(alloc: Global) -> Result<PageList, NoMemory>
    ensures { IfOk result (λ pages. pages.items ≡ replicate volume_pages None) }
{
    PageList::of(alloc, &[None; PAGES])
}

/// All 404 cylinders blank.
pub fn blank_states(alloc: Global) -> Result<StateList, NoMemory>
    ensures { IfOk result (λ states. map state_number states.items ≡ replicate volume_cylinders 0) }
{
    StateList::of(alloc, &[CylinderState::Blank; STATES])
}

/// The frames that the bytes of pages name.
pub fn pages_of(alloc: Global, bytes: &[u8]) -> Result<PageList, NoMemory>
    ensures { IfOk result (λ pages. pages.items ≡ map page_of bytes.now) }
{
    if bytes == [255; PAGES].as_slice() {
        return blank_pages(alloc);
    }
    let mut pages = PageList::new(alloc);
    pages.reserve(bytes.len())?;
    for byte in bytes {
        pages.push(FrameNo::of(*byte));
    }
    Ok(pages)
}

/// The states with these numbers.
pub fn states_of(alloc: Global, bytes: &[u8]) -> Result<StateList, NoMemory>
    requires { (place : ℕ) → place < length bytes.now → slice_index bytes.now place ≤ 4 }
    ensures { IfOk result (λ states. map state_number states.items ≡ bytes.now) }
{
    if bytes == [0; STATES].as_slice() {
        return blank_states(alloc);
    }
    let mut states = StateList::new(alloc);
    states.reserve(bytes.len())?;
    for byte in bytes {
        states.push(CylinderState::of(*byte).unwrap());
    }
    Ok(states)
}
