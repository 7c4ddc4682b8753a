// Changes of a row.
ghost use Rattle.std.specs.Prelude.{◌≡◌, ◌≢◌, ◌↔◌, ◌≤◌, ℕ, ◌+◌, ◌*◌, ◌/◌, ◌<◌, length, map, slice_set, Some, IsSome, IsTrue};
ghost use Rattle.mss_base.specs.Geometry.{volume_cylinders};
ghost use Rattle.volume_table.specs.States.{state_number};
ghost use Rattle.volume_table.specs.Row.{frame_of, state_of};
ghost use Rattle.volume_table.specs.Changes.{IsAllowed, effect, unstaged_state, unstaged_page, with_frame, with_state, without_frame};
ghost use Rattle.volume_table.specs.Slots.{allows};

use crate::layout::STATES;
use crate::lists::StateList;
use crate::row::VolumeRow;
use crate::state::CylinderState;
use mss_base::{CYLINDERS, CartridgeNo, Cylinder, FrameNo, Page, Serial};

/// What happens to a row.
#[derive(Clone, Copy, Debug, PartialEq, Eq)]
pub enum Change {
    /// A volume gets a row.
    Create {
        serial: Serial,
        first: CartridgeNo,
        second: CartridgeNo,
    },
    /// A page gets a frame.
    Assign {
        page: Page,
        frame: FrameNo,
    },
    /// A page gives its frame back. Its cylinders are staged no longer.
    Free {
        page: Page,
    },
    /// A cylinder stands in the frame of its page, as on its cartridge.
    Staged {
        cylinder: Cylinder,
    },
    /// A cylinder is about to be written in its frame.
    Changed {
        cylinder: Cylinder,
    },
    /// A changed cylinder was copied to its cartridge.
    Destaged {
        cylinder: Cylinder,
    },
    /// A volume becomes read-only, or is no longer.
    Protect {
        on: bool,
    },
}

fn is_without_page(row: &VolumeRow, frame: FrameNo) -> bool
    ensures { IsTrue result ↔ ((page : ℕ) → frame_of row.now page ≢ Some frame) }
{
    let pages = row.pages.as_slice();
    for page in pages {
        if *page == Some(frame) {
            return false;
        }
    }
    true
}

fn is_unchanged(row: &VolumeRow, page: Page) -> bool
    ensures { IsTrue result ↔
        ((cylinder : ℕ) → cylinder / 8 ≡ page → state_of row.now cylinder ≢ 4) }
{
    let _ = &row.states;
    let from = 8 * page.get() as u16;
    for number in from..CYLINDERS.min(from + 8) {
        let cylinder = Cylinder::of(number).unwrap();
        if row.state(cylinder) == CylinderState::Changed {
            return false;
        }
    }
    true
}

/// Whether a row may change so, as a fact.
fn may_change(row: &VolumeRow, change: &Change) -> bool
    ensures { IsTrue result ↔ IsAllowed change.now row.now }
{
    match change {
        Change::Create { .. } => false,
        Change::Assign { page, frame } => {
            row.frame(*page).is_none() && is_without_page(row, *frame)
        }
        Change::Free { page } => row.frame(*page).is_some() && is_unchanged(row, *page),
        Change::Staged { cylinder } => {
            !row.state(*cylinder).is_staged() && row.frame(cylinder.page()).is_some()
        }
        Change::Changed { cylinder } => matches!(
            row.state(*cylinder),
            CylinderState::StagedBlank | CylinderState::Staged
        ),
        Change::Destaged { cylinder } => row.state(*cylinder) == CylinderState::Changed,
        Change::Protect { on } => row.read_only != *on,
    }
}

/// Whether a row may change so. That no other row has the frame of an `Assign` is for the caller to know. A row that is
/// there can't be created.
pub fn is_allowed(row: &VolumeRow, change: &Change) -> bool
    ensures allowed { IsTrue result ↔ IsAllowed change.now row.now }
    ensures test { result ≡ allows change.now row.now }
{
    may_change(row, change)
}

fn put_frame(row: &mut VolumeRow, page: Page, frame: FrameNo)
    ensures { row.new ≡ with_frame page frame row.old }
{
    let _ = frame.get();
    row.pages.set(page.get() as usize, Some(frame));
}

fn put_state(row: &mut VolumeRow, cylinder: Cylinder, state: CylinderState)
    requires { 2 ≤ state_number state → IsSome (frame_of row.old (cylinder / 8)) }
    ensures { row.new ≡ with_state cylinder (state_number state) row.old }
{
    row.states.set(cylinder.get() as usize, state);
}

fn staged(state: CylinderState) -> CylinderState
    requires { state_number state < 2 }
    ensures { state_number result ≡ state_number state + 2 }
{
    match state {
        CylinderState::Blank => CylinderState::StagedBlank,
        _ => CylinderState::Staged,
    }
}

fn unstaged(state: CylinderState) -> CylinderState
    ensures { state_number result ≡ unstaged_state (state_number state) }
{
    match state {
        CylinderState::StagedBlank => CylinderState::Blank,
        CylinderState::Staged => CylinderState::OnCartridge,
        other => other,
    }
}

fn unstage(states: &mut StateList, page: Page)
    requires { length states.old.items ≡ volume_cylinders }
    ensures { map state_number states.new.items
        ≡ unstaged_page page (map state_number states.old.items) }
{
    let from = 8 * page.get() as usize;
    for cylinder in from..STATES.min(from + 8) {
        let state = states.as_slice()[cylinder];
        states.set(cylinder, unstaged(state));
    }
}

fn take_frame(row: &mut VolumeRow, page: Page)
    requires { (cylinder : ℕ) → cylinder / 8 ≡ page → state_of row.old cylinder ≢ 4 }
    ensures { row.new ≡ without_frame page row.old }
{
    row.pages.set(page.get() as usize, None);
    unstage(&mut row.states, page);
}

/// Changes a row. It takes no memory.
pub fn apply(row: &mut VolumeRow, change: &Change)
    requires { IsAllowed change.now row.old }
    ensures { row.new ≡ effect change.now row.old }
{
    let _ = &row.states;
    match change {
        Change::Create { .. } => {}
        Change::Assign { page, frame } => put_frame(row, *page, *frame),
        Change::Free { page } => take_frame(row, *page),
        Change::Staged { cylinder } => {
            let state = row.state(*cylinder);
            put_state(row, *cylinder, staged(state));
        }
        Change::Changed { cylinder } => put_state(row, *cylinder, CylinderState::Changed),
        Change::Destaged { cylinder } => put_state(row, *cylinder, CylinderState::Staged),
        Change::Protect { on } => row.read_only = *on,
    }
}
