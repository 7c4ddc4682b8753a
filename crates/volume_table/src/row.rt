// The row of a volume.
use crate::layout::STATES;
use crate::lists::{PageList, StateList, blank_pages, blank_states};
use crate::state::CylinderState;
use mss_base::{CYLINDERS, CartridgeNo, Cylinder, FrameNo, NoMemory, Page, Serial};
use std::alloc::Global;
use std::marker::Model;

/// Where a volume's data lie. It has 51 pages and 404 states, and a cylinder is staged only where its page has a frame.
///
/// A clause sees the frames and the states as lists of numbers.
#[derive(Drop)]
pub struct VolumeRow {
    pub serial: Serial,
    /// Whether hosts may only read the volume.
    pub read_only: bool,
    /// The cartridge of the cylinders 0 to 201.
    pub first: CartridgeNo,
    /// The cartridge of the cylinders 202 to 403.
    pub second: CartridgeNo,
    pub pages: PageList,
    pub states: StateList,
}

impl Model for VolumeRow {
    ghost use Rattle.volume_table.specs.Row.{RowValue};

    ghost Value = { RowValue };

    ghost use Rattle.volume_table.specs.RowInside.{row_value, row_holds};

    ghost view = { row_value };

    ghost invariant = { row_holds };
}

impl VolumeRow {
    ghost use Rattle.std.specs.Prelude.{◌≡◌, ◌↔◌, ◌/◌, ℕ, IfOk, IsTrue};
    ghost use Rattle.volume_table.specs.Row.{cartridge_with, frame_of, state_of, blank_row};
    ghost use Rattle.volume_table.specs.States.{state_number};

    /// The row of a new volume: it isn't read-only, no page has a frame, each cylinder is blank.
    pub fn blank(
        alloc: Global,
        serial: Serial,
        first: CartridgeNo,
        second: CartridgeNo,
    ) -> Result<Self, NoMemory>
        ensures { IfOk result (λ row. row ≡ blank_row serial first second) }
    {
        let pages = blank_pages(alloc)?;
        let states = blank_states(alloc)?;
        Ok(VolumeRow {
            serial,
            read_only: false,
            first,
            second,
            pages,
            states,
        })
    }

    /// The cartridge that has a cylinder: the first one has the cylinders 0 to 201.
    pub fn cartridge(&self, cylinder: Cylinder) -> CartridgeNo
        ensures { result ≡ cartridge_with self.now cylinder }
    {
        if cylinder.get() < CYLINDERS / 2 {
            self.first
        } else {
            self.second
        }
    }

    /// The frame that a page has, if any.
    pub fn frame(&self, page: Page) -> Option<FrameNo>
        ensures { result ≡ frame_of self.now page }
    {
        self.pages.as_slice()[page.get() as usize]
    }

    /// The state of a cylinder.
    pub fn state(&self, cylinder: Cylinder) -> CylinderState
        ensures { state_number result ≡ state_of self.now cylinder }
    {
        self.states.as_slice()[cylinder.get() as usize]
    }

    /// Whether each cylinder is blank and not staged. It is one comparison, which is faster than a look at each.
    pub fn is_blank_throughout(&self) -> bool
        ensures { IsTrue result ↔ ((cylinder : ℕ) → state_of self.now cylinder ≡ 0) }
    {
        self.states.as_slice() == [CylinderState::Blank; STATES].as_slice()
    }
}
