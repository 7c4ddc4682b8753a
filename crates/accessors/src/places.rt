// Where cells and recorders are on the rail.
ghost use Rattle.std.specs.Prelude.{◌≡◌, ◌≤◌};
ghost use Rattle.accessors.specs.Rails.{cell_place, recorder_place, IsServed};

use mss_base::RecorderNo;

/// How many places of the rail have cells: 1 to 64.
pub const CELL_PLACES: u8 = 64;

/// The last place of the rail, where the right accessor stands at first. The left one stands at place 0.
pub const RAIL_END: u8 = 65;

/// The place on the rail of a cell: one of 64 columns.
pub fn cell_place(cell: u16) -> u8
    ensures place { result ≡ cell_place cell }
    ensures served { IsServed result }
{
    1 + (cell % u16::from(CELL_PLACES)) as u8
}

/// The place on the rail of a recorder: 5, 13 .. 61.
pub fn recorder_place(recorder: RecorderNo) -> u8
    ensures place { result ≡ recorder_place recorder }
    ensures served { IsServed result }
{
    8 * recorder.get() + 5
}
