// What a row shows of its volume: the mark, and which cylinders are blank.
ghost use Rattle.std.specs.Prelude.{◌≡◌, ◌==◌, ◌||◌};
ghost use Rattle.volume_table.specs.Listed.{row_in_list};
ghost use Rattle.volume_table.specs.Row.{state_of};
ghost use Rattle.shown_volumes.specs.Shown.{is_marked};

use mss_base::{Cylinder, VolumeNo};
use volume_table::{CylinderState, Rows, VolumeRow};

/// The row of a volume, if the list has one.
pub fn row_of(rows: &Rows, volume: VolumeNo) -> &Option<VolumeRow>
    ensures { result.now ≡ row_in_list rows.now volume }
{
    rows.row(volume)
}

/// Whether hosts may only read the volume of a row. Without a row it has no mark.
pub fn is_marked(row: &Option<VolumeRow>) -> bool
    ensures { result ≡ is_marked row.now }
{
    match row {
        Some(row) => row.read_only,
        None => false,
    }
}

/// Whether a row shows each track of a cylinder as blank.
pub fn is_blank(row: &VolumeRow, cylinder: Cylinder) -> bool
    ensures { result ≡ ((state_of row.now cylinder == 0) || (state_of row.now cylinder == 2)) }
{
    let state = row.state(cylinder);
    matches!(state, CylinderState::Blank | CylinderState::StagedBlank)
}
