// Where the rows say that pages and tracks lie.
ghost use Rattle.std.specs.Prelude.{◌≡◌};
ghost use Rattle.volume_table.specs.Listed.{row_in_list};
ghost use Rattle.shown_volumes.specs.Shown.{in_page, on_cartridge, source};
ghost use Rattle.shown_volumes.specs.Sound.{frame_in};

use mss_base::{
    BlockPlace, Cylinder, FrameNo, Head, Page, UnitNo, VolumeNo, cartridge_block, frame_block,
};
use volume_table::{CylinderState, Rows, VolumeRow};

/// The frame of a page, if the volume has a row and the page a frame.
pub fn frame_in(rows: &Rows, volume: VolumeNo, page: Page) -> Option<FrameNo>
    ensures { result ≡ frame_in (row_in_list rows.now) volume page }
{
    let Some(row) = rows.row(volume) else {
        return None;
    };
    row.frame(page)
}

/// The place of a track on its cartridge.
pub fn on_cartridge(row: &VolumeRow, cylinder: Cylinder, head: Head) -> BlockPlace
    ensures { result ≡ on_cartridge row.now cylinder head }
{
    BlockPlace {
        unit: UnitNo::Cartridge(row.cartridge(cylinder)),
        block: cartridge_block(cylinder, head),
    }
}

/// The place of a track in the frame of its page, if the page has one.
fn in_page(row: &VolumeRow, cylinder: Cylinder, head: Head) -> Option<BlockPlace>
    ensures { result ≡ in_page row.now cylinder head }
{
    let Some(frame) = row.frame(cylinder.page()) else {
        return None;
    };
    Some(frame_block(frame, cylinder, head))
}

/// The place of the track that a row shows. There is none where the cylinder is blank.
pub fn shown_place(row: &VolumeRow, cylinder: Cylinder, head: Head) -> Option<BlockPlace>
    ensures { result ≡ source row.now cylinder head }
{
    match row.state(cylinder) {
        CylinderState::Blank | CylinderState::StagedBlank => None,
        CylinderState::OnCartridge | CylinderState::Staged => {
            Some(on_cartridge(row, cylinder, head))
        }
        CylinderState::Changed => in_page(row, cylinder, head),
    }
}
