// The owners of the frames: the pages that have them by the rows.
ghost use Rattle.std.specs.Prelude.{◌≡◌, ◌+◌, length};
ghost use Rattle.volume_table.specs.Listed.{row_in_list};
ghost use Rattle.staging_adapter.specs.Frames.{free_frames};
ghost use Rattle.core_restart.specs.Owners.{AreOwners, AreOwnersBefore, HaveFrames};

use mss_base::{Page, VolumeNo, page_at, volume_at};
use shown_volumes::frame_in;
use staging_adapter::Frames;
use volume_table::Rows;

/// Gives the frame of a page to it, where it has one.
fn own_page(frames: &mut Frames, rows: &Rows, volume: VolumeNo, page: Page)
    requires rows { HaveFrames (length frames.old.owners) rows.now }
    requires so_far { AreOwnersBefore (row_in_list rows.now) frames.old.owners volume page }
    ensures so_far { AreOwnersBefore (row_in_list rows.now) frames.new.owners volume (page + 1) }
    ensures all { length frames.new.owners ≡ length frames.old.owners }
    ensures moving { frames.new.moving ≡ frames.old.moving }
{
    if let Some(frame) = frame_in(rows, volume, page) {
        frames.set_owner(frame, Some((volume, page)));
    }
}

/// Gives the frames of a volume's pages to them.
fn own_pages(frames: &mut Frames, rows: &Rows, volume: VolumeNo)
    requires rows { HaveFrames (length frames.old.owners) rows.now }
    requires so_far { AreOwnersBefore (row_in_list rows.now) frames.old.owners volume 0 }
    ensures so_far { AreOwnersBefore (row_in_list rows.now) frames.new.owners (volume + 1) 0 }
    ensures all { length frames.new.owners ≡ length frames.old.owners }
    ensures moving { frames.new.moving ≡ frames.old.moving }
{
    for number in 0..51 {
        own_page(frames, rows, volume, page_at(number));
    }
}

/// Gives each frame to the page that has it, where no page has one yet.
pub fn own_frames(frames: &mut Frames, rows: &Rows)
    requires rows { HaveFrames (length frames.old.owners) rows.now }
    requires free { frames.old ≡ free_frames (length frames.old.owners) }
    ensures owners { AreOwners (length frames.old.owners) (row_in_list rows.now) frames.new.owners }
    ensures moving { frames.new.moving ≡ frames.old.moving }
{
    for number in 0..32 {
        own_pages(frames, rows, volume_at(number));
    }
}
