// The walk over the tracks: the shown block is a track, and the block in a frame stands for it.
ghost use Rattle.std.specs.Prelude.{◌≡◌, ◌≤◌, ◌/◌, not, Option, Some, OnOk, IfErr};
ghost use Rattle.mss_base.specs.Content.{content};
ghost use Rattle.mss_base.specs.Sites.{OnlyReads};
ghost use Rattle.ckd_track.specs.Track.{reading};
ghost use Rattle.volume_table.specs.Row.{frame_of, state_of};
ghost use Rattle.std.specs.Option.{ForSome};
ghost use Rattle.shown_volumes.specs.Shown.{block_at};
ghost use Rattle.mss_base.specs.Firsts.{where_so, first_below};
ghost use Rattle.shown_volumes.specs.Faults.{is_torn, is_blank, is_same_list, row_track_fault, tracks_fault};
ghost use Rattle.shown_volumes.specs.declared.refused.Refused.TheVariants.{TornTrack, StagedDiffers};
ghost use Rattle.volume_table.specs.Listed.{row_in_list};
ghost use Rattle.mss_restart.specs.Walks.{row_cylinder_fault, row_tracks_fault};
ghost use Rattle.table_pair.specs.Reads.{IsReadable};
ghost use Rattle.mss_restart.specs.Survey.{FindsFault, Finds, CanReadRow, CanReadRows, CountsFaults, TellsNoFailure};
ghost use Rattle.shown_volumes.specs.declared.refused.Refused.{Refused};

use ckd_track::{check_track, is_blank};
use mss_base::{
    Block, BlockPlace, CYLINDERS, Cylinder, FrameNo, HEADS, Head, Site, VolumeNo, cylinder_at,
    frame_block, head_at, volume_at,
};
use shown_volumes::{Refused, on_cartridge};
use volume_table::{CylinderState, Rows, VolumeRow};

/// Reads the block at a place.
fn read_block<S: Site>(site: &mut S, place: &BlockPlace, into: &mut Block) -> Result<(), Refused>
    ensures block { S.tells →
        OnOk result (into.new ≡ block_at (content (S.told site.old)) place.now) }
    ensures device { IfErr result (λ r. (found : Option Refused) → FindsFault r found) }
    ensures counts { CountsFaults (S.faults site.old) (S.faults site.new) result }
    ensures works { IsReadable S.Site site.old place.now.unit → TellsNoFailure result }
    ensures devices { OnlyReads S.Site site.old site.new }
{
    if into.read(site, place).is_err() {
        return Err(Refused::Stopped {
            fault: site.faults(),
        });
    }
    Ok(())
}

/// Reads the block that is shown, which has to be a track.
fn check_shown<S: Site>(
    site: &mut S,
    place: &BlockPlace,
    volume: VolumeNo,
    cylinder: Cylinder,
    head: Head,
    into: &mut Block,
) -> Result<(), Refused>
    ensures finds { S.tells → Finds result
        (where_so (is_torn (content (S.told site.old)) (Some place.now))
        (TornTrack volume cylinder head)) }
    ensures block { S.tells →
        OnOk result (into.new ≡ block_at (content (S.told site.old)) place.now) }
    ensures counts { CountsFaults (S.faults site.old) (S.faults site.new) result }
    ensures works { IsReadable S.Site site.old place.now.unit → TellsNoFailure result }
    ensures devices { OnlyReads S.Site site.old site.new }
{
    read_block(site, place, into)?;
    if check_track(into).is_err() {
        return Err(Refused::TornTrack {
            volume,
            cylinder,
            head,
        });
    }
    Ok(())
}

/// Reads the frame's block of a cylinder that is blank, which has to be a blank track.
fn check_blank<S: Site>(
    site: &mut S,
    place: &BlockPlace,
    volume: VolumeNo,
    cylinder: Cylinder,
    head: Head,
    into: &mut Block,
) -> Result<(), Refused>
    ensures finds { S.tells → Finds result
        (where_so (not (is_blank (reading (block_at (content (S.told site.old)) place.now))))
        (StagedDiffers volume cylinder head)) }
    ensures counts { CountsFaults (S.faults site.old) (S.faults site.new) result }
    ensures works { IsReadable S.Site site.old place.now.unit → TellsNoFailure result }
    ensures devices { OnlyReads S.Site site.old site.new }
{
    read_block(site, place, into)?;
    if !is_blank(into) {
        return Err(Refused::StagedDiffers {
            volume,
            cylinder,
            head,
        });
    }
    Ok(())
}

/// Reads the frame's block of a cylinder that stands as on its cartridge, which has to be the cartridge's.
fn check_copy<S: Site>(
    site: &mut S,
    place: &BlockPlace,
    volume: VolumeNo,
    cylinder: Cylinder,
    head: Head,
    shown: &Block,
    into: &mut Block,
) -> Result<(), Refused>
    ensures finds { S.tells → Finds result
        (where_so (not (is_same_list (block_at (content (S.told site.old)) place.now) shown.now))
        (StagedDiffers volume cylinder head)) }
    ensures counts { CountsFaults (S.faults site.old) (S.faults site.new) result }
    ensures works { IsReadable S.Site site.old place.now.unit → TellsNoFailure result }
    ensures devices { OnlyReads S.Site site.old site.new }
{
    read_block(site, place, into)?;
    if into.as_slice() != shown.as_slice() {
        return Err(Refused::StagedDiffers {
            volume,
            cylinder,
            head,
        });
    }
    Ok(())
}

/// The frame of a staged cylinder's page.
fn frame_of_staged(row: &VolumeRow, cylinder: Cylinder) -> FrameNo
    requires { 2 ≤ state_of row.now cylinder }
    ensures { Some result ≡ frame_of row.now (cylinder / 8) }
{
    let _ = &row.states;
    let Some(frame) = row.frame(cylinder.page()) else {
        unreachable!()
    };
    frame
}

/// Checks a track of a row.
pub fn check_track_of<S: Site>(
    site: &mut S,
    row: &VolumeRow,
    volume: VolumeNo,
    cylinder: Cylinder,
    head: Head,
    shown: &mut Block,
    staged: &mut Block,
) -> Result<(), Refused>
    ensures finds { S.tells → Finds result
        (row_track_fault (content (S.told site.old)) volume cylinder head row.now) }
    ensures counts { CountsFaults (S.faults site.old) (S.faults site.new) result }
    ensures works { CanReadRow S.Site site.old row.now → TellsNoFailure result }
    ensures devices { OnlyReads S.Site site.old site.new }
{
    match row.state(cylinder) {
        CylinderState::Blank => Ok(()),
        CylinderState::OnCartridge => {
            let place = on_cartridge(row, cylinder, head);
            check_shown(site, &place, volume, cylinder, head, shown)
        }
        CylinderState::StagedBlank => {
            let place = frame_block(frame_of_staged(row, cylinder), cylinder, head);
            check_blank(site, &place, volume, cylinder, head, staged)
        }
        CylinderState::Staged => {
            let place = on_cartridge(row, cylinder, head);
            check_shown(site, &place, volume, cylinder, head, shown)?;
            let place = frame_block(frame_of_staged(row, cylinder), cylinder, head);
            check_copy(site, &place, volume, cylinder, head, shown, staged)
        }
        CylinderState::Changed => {
            let place = frame_block(frame_of_staged(row, cylinder), cylinder, head);
            check_shown(site, &place, volume, cylinder, head, shown)
        }
    }
}

/// Checks the tracks of a cylinder, by head. A blank one that isn't staged has none to look at.
#[tactic(auto, using(crate::proofs::ListedFacts::blank_cylinder))]
fn check_cylinder<S: Site>(
    site: &mut S,
    row: &VolumeRow,
    volume: VolumeNo,
    cylinder: Cylinder,
    shown: &mut Block,
    staged: &mut Block,
) -> Result<(), Refused>
    ensures finds { S.tells → Finds result
        (row_cylinder_fault (content (S.told site.old)) volume row.now cylinder) }
    ensures counts { CountsFaults (S.faults site.old) (S.faults site.new) result }
    ensures works { CanReadRow S.Site site.old row.now → TellsNoFailure result }
    ensures devices { OnlyReads S.Site site.old site.new }
{
    if row.state(cylinder) == CylinderState::Blank {
        return Ok(());
    }
    for number in 0..HEADS {
        check_track_of(site, row, volume, cylinder, head_at(number), shown, staged)?;
    }
    Ok(())
}

/// Checks the tracks of a row, by cylinder and head. Of a volume that is blank throughout it looks at no cylinder.
fn check_row<S: Site>(
    site: &mut S,
    row: &VolumeRow,
    volume: VolumeNo,
    shown: &mut Block,
    staged: &mut Block,
) -> Result<(), Refused>
    ensures finds { S.tells → Finds result
        (row_tracks_fault (content (S.told site.old)) volume row.now) }
    ensures counts { CountsFaults (S.faults site.old) (S.faults site.new) result }
    ensures works { CanReadRow S.Site site.old row.now → TellsNoFailure result }
    ensures devices { OnlyReads S.Site site.old site.new }
{
    if row.is_blank_throughout() {
        return Ok(());
    }
    for number in 0..CYLINDERS {
        check_cylinder(site, row, volume, cylinder_at(number), shown, staged)?;
    }
    Ok(())
}

/// Checks the tracks of a volume, if it has a row.
fn check_volume<S: Site>(
    site: &mut S,
    rows: &Rows,
    volume: VolumeNo,
    shown: &mut Block,
    staged: &mut Block,
) -> Result<(), Refused>
    ensures finds { S.tells → Finds result
        (tracks_fault (row_in_list rows.now) (content (S.told site.old)) volume) }
    ensures counts { CountsFaults (S.faults site.old) (S.faults site.new) result }
    ensures works { ForSome (row_in_list rows.now volume) (CanReadRow S.Site site.old)
        → TellsNoFailure result }
    ensures devices { OnlyReads S.Site site.old site.new }
{
    let Some(row) = rows.row(volume) else {
        return Ok(());
    };
    check_row(site, row, volume, shown, staged)
}

/// Checks the tracks of the rows, by volume, cylinder and head.
///
/// It reads each block that is shown once, and of a staged cylinder the frame's block too. A blank track has none.
pub fn check_tracks<S: Site>(
    site: &mut S,
    rows: &Rows,
    shown: &mut Block,
    staged: &mut Block,
) -> Result<(), Refused>
    ensures finds { S.tells → Finds result
        (first_below 32 (tracks_fault (row_in_list rows.now) (content (S.told site.old)))) }
    ensures counts { CountsFaults (S.faults site.old) (S.faults site.new) result }
    ensures works { CanReadRows S.Site site.old (row_in_list rows.now) → TellsNoFailure result }
    ensures devices { OnlyReads S.Site site.old site.new }
{
    for number in 0..32 {
        check_volume(site, rows, volume_at(number), shown, staged)?;
    }
    Ok(())
}
