// The volumes of a report, as the devices show them.
ghost use Rattle.std.specs.Prelude.{◌≡◌, [], Some};
ghost use Rattle.mss_base.specs.Content.{content};
ghost use Rattle.mss_base.specs.Sites.{OnlyReads};
ghost use Rattle.volume_table.specs.Listed.{row_in_list};
ghost use Rattle.shown_volumes.specs.Shown.{is_marked, shown_by, source};
ghost use Rattle.report_text.specs.Texts.{track_text, heading_text};
ghost use Rattle.session_report.specs.Parts.{row_tracks, PutsTrack, PutsTracks, PutsVolumes};
ghost use Rattle.session_report.specs.Parts.{CountsReads, CountsPuts, TellsNoRead};
ghost use Rattle.session_report.specs.Parts.{CanReadRow, CanReadShown};
ghost use Rattle.session_report.specs.Parts.{IsUnread, MayFail, block_of};
ghost use Rattle.session_report.specs.Reports.{Grows, untitled_matter, volumes_text};

use crate::fault::VolumesFault;
use crate::place::{is_blank, is_marked, row_of};
use mss_base::{Block, Bytes, CYLINDERS, Cylinder, HEADS, Head, Serial, Sink, Site, VolumeNo};
use report_text::{put_heading, put_track};
use shown_volumes::shown_place;
use volume_table::{Rows, VolumeRow};

/// Reads the block of a track that a row shows, and puts the track. A blank cylinder isn't read. Of a track that can't
/// be read it puts nothing.
fn put_shown<S: Site, O: Sink>(
    site: &mut S,
    output: &mut O,
    row: &VolumeRow,
    cylinder: Cylinder,
    head: Head,
    block: &mut Block,
    line: &mut Bytes,
) -> Result<(), VolumesFault>
    ensures bytes { let tracks = row_tracks (content (S.told site.old)) (Some row.now) in
        PutsTrack (S.tells × O.tells) (MayFail S.Site site.old (source row.now cylinder head))
        (track_text cylinder head (tracks cylinder head))
        (O.told output.old) (O.told output.new) result }
    ensures grown { O.tells → Grows (O.told output.old) (O.told output.new) }
    ensures counted { CountsReads (S.faults site.old) (S.faults site.new) result }
    ensures works { CanReadRow S.Site site.old (Some row.now) → TellsNoRead result }
    ensures site { OnlyReads S.Site site.old site.new }
    ensures output { CountsPuts (O.faults output.old) (O.faults output.new) result }
{
    let Some(place) = shown_place(row, cylinder, head) else {
        return Ok(());
    };
    if block.read(site, &place).is_err() {
        return Err(VolumesFault::Read {
            fault: site.faults(),
        });
    }
    put_track(output, line, cylinder, head, block)?;
    Ok(())
}

/// Puts the tracks that a row shows, by cylinder and head. Of a blank cylinder it looks at no head.
fn put_tracks<S: Site, O: Sink>(
    site: &mut S,
    output: &mut O,
    row: &VolumeRow,
    block: &mut Block,
    line: &mut Bytes,
) -> Result<(), VolumesFault>
    ensures bytes { PutsTracks (S.tells × O.tells)
        (λ n. MayFail S.Site site.old (block_of (Some row.now) n)) []
        (row_tracks (content (S.told site.old)) (Some row.now))
        (O.told output.old) (O.told output.new) result }
    ensures grown { O.tells → Grows (O.told output.old) (O.told output.new) }
    ensures counted { CountsReads (S.faults site.old) (S.faults site.new) result }
    ensures works { CanReadRow S.Site site.old (Some row.now) → TellsNoRead result }
    ensures site { OnlyReads S.Site site.old site.new }
    ensures output { CountsPuts (O.faults output.old) (O.faults output.new) result }
{
    for cylinder in 0..CYLINDERS {
        let Some(cylinder) = Cylinder::of(cylinder) else {
            unreachable!()
        };
        if is_blank(row, cylinder) {
            continue;
        }
        for head in 0..HEADS {
            let Some(head) = Head::of(head) else {
                unreachable!()
            };
            put_shown(site, output, row, cylinder, head, block, line)?;
        }
    }
    Ok(())
}

/// Puts the tracks of a volume, by its row. Without a row each is blank, and of a row that is blank throughout it looks
/// at no cylinder.
fn put_row<S: Site, O: Sink>(
    site: &mut S,
    output: &mut O,
    row: &Option<VolumeRow>,
    block: &mut Block,
    line: &mut Bytes,
) -> Result<(), VolumesFault>
    ensures bytes { PutsTracks (S.tells × O.tells)
        (λ n. MayFail S.Site site.old (block_of row.now n)) []
        (row_tracks (content (S.told site.old)) row.now)
        (O.told output.old) (O.told output.new) result }
    ensures grown { O.tells → Grows (O.told output.old) (O.told output.new) }
    ensures counted { CountsReads (S.faults site.old) (S.faults site.new) result }
    ensures works { CanReadRow S.Site site.old row.now → TellsNoRead result }
    ensures site { OnlyReads S.Site site.old site.new }
    ensures output { CountsPuts (O.faults output.old) (O.faults output.new) result }
{
    let Some(row) = row else {
        return Ok(());
    };
    if row.is_blank_throughout() {
        return Ok(());
    }
    put_tracks(site, output, row, block, line)
}

/// Puts a volume: its heading, with the mark of its row, and its tracks.
fn put_volume<S: Site, O: Sink>(
    site: &mut S,
    output: &mut O,
    rows: &Rows,
    volume: VolumeNo,
    serial: &Serial,
    block: &mut Block,
    line: &mut Bytes,
) -> Result<(), VolumesFault>
    ensures bytes { PutsTracks (S.tells × O.tells)
        (λ n. MayFail S.Site site.old (block_of (row_in_list rows.now volume) n))
        (heading_text volume serial.now (is_marked (row_in_list rows.now volume)))
        (row_tracks (content (S.told site.old)) (row_in_list rows.now volume))
        (O.told output.old) (O.told output.new) result }
    ensures grown { O.tells → Grows (O.told output.old) (O.told output.new) }
    ensures counted { CountsReads (S.faults site.old) (S.faults site.new) result }
    ensures works { CanReadRow S.Site site.old (row_in_list rows.now volume) → TellsNoRead result }
    ensures site { OnlyReads S.Site site.old site.new }
    ensures output { CountsPuts (O.faults output.old) (O.faults output.new) result }
{
    let row = row_of(rows, volume);
    put_heading(output, line, volume, serial, is_marked(row))?;
    put_row(site, output, row, block, line)
}

/// Puts each listed volume: its heading, and its tracks as the rows show them over the devices.
///
/// What `block` and `line` hold means nothing afterwards.
pub fn put_volumes<S: Site, O: Sink>(
    site: &mut S,
    output: &mut O,
    rows: &Rows,
    volumes: &[(VolumeNo, Serial, bool)],
    block: &mut Block,
    line: &mut Bytes,
) -> Result<(), VolumesFault>
    ensures bytes { let shown = shown_by (row_in_list rows.now) (content (S.told site.old)) in
        PutsVolumes (S.tells × O.tells)
        (IsUnread S.Site site.old (row_in_list rows.now) volumes.now)
        (untitled_matter volumes.now shown []) (volumes_text shown volumes.now)
        (O.told output.old) (O.told output.new) result }
    ensures grown { O.tells → Grows (O.told output.old) (O.told output.new) }
    ensures counted { CountsReads (S.faults site.old) (S.faults site.new) result }
    ensures works { CanReadShown S.Site site.old (row_in_list rows.now) → TellsNoRead result }
    ensures site { OnlyReads S.Site site.old site.new }
    ensures output { CountsPuts (O.faults output.old) (O.faults output.new) result }
{
    for entry in volumes {
        put_volume(site, output, rows, entry.0, &entry.1, block, line)?;
    }
    Ok(())
}
