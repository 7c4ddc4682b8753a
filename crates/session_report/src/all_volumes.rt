// The listing of all volumes.
ghost use Rattle.std.specs.Prelude.{◌≡◌, ◌≤◌, ◌+◌, ◌++◌, IfOk};
ghost use Rattle.std.specs.Option.{option_map};
ghost use Rattle.mss_base.specs.Content.{content};
ghost use Rattle.mss_base.specs.Sites.{OnlyReads};
ghost use Rattle.volume_table.specs.Listed.{row_in_list};
ghost use Rattle.shown_volumes.specs.Shown.{is_marked, shown_by};
ghost use Rattle.report_text.specs.Texts.{listing_title};
ghost use Rattle.session_report.specs.Parts.{CanReadShown, IsUnread};
ghost use Rattle.session_report.specs.Answers.{SinkCounts};
ghost use Rattle.session_report.specs.Parties.{seen_with, site_between, sink_between};
ghost use Rattle.session_report.specs.Reports.{AnswersNoRead, IsReported, SiteCounts};
ghost use Rattle.session_report.specs.Reports.{BreaksOff, Frames, OnRead};
ghost use Rattle.session_report.specs.Reports.{finished, listing_matter};
ghost use Rattle.session_report.specs.Reports.{heading_of, volumes_below};
ghost use Rattle.session_report.specs.declared.reporting.Last.TheVariants.{End};

use crate::fault::ReportFault;
use crate::place::row_of;
use crate::reporting::{Last, put_ending};
use mss_base::{NoMemory, Sink, Site, VolumeList, VolumeNo};
use report_text::put_title;
use std::alloc::Global;
use volume_table::Rows;

/// How many volumes there may be.
const VOLUMES: u8 = 32;

/// Puts a volume last, with its serial and its mark, if it has a row.
fn push_volume(volumes: &mut VolumeList, rows: &Rows, volume: VolumeNo)
    requires room { 1 ≤ volumes.old.spare }
    ensures items { volumes.new.items ≡ volumes.old.items
        ++ heading_of volume (option_map (λ r. r.serial) (row_in_list rows.now volume))
        (is_marked (row_in_list rows.now volume)) }
    ensures spare { volumes.old.spare ≤ volumes.new.spare + 1 }
{
    if let Some(row) = row_of(rows, volume) {
        volumes.push((volume, row.serial, row.read_only));
    }
}

/// The volumes that have a row, by number, each with its serial and its mark.
fn listed_volumes(alloc: Global, rows: &Rows) -> Result<VolumeList, NoMemory>
    ensures { IfOk result (λ volumes. volumes.items
        ≡ volumes_below 32 (λ volume. option_map (λ r. r.serial) (row_in_list rows.now volume))
        (λ volume. is_marked (row_in_list rows.now volume))) }
{
    let mut volumes = VolumeList::new(alloc);
    volumes.reserve(usize::from(VOLUMES))?;
    for number in 0..VOLUMES {
        let Some(volume) = VolumeNo::of(number) else {
            unreachable!()
        };
        push_volume(&mut volumes, rows, volume);
    }
    Ok(volumes)
}

/// Puts the listing of a site: every volume that has a row, as the rows show it over the devices.
///
/// Where a read for a track fails, the listing ends before that track, with a line that tells the count of faults.
/// The first line wants no memory, which may run out behind it.
pub fn listing<S: Site, O: Sink>(
    alloc: Global,
    site: &mut S,
    rows: &Rows,
    output: &mut O,
) -> Result<(), ReportFault>
    ensures report { let shown = shown_by (row_in_list rows.now) (content (S.told site.old)) in
        IsReported (listing_matter shown) (finished End) (site_between S.Site site.old site.new)
        (sink_between O.Sink output.old output.new) result }
    ensures unread { let shown = shown_by (row_in_list rows.now) (content (S.told site.old)) in
        OnRead result (BreaksOff
        (IsUnread S.Site site.old (row_in_list rows.now) (listing_matter shown).volumes)
        (listing_matter shown) (seen_with (site_between S.Site site.old site.new)
        (sink_between O.Sink output.old output.new))) }
    ensures framed { O.tells → Frames listing_title (finished End)
        (O.told output.old) (O.told output.new) result }
    ensures counted { SiteCounts (S.faults site.old) (S.faults site.new) result }
    ensures works { CanReadShown S.Site site.old (row_in_list rows.now) → AnswersNoRead result }
    ensures site { OnlyReads S.Site site.old site.new }
    ensures output { SinkCounts (O.faults output.old) (O.faults output.new) result }
{
    put_title(output)?;
    let volumes = listed_volumes(alloc, rows)?;
    put_ending(
        alloc,
        site,
        rows,
        volumes.as_slice(),
        Last::End,
        output,
        None,
    )
}
