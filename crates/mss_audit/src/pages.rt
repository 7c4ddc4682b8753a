// The pages: each frame is configured, and stands in one of them.
ghost use Rattle.std.specs.Prelude.{◌≡◌, ◌++◌, OnOk};
ghost use Rattle.volume_table.specs.Listed.{row_in_list};
ghost use Rattle.mss_audit.specs.Listing.{joined_below};
ghost use Rattle.mss_audit.specs.Findings.{page_findings};

use crate::finding::Findings;
use crate::listing::list_refusal;
use mss_base::{NoMemory, VolumeNo, page_at, volume_at};
use mss_restart::page_fault;
use volume_table::Rows;

/// Lists the pages of a volume at fault.
fn list_volume(
    frames: u16,
    rows: &Rows,
    volume: VolumeNo,
    findings: &mut Findings,
) -> Result<(), NoMemory>
    ensures { OnOk result (findings.new.items
        ≡ findings.old.items ++ page_findings frames (row_in_list rows.now) volume) }
{
    for number in 0..51 {
        list_refusal(findings, page_fault(frames, rows, volume, page_at(number)))?;
    }
    Ok(())
}

/// Lists each page whose frame isn't one of the first `frames`, or stands in an earlier page.
pub fn list_pages(frames: u16, rows: &Rows, findings: &mut Findings) -> Result<(), NoMemory>
    ensures { OnOk result (findings.new.items
        ≡ findings.old.items ++ joined_below 32 (page_findings frames (row_in_list rows.now))) }
{
    for number in 0..32 {
        list_volume(frames, rows, volume_at(number), findings)?;
    }
    Ok(())
}
