// The audit: four walks, one after the other, each to its end.
ghost use Rattle.std.specs.Prelude.{◌≡◌, ◌++◌, IfOk, OnOk};
ghost use Rattle.mss_base.specs.Content.{content};
ghost use Rattle.mss_base.specs.Configs.{serial_in};
ghost use Rattle.volume_table.specs.Listed.{row_in_list};
ghost use Rattle.mss_audit.specs.Auditing.{Inspects};
ghost use Rattle.mss_audit.specs.Findings.{findings, rest_findings};

use crate::finding::{AuditFault, Findings};
use crate::halves::list_halves;
use crate::pages::list_pages;
use crate::rows::list_rows;
use crate::tracks::list_tracks;
use mss_base::{Config, Site};
use std::alloc::Global;
use volume_table::Rows;

/// Lists what is wrong with the halves, then with the pages, then with the tracks of rows.
fn list_rest<S: Site>(
    alloc: Global,
    site: &mut S,
    frames: u16,
    rows: &Rows,
    findings: &mut Findings,
) -> Result<(), AuditFault>
    ensures list { S.tells → OnOk result (findings.new.items ≡ findings.old.items
        ++ rest_findings frames (row_in_list rows.now) (content (S.told site.old))) }
    ensures inspects { Inspects S.Site site.old site.new result }
{
    list_halves(rows, findings)?;
    list_pages(frames, rows, findings)?;
    list_tracks(alloc, site, rows, findings)
}

/// Audits a site: all that is wrong with what it holds, for the frames and the serials of a configuration.
///
/// Nothing is written. Over a site that tells, the findings are exactly the content's. `Read` comes only where a read
/// failed, the last one, and keeps the site's count of faults behind it; else the count stays, and the answer is `Ok` or
/// want of memory.
pub fn audit<S: Site>(alloc: Global, site: &mut S, config: &Config) -> Result<Findings, AuditFault>
    ensures list { S.tells → IfOk result (λ listing. listing.items
        ≡ findings config.now.frames (serial_in config.now.volumes) (content (S.told site.old))) }
    ensures inspects { Inspects S.Site site.old site.new result }
{
    let mut findings = Findings::new(alloc);
    let rows = list_rows(alloc, site, config.volumes.as_slice(), &mut findings)?;
    list_rest(alloc, site, config.frames, &rows, &mut findings)?;
    Ok(findings)
}
