// The tracks: the shown block is a track, and the block in a frame stands for it.
ghost use Rattle.std.specs.Prelude.{◌≡◌, ◌++◌, ℕ, Option, IfOk, OnOk};
ghost use Rattle.mss_base.specs.Content.{content};
ghost use Rattle.volume_table.specs.Listed.{row_in_list};
ghost use Rattle.shown_volumes.specs.Faults.{row_track_fault};
ghost use Rattle.shown_volumes.specs.declared.refused.Refused.{Refused};
ghost use Rattle.mss_restart.specs.Survey.{CountsFaults, Finds, TellsNoFailure};
ghost use Rattle.mss_audit.specs.Auditing.{CountsReads, Inspects, TellsNoRead};
ghost use Rattle.mss_audit.specs.Findings.{track_findings};
ghost use Rattle.mss_audit.specs.Listing.{joined_below};
ghost use Rattle.mss_audit.specs.Walks.{row_cylinder_findings, row_tracks_findings};

use crate::finding::{AuditFault, Findings};
use crate::listing::list_refusal;
use mss_base::{
    Block, CYLINDERS, Cylinder, HEADS, Head, Site, VolumeNo, cylinder_at, head_at, volume_at,
};
use mss_restart::check_track_of;
use shown_volumes::Refused;
use std::alloc::Global;
use volume_table::{Rows, VolumeRow};

/// What is read of a track: the block that is shown, and the one in a frame.
#[derive(Drop)]
struct Blocks {
    shown: Block,
    staged: Block,
}

/// The fault that a look at a track found, if any.
fn fault_found(looked: Result<(), Refused>) -> Result<Option<Refused>, AuditFault>
    ensures found { (fault : Option Refused) → Finds looked fault → IfOk result (λ r. r ≡ fault) }
    ensures counts { (before now : ℕ) → CountsFaults before now looked
        → CountsReads before now result }
    ensures works { TellsNoFailure looked → TellsNoRead result }
{
    match looked {
        Ok(()) => Ok(None),
        Err(Refused::RowUnread { fault, .. }) => Err(AuditFault::Read { fault }),
        Err(Refused::Stopped { fault }) => Err(AuditFault::Read { fault }),
        Err(Refused::Memory) => Err(AuditFault::Memory),
        Err(refused) => Ok(Some(refused)),
    }
}

/// The fault of a track, if it has one.
fn track_fault<S: Site>(
    site: &mut S,
    row: &VolumeRow,
    volume: VolumeNo,
    cylinder: Cylinder,
    head: Head,
    blocks: &mut Blocks,
) -> Result<Option<Refused>, AuditFault>
    ensures fault { S.tells → IfOk result (λ fault.
        fault ≡ row_track_fault (content (S.told site.old)) volume cylinder head row.now) }
    ensures inspects { Inspects S.Site site.old site.new result }
{
    let shown = &mut blocks.shown;
    let staged = &mut blocks.staged;
    fault_found(check_track_of(site, row, volume, cylinder, head, shown, staged))
}

/// Lists the tracks of a cylinder at fault, by head.
fn list_cylinder<S: Site>(
    site: &mut S,
    row: &VolumeRow,
    volume: VolumeNo,
    cylinder: Cylinder,
    blocks: &mut Blocks,
    findings: &mut Findings,
) -> Result<(), AuditFault>
    ensures list { S.tells → OnOk result (findings.new.items ≡ findings.old.items
        ++ row_cylinder_findings (content (S.told site.old)) volume row.now cylinder) }
    ensures inspects { Inspects S.Site site.old site.new result }
{
    for number in 0..HEADS {
        let fault = track_fault(site, row, volume, cylinder, head_at(number), blocks)?;
        list_refusal(findings, fault)?;
    }
    Ok(())
}

/// Lists the tracks of a row at fault, by cylinder and head.
fn list_row<S: Site>(
    site: &mut S,
    row: &VolumeRow,
    volume: VolumeNo,
    blocks: &mut Blocks,
    findings: &mut Findings,
) -> Result<(), AuditFault>
    ensures list { S.tells → OnOk result (findings.new.items ≡ findings.old.items
        ++ row_tracks_findings (content (S.told site.old)) volume row.now) }
    ensures inspects { Inspects S.Site site.old site.new result }
{
    for number in 0..CYLINDERS {
        list_cylinder(site, row, volume, cylinder_at(number), blocks, findings)?;
    }
    Ok(())
}

/// Lists the tracks of a volume at fault, if it has a row.
fn list_volume<S: Site>(
    site: &mut S,
    rows: &Rows,
    volume: VolumeNo,
    blocks: &mut Blocks,
    findings: &mut Findings,
) -> Result<(), AuditFault>
    ensures list { S.tells → OnOk result (findings.new.items ≡ findings.old.items
        ++ track_findings (row_in_list rows.now) (content (S.told site.old)) volume) }
    ensures inspects { Inspects S.Site site.old site.new result }
{
    let Some(row) = rows.row(volume) else {
        return Ok(());
    };
    list_row(site, row, volume, blocks, findings)
}

/// Lists the tracks of the rows at fault, by volume, cylinder and head.
///
/// It reads each block that is shown once, and of a staged cylinder the frame's block too. A blank track has none.
pub fn list_tracks<S: Site>(
    alloc: Global,
    site: &mut S,
    rows: &Rows,
    findings: &mut Findings,
) -> Result<(), AuditFault>
    ensures list { S.tells → OnOk result (findings.new.items ≡ findings.old.items
        ++ joined_below 32 (track_findings (row_in_list rows.now) (content (S.told site.old)))) }
    ensures inspects { Inspects S.Site site.old site.new result }
{
    let mut blocks = Blocks {
        shown: Block::zeros(alloc)?,
        staged: Block::zeros(alloc)?,
    };
    for number in 0..32 {
        list_volume(site, rows, volume_at(number), &mut blocks, findings)?;
    }
    Ok(())
}
