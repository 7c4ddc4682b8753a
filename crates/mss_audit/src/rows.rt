// The rows: both copies of each are read.
ghost use Rattle.std.specs.Prelude.{◌≡◌, ◌≢◌, ◌++◌, IfOk, OnOk};
ghost use Rattle.mss_base.specs.Content.{content};
ghost use Rattle.mss_base.specs.Configs.{serial_in};
ghost use Rattle.volume_table.specs.Listed.{row_in_list};
ghost use Rattle.table_pair.specs.Copies.{copy_at};
ghost use Rattle.table_pair.specs.Pair.{read_of, row_of, unread};
ghost use Rattle.table_pair.specs.Places.{unit_of};
ghost use Rattle.table_pair.specs.Reads.{read_of_copy};
ghost use Rattle.shown_volumes.specs.Shown.{rows_of, told_row};
ghost use Rattle.mss_audit.specs.Auditing.{Inspects};
ghost use Rattle.mss_audit.specs.Findings.{row_findings};
ghost use Rattle.mss_audit.specs.Listing.{joined_below};

use crate::copies::list_copies;
use crate::finding::{AuditFault, Findings};
use mss_base::{Block, Serial, Site, VolumeNo, volume_at};
use mss_restart::serial_asked;
use std::alloc::Global;
use table_pair::{CopyState, TableCopy, copy_state, place_of};
use volume_table::{Rows, VolumeRow};

/// Reads a copy of a volume's row.
fn read_copy<S: Site>(
    alloc: Global,
    site: &mut S,
    copy: TableCopy,
    volume: VolumeNo,
    block: &mut Block,
) -> Result<CopyState, AuditFault>
    ensures copy { S.tells → IfOk result (λ read.
        read_of_copy read ≡ read_of (copy_at (content (S.told site.old) (unit_of copy) volume))) }
    ensures there { IfOk result (λ read. read_of_copy read ≢ unread) }
    ensures inspects { Inspects S.Site site.old site.new result }
{
    if block.read(site, &place_of(copy, volume)).is_err() {
        return Err(AuditFault::Read {
            fault: site.faults(),
        });
    }
    let read = copy_state(alloc, block)?;
    Ok(read)
}

/// Lists what is wrong with a volume's row and its copies. Gives the row, if there is one.
fn list_row<S: Site>(
    alloc: Global,
    site: &mut S,
    volume: VolumeNo,
    asked: Option<Serial>,
    block: &mut Block,
    findings: &mut Findings,
) -> Result<Option<VolumeRow>, AuditFault>
    ensures row { S.tells → IfOk result (λ row.
        row ≡ told_row (row_of (content (S.told site.old)) volume)) }
    ensures list { S.tells → OnOk result (findings.new.items ≡ findings.old.items
        ++ row_findings (λ _. asked) (content (S.told site.old)) volume) }
    ensures inspects { Inspects S.Site site.old site.new result }
{
    let a = read_copy(alloc, site, TableCopy::A, volume, block)?;
    let b = read_copy(alloc, site, TableCopy::B, volume, block)?;
    let row = list_copies(volume, a, b, asked, findings)?;
    Ok(row)
}

/// Lists what is wrong with the rows and their copies. Gives the rows.
pub fn list_rows<S: Site>(
    alloc: Global,
    site: &mut S,
    volumes: &[(VolumeNo, Serial, bool)],
    findings: &mut Findings,
) -> Result<Rows, AuditFault>
    ensures rows { S.tells → IfOk result (λ rows.
        row_in_list rows ≡ rows_of (content (S.told site.old))) }
    ensures list { S.tells → OnOk result (findings.new.items ≡ findings.old.items
        ++ joined_below 32 (row_findings (serial_in volumes.now) (content (S.told site.old)))) }
    ensures inspects { Inspects S.Site site.old site.new result }
{
    let mut rows = Rows::none(alloc)?;
    let mut block = Block::zeros(alloc)?;
    for number in 0..32 {
        let volume = volume_at(number);
        let asked = serial_asked(volumes, volume);
        let row = list_row(alloc, site, volume, asked, &mut block, findings)?;
        rows.put(volume, row);
    }
    rows.look();
    Ok(rows)
}
