// The walk over the rows: each is read by the table of two copies, and its serial compared.
ghost use Rattle.std.specs.Prelude.{◌≡◌, ◌≤◌, ℕ, List, Option, None, Err, IfOk};
ghost use Rattle.mss_base.specs.Content.{content};
ghost use Rattle.mss_base.specs.Configs.{serial_in};
ghost use Rattle.mss_base.specs.Sites.{OnlyReads};
ghost use Rattle.table_pair.specs.Pair.{RowReading};
ghost use Rattle.table_pair.specs.Reads.{Tells, KeepsCount, MissesNone};
ghost use Rattle.shown_volumes.specs.Faults.{serial_fault};
ghost use Rattle.shown_volumes.specs.Sound.{HasSerialsAsked};
ghost use Rattle.volume_table.specs.Listed.{row_in_list};
ghost use Rattle.mss_restart.specs.Survey.{
  CanReadTable,
  IsNoFailure,
  KeepsCause,
  KeepsRead,
  KeepsRows,
  ReadsRows,
  ReadsVolume,
  ReadsWhole,
  ReadsWholeRows,
  TellsNoFailure,
  TellsRow,
};
ghost use Rattle.mss_restart.specs.OneCopy.{ArePaired, IsPaired, LosesOneTable};

use mss_base::{Block, Serial, Site, VolumeNo, volume_at};
use shown_volumes::Refused;
use std::alloc::Global;
use table_pair::{RowRead, RowTrouble, read_row};
use volume_table::{Rows, VolumeRow};

/// The rows as they were read. Where one copy alone told a row, since a read of the other failed, `unread` is the
/// site's count of faults after the first such read.
#[derive(Drop)]
pub struct RowsRead {
    pub rows: Rows,
    pub unread: Option<u64>,
}

/// The serial that is asked of a volume, if one is.
pub fn serial_asked(volumes: &[(VolumeNo, Serial, bool)], volume: VolumeNo) -> Option<Serial>
    ensures { result ≡ serial_in volumes.now volume }
{
    for entry in volumes {
        if volume == entry.0 {
            return Some(entry.1);
        }
    }
    None
}

/// The fault of a row's serial, if it isn't the one that is asked.
pub fn serial_fault(
    volume: VolumeNo,
    row: &Option<VolumeRow>,
    asked: Option<Serial>,
) -> Option<Refused>
    ensures { result ≡ serial_fault volume row.now asked }
{
    let Some(row) = row else {
        return None;
    };
    let Some(asked) = asked else {
        return None;
    };
    if row.serial == asked {
        return None;
    }
    Some(Refused::SerialDiffers {
        volume,
        kept: row.serial,
        asked,
    })
}

/// Why a row isn't known.
fn refused_row(volume: VolumeNo, trouble: RowTrouble) -> Refused
    ensures told { (asked : Option (List ℕ)) (r : RowReading)
        → Tells (Err trouble) r → TellsRow volume asked r (Err result) }
    ensures kept { (before now : ℕ) → before ≤ now
        → KeepsCount before now (Err trouble) → KeepsCause before now result }
    ensures works { MissesNone (Err trouble) → IsNoFailure result }
{
    match trouble {
        RowTrouble::Damaged { copy, fault } => Refused::RowDamaged {
            volume,
            copy,
            fault,
        },
        RowTrouble::Unread { fault } => Refused::RowUnread { volume, fault },
        RowTrouble::Memory => Refused::Memory,
    }
}

/// Reads the row of a volume, and compares its serial with the one that is asked.
fn read_volume<S: Site>(
    alloc: Global,
    site: &mut S,
    volume: VolumeNo,
    asked: Option<Serial>,
    block: &mut Block,
) -> Result<RowRead, Refused>
    ensures read { S.tells → ReadsVolume (S.faults site.old) (S.faults site.new) volume asked
        (content (S.told site.old)) result }
    ensures serial { IfOk result (λ read. serial_fault volume read.row asked ≡ None) }
    ensures counts { KeepsRead (S.faults site.old) (S.faults site.new) result }
    ensures works { CanReadTable S.Site site.old → ReadsWhole result }
    ensures one_copy { S.tells → LosesOneTable S.Site site.old
        → IsPaired volume (content (S.told site.old)) → TellsNoFailure result }
    ensures devices { OnlyReads S.Site site.old site.new }
{
    match read_row(alloc, site, volume, block) {
        Ok(read) => match serial_fault(volume, &read.row, asked) {
            None => Ok(read),
            Some(fault) => Err(fault),
        },
        Err(trouble) => Err(refused_row(volume, trouble)),
    }
}

/// Reads the rows of all volumes, and compares their serials with those that are asked.
pub fn read_rows<S: Site>(
    alloc: Global,
    site: &mut S,
    volumes: &[(VolumeNo, Serial, bool)],
) -> Result<RowsRead, Refused>
    ensures read { S.tells → ReadsRows (S.faults site.old) (S.faults site.new)
        (serial_in volumes.now) (content (S.told site.old)) result }
    ensures serials { IfOk result (λ read.
        HasSerialsAsked (serial_in volumes.now) (row_in_list read.rows)) }
    ensures counts { KeepsRows (S.faults site.old) (S.faults site.new) result }
    ensures works { CanReadTable S.Site site.old → ReadsWholeRows result }
    ensures one_copy { S.tells → LosesOneTable S.Site site.old
        → ArePaired (content (S.told site.old)) → TellsNoFailure result }
    ensures devices { OnlyReads S.Site site.old site.new }
{
    let mut rows = Rows::none(alloc)?;
    let mut block = Block::zeros(alloc)?;
    let mut unread = None;
    for number in 0..32 {
        let volume = volume_at(number);
        let asked = serial_asked(volumes, volume);
        let read = read_volume(alloc, site, volume, asked, &mut block)?;
        unread = unread.or(read.unread);
        rows.put(volume, read.row);
    }
    Ok(RowsRead { rows, unread })
}
