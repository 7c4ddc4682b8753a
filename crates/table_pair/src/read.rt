// Reading a row, where reads may fail.
ghost use Rattle.std.specs.Prelude.{◌≡◌, ◌≢◌, ◌≤◌, ℕ, length, IfOk, is_some};
ghost use Rattle.mss_base.specs.Blocks.{block_of};
ghost use Rattle.mss_base.specs.Content.{content};
ghost use Rattle.mss_base.specs.Sites.{OnlyReads};
ghost use Rattle.mss_base.specs.declared.place.UnitNo.TheVariants.{TableA, TableB};
ghost use Rattle.table_pair.specs.Pair.{reading, copy_reading, read_of, unread};
ghost use Rattle.table_pair.specs.declared.copy.TableCopy.TheVariants.{A};
ghost use Rattle.table_pair.specs.Copies.{copy_at};
ghost use Rattle.table_pair.specs.Reads.{read_of_copy, is_opened, IsReadable, IsReadOf, MissingKeeps, CopyKeeps, KeepBoth, KeepsCount, Tells, MissesNone, ReadsBoth, ReadsRow};

use crate::copy::{CopyState, RowRead, RowTrouble, TableCopy, place_of};
use crate::front::read_copy_block;
use crate::write::{GATE, MADE};
use mss_base::{Block, BlockPlace, Failed, NoMemory, OPEN, Site, VolumeNo};
use std::alloc::Global;
use table_journal::read_slots;
use volume_table::{DecodeFault, ROW_BYTES, RowFault, VolumeRow, decode_told};

/// What a block that was read says of its copy.
pub fn copy_state(alloc: Global, block: &Block) -> Result<CopyState, NoMemory>
    ensures { IfOk result (λ c. read_of_copy c ≡ read_of (copy_at block.now)) }
{
    let block = block.as_slice();
    if block[GATE as usize] != OPEN {
        return Ok(CopyState::Closed {
            made: block[MADE as usize] != 0,
        });
    }
    let (row, slots) = block.split_at(ROW_BYTES);
    match decode_told(alloc, row, read_slots(block), slots) {
        Ok(row) => Ok(CopyState::Open(Ok(row))),
        Err(DecodeFault::Bad(fault)) => Ok(CopyState::Open(Err(fault))),
        Err(DecodeFault::Memory) => Err(NoMemory),
    }
}

/// Reads one copy.
fn read_copy<S: Site>(
    alloc: Global,
    site: &mut S,
    at: &BlockPlace,
    block: &mut Block,
) -> Result<CopyState, NoMemory>
    ensures copy { S.tells → IfOk result (λ c. IsReadOf (S.faults site.old) (S.faults site.new)
        (block_of (S.told site.old) at.now) (read_of_copy c)) }
    ensures kept { CopyKeeps (S.faults site.old) (S.faults site.new) result }
    ensures works { IsReadable S.Site site.old at.now.unit
        → IfOk result (λ c. read_of_copy c ≢ unread) }
    ensures devices { OnlyReads S.Site site.old site.new }
{
    match read_copy_block(site, at, block) {
        Ok(()) => copy_state(alloc, block),
        Err(Failed) => Ok(CopyState::Unread {
            fault: site.faults(),
        }),
    }
}

fn is_open(copy: &CopyState) -> bool
    ensures { result ≡ is_opened (read_of_copy copy.now) }
{
    matches!(copy, CopyState::Open(_))
}

/// The row of the copy that counts. Where that is copy A, no copy is missing.
fn taken(
    copy: TableCopy,
    row: Result<VolumeRow, RowFault>,
    unread: Option<u64>,
) -> Result<RowRead, RowTrouble>
    requires { copy ≡ A → unread ≡ None }
    ensures told { Tells result (copy_reading copy (is_some unread) row) }
    ensures kept { (before now : ℕ) → MissingKeeps before now unread
        → KeepsCount before now result }
    ensures there { unread ≡ None → MissesNone result }
{
    match row {
        Ok(row) => Ok(RowRead {
            row: Some(row),
            unread,
        }),
        Err(fault) => Err(RowTrouble::Damaged { copy, fault }),
    }
}

/// The reading table: the row that two copies tell, if they tell one.
pub fn by_table(a: CopyState, b: CopyState) -> Result<RowRead, RowTrouble>
    ensures told { Tells result (reading (read_of_copy a) (read_of_copy b)) }
    ensures kept { (before now : ℕ) → KeepBoth before now a b → KeepsCount before now result }
    ensures there { read_of_copy a ≢ unread → read_of_copy b ≢ unread → MissesNone result }
{
    match (a, b) {
        (CopyState::Open(row), _) => taken(TableCopy::A, row, None),
        (CopyState::Closed { .. }, CopyState::Open(row)) => taken(TableCopy::B, row, None),
        (CopyState::Unread { fault }, CopyState::Open(row)) => {
            taken(TableCopy::B, row, Some(fault))
        }
        (CopyState::Closed { .. }, CopyState::Closed { .. }) => Ok(RowRead {
            row: None,
            unread: None,
        }),
        (CopyState::Closed { made: false }, CopyState::Unread { fault }) => Ok(RowRead {
            row: None,
            unread: Some(fault),
        }),
        (CopyState::Unread { fault }, CopyState::Closed { made: false }) => Ok(RowRead {
            row: None,
            unread: Some(fault),
        }),
        (_, CopyState::Unread { fault }) => Err(RowTrouble::Unread { fault }),
        (CopyState::Unread { fault }, CopyState::Closed { .. }) => {
            Err(RowTrouble::Unread { fault })
        }
    }
}

/// Reads the row of a volume. Copy B is read where copy A can't be read or is closed.
///
/// Nothing is written. The row is what the reading table tells of the two copies, each of which was read or failed. The
/// copies are read into `block`.
pub fn read_row<S: Site>(
    alloc: Global,
    site: &mut S,
    volume: VolumeNo,
    block: &mut Block,
) -> Result<RowRead, RowTrouble>
    ensures row { S.tells → ReadsRow (IsReadable S.Site site.old)
        (S.faults site.old) (S.faults site.new) volume (content (S.told site.old)) result }
    ensures kept { KeepsCount (S.faults site.old) (S.faults site.new) result }
    ensures works { IsReadable S.Site site.old TableA
        → IsReadable S.Site site.old TableB
        → ReadsBoth (S.faults site.old) (S.faults site.new) result }
    ensures devices { OnlyReads S.Site site.old site.new }
{
    let a = read_copy(alloc, site, &place_of(TableCopy::A, volume), block)?;
    if is_open(&a) {
        return by_table(a, CopyState::Closed { made: false });
    }
    let b = read_copy(alloc, site, &place_of(TableCopy::B, volume), block)?;
    by_table(a, b)
}
