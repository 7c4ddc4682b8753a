// Making two copies tell the same row.
ghost use Rattle.std.specs.Prelude.{◌≡◌, ◌≤◌, ℕ, true, length, IfOk, OnOk, IsOk, IsTrue, ◌↔◌, Some, Err};
ghost use Rattle.mss_base.specs.Blocks.{block_of};
ghost use Rattle.mss_base.specs.Content.{content, Settles, Writes};
ghost use Rattle.mss_base.specs.Sites.{OnlyReads, MayWrite, WritesAtMost};
ghost use Rattle.mss_base.specs.declared.place.UnitNo.TheVariants.{TableA, TableB};
ghost use Rattle.table_pair.specs.Copies.{copy_at};
ghost use Rattle.table_pair.specs.Pair.{ChangesRow};
ghost use Rattle.volume_table.specs.Grammar.{body, is_old};
ghost use Rattle.table_journal.specs.Slots.{slots};
ghost use Rattle.table_pair.specs.Reads.{IsReadable};
ghost use Rattle.table_pair.specs.Repairs.{AreAlike, NeedNoRepair, NeedsNoRepair, TellsRow, MayBeStale, IsStaleOn, IsFound, IsFoundOn, KeepsRow, KeepsMarks, HoldsToldRow, LosesSlots, KeepsRepairFault, RepairsCopies, GotRoom, LeavesSite, FailsNever};
ghost use Rattle.table_pair.specs.Slots.{ClearsWritten};
ghost use Rattle.table_pair.specs.declared.copy.RepairFault.TheVariants.{Memory};

use crate::copy::{CopyState, RepairFault, Repaired, SlotsUsed, TableCopy, place_of};
use crate::front::read_copy_block;
use crate::read::copy_state;
use crate::write::{COPY_ITEMS, GATE, Gates, gates_of, rewrite_copy};
use mss_base::{BLOCK_BYTES, Block, BlockPlace, Failed, NoMemory, OPEN, Site, VolumeNo};
use std::alloc::Global;
use table_journal::{read_slots, slot};
use volume_table::{BODY, BODY_END, ROW_BYTES, VolumeRow, encode_row, is_old};

/// A copy that hasn't the row which the other one tells, its gates, and that row.
#[derive(Drop)]
pub struct Stale {
    pub copy: TableCopy,
    pub gates: Gates,
    pub row: VolumeRow,
}

/// What two copies are found to be.
#[derive(Drop)]
pub struct Found {
    /// What has to be rewritten, if anything.
    pub stale: Option<Stale>,
    /// How many of their slots are in use.
    pub used: SlotsUsed,
    /// Whether the body of one of them is of version 1.
    pub is_old: bool,
}

fn is_open(block: &Block) -> bool
    ensures { result ≡ (copy_at block.now).is_open }
{
    block.as_slice()[GATE as usize] == OPEN
}

/// The row that a copy tells, if it is open and tells one.
fn told_row(alloc: Global, block: &Block) -> Result<Option<VolumeRow>, NoMemory>
    ensures { IfOk result (λ row. TellsRow row (copy_at block.now)) }
{
    match copy_state(alloc, block)? {
        CopyState::Open(Ok(row)) => Ok(Some(row)),
        CopyState::Open(Err(_)) => Ok(None),
        CopyState::Closed { .. } => Ok(None),
        CopyState::Unread { .. } => Ok(None),
    }
}

fn is_same(a: &VolumeRow, b: &VolumeRow) -> bool
    ensures { IsTrue result ↔ (a.now ≡ b.now) }
{
    let mut first = [0; ROW_BYTES];
    let mut second = [0; ROW_BYTES];
    encode_row(a, &mut first);
    encode_row(b, &mut second);
    first[BODY..BODY_END] == second[BODY..BODY_END]
}

/// Whether a copy tells this row.
fn tells(told: &Option<VolumeRow>, row: &VolumeRow) -> bool
    ensures { IsTrue result ↔ (told.now ≡ Some row.now) }
{
    match told {
        Some(other) => is_same(other, row),
        None => false,
    }
}

/// Whether two copies have the same slots in use.
fn has_same_slots(a: &[u8], b: &[u8]) -> bool
    requires a { length a.now ≡ BLOCK_BYTES }
    requires b { length b.now ≡ BLOCK_BYTES }
    ensures { result ≡ true → slots a.now ≡ slots b.now }
{
    let count = read_slots(a);
    if read_slots(b) != count {
        return false;
    }
    for index in 0..count {
        if slot(a, index) != slot(b, index) {
            return false;
        }
    }
    true
}

/// Whether two copies have the same body.
fn has_same_body(a: &[u8], b: &[u8]) -> bool
    requires a { length a.now ≡ BLOCK_BYTES }
    requires b { length b.now ≡ BLOCK_BYTES }
    ensures { result ≡ true → body a.now ≡ body b.now }
{
    a[BODY..BODY_END] == b[BODY..BODY_END]
}

/// Whether two copies have the same body and the same slots in use.
fn are_alike(a: &Block, b: &Block) -> bool
    ensures { result ≡ true → AreAlike (copy_at a.now) (copy_at b.now) }
{
    let (a, b) = (a.as_slice(), b.as_slice());
    if !has_same_body(a, b) {
        return false;
    }
    has_same_slots(a, b)
}

/// Whether two open copies are alike. So they tell the same row, or the same fault, and needn't be decoded.
fn tell_the_same(a: &Block, b: &Block) -> bool
    ensures { result ≡ true → NeedNoRepair (copy_at a.now) (copy_at b.now) }
{
    if !is_open(a) {
        return false;
    }
    if !is_open(b) {
        return false;
    }
    are_alike(a, b)
}

/// What has to be rewritten, if anything. Copy A is followed where it is open, else an open copy B; a copy that tells no
/// row isn't followed.
fn stale_copy(alloc: Global, a: &Block, b: &Block) -> Result<Option<Stale>, NoMemory>
    ensures { IfOk result (λ stale. MayBeStale stale (copy_at a.now) (copy_at b.now)) }
{
    if tell_the_same(a, b) {
        return Ok(None);
    }
    let by_b = told_row(alloc, b)?;
    if !is_open(a) {
        let Some(row) = by_b else {
            return Ok(None);
        };
        return Ok(Some(Stale {
            copy: TableCopy::A,
            gates: gates_of(a.as_slice()),
            row,
        }));
    }
    let Some(row) = told_row(alloc, a)? else {
        return Ok(None);
    };
    if tells(&by_b, &row) {
        return Ok(None);
    }
    Ok(Some(Stale {
        copy: TableCopy::B,
        gates: gates_of(b.as_slice()),
        row,
    }))
}

/// Whether the body of a copy is of version 1.
#[tactic(auto, using(crate::proofs::CopyLemmas::spelled_of))]
fn is_old_copy(block: &Block) -> bool
    ensures { result ≡ is_old (copy_at block.now).spelled }
{
    is_old(block.as_slice())
}

/// What two blocks that were read are found to be.
fn found_in(alloc: Global, a: &Block, b: &Block) -> Result<Found, NoMemory>
    ensures { IfOk result (λ found. IsFound found (copy_at a.now) (copy_at b.now)) }
{
    let stale = stale_copy(alloc, a, b)?;
    let used = SlotsUsed {
        a: read_slots(a.as_slice()),
        b: read_slots(b.as_slice()),
    };
    Ok(Found {
        stale,
        used,
        is_old: is_old_copy(a) | is_old_copy(b),
    })
}

/// Rewrites a stale copy with the row of the other one.
fn follow<S: Site>(site: &mut S, volume: VolumeNo, stale: &Stale) -> Result<(), Failed>
    requires stale { S.tells → IsStaleOn stale.now volume (content (S.told site.old)) }
    requires room { COPY_ITEMS ≤ S.spare site.old }
    ensures moments { S.tells → Writes
        (ChangesRow volume (KeepsRow volume (content (S.told site.old)))
        (content (S.told site.old)))
        (S.told site.old) (S.told site.new) }
    ensures marks { S.tells → Writes (KeepsMarks volume (content (S.told site.old)))
        (S.told site.old) (S.told site.new) }
    ensures done { S.tells → OnOk result
        (HoldsToldRow volume (content (S.told site.old)) (content (S.told site.new))) }
    ensures settled { S.tells → OnOk result (NeedsNoRepair volume (content (S.told site.new))) }
    ensures emptied { S.tells → OnOk result
        (LosesSlots stale.now.copy volume (content (S.told site.old)) (content (S.told site.new))) }
    ensures clear { S.tells → OnOk result ((used : SlotsUsed) →
        ClearsWritten used volume (content (S.told site.old)) (content (S.told site.new))) }
    ensures needed { S.tells → NeedsNoRepair volume (content (S.told site.old)) → ⊥ }
    ensures firm { S.tells → OnOk result (Settles (S.told site.old) (S.told site.new)) }
    ensures site_ { WritesAtMost S.Site COPY_ITEMS site.old site.new result }
{
    let mut bytes = [0; ROW_BYTES];
    encode_row(&stale.row, &mut bytes);
    let at = place_of(stale.copy, volume);
    rewrite_copy(site, &at, stale.gates, &bytes[BODY..BODY_END])
}

/// Reads the block of a copy, as far as it counts, or tells the count of faults after the read.
fn read_block<S: Site>(site: &mut S, at: &BlockPlace, block: &mut Block) -> Result<(), RepairFault>
    ensures copy { S.tells → OnOk result
        (copy_at block.new ≡ copy_at (block_of (S.told site.old) at.now)) }
    ensures devices { OnlyReads S.Site site.old site.new }
    ensures kept { KeepsRepairFault (S.faults site.old) (S.faults site.new) result }
    ensures works { IsReadable S.Site site.old at.now.unit → IsOk result }
{
    match read_copy_block(site, at, block) {
        Ok(()) => Ok(()),
        Err(Failed) => Err(RepairFault::Failed {
            fault: site.faults(),
        }),
    }
}

/// Takes room for a rewriting, reads both copies into two blocks, and finds what has to be rewritten, if anything.
fn find_stale<S: Site>(
    alloc: Global,
    site: &mut S,
    volume: VolumeNo,
    a: &mut Block,
    b: &mut Block,
) -> Result<Found, RepairFault>
    ensures found { S.tells → IfOk result (λ found.
        IsFoundOn found volume (content (S.told site.old))) }
    ensures room { OnOk result (COPY_ITEMS ≤ S.spare site.new) }
    ensures reads { GotRoom S.Site site.old site.new }
    ensures kept { KeepsRepairFault (S.faults site.old) (S.faults site.new) result }
    ensures works { IsReadable S.Site site.old TableA
        → IsReadable S.Site site.old TableB → FailsNever result }
{
    site.reserve(COPY_ITEMS)?;
    read_block(site, &place_of(TableCopy::A, volume), a)?;
    read_block(site, &place_of(TableCopy::B, volume), b)?;
    let found = found_in(alloc, a, b)?;
    Ok(found)
}

/// Makes the two copies of a volume's row tell the same, where one of them tells a row: the row that `read_row` tells
/// stands in both after that, firm. Elsewhere, and where both hold it, nothing is written. Gives how many slots of the
/// copies are in use then, and whether one may be of version 1: where one was rewritten, that isn't looked at again.
///
/// It makes at most four writes and three syncs, for which it takes the room itself. The row is the same at every
/// moment, and so are the made marks. After want of memory the devices are as they were. The copies are read into `a`
/// and `b`.
pub fn repair<S: Site>(
    alloc: Global,
    site: &mut S,
    volume: VolumeNo,
    a: &mut Block,
    b: &mut Block,
) -> Result<Repaired, RepairFault>
    ensures moments { S.tells → Writes
        (ChangesRow volume (KeepsRow volume (content (S.told site.old)))
        (content (S.told site.old)))
        (S.told site.old) (S.told site.new) }
    ensures marks { S.tells → Writes (KeepsMarks volume (content (S.told site.old)))
        (S.told site.old) (S.told site.new) }
    ensures done { S.tells → IfOk result (λ repaired.
        RepairsCopies repaired volume (S.told site.old) (S.told site.new)) }
    ensures untouched { S.tells → NeedsNoRepair volume (content (S.told site.old))
        → S.told site.new ≡ S.told site.old }
    ensures memory { result ≡ Err Memory → LeavesSite S.Site site.old site.new }
    ensures devices { MayWrite S.Site COPY_ITEMS site.old site.new }
    ensures kept { KeepsRepairFault (S.faults site.old) (S.faults site.new) result }
    ensures works { IsReadable S.Site site.old TableA
        → IsReadable S.Site site.old TableB → FailsNever result }
{
    let Found {
        stale,
        used,
        is_old,
    } = find_stale(alloc, site, volume, a, b)?;
    let Some(stale) = stale else {
        return Ok(Repaired { used, is_old });
    };
    match follow(site, volume, &stale) {
        Ok(()) => Ok(Repaired {
            used: used.without(stale.copy),
            is_old: true,
        }),
        Err(Failed) => Err(RepairFault::Failed {
            fault: site.faults(),
        }),
    }
}
