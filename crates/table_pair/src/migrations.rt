// Writing a row of version 1 anew.
ghost use Rattle.std.specs.Prelude.{◌≡◌, ◌≤◌, ℕ, Bool, false, IsOk, IfOk};
ghost use Rattle.mss_base.specs.Content.{content, Writes};
ghost use Rattle.mss_base.specs.Counts.{HasCause};
ghost use Rattle.mss_base.specs.Sites.{MayWrite};
ghost use Rattle.mss_base.specs.declared.place.UnitNo.{UnitNo};
ghost use Rattle.mss_base.specs.declared.place.UnitNo.TheVariants.{TableA, TableB};
ghost use Rattle.table_pair.specs.Changing.{IsCopyWith};
ghost use Rattle.table_pair.specs.Copies.{copy_on};
ghost use Rattle.table_pair.specs.Migrating.{AreNew, IsMigrated, MigratesCopy};
ghost use Rattle.table_pair.specs.Order.{WritesAFirst};
ghost use Rattle.table_pair.specs.Pair.{ChangesRow, HoldsRow};
ghost use Rattle.table_pair.specs.Places.{place_of, unit_of};
ghost use Rattle.table_pair.specs.Repairs.{KeepsMarks, KeepsRow};
ghost use Rattle.table_pair.specs.Slots.{HasSlots};

use crate::change::CHANGE_ITEMS;
use crate::copy::{SlotsUsed, TableCopy, place_of};
use crate::write::{COPY_ITEMS, gates_of, rewrite_copy};
use mss_base::{BLOCK_BYTES, BlockPlace, Failed, Site, VolumeNo, read_whole};
use volume_table::{BODY, BODY_END, ROW_BYTES, VolumeRow, encode_row, is_old};

/// Rewrites a copy with the row that it tells, without slots, where its body is of version 1. Gives how many slots
/// are in use then.
fn migrate_copy<S: Site>(
    site: &mut S,
    at: &BlockPlace,
    row: &VolumeRow,
    used: u16,
) -> Result<u16, Failed>
    requires held { S.tells → IsCopyWith row.now used (copy_on (S.told site.old) at.now) }
    requires room { COPY_ITEMS ≤ S.spare site.old }
    ensures migrates { S.tells →
        MigratesCopy row.now at.now (S.told site.old) (S.told site.new) result }
    ensures devices { MayWrite S.Site COPY_ITEMS site.old site.new }
    ensures cause { HasCause (S.faults site.old) (S.faults site.new) result }
    ensures works { (but : UnitNo → Bool) → S.never_fails_but site.old but
        → but at.now.unit ≡ false → IsOk result }
{
    let mut block = [0; BLOCK_BYTES];
    read_whole(site, at, &mut block)?;
    if !is_old(&block) {
        return Ok(used);
    }
    let mut bytes = [0; ROW_BYTES];
    encode_row(row, &mut bytes);
    rewrite_copy(site, at, gates_of(&block), &bytes[BODY..BODY_END])?;
    Ok(0)
}

/// Migrates the one copy of a volume's row or the other.
fn migrate_one<S: Site>(
    site: &mut S,
    copy: TableCopy,
    volume: VolumeNo,
    row: &VolumeRow,
    used: u16,
) -> Result<u16, Failed>
    requires held { S.tells →
        IsCopyWith row.now used (copy_on (S.told site.old) (place_of copy volume)) }
    requires room { COPY_ITEMS ≤ S.spare site.old }
    ensures migrates { S.tells →
        MigratesCopy row.now (place_of copy volume) (S.told site.old) (S.told site.new) result }
    ensures devices { MayWrite S.Site COPY_ITEMS site.old site.new }
    ensures cause { HasCause (S.faults site.old) (S.faults site.new) result }
    ensures works { (but : UnitNo → Bool) → S.never_fails_but site.old but
        → but (unit_of copy) ≡ false → IsOk result }
{
    migrate_copy(site, &place_of(copy, volume), row, used)
}

/// Writes each copy of a volume's row anew whose body is of version 1, copy A first: in version 2, and without slots.
/// Both copies are open with the row before and after. A copy of version 2 isn't written. `used` tells how many slots
/// of the copies are in use, and the answer how many are then.
///
/// It makes at most eight writes and six syncs. The row is the same at every moment, and so are the made marks. Where
/// it fails, the site's count of faults has risen.
pub fn migrate<S: Site>(
    site: &mut S,
    volume: VolumeNo,
    row: &VolumeRow,
    used: SlotsUsed,
) -> Result<SlotsUsed, Failed>
    requires held { S.tells → HoldsRow row.now volume (content (S.told site.old)) }
    requires slots { S.tells → HasSlots used volume (content (S.told site.old)) }
    requires room { CHANGE_ITEMS ≤ S.spare site.old }
    ensures moments { S.tells → Writes
        (ChangesRow volume (KeepsRow volume (content (S.told site.old)))
        (content (S.told site.old)))
        (S.told site.old) (S.told site.new) }
    ensures marks { S.tells → Writes (KeepsMarks volume (content (S.told site.old)))
        (S.told site.old) (S.told site.new) }
    ensures order { S.tells → WritesAFirst row.now volume (S.told site.old) (S.told site.new) }
    ensures done { S.tells → IfOk result (λ now.
        IsMigrated row.now now volume (S.told site.old) (S.told site.new)) }
    ensures untouched { S.tells → AreNew volume (content (S.told site.old))
        → S.told site.new ≡ S.told site.old }
    ensures devices { MayWrite S.Site CHANGE_ITEMS site.old site.new }
    ensures cause { HasCause (S.faults site.old) (S.faults site.new) result }
    ensures works { (but : UnitNo → Bool) → S.never_fails_but site.old but
        → but TableA ≡ false → but TableB ≡ false → IsOk result }
{
    let a = migrate_one(site, TableCopy::A, volume, row, used.a)?;
    let b = migrate_one(site, TableCopy::B, volume, row, used.b)?;
    Ok(SlotsUsed { a, b })
}
