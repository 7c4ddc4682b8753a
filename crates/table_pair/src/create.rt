// Creating a row.
ghost use Rattle.std.specs.Prelude.{◌≡◌, ◌≤◌, ℕ, Bool, true, false, length, IsOk, OnOk};
ghost use Rattle.mss_base.specs.Geometry.{row_body_bytes};
ghost use Rattle.mss_base.specs.Content.{content, Writes};
ghost use Rattle.mss_base.specs.Counts.{HasCause};
ghost use Rattle.mss_base.specs.Sites.{MayWrite, WritesAtMost};
ghost use Rattle.mss_base.specs.declared.place.UnitNo.{UnitNo};
ghost use Rattle.mss_base.specs.declared.place.UnitNo.TheVariants.{TableA, TableB};
ghost use Rattle.table_pair.specs.Copies.{copy_on};
ghost use Rattle.table_pair.specs.Creating.{FillsCopy, MarksCopy};
ghost use Rattle.table_pair.specs.Order.{CreatesInOrder};
ghost use Rattle.table_pair.specs.Migrating.{AreNew};
ghost use Rattle.table_pair.specs.Places.{place_of, unit_of};
ghost use Rattle.table_pair.specs.Pair.{ChangesRow, NoneOrNew, AreClosed, AreMarked};
ghost use Rattle.table_pair.specs.Repairs.{NeedsNoRepair};
ghost use Rattle.table_pair.specs.Slots.{IsChanged, no_slots};

use crate::change::CHANGE_ITEMS;
use crate::copy::{TableCopy, place_of};
use crate::write::{FILL_ITEMS, fill_copy, mark_copy};
use mss_base::{FIRM_ITEMS, Failed, Site, VolumeNo};
use volume_table::{BODY, BODY_BYTES, BODY_END, ROW_BYTES, VolumeRow, encode_row};

/// Sets the made mark of the one copy of a volume's row or of the other, and tells whether the gate of slot
/// 0 is 00.
fn mark_one<S: Site>(site: &mut S, copy: TableCopy, volume: VolumeNo) -> Result<bool, Failed>
    requires room { FIRM_ITEMS ≤ S.spare site.old }
    ensures marks { S.tells → MarksCopy (place_of copy volume)
        (S.told site.old) (S.told site.new) result }
    ensures devices { MayWrite S.Site FIRM_ITEMS site.old site.new }
    ensures cause { HasCause (S.faults site.old) (S.faults site.new) result }
    ensures works { (but : UnitNo → Bool) → S.never_fails_but site.old but
        → but (unit_of copy) ≡ false → IsOk result }
{
    mark_copy(site, &place_of(copy, volume))
}

/// Fills the one copy of a volume's row or the other, which is closed.
fn fill_one<S: Site>(
    site: &mut S,
    copy: TableCopy,
    volume: VolumeNo,
    is_clear: bool,
    body: &[u8],
) -> Result<(), Failed>
    requires long { length body.now ≡ row_body_bytes }
    requires closed { S.tells → (copy_on (S.told site.old) (place_of copy volume)).is_open ≡ false }
    requires clear { S.tells → is_clear ≡ true
        → (copy_on (S.told site.old) (place_of copy volume)).is_clear ≡ true }
    requires room { FILL_ITEMS ≤ S.spare site.old }
    ensures fills { S.tells → FillsCopy body.now (place_of copy volume)
        (S.told site.old) (S.told site.new) result }
    ensures site_ { WritesAtMost S.Site FILL_ITEMS site.old site.new result }
{
    fill_copy(site, &place_of(copy, volume), is_clear, body)
}

/// Gives a volume its row. Both copies are closed before, and open with the row and marked as made after, in version 2.
///
/// It makes at most eight writes and six syncs: the two marks, then copy A, then copy B. A stop at any moment leaves no
/// row or the new one, which is firm once it is done. Where it fails, the site's count of faults has risen.
pub fn create_row<S: Site>(site: &mut S, volume: VolumeNo, row: &VolumeRow) -> Result<(), Failed>
    requires none { S.tells → AreClosed volume (content (S.told site.old)) }
    requires room { CHANGE_ITEMS ≤ S.spare site.old }

    ensures moments { S.tells → Writes
        (ChangesRow volume (NoneOrNew volume row.now) (content (S.told site.old)))
        (S.told site.old) (S.told site.new) }
    ensures order { S.tells → CreatesInOrder row.now volume (S.told site.old) (S.told site.new) }
    ensures done { S.tells → OnOk result
        (IsChanged row.now no_slots volume (S.told site.old) (S.told site.new)) }
    ensures settled { S.tells → OnOk result (NeedsNoRepair volume (content (S.told site.new))) }
    ensures marks { S.tells → OnOk result
        (AreMarked volume (content (S.told site.old)) (content (S.told site.new))) }
    ensures new { S.tells → OnOk result (AreNew volume (content (S.told site.new))) }

    ensures devices { MayWrite S.Site CHANGE_ITEMS site.old site.new }
    ensures cause { HasCause (S.faults site.old) (S.faults site.new) result }
    ensures works { (but : UnitNo → Bool) → S.never_fails_but site.old but
        → but TableA ≡ false → but TableB ≡ false → IsOk result }
{
    let mut bytes = [0; ROW_BYTES];
    encode_row(row, &mut bytes);
    let body = &bytes[BODY..BODY_END];
    let clear_a = mark_one(site, TableCopy::A, volume)?;
    let clear_b = mark_one(site, TableCopy::B, volume)?;
    fill_one(site, TableCopy::A, volume, clear_a, body)?;
    fill_one(site, TableCopy::B, volume, clear_b, body)?;
    Ok(())
}
