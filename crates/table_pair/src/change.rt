// Changing a row.
ghost use Rattle.std.specs.Prelude.{◌≡◌, ◌≤◌, ◌<◌, ◌+◌, length, IfOk, OnOk};
ghost use Rattle.mss_base.specs.Content.{content, Writes};
ghost use Rattle.mss_base.specs.Sites.{WritesAtMost};
ghost use Rattle.table_pair.specs.Changing.{ChangesCopy, IsCopyDue};
ghost use Rattle.table_pair.specs.Copies.{copy_on};
ghost use Rattle.table_pair.specs.Order.{WritesAFirst};
ghost use Rattle.table_pair.specs.Migrating.{AreNew, StaysNew};
ghost use Rattle.table_pair.specs.Places.{place_of};
ghost use Rattle.table_pair.specs.Pair.{ChangesRow, OldOrNew};
ghost use Rattle.table_pair.specs.Repairs.{KeepsMarks, NeedsNoRepair};
ghost use Rattle.table_pair.specs.Slots.{IsChanged, IsDue, change_items, copy_items, slots_after, used_after};

use crate::copy::{SlotsUsed, TableCopy, place_of};
use crate::write::{COPY_ITEMS, Gates, rewrite_copy};
use mss_base::{BlockPlace, Failed, Site, VolumeNo};
use table_journal::{SLOTS, append_slot};
use volume_table::{BODY, BODY_END, Change, ROW_BYTES, VolumeRow, encode_row, encode_slot};

/// How many items of the log a change of a row, or its creation, makes at most: those of two rewritings.
pub const CHANGE_ITEMS: u32 = 2 * COPY_ITEMS;

/// Changes one copy of a row: with a slot more where one is free, or else by rewriting it without slots. Gives how many
/// slots are in use then.
fn change_copy<S: Site>(
    site: &mut S,
    at: &BlockPlace,
    row: &VolumeRow,
    change: &Change,
    used: u16,
) -> Result<u16, Failed>
    requires due { S.tells → IsCopyDue change.now row.now used (copy_on (S.told site.old) at.now) }
    requires room { COPY_ITEMS ≤ S.spare site.old }
    ensures changes { S.tells → ChangesCopy row.now (slots_after used) at.now
        (S.told site.old) (S.told site.new) result }
    ensures new { S.tells → OnOk result
        (StaysNew (copy_on (S.told site.old) at.now) (copy_on (S.told site.new) at.now)) }
    ensures used { IfOk result (λ now. now ≡ slots_after used) }
    ensures few { S.tells →
        length (S.told site.new).log ≤ length (S.told site.old).log + copy_items used }
    ensures site_ { WritesAtMost S.Site COPY_ITEMS site.old site.new result }
{
    if used < SLOTS {
        let slot = encode_slot(change);
        append_slot(site, at, used, &slot)?;
        return Ok(used + 1);
    }
    let mut bytes = [0; ROW_BYTES];
    encode_row(row, &mut bytes);
    let gates = Gates {
        is_open: true,
        is_clear: false,
    };
    rewrite_copy(site, at, gates, &bytes[BODY..BODY_END])?;
    Ok(0)
}

/// Changes the one copy of a volume's row or the other.
#[tactic(auto, using(crate::proofs::ChangingLemmas::due_at, crate::proofs::ChangingLemmas::changes_at, crate::proofs::VersionLemmas::new_at))]
fn change_one<S: Site>(
    site: &mut S,
    copy: TableCopy,
    volume: VolumeNo,
    row: &VolumeRow,
    change: &Change,
    used: u16,
) -> Result<u16, Failed>
    requires due { S.tells → IsCopyDue change.now row.now used
        (copy_on (S.told site.old) (place_of copy volume)) }
    requires room { COPY_ITEMS ≤ S.spare site.old }
    ensures changes { S.tells → ChangesCopy row.now (slots_after used) (place_of copy volume)
        (S.told site.old) (S.told site.new) result }
    ensures new { S.tells → OnOk result (StaysNew
        (copy_on (S.told site.old) (place_of copy volume))
        (copy_on (S.told site.new) (place_of copy volume))) }
    ensures used { IfOk result (λ now. now ≡ slots_after used) }
    ensures few { S.tells →
        length (S.told site.new).log ≤ length (S.told site.old).log + copy_items used }
    ensures site_ { WritesAtMost S.Site COPY_ITEMS site.old site.new result }
{
    change_copy(site, &place_of(copy, volume), row, change, used)
}

/// Changes a row in both copies, first in copy A. Both copies are open with one row before, and with the new row after.
/// `row` is the row after the change; `used` tells how many slots of the copies are in use, and the answer how many are
/// then.
///
/// A copy gets one slot more, by two writes and two syncs; where it has none free it is rewritten, without slots, by
/// four writes and three syncs. A stop at any moment leaves the old row or the new one, and the made marks as they were.
/// Once it is done the new one is firm, and copies of version 2 are so still. Where it fails, the site's count of
/// faults has risen.
pub fn change_row<S: Site>(
    site: &mut S,
    volume: VolumeNo,
    row: &VolumeRow,
    change: &Change,
    used: SlotsUsed,
) -> Result<SlotsUsed, Failed>
    requires due { S.tells → IsDue volume change.now row.now used (content (S.told site.old)) }
    requires room { CHANGE_ITEMS ≤ S.spare site.old }

    ensures moments { S.tells → Writes
        (ChangesRow volume (OldOrNew volume row.now (content (S.told site.old)))
        (content (S.told site.old))) (S.told site.old) (S.told site.new) }
    ensures marks { S.tells → Writes (KeepsMarks volume (content (S.told site.old)))
        (S.told site.old) (S.told site.new) }
    ensures order { S.tells → WritesAFirst row.now volume (S.told site.old) (S.told site.new) }
    ensures done { S.tells → OnOk result
        (IsChanged row.now (used_after used) volume (S.told site.old) (S.told site.new)) }
    ensures used { IfOk result (λ now. now ≡ used_after used) }
    ensures settled { S.tells → OnOk result (NeedsNoRepair volume (content (S.told site.new))) }
    ensures new { S.tells → AreNew volume (content (S.told site.old))
        → OnOk result (AreNew volume (content (S.told site.new))) }
    ensures grown { S.tells →
        OnOk result (length (S.told site.old).log < length (S.told site.new).log) }
    ensures few { S.tells →
        length (S.told site.new).log ≤ length (S.told site.old).log + change_items used }
    ensures site_ { WritesAtMost S.Site CHANGE_ITEMS site.old site.new result }
{
    let a = change_one(site, TableCopy::A, volume, row, change, used.a)?;
    let b = change_one(site, TableCopy::B, volume, row, change, used.b)?;
    Ok(SlotsUsed { a, b })
}
