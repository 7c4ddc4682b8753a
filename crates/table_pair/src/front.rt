// Reading the block of a copy, as far as it counts.
ghost use Rattle.std.specs.Prelude.{◌≡◌, ℕ, Bool, false, IsOk, OnOk};
ghost use Rattle.mss_base.specs.Blocks.{block_of};
ghost use Rattle.mss_base.specs.Counts.{HasCause};
ghost use Rattle.mss_base.specs.Sites.{OnlyReads};
ghost use Rattle.mss_base.specs.declared.place.UnitNo.{UnitNo};
ghost use Rattle.table_pair.specs.Copies.{copy_at};

use mss_base::{Block, BlockPlace, Failed, Site};
use table_journal::{SLOT_BYTES, read_slots};
use volume_table::ROW_BYTES;

/// How many slots stand in the front of a copy's block, behind its row.
const FRONT_SLOTS: u16 = 64;

/// How many bytes the front of a copy's block has.
const FRONT_BYTES: usize = ROW_BYTES + SLOT_BYTES * FRONT_SLOTS as usize;

/// Reads the block of a copy, as far as it counts: its front, and all of it only where each slot in the front is in
/// use, since more may follow then. What stands in `block` behind that means nothing, but the copy in it is the site's.
pub fn read_copy_block<S: Site>(
    site: &mut S,
    at: &BlockPlace,
    block: &mut Block,
) -> Result<(), Failed>
    ensures copy { S.tells → OnOk result
        (copy_at block.new ≡ copy_at (block_of (S.told site.old) at.now)) }
    ensures cause { HasCause (S.faults site.old) (S.faults site.new) result }
    ensures works { (but : UnitNo → Bool) → S.never_fails_but site.old but
        → but at.now.unit ≡ false → IsOk result }
    ensures devices { OnlyReads S.Site site.old site.new }
{
    block.read_front(site, at, FRONT_BYTES)?;
    let used = read_slots(block.as_slice());
    if used < FRONT_SLOTS {
        return Ok(());
    }
    block.read(site, at)
}
