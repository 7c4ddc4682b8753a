// A write that is firm once it is done.
ghost use Rattle.std.specs.Prelude.{◌≡◌, ◌≤◌, ℕ, ◌+◌, Bool, List, length, IsOk, OnOk};
ghost use Rattle.mss_base.specs.Content.{Adds, Settles, write_at};
ghost use Rattle.mss_base.specs.Geometry.{block_bytes};
ghost use Rattle.mss_base.specs.Counts.{HasCause, Rises};
ghost use Rattle.mss_base.specs.Sites.{MayWrite};
ghost use Rattle.mss_base.specs.declared.place.UnitNo.{UnitNo};

use crate::{BlockPlace, Failed, Site};

/// How many items a firm write makes: the write, and a sync of its unit.
pub const FIRM_ITEMS: u32 = 2;

/// Writes into a block, and syncs its unit: at Ok the write is firm.
///
/// After a failure the range may hold anything, and the write is loose; the rest of the block is as it was.
pub fn write_firm<S: Site>(
    site: &mut S,
    at: &BlockPlace,
    offset: u16,
    bytes: &[u8],
) -> Result<(), Failed>
    requires room { FIRM_ITEMS ≤ S.spare site.old }
    requires some { 1 ≤ length bytes.now }
    requires inside { offset + length bytes.now ≤ block_bytes }
    ensures ok { S.tells → OnOk result
        (Adds (write_at at.now offset bytes.now) (S.told site.old) (S.told site.new)) }
    ensures firm { S.tells → OnOk result (Settles (S.told site.old) (S.told site.new)) }
    ensures logged { S.tells → (left : List ℕ) × (length left ≡ length bytes.now)
        × Adds (write_at at.now offset left) (S.told site.old) (S.told site.new) }
    ensures devices { MayWrite S.Site FIRM_ITEMS site.old site.new }
    ensures wrote { Rises (S.writes site.old) (S.writes site.new) }
    ensures cause { HasCause (S.faults site.old) (S.faults site.new) result }
    ensures works { (but : UnitNo → Bool) → S.never_fails_but site.old but → IsOk result }
{
    site.write(at.unit, at.block, offset, bytes)?;
    site.sync(at.unit)
}
