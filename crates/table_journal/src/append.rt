// Appending a slot: two firm writes, such that a stop at any moment leaves the slots as they were, or with one more.
ghost use Rattle.std.specs.Prelude.{◌≡◌, ◌≤◌, ◌<◌, ℕ, ◌+◌, ◌++◌, [], ◌∷◌, List, false, length, OnOk};
ghost use Rattle.mss_base.specs.Geometry.{slot_count, slot_body_bytes};
ghost use Rattle.mss_base.specs.Blocks.{WritesBlock, block_of};
ghost use Rattle.mss_base.specs.Content.{Adds, Settles, write_at};
ghost use Rattle.mss_base.specs.Sites.{WritesAtMost};
ghost use Rattle.table_journal.specs.Slots.{AppendsSlot, is_slot_open, slot_body, slots_on};
ghost use Rattle.table_journal.specs.Appending.{IsNextClosed, KeepsSlots};

use crate::layout::{SLOT_BODY_BYTES, SLOT_BYTES, SLOTS, slot_place};
use mss_base::{BLOCK_BYTES, BlockPlace, FIRM_ITEMS, Failed, OPEN, Site, write_firm};

/// How many items of the log an appending makes at most: two writes and their syncs.
pub const SLOT_ITEMS: u32 = 4;

/// What a gate is closed with.
const CLOSED: u8 = 0x00;

/// A firm write, and what it leaves of any site.
fn put<S: Site>(site: &mut S, at: &BlockPlace, offset: usize, bytes: &[u8]) -> Result<(), Failed>
    requires room { FIRM_ITEMS ≤ S.spare site.old }
    requires some { 1 ≤ length bytes.now }
    requires inside { offset + length bytes.now ≤ BLOCK_BYTES }
    ensures ok { S.tells → OnOk result
        (Adds (write_at at.now offset bytes.now) (S.told site.old) (S.told site.new)) }
    ensures firm { S.tells → OnOk result (Settles (S.told site.old) (S.told site.new)) }
    ensures logged { S.tells → (left : List ℕ) × (length left ≡ length bytes.now)
        × Adds (write_at at.now offset left) (S.told site.old) (S.told site.new) }
    ensures site_ { WritesAtMost S.Site FIRM_ITEMS site.old site.new result }
{
    write_firm(site, at, offset as u16, bytes)
}

/// A slot's body, and the next gate, closed.
fn with_next_gate(body: &[u8]) -> [u8; SLOT_BYTES]
    requires { length body.now ≡ slot_body_bytes }
    ensures { result ≡ body.now ++ 0 ∷ [] }
{
    let mut bytes = [CLOSED; SLOT_BYTES];
    bytes[..SLOT_BODY_BYTES].copy_from_slice(body);
    bytes
}

/// Writes a body into the first slot that isn't in use, behind its closed gate, and closes the next gate.
fn put_body<S: Site>(site: &mut S, at: &BlockPlace, used: u16, body: &[u8]) -> Result<(), Failed>
    requires few { used < slot_count }
    requires there { S.tells → length (slots_on (S.told site.old) at.now) ≡ used }
    requires long { length body.now ≡ slot_body_bytes }
    requires room { FIRM_ITEMS ≤ S.spare site.old }
    ensures moments { S.tells → WritesBlock at.now (KeepsSlots (block_of (S.told site.old) at.now))
        (S.told site.old) (S.told site.new) }
    ensures body_ { S.tells →
        OnOk result (slot_body used (block_of (S.told site.new) at.now) ≡ body.now) }
    ensures next { S.tells → OnOk result (IsNextClosed used (block_of (S.told site.new) at.now)) }
    ensures firm { S.tells → OnOk result (Settles (S.told site.old) (S.told site.new)) }
    ensures site_ { WritesAtMost S.Site FIRM_ITEMS site.old site.new result }
{
    let place = slot_place(used) + 1;
    // Behind the last slot the block ends, where another has its next gate.
    let length = SLOT_BYTES.min(BLOCK_BYTES - place);
    let bytes = with_next_gate(body);
    put(site, at, place, &bytes[..length])?;
    Ok(())
}

/// Opens the gate of the first slot that isn't in use.
fn open_slot<S: Site>(site: &mut S, at: &BlockPlace, used: u16) -> Result<(), Failed>
    requires few { used < slot_count }
    requires there { S.tells → length (slots_on (S.told site.old) at.now) ≡ used }
    requires next { S.tells → IsNextClosed used (block_of (S.told site.old) at.now) }
    requires room { FIRM_ITEMS ≤ S.spare site.old }
    ensures moments { S.tells
        → AppendsSlot (slot_body used (block_of (S.told site.old) at.now)) at.now
        (S.told site.old) (S.told site.new) }
    ensures done { S.tells → OnOk result (slots_on (S.told site.new) at.now
        ≡ slots_on (S.told site.old) at.now
        ++ slot_body used (block_of (S.told site.old) at.now) ∷ []) }
    ensures firm { S.tells → OnOk result (Settles (S.told site.old) (S.told site.new)) }
    ensures grown { S.tells →
        OnOk result (length (S.told site.old).log < length (S.told site.new).log) }
    ensures site_ { WritesAtMost S.Site FIRM_ITEMS site.old site.new result }
{
    put(site, at, slot_place(used), &[OPEN])?;
    Ok(())
}

/// Appends a slot to a block in which `used` slots are in use. `body` is its seven bytes.
///
/// It makes two writes, each of them firm before the next: the body with the next gate, closed, and then the gate of the
/// slot. A stop at any moment leaves the slots as they were, or with this one more, and the bytes before them as they
/// were. Where it fails, the site's count of faults has risen.
pub fn append_slot<S: Site>(
    site: &mut S,
    at: &BlockPlace,
    used: u16,
    body: &[u8],
) -> Result<(), Failed>
    requires few { used < slot_count }
    requires there { S.tells → length (slots_on (S.told site.old) at.now) ≡ used }
    requires long { length body.now ≡ slot_body_bytes }
    requires room { SLOT_ITEMS ≤ S.spare site.old }

    ensures moments { S.tells → AppendsSlot body.now at.now (S.told site.old) (S.told site.new) }
    ensures done { S.tells → OnOk result (slots_on (S.told site.new) at.now
        ≡ slots_on (S.told site.old) at.now ++ body.now ∷ []) }
    ensures firm { S.tells → OnOk result (Settles (S.told site.old) (S.told site.new)) }
    ensures grown { S.tells →
        OnOk result (length (S.told site.old).log < length (S.told site.new).log) }

    ensures site_ { WritesAtMost S.Site SLOT_ITEMS site.old site.new result }
{
    put_body(site, at, used, body)?;
    open_slot(site, at, used)?;
    Ok(())
}
