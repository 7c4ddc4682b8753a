// The writes of one copy.
ghost use Rattle.std.specs.Prelude.{◌≡◌, ◌⊎◌, ◌≤◌, ◌<◌, ◌+◌, ℕ, Bool, true, false, length, IsOk, IsTrue, IfOk, OnOk};
ghost use Rattle.mss_base.specs.Geometry.{row_gate_at, row_body_bytes, made_mark_at, made_mark};
ghost use Rattle.mss_base.specs.Content.{Settles};
ghost use Rattle.mss_base.specs.Counts.{HasCause};
ghost use Rattle.mss_base.specs.Sites.{MayWrite, WritesAtMost};
ghost use Rattle.mss_base.specs.declared.place.UnitNo.{UnitNo};
ghost use Rattle.table_pair.specs.Copies.{byte_on, copy_at, copy_on, shut_copy, marked_copy, emptied_copy, filled_copy, HasGates, IsFilling, IsMarking, IsRewriting, WritesCopy};

use mss_base::{BLOCK_BYTES, BlockPlace, FIRM_ITEMS, Failed, OPEN, Site, read_whole, write_firm};
use volume_table::{BODY, BODY_BYTES, BODY_END, ROW_BYTES};

/// How many items of the log a body makes at most, with the gate of slot 0: two writes, and a sync.
const BODY_ITEMS: u32 = 3;

/// How many the filling of a copy makes: those of its body, a write and a sync.
pub const FILL_ITEMS: u32 = 5;

/// How many the rewriting of a copy makes: a write and a sync, and those of its filling.
pub const COPY_ITEMS: u32 = 7;

/// Where a copy's gate stands.
pub const GATE: u16 = 0;

/// Where its made mark stands, behind the body.
pub const MADE: u16 = BODY_END as u16;

/// Where the gate of its first slot stands.
const SLOT_GATE: u16 = ROW_BYTES as u16;

/// What a gate is closed with.
const CLOSED: u8 = 0x00;

/// What a made mark is written as. Any byte but 00 counts as one.
pub const MADE_MARK: u8 = 0x4D;

/// What is known of a copy's gates.
#[derive(Clone, Copy)]
pub struct Gates {
    /// Whether the copy is open.
    pub is_open: bool,
    /// Whether the gate of slot 0 is known to be 00, so that it has no slots.
    pub is_clear: bool,
}

/// The gates of a copy whose block was read.
#[tactic(auto, using(crate::proofs::CopyLemmas::gates_read))]
pub fn gates_of(block: &[u8]) -> Gates
    requires { length block.now ≡ BLOCK_BYTES }
    ensures { HasGates result (copy_at block.now) }
{
    Gates {
        is_open: block[GATE as usize] == OPEN,
        is_clear: block[SLOT_GATE as usize] == CLOSED,
    }
}

/// Closes a copy's gate, where it is open.
fn close_copy<S: Site>(site: &mut S, at: &BlockPlace, is_open: bool) -> Result<(), Failed>
    requires told { S.tells → (copy_on (S.told site.old) at.now).is_open ≡ is_open }
    requires room { FIRM_ITEMS ≤ S.spare site.old }
    ensures moments { S.tells → WritesCopy at.now
        (λ c. (c ≡ copy_on (S.told site.old) at.now)
        ⊎ (c ≡ shut_copy (copy_on (S.told site.old) at.now)))
        (S.told site.old) (S.told site.new) }
    ensures done { S.tells →
        OnOk result (copy_on (S.told site.new) at.now
        ≡ shut_copy (copy_on (S.told site.old) at.now)) }
    ensures gate { S.tells → IsTrue is_open
        → OnOk result (byte_on (S.told site.new) at.now row_gate_at ≡ 0) }
    ensures firm { S.tells → OnOk result (Settles (S.told site.old) (S.told site.new)) }
    ensures site_ { WritesAtMost S.Site FIRM_ITEMS site.old site.new result }
{
    if is_open {
        write_firm(site, at, GATE, &[CLOSED])?;
    }
    Ok(())
}

/// Writes a body behind a closed gate, and 00 to the gate of slot 0 where it may be another byte. At Ok both are firm.
fn put_body<S: Site>(
    site: &mut S,
    at: &BlockPlace,
    is_clear: bool,
    body: &[u8],
) -> Result<(), Failed>
    requires long { length body.now ≡ row_body_bytes }
    requires closed { S.tells → (copy_on (S.told site.old) at.now).is_open ≡ false }
    requires clear { S.tells → is_clear ≡ true
        → (copy_on (S.told site.old) at.now).is_clear ≡ true }
    requires room { BODY_ITEMS ≤ S.spare site.old }
    ensures moments { S.tells → WritesCopy at.now
        (IsFilling body.now (copy_on (S.told site.old) at.now)) (S.told site.old)
        (S.told site.new) }
    ensures done { S.tells → OnOk result
        (copy_on (S.told site.new) at.now
        ≡ emptied_copy body.now (copy_on (S.told site.old) at.now)) }
    ensures mark { S.tells → OnOk result
        (byte_on (S.told site.new) at.now made_mark_at
        ≡ byte_on (S.told site.old) at.now made_mark_at) }
    ensures firm { S.tells → OnOk result (Settles (S.told site.old) (S.told site.new)) }
    ensures site_ { WritesAtMost S.Site BODY_ITEMS site.old site.new result }
{
    site.write(at.unit, at.block, BODY as u16, body)?;
    if is_clear {
        return site.sync(at.unit);
    }
    site.write(at.unit, at.block, SLOT_GATE, &[CLOSED])?;
    site.sync(at.unit)
}

/// Writes a body behind a closed gate, without slots, and opens the gate: at most three writes and two syncs.
pub fn fill_copy<S: Site>(
    site: &mut S,
    at: &BlockPlace,
    is_clear: bool,
    body: &[u8],
) -> Result<(), Failed>
    requires long { length body.now ≡ row_body_bytes }
    requires closed { S.tells → (copy_on (S.told site.old) at.now).is_open ≡ false }
    requires clear { S.tells → is_clear ≡ true
        → (copy_on (S.told site.old) at.now).is_clear ≡ true }
    requires room { FILL_ITEMS ≤ S.spare site.old }
    ensures moments { S.tells → WritesCopy at.now
        (IsFilling body.now (copy_on (S.told site.old) at.now)) (S.told site.old)
        (S.told site.new) }
    ensures done { S.tells → OnOk result
        (copy_on (S.told site.new) at.now
        ≡ filled_copy body.now (copy_on (S.told site.old) at.now)) }
    ensures mark { S.tells → OnOk result
        (byte_on (S.told site.new) at.now made_mark_at
        ≡ byte_on (S.told site.old) at.now made_mark_at) }
    ensures grown { S.tells →
        OnOk result (length (S.told site.old).log < length (S.told site.new).log) }
    ensures firm { S.tells → OnOk result (Settles (S.told site.old) (S.told site.new)) }
    ensures site_ { WritesAtMost S.Site FILL_ITEMS site.old site.new result }
{
    put_body(site, at, is_clear, body)?;
    write_firm(site, at, GATE, &[OPEN])?;
    Ok(())
}

/// Closes a copy's gate where it is open, writes a body without slots, opens the gate: at most four writes and three
/// syncs.
pub fn rewrite_copy<S: Site>(
    site: &mut S,
    at: &BlockPlace,
    gates: Gates,
    body: &[u8],
) -> Result<(), Failed>
    requires long { length body.now ≡ row_body_bytes }
    requires told { S.tells → HasGates gates (copy_on (S.told site.old) at.now) }
    requires room { COPY_ITEMS ≤ S.spare site.old }
    ensures moments { S.tells → WritesCopy at.now
        (IsRewriting body.now (copy_on (S.told site.old) at.now)) (S.told site.old)
        (S.told site.new) }
    ensures done { S.tells → OnOk result
        (copy_on (S.told site.new) at.now
        ≡ filled_copy body.now (copy_on (S.told site.old) at.now)) }
    ensures grown { S.tells →
        OnOk result (length (S.told site.old).log < length (S.told site.new).log) }
    ensures firm { S.tells → OnOk result (Settles (S.told site.old) (S.told site.new)) }
    ensures site_ { WritesAtMost S.Site COPY_ITEMS site.old site.new result }
{
    close_copy(site, at, gates.is_open)?;
    fill_copy(site, at, gates.is_clear, body)?;
    Ok(())
}

/// Sets a copy's made mark, where it isn't set, and tells whether the gate of slot 0 is 00.
pub fn mark_copy<S: Site>(site: &mut S, at: &BlockPlace) -> Result<bool, Failed>
    requires room { FIRM_ITEMS ≤ S.spare site.old }
    ensures moments { S.tells → WritesCopy at.now (IsMarking (copy_on (S.told site.old) at.now))
        (S.told site.old) (S.told site.new) }
    ensures done { S.tells →
        OnOk result (copy_on (S.told site.new) at.now
        ≡ marked_copy (copy_on (S.told site.old) at.now)) }
    ensures clear { S.tells → IfOk result (λ is_clear. is_clear ≡ true
        → (copy_on (S.told site.old) at.now).is_clear ≡ true) }
    ensures mark { S.tells → byte_on (S.told site.old) at.now made_mark_at ≡ 0
        → OnOk result (byte_on (S.told site.new) at.now made_mark_at ≡ made_mark) }
    ensures firm { S.tells → OnOk result (Settles (S.told site.old) (S.told site.new)) }
    ensures devices { MayWrite S.Site FIRM_ITEMS site.old site.new }
    ensures cause { HasCause (S.faults site.old) (S.faults site.new) result }
    ensures works { (but : UnitNo → Bool) → S.never_fails_but site.old but
        → but at.now.unit ≡ false → IsOk result }
{
    let mut block = [0; BLOCK_BYTES];
    read_whole(site, at, &mut block)?;
    let is_clear = block[SLOT_GATE as usize] == CLOSED;
    if block[MADE as usize] != 0 {
        return Ok(is_clear);
    }
    write_firm(site, at, MADE, &[MADE_MARK])?;
    Ok(is_clear)
}
