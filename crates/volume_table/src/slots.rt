// Changes of a row as slots, which stand behind its body.
ghost use Rattle.std.specs.Prelude.{◌≡◌, ◌≤◌, ◌<◌, ◌*◌, ◌==◌, ◌&&◌, None, Some, Ok, Err, length, IfErr, OnOk, OnErr, slice_index};
ghost use Rattle.mss_base.specs.Geometry.{volume_pages, slot_bytes, slot_body_bytes};
ghost use Rattle.volume_table.specs.Changes.{IsInRange};
ghost use Rattle.volume_table.specs.Grammar.{body, Gives};
ghost use Rattle.volume_table.specs.Slots.{after_slot, assignment, change_by, change_of, changed_by, cylinder_change, frameless_change, mark_change, number_below, slot_fault, slot_of, slots_from, spelled_slot, told_by};

use crate::changes::{Change, apply, is_allowed};
use crate::decode::decode_row;
use crate::encode::mark_byte;
use crate::fault::{DecodeFault, RowFault, RowField};
use crate::layout::{CHANGE_BYTES, PAGES, ROW_BYTES, SLOT_BYTES};
use crate::row::VolumeRow;
use mss_base::{CYLINDERS, Cylinder, FrameNo, Page};
use std::alloc::Global;

fn spelled_slot(kind: u8, number: u16, frame: u8) -> [u8; 7]
    ensures { result ≡ spelled_slot kind number frame }
{
    let high = (number / 256) as u8;
    let low = (number % 256) as u8;
    [kind, high, low, frame, 0, 0, 0]
}

/// Spells a change as the seven bytes of a slot. A creation, which no slot holds, becomes zeros.
pub fn encode_slot(change: &Change) -> [u8; 7]
    ensures bytes { result ≡ slot_of change.now }
    ensures in_range { IsInRange change.now }
{
    match change {
        Change::Create { .. } => spelled_slot(0, 0, 0),
        Change::Assign { page, frame } => spelled_slot(1, page.get() as u16, frame.get()),
        Change::Free { page } => spelled_slot(2, page.get() as u16, 0),
        Change::Staged { cylinder } => spelled_slot(3, cylinder.get(), 0),
        Change::Changed { cylinder } => spelled_slot(4, cylinder.get(), 0),
        Change::Destaged { cylinder } => spelled_slot(5, cylinder.get(), 0),
        Change::Protect { on } => spelled_slot(6, mark_byte(*on) as u16, 0),
    }
}

fn page_at(number: u16) -> Option<Page>
    ensures { result ≡ number_below volume_pages number }
{
    if number < PAGES as u16 {
        Page::of(number as u8)
    } else {
        None
    }
}

fn cylinder_at(number: u16) -> Option<Cylinder>
    ensures { result ≡ number_below CYLINDERS number }
{
    Cylinder::of(number)
}

fn frame_at(byte: u8) -> Option<FrameNo>
    ensures { result ≡ number_below 200 byte }
{
    FrameNo::of(byte)
}

fn assignment(number: u16, byte: u8) -> Option<Change>
    ensures { result ≡ assignment number byte }
{
    let page = page_at(number)?;
    let frame = frame_at(byte)?;
    Some(Change::Assign { page, frame })
}

fn cylinder_change(kind: u8, cylinder: Cylinder) -> Option<Change>
    ensures { result ≡ cylinder_change kind cylinder }
{
    match kind {
        3 => Some(Change::Staged { cylinder }),
        4 => Some(Change::Changed { cylinder }),
        5 => Some(Change::Destaged { cylinder }),
        _ => None,
    }
}

fn mark_change(number: u16) -> Option<Change>
    ensures { result ≡ mark_change number }
{
    if number < 2 {
        Some(Change::Protect { on: number == 1 })
    } else {
        None
    }
}

fn frameless_change(kind: u8, number: u16) -> Option<Change>
    ensures { result ≡ frameless_change kind number }
{
    if kind == 2 {
        let page = page_at(number)?;
        return Some(Change::Free { page });
    }
    if kind == 6 {
        return mark_change(number);
    }
    let cylinder = cylinder_at(number)?;
    cylinder_change(kind, cylinder)
}

fn change_by(kind: u8, number: u16, frame: u8) -> Option<Change>
    ensures { result ≡ change_by kind number frame }
{
    if kind == 1 {
        return assignment(number, frame);
    }
    if frame == 0 {
        frameless_change(kind, number)
    } else {
        None
    }
}

/// Whether the last three bytes of a slot are zeros.
fn ends_in_zeros(bytes: &[u8]) -> bool
    requires { length bytes.now ≡ slot_body_bytes }
    ensures { result ≡ (slice_index bytes.now 4 == 0 && slice_index bytes.now 5 == 0
        && slice_index bytes.now 6 == 0) }
{
    bytes[4] == 0 && bytes[5] == 0 && bytes[6] == 0
}

/// The change that the seven bytes of a slot spell. None where they spell none.
pub fn decode_slot(bytes: &[u8]) -> Option<Change>
    requires { length bytes.now ≡ slot_body_bytes }
    ensures { result ≡ change_of bytes.now }
{
    if !ends_in_zeros(bytes) {
        return None;
    }
    let number = u16::from_be_bytes([bytes[1], bytes[2]]);
    change_by(bytes[0], number, bytes[3])
}

/// Changes a row as the slot with this number says. Where it spells no change, or one that isn't allowed, the slot is at
/// fault, and the row stays. It takes no memory.
pub fn apply_slot(row: &mut VolumeRow, number: u16, bytes: &[u8]) -> Result<(), RowFault>
    requires { length bytes.now ≡ slot_body_bytes }
    ensures ok { OnOk result (after_slot bytes.now row.old ≡ Some row.new) }
    ensures err { OnErr result (after_slot bytes.now row.old ≡ None) }
    ensures fault { IfErr result (λ f. f ≡ slot_fault number bytes.now) }
    ensures stays { OnErr result (row.new ≡ row.old) }
{
    let fault = RowFault {
        field: RowField::Slot(number),
        value: bytes[0] as u16,
    };
    let Some(change) = decode_slot(bytes) else {
        return Err(fault);
    };
    if !is_allowed(row, &change) {
        return Err(fault);
    }
    apply(row, &change);
    Ok(())
}

/// Changes a row as so many slots say, one after another, up to the first that is at fault. It takes no memory.
///
/// The slots stand in the bytes one behind another. Their gates aren't looked at.
fn apply_slots(row: &mut VolumeRow, count: u16, bytes: &[u8]) -> Result<(), RowFault>
    requires { slot_bytes * count ≤ length bytes.now }
    ensures ok { OnOk result (changed_by 0 row.old (slots_from count 0 bytes.now) ≡ Ok row.new) }
    ensures err { IfErr result (λ f. changed_by 0 row.old (slots_from count 0 bytes.now) ≡ Err f) }
{
    for number in 0..count {
        let at = SLOT_BYTES * number as usize;
        apply_slot(row, number, &bytes[at + 1..at + SLOT_BYTES])?;
    }
    Ok(())
}

/// The row that 512 bytes spell, after the changes of so many slots; or the first field that no row has so, or else the
/// first slot that isn't of the grammar or isn't allowed after those before it.
///
/// The bytes 0 and 511 aren't looked at, nor are the gates of the slots, which stand in `slots` one behind another.
pub fn decode_told(
    alloc: Global,
    bytes: &[u8],
    count: u16,
    slots: &[u8],
) -> Result<VolumeRow, DecodeFault>
    requires long { length bytes.now ≡ ROW_BYTES }
    requires inside { slot_bytes * count ≤ length slots.now }
    ensures { Gives result (told_by (body bytes.now) (slots_from count 0 slots.now)) }
{
    let mut row = decode_row(alloc, bytes)?;
    match apply_slots(&mut row, count, slots) {
        Ok(()) => Ok(row),
        Err(fault) => Err(DecodeFault::Bad(fault)),
    }
}
