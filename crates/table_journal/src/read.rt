// Reading the slots of a block.
ghost use Rattle.std.specs.Prelude.{◌≡◌, ◌≤◌, ◌<◌, Some, length, slice_get};
ghost use Rattle.mss_base.specs.Geometry.{slot_count};
ghost use Rattle.table_journal.specs.Slots.{is_slot_open, slots};

use crate::layout::{SLOT_BODY_BYTES, SLOTS, slot_place};
use mss_base::{BLOCK_BYTES, OPEN};

fn is_slot_open(block: &[u8], number: u16) -> bool
    requires whole { length block.now ≡ BLOCK_BYTES }
    requires there { number < slot_count }
    ensures { result ≡ is_slot_open number block.now }
{
    block[slot_place(number)] == OPEN
}

/// How many slots of a block are in use, 0 to 1,984: those before the first whose gate is closed.
pub fn read_slots(block: &[u8]) -> u16
    requires { length block.now ≡ BLOCK_BYTES }
    ensures count { result ≡ length (slots block.now) }
    ensures few { result ≤ slot_count }
{
    for number in 0..SLOTS {
        if !is_slot_open(block, number) {
            return number;
        }
    }
    SLOTS
}

/// The seven bytes of a slot in use.
pub fn slot(block: &[u8], index: u16) -> &[u8]
    requires whole { length block.now ≡ BLOCK_BYTES }
    requires used { index < length (slots block.now) }
    ensures { slice_get (slots block.now) index ≡ Some result.now }
{
    let place = slot_place(index) + 1;
    &block[place..place + SLOT_BODY_BYTES]
}
