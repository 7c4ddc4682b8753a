// Where the slots of a block stand.
ghost use Rattle.std.specs.Prelude.{◌≡◌, ◌<◌};
ghost use Rattle.mss_base.specs.Geometry.{slot_count};
ghost use Rattle.table_journal.specs.Slots.{slot_place};

/// How many slots a block has.
pub const SLOTS: u16 = 1_984;

/// The place of the first slot. The bytes before it belong to no slot.
pub const SLOTS_AT: usize = 512;

/// How many bytes a slot has: its gate, and its body.
pub const SLOT_BYTES: usize = 8;

/// How many bytes a slot's body has.
pub const SLOT_BODY_BYTES: usize = 7;

/// The place of a slot's gate.
pub fn slot_place(number: u16) -> usize
    requires { number < slot_count }
    ensures { result ≡ slot_place number }
{
    SLOTS_AT + SLOT_BYTES * number as usize
}
