// Why bytes are no row.
ghost use Rattle.std.specs.Prelude.{◌≡◌};

use mss_base::NoMemory;

/// A field of a row.
#[derive(Clone, Copy)]
pub enum RowField {
    Version,
    /// A character of the serial, from 0.
    Serial(u8),
    First,
    Second,
    /// The frame of a page.
    Page(u8),
    /// A byte that is to be zero: 0 is the one in front of the states, where version 2 has the mark, 1 to 43 are those
    /// behind them.
    Spare(u8),
    /// Whether the volume is read-only, 0 or 1.
    Mark,
    /// The state of a cylinder.
    State(u16),
    /// A slot, from 0: it spells no change, or one that isn't allowed after the slots before it.
    Slot(u16),
}

/// A field that no row has so, and what it holds: its byte, for a cartridge its two bytes as a number, for a slot the byte
/// of its kind.
#[derive(Clone, Copy)]
pub struct RowFault {
    pub field: RowField,
    pub value: u16,
}

/// Why no row was decoded.
#[derive(Clone, Copy)]
pub enum DecodeFault {
    Bad(RowFault),
    Memory,
}

impl From<NoMemory> for DecodeFault {
    ghost use Rattle.volume_table.specs.declared.fault.DecodeFault.TheVariants.{Memory};

    ghost from_gives = { λ _ e. e ≡ Memory };

    fn from(_: NoMemory) -> Self {
        DecodeFault::Memory
    }
}
