// Where the parts of a row stand.
use mss_base::CYLINDERS;

/// How many bytes of a block hold the gate, the row and the made mark.
pub const ROW_BYTES: usize = 512;

/// The place in the block of the body, which stands behind the gate.
pub const BODY: usize = 1;

/// The place in the block behind the body, which is the made mark's.
pub const BODY_END: usize = 511;

/// How many bytes a body has.
pub const BODY_BYTES: usize = 510;

/// The place in the body of its version, as all places from here on.
pub const VERSION_AT: usize = 0;

/// The place of the serial, which has six bytes.
pub const SERIAL_AT: usize = 1;

/// The place of the first cartridge's number, two bytes.
pub const FIRST_AT: usize = 7;

/// The place of the second cartridge's number, two bytes.
pub const SECOND_AT: usize = 9;

/// The place of the frames, one byte for each page.
pub const PAGES_AT: usize = 11;

/// The place of the mark behind the frames. Version 1 has a spare byte there.
pub const MARK_AT: usize = 62;

/// The place of the states, one byte for each cylinder.
pub const STATES_AT: usize = 63;

/// The place of the spare bytes at the end.
pub const SPARES_AT: usize = 467;

/// The version of this layout, which is written.
pub const VERSION: u8 = 2;

/// The version before it, which is read as well. It has no mark.
pub const OLD_VERSION: u8 = 1;

/// How many pages a volume has.
pub const PAGES: usize = 51;

/// How many spare bytes stand at the end of a body.
pub const SPARES: usize = 43;

/// How many cylinders a volume has.
pub const STATES: usize = CYLINDERS as usize;

/// How many bytes a slot has: its gate, and the seven that spell a change.
pub const SLOT_BYTES: usize = 8;

/// How many bytes of a slot spell its change.
pub const CHANGE_BYTES: usize = 7;
