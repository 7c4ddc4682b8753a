// The two copies of a row, and what reading or repairing them answers.
ghost use Rattle.std.specs.Prelude.{◌≡◌};
ghost use Rattle.table_pair.specs.Places.{place_of};

use mss_base::{BlockPlace, Listed, NoMemory, UnitNo, VolumeNo};
use volume_table::{RowFault, VolumeRow};

/// A copy of the table.
#[derive(Clone, Copy)]
pub enum TableCopy {
    A,
    B,
}

/// The block of a volume's row in a copy.
pub fn place_of(copy: TableCopy, volume: VolumeNo) -> BlockPlace
    ensures { result ≡ place_of copy volume }
{
    let unit = match copy {
        TableCopy::A => UnitNo::TableA,
        TableCopy::B => UnitNo::TableB,
    };
    BlockPlace {
        unit,
        block: volume.get() as u32,
    }
}

/// How many slots of each copy of a row are in use, 0 to 1,984.
#[derive(Clone, Copy)]
pub struct SlotsUsed {
    pub a: u16,
    pub b: u16,
}

impl SlotsUsed {
    ghost use Rattle.table_pair.specs.Slots.{no_slots, without_slots};

    /// None of either copy.
    pub fn none() -> Self
        ensures { result ≡ no_slots }
    {
        SlotsUsed { a: 0, b: 0 }
    }

    /// After a copy was rewritten, which leaves it without slots.
    pub fn without(self, copy: TableCopy) -> Self
        ensures { result ≡ without_slots copy self }
    {
        match copy {
            TableCopy::A => SlotsUsed { a: 0, ..self },
            TableCopy::B => SlotsUsed { b: 0, ..self },
        }
    }
}

/// How many slots of the copies of each of the 32 volumes are in use, by number.
pub type SlotsUsedList = Listed<SlotsUsed>;

/// What a repair left of the two copies of a row.
#[derive(Clone, Copy)]
pub struct Repaired {
    /// How many of their slots are in use.
    pub used: SlotsUsed,
    /// Whether the body of a copy may be of version 1.
    pub is_old: bool,
}

/// A row, or none. Where one copy couldn't be read and the row is known all the same, `unread` is the site's count of
/// faults after that read.
#[derive(Drop)]
pub struct RowRead {
    pub row: Option<VolumeRow>,
    pub unread: Option<u64>,
}

/// Why it isn't known whether there is a row.
#[derive(Clone, Copy)]
pub enum RowTrouble {
    /// The copy that counts spells no row.
    Damaged { copy: TableCopy, fault: RowFault },
    /// What could be read doesn't tell. `fault` is the site's count of faults after the last failed read.
    Unread { fault: u64 },
    Memory,
}

impl From<NoMemory> for RowTrouble {
    ghost use Rattle.table_pair.specs.declared.copy.RowTrouble.TheVariants.{Memory};

    ghost from_gives = { λ _ e. e ≡ Memory };

    fn from(_: NoMemory) -> Self {
        RowTrouble::Memory
    }
}

/// Why two copies weren't made equal.
#[derive(Clone, Copy)]
pub enum RepairFault {
    /// A read or a write failed. `fault` is the site's count of faults after it.
    Failed { fault: u64 },
    /// Memory ran out before the first write.
    Memory,
}

impl From<NoMemory> for RepairFault {
    ghost use Rattle.table_pair.specs.declared.copy.RepairFault.TheVariants.{Memory};

    ghost from_gives = { λ _ e. e ≡ Memory };

    fn from(_: NoMemory) -> Self {
        RepairFault::Memory
    }
}

/// What a read of a copy told.
#[derive(Drop)]
pub enum CopyState {
    Unread { fault: u64 },
    Closed { made: bool },
    Open(Result<VolumeRow, RowFault>),
}
