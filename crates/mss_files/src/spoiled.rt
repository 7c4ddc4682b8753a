// Which files can't be known to be synced any more.
ghost use Rattle.std.specs.Prelude.{◌≡◌, ◌≢◌, ◌<◌, ◌↔◌, true, false, IfErr, OnOk};
ghost use Rattle.std.specs.IoError.{error_kind};
ghost use Rattle.mss_files.specs.Slots.{slot_number};

use mss_base::UnitNo;
use std::io;
use std::io::ErrorKind;

/// How many files of units are open at most: the tables, the staging disks, and a cartridge for
/// each remainder of its number by 64.
pub const SLOTS: usize = 70;

/// The one place in the list of open files where a unit's file may stand.
pub fn slot_of(unit: &UnitNo) -> usize
    ensures number { result ≡ slot_number unit.now }
    ensures below { result < 70 }
{
    match unit {
        UnitNo::TableA => 0,
        UnitNo::TableB => 1,
        UnitNo::Staging(number) => 2 + (*number % 4) as usize,
        UnitNo::Cartridge(number) => 6 + (number.get() % 64) as usize,
    }
}

/// The places of which a file couldn't be synced, and whether names couldn't be.
///
/// The system may drop what it couldn't write, and call the next sync a success. So no sync of
/// these is believed any more.
#[derive(Drop)]
pub struct Spoiled {
    slots: [bool; 70],
    names: bool,
}

/// The failure of a sync of what is spoiled.
pub fn spoiled_before() -> io::Error {
    io::Error::from(ErrorKind::Other)
}

/// Whether a sync failed. One that was interrupted didn't: it is made again.
fn is_failed(outcome: &io::Result<()>) -> bool
    ensures failed { result ≡ false → IfErr outcome.now
        (λ error. error_kind error ≡ ErrorKind.Interrupted) }
    ensures worked { OnOk outcome.now (result ≡ false) }
{
    match outcome {
        Ok(()) => false,
        Err(error) => error.kind() != ErrorKind::Interrupted,
    }
}

impl Spoiled {
    ghost use Rattle.mss_files.specs.Slots.{IsSpoiled, AreNamesSpoiled, StaysSpoiled};
    ghost use Rattle.mss_base.specs.declared.place.UnitNo.{UnitNo};

    /// No sync failed yet.
    pub fn none() -> Self
        ensures files { (unit : UnitNo) → IsSpoiled result unit → ⊥ }
        ensures names { AreNamesSpoiled result → ⊥ }
    {
        Spoiled {
            slots: [false; SLOTS],
            names: false,
        }
    }

    /// Whether no sync of this unit can be believed.
    pub fn has(&self, unit: &UnitNo) -> bool
        ensures { result ≡ true ↔ IsSpoiled self.now unit.now }
    {
        self.slots[slot_of(unit)]
    }

    /// Whether no sync of names can be believed.
    pub fn has_names(&self) -> bool
        ensures { result ≡ self.now.names }
    {
        self.names
    }

    /// Whether there is a unit of which no sync can be believed.
    pub fn any(&self) -> bool
        ensures { result ≡ false → (unit : UnitNo) → IsSpoiled self.now unit → ⊥ }
    {
        self.slots.iter().any(|is_spoiled| *is_spoiled)
    }

    fn add(&mut self, unit: &UnitNo)
        ensures here { IsSpoiled self.new unit.now }
        ensures stays { StaysSpoiled self.old self.new }
    {
        self.slots[slot_of(unit)] = true;
    }

    /// Notes what a sync of this unit came to, and hands it on.
    pub fn noted(&mut self, unit: &UnitNo, outcome: io::Result<()>) -> io::Result<()>
        ensures outcome { result ≡ outcome }
        ensures spoils { IfErr outcome (λ error. error_kind error ≢ ErrorKind.Interrupted
            → IsSpoiled self.new unit.now) }
        ensures kept { OnOk outcome (self.new ≡ self.old) }
        ensures stays { StaysSpoiled self.old self.new }
    {
        if is_failed(&outcome) {
            self.add(unit);
        }
        outcome
    }

    /// Notes what a sync of names came to, and hands it on.
    pub fn noted_names(&mut self, outcome: io::Result<()>) -> io::Result<()>
        ensures outcome { result ≡ outcome }
        ensures spoils { IfErr outcome (λ error. error_kind error ≢ ErrorKind.Interrupted
            → AreNamesSpoiled self.new) }
        ensures kept { OnOk outcome (self.new ≡ self.old) }
        ensures stays { StaysSpoiled self.old self.new }
    {
        if is_failed(&outcome) {
            self.names = true;
        }
        outcome
    }
}
