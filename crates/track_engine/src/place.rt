// The blocks of a cylinder, and why a command on them isn't done.
ghost use Rattle.std.specs.Prelude.{◌≡◌, ◌≤◌, ◌<◌, ◌+◌, ◌^◌};
ghost use Rattle.track_engine.specs.declared.place.NotDone.TheVariants.{Refused, Fault};
ghost use Rattle.track_engine.specs.declared.place.EngineFault.TheVariants.{Memory};
ghost use Rattle.mss_base.specs.Geometry.{cylinder_heads};

use ckd_plain::Refusal;
use mss_base::{BlockPlace, Head, NoMemory, UnitNo};

/// The blocks of a cylinder: that of head 0, and those of the other heads behind it, which all have numbers.
#[derive(Clone, Copy)]
pub struct CylinderPlace {
    pub unit: UnitNo,
    pub first_block: u32,
    pub ghost numbered: { first_block + cylinder_heads ≤ 2 ^ 32 },
}

/// Why a command gave no reply: a device failed, and how many faults there were then, or memory was refused.
#[derive(Clone, Copy, PartialEq, Eq)]
pub enum EngineFault {
    ReadFailed { fault: u64 },
    WriteFailed { fault: u64 },
    Memory,
}

/// Why a command isn't done: it ended with unit check, or it gives no reply.
#[derive(Clone, Copy)]
pub enum NotDone {
    Refused(Refusal),
    Fault(EngineFault),
}

impl From<Refusal> for NotDone {
    ghost from_gives = { λ refusal not_done. not_done ≡ Refused refusal };

    fn from(refusal: Refusal) -> NotDone {
        NotDone::Refused(refusal)
    }
}

impl From<EngineFault> for NotDone {
    ghost from_gives = { λ fault not_done. not_done ≡ Fault fault };

    fn from(fault: EngineFault) -> NotDone {
        NotDone::Fault(fault)
    }
}

impl From<NoMemory> for NotDone {
    ghost from_gives = { λ _ not_done. not_done ≡ Fault Memory };

    fn from(_refused: NoMemory) -> NotDone {
        NotDone::Fault(EngineFault::Memory)
    }
}

impl CylinderPlace {
    /// The block of a head.
    pub fn block_of(&self, head: Head) -> BlockPlace
        ensures value { result ≡ record {
          unit = self.now.unit;
          block = self.now.first_block +
              head;
        } }
        ensures in_range { head < cylinder_heads }
    {
        BlockPlace {
            unit: self.unit,
            block: self.first_block + u32::from(head.get()),
        }
    }
}
