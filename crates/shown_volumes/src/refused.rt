// Why a site is refused.
ghost use Rattle.std.specs.Prelude.{◌≡◌};

use mss_base::{CartridgeNo, Cylinder, FrameNo, Head, NoMemory, Page, Serial, VolumeNo};
use std::alloc::AllocError;
use table_pair::TableCopy;
use volume_table::RowFault;

/// The half of a volume that lies on its first cartridge, or on its second.
#[derive(Clone, Copy)]
pub struct Half {
    pub volume: VolumeNo,
    pub second: bool,
}

/// Why a site is refused: the first fault of its content, a failed device, or want of memory.
///
/// Contracts see the numbers and the six bytes of a serial, so this enum is among the definitions as it stands.
#[derive(Clone, Copy)]
pub enum Refused {
    /// The copy that counts is open and spells no row.
    RowDamaged {
        volume: VolumeNo,
        copy: TableCopy,
        fault: RowFault,
    },
    /// A read failed, and what could be read doesn't tell the row. `fault` is the site's count of faults after the last
    /// failed read.
    RowUnread {
        volume: VolumeNo,
        fault: u64,
    },
    /// The row of a configured volume has another serial.
    SerialDiffers {
        volume: VolumeNo,
        kept: Serial,
        asked: Serial,
    },
    /// Two halves name one cartridge; `second` is the later one.
    CartridgeTwice {
        cartridge: CartridgeNo,
        first: Half,
        second: Half,
    },
    /// A page has a frame that isn't configured.
    FrameGone {
        frame: FrameNo,
    },
    /// Two pages have one frame; `second` is the later one.
    FrameTwice {
        frame: FrameNo,
        first: (VolumeNo, Page),
        second: (VolumeNo, Page),
    },
    /// The block that is shown is no track.
    TornTrack {
        volume: VolumeNo,
        cylinder: Cylinder,
        head: Head,
    },
    /// The block in the frame is no blank track though the cylinder is blank, or isn't the cartridge's though the
    /// cylinder stands as on its cartridge.
    StagedDiffers {
        volume: VolumeNo,
        cylinder: Cylinder,
        head: Head,
    },
    /// A read or a write failed, otherwise than by `RowUnread`. `fault` is the site's count of faults after it.
    Stopped {
        fault: u64,
    },
    /// Memory ran out.
    Memory,
}

impl From<NoMemory> for Refused {
    ghost use Rattle.shown_volumes.specs.declared.refused.Refused.TheVariants.{Memory};

    ghost from_gives = { λ _ e. e ≡ Memory };

    fn from(_: NoMemory) -> Self {
        Refused::Memory
    }
}

impl From<AllocError> for Refused {
    ghost use Rattle.shown_volumes.specs.declared.refused.Refused.TheVariants.{Memory};

    ghost from_gives = { λ _ e. e ≡ Memory };

    fn from(_: AllocError) -> Self {
        Refused::Memory
    }
}
