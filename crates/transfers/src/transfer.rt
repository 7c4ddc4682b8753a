// Which cylinder is copied, from where and to where.
ghost use Rattle.std.specs.Prelude.{◌≡◌};
ghost use Rattle.transfers.specs.Copies.{in_frame, in_cartridge, source_place, target, target_unit};

use mss_base::{
    BlockPlace, CartridgeNo, Cylinder, FrameNo, Head, UnitNo, VolumeNo, cartridge_block,
    frame_block, head_at,
};

/// What is copied, and where to.
#[derive(Clone, Copy, Debug, PartialEq, Eq)]
pub enum TransferKind {
    /// Blank tracks into the frame.
    StageBlank,
    /// The cartridge's tracks into the frame.
    StageCartridge,
    /// The frame's tracks onto the cartridge.
    Destage,
}

/// The copy of one cylinder of a volume, track by track.
#[derive(Clone, Copy, Debug, PartialEq, Eq)]
pub struct Transfer {
    pub kind: TransferKind,
    pub volume: VolumeNo,
    pub cylinder: Cylinder,
    /// The frame of the cylinder's page.
    pub frame: FrameNo,
    /// The cartridge that has the cylinder.
    pub cartridge: CartridgeNo,
    /// The head of the track that is copied next. Once all 19 tracks are copied it is 19.
    pub next: u8,
}

impl Transfer {
    /// Where the track of a head lies in the frame.
    fn in_frame(&self, head: Head) -> BlockPlace
        ensures { result ≡ in_frame self.now head }
    {
        frame_block(self.frame, self.cylinder, head)
    }

    /// Where it lies on the cartridge.
    fn in_cartridge(&self, head: Head) -> BlockPlace
        ensures { result ≡ in_cartridge self.now head }
    {
        BlockPlace {
            unit: UnitNo::Cartridge(self.cartridge),
            block: cartridge_block(self.cylinder, head),
        }
    }

    /// Where it is copied to.
    pub(crate) fn target(&self, head: Head) -> BlockPlace
        ensures { result ≡ target self.now head }
    {
        match self.kind {
            TransferKind::StageBlank | TransferKind::StageCartridge => self.in_frame(head),
            TransferKind::Destage => self.in_cartridge(head),
        }
    }

    /// The unit that all tracks are copied to.
    pub fn unit(&self) -> UnitNo
        ensures { result ≡ target_unit self.now }
    {
        self.target(head_at(0)).unit
    }

    /// Where it is copied from, if it isn't blank.
    pub(crate) fn source(&self, head: Head) -> Option<BlockPlace>
        ensures { result ≡ source_place self.now head }
    {
        match self.kind {
            TransferKind::StageBlank => None,
            TransferKind::StageCartridge => Some(self.in_cartridge(head)),
            TransferKind::Destage => Some(self.in_frame(head)),
        }
    }
}
