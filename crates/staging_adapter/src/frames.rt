// Which page has each frame, and which frames are moving.
ghost use Rattle.std.specs.Prelude.{◌≡◌, IfOk};
ghost use Rattle.staging_adapter.specs.Frames.{IsFrame, free_frames, moves_at, owner_at, with_moving, with_owner};

use mss_base::{FrameNo, Listed, NoMemory, Page, VolumeNo};
use std::alloc::Global;
use std::marker::Model;

/// The frames of the staging disks, by number: which page has each, and whether a recorder's task is moving tracks in it.
#[derive(Drop)]
pub struct Frames {
    owners: Listed<Option<(VolumeNo, Page)>>,
    moving: Listed<bool>,
}

impl Model for Frames {
    ghost use Rattle.staging_adapter.specs.Frames.{FramesData, AreFrames};

    ghost Value = { FramesData };

    ghost view = { λ f. record { owners = f.owners.items; moving = f.moving.items } };

    ghost invariant = { λ f. AreFrames
        (record { owners = f.owners.items; moving = f.moving.items }) };
}

impl Frames {
    /// So many frames, 1 to 200 in a session, which no page has and no task uses. It takes all the memory that they need.
    pub fn new(alloc: Global, count: u16) -> Result<Frames, NoMemory>
        ensures { IfOk result (λ frames. frames ≡ free_frames count) }
    {
        let mut owners = Listed::new(alloc);
        let mut moving = Listed::new(alloc);
        owners.reserve(count as usize)?;
        moving.reserve(count as usize)?;
        for _ in 0..count {
            owners.push(None);
            moving.push(false);
        }
        Ok(Frames { owners, moving })
    }

    /// The page that has a frame, with its volume.
    pub fn owner(&self, frame: FrameNo) -> Option<(VolumeNo, Page)>
        requires { IsFrame self.now frame }
        ensures { result ≡ owner_at self.now frame }
    {
        self.owners.as_slice()[frame.get() as usize]
    }

    /// Gives a frame to a page, or to none. The other frames stay as they are.
    pub fn set_owner(&mut self, frame: FrameNo, owner: Option<(VolumeNo, Page)>)
        requires { IsFrame self.old frame }
        ensures { self.new ≡ with_owner frame owner self.old }
    {
        self.owners.set(frame.get() as usize, owner);
    }

    /// Whether a task is moving tracks in a frame.
    pub fn is_moving(&self, frame: FrameNo) -> bool
        requires { IsFrame self.now frame }
        ensures { result ≡ moves_at self.now frame }
    {
        self.moving.as_slice()[frame.get() as usize]
    }

    /// Notes whether a task is moving tracks in a frame. The other frames stay as they are.
    pub fn set_moving(&mut self, frame: FrameNo, moving: bool)
        requires { IsFrame self.old frame }
        ensures { self.new ≡ with_moving frame moving self.old }
    {
        self.moving.set(frame.get() as usize, moving);
    }
}
