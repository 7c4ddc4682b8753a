// What a session is made of.
use crate::{Listed, Serial, VolumeNo};
use std::marker::Model;

/// Volumes, each with its serial, and whether it is read-only.
pub type VolumeList = Listed<(VolumeNo, Serial, bool)>;

/// What a session is made of.
#[derive(Drop)]
pub struct Config {
    /// How many frames the staging disks have, 1 to 200.
    pub frames: u16,
    /// How many recorders there are, 1 to 8.
    pub recorders: u8,
    /// The volumes, in rising order of number; their serials differ.
    pub volumes: VolumeList,
}

impl Model for Config {
    ghost use Rattle.mss_base.specs.Configs.{ConfigData, IsConfig};

    ghost Value = { ConfigData };

    ghost view = { λ c. record { frames = c.frames; recorders = c.recorders; volumes = c.volumes.items } };

    ghost invariant = { λ c. IsConfig
        (record { frames = c.frames; recorders = c.recorders; volumes = c.volumes.items }) };
}

impl Config {
    ghost use Rattle.std.specs.Prelude.{◌≡◌, ◌≤◌};

    /// How many frames the staging disks have, 1 to 200.
    pub fn frame_count(&self) -> u16
        ensures value { result ≡ self.now.frames }
        ensures some { 1 ≤ result }
        ensures few { result ≤ 200 }
    {
        self.frames
    }

    /// How many recorders there are, 1 to 8.
    pub fn recorder_count(&self) -> u8
        ensures value { result ≡ self.now.recorders }
        ensures some { 1 ≤ result }
        ensures few { result ≤ 8 }
    {
        self.recorders
    }
}
