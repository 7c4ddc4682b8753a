//! Devices in memory of which no call fails.
ghost use Rattle.std.specs.Prelude.{◌≡◌, [], length, IfOk};
ghost use Rattle.memory_devices.specs.MemorySite.{failing_of, told_of};
ghost use Rattle.compared_runs.specs.Alone.{AreBlank};

use memory_devices::MemorySite;
use mss_base::{Failed, NoMemory, Site, UnitNo};
use std::alloc::Global;

/// Devices in memory of which no call fails, so that nothing counts a fault.
#[derive(Drop)]
pub struct SoundSite {
    devices: MemorySite,
    ghost sound: { failing_of devices ≡ [] },
}

impl SoundSite {
    /// Devices of zeros.
    pub fn new(alloc: Global) -> Result<SoundSite, NoMemory>
        ensures { IfOk result (λ site. AreBlank (record {
          told = told_of site.devices;
          writes = length (told_of site.devices).log;
          faults = 0;
        })) }
    {
        let devices = MemorySite::new(alloc)?;
        Ok(SoundSite { devices })
    }
}

impl Site for SoundSite {
    ghost use Rattle.std.specs.Prelude.{length};
    ghost use Rattle.std.proofs.Common.{refl};
    ghost use Rattle.memory_devices.specs.MemorySite.{room_of, told_of};
    ghost use Rattle.memory_devices.specs.MemoryWhole.{brought_of, length-brought, length-told};

    ghost tells = { Unit {0} };

    ghost told = { λ s. told_of s.devices };

    ghost spare = { λ s. room_of s.devices };

    ghost writes = { λ s. length (told_of s.devices).log };

    ghost faults = { λ _. 0 };

    ghost never_fails_but = { λ _ _. Unit {0} };

    ghost brought = { λ s. brought_of s.devices };

    ghost whole = { λ s. length-told s.devices };

    ghost full = { λ s. length-brought s.devices };

    ghost counted = { λ _ _. refl };

    fn reserve(&mut self, count: u32) -> Result<(), NoMemory> {
        self.devices.reserve(count)
    }

    fn read(&mut self, unit: UnitNo, block: u32, into: &mut [u8]) -> Result<(), Failed> {
        self.devices.read(unit, block, into)
    }

    fn bring(&mut self, unit: UnitNo, block: u32) -> Result<(), Failed> {
        self.devices.bring(unit, block)
    }

    fn brought(&self) -> &[u8] {
        self.devices.brought()
    }

    fn write(&mut self, unit: UnitNo, block: u32, offset: u16, bytes: &[u8]) -> Result<(), Failed> {
        self.devices.write(unit, block, offset, bytes)
    }

    fn sync(&mut self, unit: UnitNo) -> Result<(), Failed> {
        self.devices.sync(unit)
    }

    fn sync_all(&mut self) -> Result<(), Failed> {
        self.devices.sync_all()
    }

    fn writes(&self) -> u64 {
        self.devices.writes()
    }

    fn faults(&self) -> u64 {
        0
    }
}
