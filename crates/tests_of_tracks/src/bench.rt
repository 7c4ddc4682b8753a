// Devices in memory that tell clauses nothing, so that no call on them needs a proof of what they hold.
use memory_devices::{ImageFault, MemorySite, SiteFault, Tear};
use mss_base::{Failed, NoMemory, Site, UnitNo};
use std::alloc::Global;

/// A site in memory whose blocks no clause knows.
#[derive(Drop)]
pub struct Bench {
    site: MemorySite,
}

impl Bench {
    pub fn new(alloc: Global) -> Option<Self> {
        let site = MemorySite::new(alloc).ok()?;
        Some(Bench { site })
    }

    /// From now on these failures are to come.
    pub fn fail(&mut self, list: &[SiteFault]) -> Option<()> {
        self.site.fail(list).ok()
    }

    /// What a stop leaves.
    pub fn image(&self, moment: u64, tear: &Option<Tear>) -> Result<Self, ImageFault> {
        let site = self.site.image(moment, tear.as_ref())?;
        Ok(Bench { site })
    }
}

impl Site for Bench {
    ghost use Rattle.std.specs.Prelude.{[], length};
    ghost use Rattle.memory_devices.specs.MemorySite.{room_of, faults_of, told_of};
    ghost use Rattle.memory_devices.specs.MemoryWhole.{brought_of, length-brought};

    ghost tells = { ⊥ };

    ghost told = { λ _. record { start = λ _ _. []; log = [] } };

    ghost spare = { λ s. room_of s.site };

    ghost writes = { λ s. length (told_of s.site).log };

    ghost faults = { λ s. faults_of s.site };

    ghost brought = { λ s. brought_of s.site };

    ghost whole = { λ _ _ _ none. absurd none };

    ghost full = { λ s. length-brought s.site };

    ghost counted = { λ _ none. absurd none };

    fn reserve(&mut self, count: u32) -> Result<(), NoMemory> {
        self.site.reserve(count)
    }

    fn read(&mut self, unit: UnitNo, block: u32, into: &mut [u8]) -> Result<(), Failed> {
        self.site.read(unit, block, into)
    }

    fn bring(&mut self, unit: UnitNo, block: u32) -> Result<(), Failed> {
        self.site.bring(unit, block)
    }

    fn brought(&self) -> &[u8] {
        self.site.brought()
    }

    fn write(&mut self, unit: UnitNo, block: u32, offset: u16, bytes: &[u8]) -> Result<(), Failed> {
        self.site.write(unit, block, offset, bytes)
    }

    fn sync(&mut self, unit: UnitNo) -> Result<(), Failed> {
        self.site.sync(unit)
    }

    fn sync_all(&mut self) -> Result<(), Failed> {
        self.site.sync_all()
    }

    fn writes(&self) -> u64 {
        self.site.writes()
    }

    fn faults(&self) -> u64 {
        self.site.faults()
    }
}
