// A site in memory.
ghost use Rattle.std.specs.Prelude.{◌≡◌, ℕ, ◌≤◌, ◌<◌, ◌+◌, ◌++◌, [], ◌∷◌, length, take, option_map, vec_len, IsTrue, OnOk, OnErr, IfOk, IfErr, ◌↔◌};
ghost use Rattle.memory_devices.specs.Memory.{content_in};
ghost use Rattle.memory_devices.specs.Tears.{left_by_stop, tear_in};
ghost use Rattle.mss_base.specs.Zeros.{zeros};
ghost use Rattle.mss_base.specs.Content.{after, content, image};
ghost use Rattle.mss_base.specs.declared.place.UnitNo.{UnitNo};

use crate::memory::{Blocks, block_of, read_front, reserve_blocks, write_block};
use crate::tearing::Tear;
use crate::write_log::{SyncKind, WriteLog};
use indexmap::IndexMap;
use mss_base::{BLOCK_BYTES, Block, BlockPlace, Failed, NoMemory, Site, UnitNo};
use std::alloc::Global;

/// A failure to come.
#[derive(Clone, Copy)]
pub enum SiteFault {
    /// The n-th read, write or sync from now on, counted from 1.
    Call(u64),
    /// Each read of a unit.
    ReadsOf(UnitNo),
}

/// Why there is no image of a stop.
#[derive(Clone, Copy, PartialEq, Eq)]
pub enum ImageFault {
    /// So many writes and syncs were not made.
    NoSuchMoment,
    /// Memory ran out.
    Memory,
}

/// Devices in memory, of which given calls fail.
#[derive(Drop)]
pub struct MemorySite {
    alloc: Global,
    start: Blocks,
    blocks: Blocks,
    room: Vec<Block>,
    log: WriteLog,
    calls: u64,
    faults: u64,
    failing: Vec<SiteFault>,
    // The place of the block that was brought last.
    brought: BlockPlace,
    // Shown where none was written.
    blank: Block,
    ghost whole: { (unit : _) (block : ℕ) → length (content_in start unit block) ≡ 16384 },
    ghost kept: { (unit : _) (block : ℕ)
        → content_in blocks unit block ≡ after (content_in start) log.items unit block },
    ghost zeros_: { blank ≡ zeros },
}

impl SiteFault {
    ghost use Rattle.memory_devices.specs.SiteFaults.{strikes};

    // Whether it strikes this call, which reads a unit, writes or syncs.
    fn strikes(&self, call: u64, read_of: Option<UnitNo>) -> bool
        ensures { result ≡ strikes call read_of self.now }
    {
        match self {
            SiteFault::Call(n) => *n == call,
            SiteFault::ReadsOf(unit) => read_of == Some(*unit),
        }
    }
}

impl MemorySite {
    ghost use Rattle.memory_devices.specs.MemorySite.{told_of, room_of, calls_of, faults_of, failing_of, FailsNext};
    ghost use Rattle.mss_base.specs.Counts.{count_after, next_count};
    ghost use Rattle.mss_base.specs.Zeros.{zeros};

    /// Devices of zeros, of which no call fails. The memory of what is written is taken later, by `reserve`.
    pub fn new(alloc: Global) -> Result<Self, NoMemory>
        ensures log { IfOk result (λ site. (told_of site).log ≡ []) }
        ensures zeros { IfOk result (λ site. (unit : UnitNo) (block : ℕ)
            → content (told_of site) unit block ≡ zeros) }
        ensures faults { IfOk result (λ site. faults_of site ≡ 0) }
        ensures failing { IfOk result (λ site. failing_of site ≡ []) }
    {
        Self::holding(alloc, IndexMap::new(alloc), IndexMap::new(alloc))
    }

    // Devices that hold these blocks, handed in twice, of which no call fails.
    fn holding(alloc: Global, start: Blocks, blocks: Blocks) -> Result<Self, NoMemory>
        requires whole { (unit : UnitNo) (block : ℕ)
            → length (content_in start unit block) ≡ BLOCK_BYTES }
        requires same { content_in blocks ≡ content_in start }
        ensures told { IfOk result (λ site. told_of site
            ≡ record { start = content_in start; log = [] }) }
        ensures faults { IfOk result (λ site. faults_of site ≡ 0) }
        ensures failing { IfOk result (λ site. failing_of site ≡ []) }
    {
        Ok(MemorySite {
            alloc,
            start,
            blocks,
            room: Vec::new(alloc),
            log: WriteLog::new(alloc),
            calls: 0,
            faults: 0,
            failing: Vec::new(alloc),
            brought: BlockPlace {
                unit: UnitNo::TableA,
                block: 0,
            },
            blank: Block::zeros(alloc)?,
        })
    }

    /// From now on these failures are to come, in place of those before. After want of memory nothing has changed.
    pub fn fail(&mut self, list: &[SiteFault]) -> Result<(), NoMemory>
        ensures told { told_of self.new ≡ told_of self.old }
        ensures room { room_of self.new ≡ room_of self.old }
        ensures faults { faults_of self.new ≡ faults_of self.old }
        ensures ok { OnOk result ((failing_of self.new ≡ list.now) × (calls_of self.new ≡ 0)) }
        ensures err { OnErr result ((failing_of self.new ≡ failing_of self.old)
            × (calls_of self.new ≡ calls_of self.old)) }
    {
        self.failing = Vec::from_slice(self.alloc, list)?;
        self.calls = 0;
        Ok(())
    }

    /// What a stop leaves: devices with the writes among the first `moment` items, and the tear at each open place:
    /// in the ranges of loose writes, and in that of the next item, if it is a write. It begins with no writes, and
    /// no call of it fails.
    ///
    /// `NoSuchMoment` exactly where `moment` exceeds the count of the writes and syncs.
    pub fn image(&self, moment: u64, tear: Option<&Tear>) -> Result<MemorySite, ImageFault>
        ensures within { OnOk result (moment ≤ length (told_of self.now).log) }
        ensures err { IfErr result (λ fault. (fault ≡ ImageFault.NoSuchMoment)
            ↔ (length (told_of self.now).log < moment)) }
        ensures content { IfOk result (λ site. content (told_of site)
            ≡ image (told_of self.now) moment
            (tear_in (told_of self.now) moment (option_map (λ t. t.now) tear.entry))) }
        ensures log { IfOk result (λ site. (told_of site).log ≡ []) }
        ensures faults { IfOk result (λ site. faults_of site ≡ 0) }
        ensures failing { IfOk result (λ site. failing_of site ≡ []) }
    {
        if moment > self.log.len() {
            return Err(ImageFault::NoSuchMoment);
        }
        match self.stopped_at(moment as usize, tear) {
            Ok(site) => Ok(site),
            Err(NoMemory) => Err(ImageFault::Memory),
        }
    }

    fn stopped_at(&self, moment: usize, tear: Option<&Tear>) -> Result<MemorySite, NoMemory>
        requires within { moment ≤ length (told_of self.now).log }
        ensures content { IfOk result (λ site. content (told_of site)
            ≡ left_by_stop (told_of self.now) moment (option_map (λ t. t.now) tear.entry)) }
        ensures log { IfOk result (λ site. (told_of site).log ≡ []) }
        ensures faults { IfOk result (λ site. faults_of site ≡ 0) }
        ensures failing { IfOk result (λ site. failing_of site ≡ []) }
    {
        let start = self.blocks_left(moment, tear)?;
        let blocks = start.clone()?;
        Self::holding(self.alloc, start, blocks)
    }

    fn blocks_left(&self, moment: usize, tear: Option<&Tear>) -> Result<Blocks, NoMemory>
        requires within { moment ≤ length (told_of self.now).log }
        ensures { IfOk result (λ blocks. content_in blocks
            ≡ left_by_stop (told_of self.now) moment (option_map (λ t. t.now) tear.entry)) }
    {
        let mut blocks = self.start.clone()?;
        self.log.stop(self.alloc, moment, tear, &mut blocks)?;
        Ok(blocks)
    }

    // Counts a call, and tells whether it fails.
    fn fails(&mut self, read_of: Option<UnitNo>) -> bool
        ensures told { told_of self.new ≡ told_of self.old }
        ensures room { room_of self.new ≡ room_of self.old }
        ensures failing { failing_of self.new ≡ failing_of self.old }
        ensures calls { calls_of self.new ≡ next_count (calls_of self.old) }
        ensures fails { IsTrue result ↔ FailsNext read_of self.old }
        ensures faults { faults_of self.new ≡ count_after result (faults_of self.old) }
        ensures later { faults_of self.old ≤ faults_of self.new }
    {
        self.calls = self.calls.saturating_add(1);
        let call = self.calls;
        let fails = self
            .failing
            .iter()
            .any(|fault| fault.strikes(call, read_of));
        if fails {
            self.faults = self.faults.saturating_add(1);
        }
        fails
    }
}

impl Site for MemorySite {
    ghost use Rattle.memory_devices.specs.MemorySite.{told_of, room_of, calls_of, faults_of, failing_of, FailsNext, FailsOnly};
    ghost use Rattle.memory_devices.specs.MemoryWhole.{length-told, length-brought, brought_of};
    ghost use Rattle.mss_base.specs.Content.{AddsBytes, Got, synced, synced_all, unsynced};
    ghost use Rattle.mss_base.specs.Counts.{HasCause, count_after, next_count};
    ghost use Rattle.std.specs.Prelude.{◌≡◌, is_err, IsErr};
    ghost use Rattle.std.proofs.Common.{refl};

    ghost tells = { Unit {0} };

    ghost told = { told_of };

    ghost spare = { room_of };

    ghost writes = { λ s. length s.log.items };

    ghost faults = { faults_of };

    ghost never_fails_but = { FailsOnly };

    ghost brought = { brought_of };

    ghost whole = { length-told };

    ghost full = { length-brought };

    ghost counted = { λ s _. refl };

    fn reserve(&mut self, count: u32) -> Result<(), NoMemory>
        ensures room { OnOk result (count ≤ room_of self.new) }
        ensures spare { room_of self.old ≤ room_of self.new }
        ensures told { told_of self.new ≡ told_of self.old }
        ensures faults { faults_of self.new ≡ faults_of self.old }

        ensures calls { calls_of self.new ≡ calls_of self.old }
        ensures failing { failing_of self.new ≡ failing_of self.old }
    {
        self.blocks.reserve(count as usize)?;
        self.log.reserve(count)?;
        reserve_blocks(self.alloc, &mut self.room, count as usize)
    }

    /// Fails exactly where a failure strikes it.
    fn read(&mut self, unit: UnitNo, block: u32, into: &mut [u8]) -> Result<(), Failed>
        requires { length into.old ≤ BLOCK_BYTES }
        ensures block { OnOk result
            (into.new ≡ take (length into.old) (content (told_of self.old) unit block)) }
        ensures told { told_of self.new ≡ told_of self.old }
        ensures spare { room_of self.new ≡ room_of self.old }
        ensures cause { HasCause (faults_of self.old) (faults_of self.new) result }

        ensures faults { faults_of self.new ≡ count_after (is_err result) (faults_of self.old) }
        ensures fails { IsErr result ↔ FailsNext (Some unit) self.old }
        ensures calls { calls_of self.new ≡ next_count (calls_of self.old) }
        ensures failing { failing_of self.new ≡ failing_of self.old }
    {
        let place = BlockPlace { unit, block };
        if self.fails(Some(place.unit)) {
            return Err(Failed);
        }
        read_front(block_of(&self.blocks, &place, &self.blank), into);
        Ok(())
    }

    /// Fails exactly where a failure strikes it.
    fn bring(&mut self, unit: UnitNo, block: u32) -> Result<(), Failed>
        ensures block { OnOk result (brought_of self.new ≡ content (told_of self.old) unit block) }
        ensures told { told_of self.new ≡ told_of self.old }
        ensures spare { room_of self.new ≡ room_of self.old }
        ensures cause { HasCause (faults_of self.old) (faults_of self.new) result }

        ensures faults { faults_of self.new ≡ count_after (is_err result) (faults_of self.old) }
        ensures fails { IsErr result ↔ FailsNext (Some unit) self.old }
        ensures calls { calls_of self.new ≡ next_count (calls_of self.old) }
        ensures failing { failing_of self.new ≡ failing_of self.old }
    {
        let place = BlockPlace { unit, block };
        if self.fails(Some(place.unit)) {
            return Err(Failed);
        }
        self.brought = place;
        Ok(())
    }

    fn brought(&self) -> &[u8]
        ensures shown { result.now ≡ brought_of self.now }
        ensures whole { length result.now ≡ BLOCK_BYTES }
    {
        block_of(&self.blocks, &self.brought, &self.blank)
    }

    /// Fails exactly where a failure strikes it, and writes the bytes all the same.
    fn write(&mut self, unit: UnitNo, block: u32, offset: u16, bytes: &[u8]) -> Result<(), Failed>
        requires room { 1 ≤ room_of self.old }
        requires inside { offset + length bytes.now ≤ BLOCK_BYTES }
        ensures adds { AddsBytes unit block offset bytes.now (told_of self.old) (told_of self.new) }
        ensures spare { room_of self.old ≤ room_of self.new + 1 }
        ensures cause { HasCause (faults_of self.old) (faults_of self.new) result }

        ensures faults { faults_of self.new ≡ count_after (is_err result) (faults_of self.old) }
        ensures fails { IsErr result ↔ FailsNext None self.old }
        ensures calls { calls_of self.new ≡ next_count (calls_of self.old) }
        ensures failing { failing_of self.new ≡ failing_of self.old }
    {
        let place = BlockPlace { unit, block };
        write_block(&mut self.blocks, &mut self.room, &place, offset, bytes);
        self.log.push(&place, offset, bytes);
        if self.fails(None) {
            return Err(Failed);
        }
        Ok(())
    }

    /// Fails exactly where a failure strikes it.
    fn sync(&mut self, unit: UnitNo) -> Result<(), Failed>
        requires room { 1 ≤ room_of self.old }
        ensures ok { OnOk result (Got (synced unit ∷ []) (told_of self.old) (told_of self.new)) }
        ensures err { OnErr result (Got (unsynced ∷ []) (told_of self.old) (told_of self.new)) }
        ensures spare { room_of self.old ≤ room_of self.new + 1 }
        ensures cause { HasCause (faults_of self.old) (faults_of self.new) result }

        ensures faults { faults_of self.new ≡ count_after (is_err result) (faults_of self.old) }
        ensures fails { IsErr result ↔ FailsNext None self.old }
        ensures calls { calls_of self.new ≡ next_count (calls_of self.old) }
        ensures failing { failing_of self.new ≡ failing_of self.old }
    {
        let at = BlockPlace { unit, block: 0 };
        if self.fails(None) {
            self.log.push_sync(&at, SyncKind::Failed);
            return Err(Failed);
        }
        self.log.push_sync(&at, SyncKind::OfUnit);
        Ok(())
    }

    /// Fails exactly where a failure strikes it.
    fn sync_all(&mut self) -> Result<(), Failed>
        requires room { 1 ≤ room_of self.old }
        ensures ok { OnOk result (Got (synced_all ∷ []) (told_of self.old) (told_of self.new)) }
        ensures err { OnErr result (Got (unsynced ∷ []) (told_of self.old) (told_of self.new)) }
        ensures spare { room_of self.old ≤ room_of self.new + 1 }
        ensures cause { HasCause (faults_of self.old) (faults_of self.new) result }

        ensures faults { faults_of self.new ≡ count_after (is_err result) (faults_of self.old) }
        ensures fails { IsErr result ↔ FailsNext None self.old }
        ensures calls { calls_of self.new ≡ next_count (calls_of self.old) }
        ensures failing { failing_of self.new ≡ failing_of self.old }
    {
        let anywhere = BlockPlace {
            unit: UnitNo::TableA,
            block: 0,
        };
        if self.fails(None) {
            self.log.push_sync(&anywhere, SyncKind::Failed);
            return Err(Failed);
        }
        self.log.push_sync(&anywhere, SyncKind::OfAll);
        Ok(())
    }

    fn writes(&self) -> u64 {
        self.log.len()
    }

    fn faults(&self) -> u64 {
        self.faults
    }
}
