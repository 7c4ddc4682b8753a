// A site that doesn't tell.
ghost use Rattle.std.specs.Prelude.{◌≡◌, ℕ, ◌≤◌, ◌↔◌, length, replicate, is_err, IsErr, IfOk, OnOk};
ghost use Rattle.memory_devices.specs.Calls.{FailsNext, after_call, no_calls};
ghost use Rattle.mss_base.specs.Counts.{HasCause, next_count};

use crate::calls::Calls;
use mss_base::{BLOCK_BYTES, Failed, NoMemory, Site, UnitNo};
use std::alloc::Global;
use std::marker::Model;

/// A site that doesn't tell, and forgets what is written: all that it reads is one byte over and over.
///
/// For tests: what holds over every site holds over this one.
#[derive(Drop)]
pub struct SilentSite {
    filler: u8,
    writes: u64,
    calls: Calls,
    block: Vec<u8>,
}

impl Model for SilentSite {
    ghost use Rattle.std.specs.Prelude.{◌≡◌};
    ghost use Rattle.memory_devices.specs.SilentState.{filled_block};
    ghost use Rattle.memory_devices.specs.SilentState.{SilentState};

    ghost Value = { SilentState };

    ghost view = { λ s. record { filler = s.filler; writes = s.writes; calls = s.calls } };

    ghost invariant = { λ s. s.block.items ≡ filled_block s.filler };
}

impl SilentSite {
    /// A site that reads `filler`. `failing` are the reads, writes and syncs that will fail, counted from 1.
    pub fn of(alloc: Global, filler: u8, failing: &[u64]) -> Result<Self, NoMemory>
        ensures { IfOk result (λ site. site ≡ record {
          filler = filler;
          writes = 0;
          calls = no_calls failing.now;
        }) }
    {
        Ok(SilentSite {
            filler,
            writes: 0,
            calls: Calls::new(alloc, failing)?,
            block: vec![in alloc; filler; BLOCK_BYTES]?,
        })
    }
}

impl Site for SilentSite {
    ghost use Rattle.std.specs.Prelude.{◌≡◌, []};
    ghost use Rattle.memory_devices.specs.SilentState.{filled_block, length-filled_block};

    ghost tells = { ⊥ };

    ghost told = { λ _. record { start = λ _ _. []; log = [] } };

    ghost spare = { λ _. 4294967295 };

    ghost writes = { λ s. s.writes };

    ghost faults = { λ s. s.calls.faults };

    ghost never_fails_but = { λ s _. s.calls.failing ≡ [] };

    ghost brought = { λ s. filled_block s.filler };

    ghost whole = { λ _ _ _ none. absurd none };

    ghost full = { λ s. length-filled_block s.filler };

    ghost counted = { λ _ none. absurd none };

    fn reserve(&mut self, _count: u32) -> Result<(), NoMemory> {
        Ok(())
    }

    fn read(&mut self, _unit: UnitNo, _block: u32, into: &mut [u8]) -> Result<(), Failed>
        ensures filled { OnOk result (into.new ≡ replicate (length into.old) self.old.filler) }
        ensures fails { IsErr result ↔ FailsNext self.old.calls }
        ensures after { self.new
            ≡ record self.old { calls = after_call (is_err result) self.old.calls } }
        ensures cause { HasCause self.old.calls.faults self.new.calls.faults result }
    {
        if self.calls.next_fails() {
            return Err(Failed);
        }
        into.fill(self.filler);
        Ok(())
    }

    fn bring(&mut self, _unit: UnitNo, _block: u32) -> Result<(), Failed>
        ensures fails { IsErr result ↔ FailsNext self.old.calls }
        ensures after { self.new
            ≡ record self.old { calls = after_call (is_err result) self.old.calls } }
        ensures cause { HasCause self.old.calls.faults self.new.calls.faults result }
    {
        if self.calls.next_fails() {
            return Err(Failed);
        }
        Ok(())
    }

    fn brought(&self) -> &[u8]
        ensures shown { result.now ≡ filled_block self.now.filler }
        ensures whole { length result.now ≡ BLOCK_BYTES }
    {
        &self.block
    }

    fn write(
        &mut self,
        _unit: UnitNo,
        _block: u32,
        _offset: u16,
        _bytes: &[u8],
    ) -> Result<(), Failed>
        ensures fails { IsErr result ↔ FailsNext self.old.calls }
        ensures after { self.new ≡ record self.old {
          writes = next_count self.old.writes;
          calls = after_call (is_err result) self.old.calls;
        } }
        ensures kept { self.old.writes ≤ self.new.writes }
        ensures cause { HasCause self.old.calls.faults self.new.calls.faults result }
    {
        self.writes = self.writes.saturating_add(1);
        if self.calls.next_fails() {
            return Err(Failed);
        }
        Ok(())
    }

    fn sync(&mut self, _unit: UnitNo) -> Result<(), Failed>
        ensures fails { IsErr result ↔ FailsNext self.old.calls }
        ensures after { self.new ≡ record self.old {
          writes = next_count self.old.writes;
          calls = after_call (is_err result) self.old.calls;
        } }
        ensures kept { self.old.writes ≤ self.new.writes }
        ensures cause { HasCause self.old.calls.faults self.new.calls.faults result }
    {
        self.writes = self.writes.saturating_add(1);
        if self.calls.next_fails() {
            return Err(Failed);
        }
        Ok(())
    }

    fn sync_all(&mut self) -> Result<(), Failed>
        ensures fails { IsErr result ↔ FailsNext self.old.calls }
        ensures after { self.new ≡ record self.old {
          writes = next_count self.old.writes;
          calls = after_call (is_err result) self.old.calls;
        } }
        ensures kept { self.old.writes ≤ self.new.writes }
        ensures cause { HasCause self.old.calls.faults self.new.calls.faults result }
    {
        self.writes = self.writes.saturating_add(1);
        if self.calls.next_fails() {
            return Err(Failed);
        }
        Ok(())
    }

    fn writes(&self) -> u64 {
        self.writes
    }

    fn faults(&self) -> u64 {
        self.calls.faults()
    }
}
