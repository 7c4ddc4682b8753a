// The calls of a device in memory, some of which fail.
ghost use Rattle.std.specs.Prelude.{◌≡◌, ◌≤◌, ◌↔◌, IsTrue, IfOk};
ghost use Rattle.memory_devices.specs.Calls.{after_call, after_fault, no_calls, FailsNext};

use mss_base::NoMemory;
use std::alloc::Global;
use std::marker::Model;

/// Counts calls and faults, and knows which calls are to fail.
#[derive(Drop)]
pub struct Calls {
    made: u64,
    faults: u64,
    failing: Vec<u64>,
}

impl Model for Calls {
    ghost use Rattle.memory_devices.specs.Calls.{CallsMade};

    ghost Value = { CallsMade };

    ghost view = { λ c. record { made = c.made; faults = c.faults; failing = c.failing.items } };
}

impl Calls {
    /// No calls yet. `failing` are those to fail, counted from 1.
    pub fn new(alloc: Global, failing: &[u64]) -> Result<Self, NoMemory>
        ensures { IfOk result (λ calls. calls ≡ no_calls failing.now) }
    {
        Ok(Calls {
            made: 0,
            faults: 0,
            failing: Vec::from_slice(alloc, failing)?,
        })
    }

    /// Counts a call and tells whether it fails, which counts as a fault.
    pub fn next_fails(&mut self) -> bool
        ensures fails { IsTrue result ↔ FailsNext self.old }
        ensures counted { self.new ≡ after_call result self.old }
        ensures later { self.old.faults ≤ self.new.faults }
    {
        self.made = self.made.saturating_add(1);
        let call = self.made;
        let fails = self.failing.iter().any(|failing| *failing == call);
        if fails {
            self.add_fault();
        }
        fails
    }

    /// Counts a fault of a call that wasn't to fail.
    pub fn add_fault(&mut self)
        ensures counted { self.new ≡ after_fault self.old }
        ensures later { self.old.faults ≤ self.new.faults }
    {
        self.faults = self.faults.saturating_add(1);
    }

    pub fn faults(&self) -> u64
        ensures { result ≡ self.now.faults }
    {
        self.faults
    }
}
