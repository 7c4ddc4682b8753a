// A sink in memory.
ghost use Rattle.std.specs.Prelude.{◌≡◌, [], ◌++◌, is_err, IsErr, IfOk, OnOk, OnErr};
ghost use Rattle.memory_devices.specs.Calls.{FailsNext, after_call, no_calls};
ghost use Rattle.mss_base.specs.Counts.{HasCause};

use crate::calls::Calls;
use mss_base::{Failed, NoMemory, Sink};
use std::alloc::Global;
use std::marker::Model;

/// A sink that keeps what was put, and of whose calls some fail.
#[derive(Drop)]
pub struct MemorySink {
    bytes: Vec<u8>,
    calls: Calls,
}

impl Model for MemorySink {
    ghost use Rattle.memory_devices.specs.Streams.{SinkState};

    ghost Value = { SinkState };

    ghost view = { λ s. record { told = s.bytes.items; calls = s.calls } };
}

impl MemorySink {
    /// An empty sink. `failing` are the calls that will fail, counted from 1.
    pub fn new(alloc: Global, failing: &[u64]) -> Result<Self, NoMemory>
        ensures told { IfOk result (λ sink. sink.told ≡ []) }
        ensures calls { IfOk result (λ sink. sink.calls ≡ no_calls failing.now) }
    {
        Ok(MemorySink {
            bytes: Vec::new(alloc),
            calls: Calls::new(alloc, failing)?,
        })
    }

    /// The bytes put so far.
    pub fn bytes(&self) -> &[u8]
        ensures { result.now ≡ self.now.told }
    {
        &self.bytes
    }
}

impl Sink for MemorySink {
    ghost tells = { Unit {0} };

    ghost told = { λ s. s.told };

    ghost faults = { λ s. s.calls.faults };

    /// Puts the bytes, or none. A refused growth counts as a fault too.
    fn put(&mut self, bytes: &[u8]) -> Result<(), Failed>
        ensures put { OnOk result (self.new.told ≡ self.old.told ++ bytes.now) }
        ensures kept { OnErr result (self.new.told ≡ self.old.told) }
        ensures fails { FailsNext self.old.calls → IsErr result }
        ensures calls { self.new.calls ≡ after_call (is_err result) self.old.calls }
        ensures cause { HasCause self.old.calls.faults self.new.calls.faults result }
    {
        if self.calls.next_fails() {
            return Err(Failed);
        }
        if self.bytes.extend_from_slice(bytes).is_err() {
            self.calls.add_fault();
            return Err(Failed);
        }
        Ok(())
    }

    fn faults(&self) -> u64 {
        self.calls.faults()
    }
}
