// A source in memory.
ghost use Rattle.std.specs.Prelude.{◌≡◌, ◌≤◌, ◌↔◌, ◌++◌, [], length, take, min, is_err, IsErr, IfOk, OnErr};
ghost use Rattle.memory_devices.specs.Calls.{FailsNext, after_call, no_calls};
ghost use Rattle.mss_base.specs.Counts.{HasCause};

use crate::calls::Calls;
use mss_base::{Failed, NoMemory, Source};
use std::alloc::Global;
use std::marker::Model;

/// A source that gives a list of bytes, and of whose calls some fail.
#[derive(Drop)]
pub struct MemorySource {
    bytes: Vec<u8>,
    taken: usize,
    calls: Calls,
}

impl Model for MemorySource {
    ghost use Rattle.std.specs.Prelude.{◌≤◌, drop, length};
    ghost use Rattle.memory_devices.specs.Streams.{SourceState};

    ghost Value = { SourceState };

    ghost view = { λ s. record { left = drop s.taken s.bytes.items; calls = s.calls } };

    ghost invariant = { λ s. s.taken ≤ length s.bytes.items };
}

impl MemorySource {
    /// A source of these bytes. `failing` are the calls that will fail, counted from 1.
    pub fn of(alloc: Global, bytes: &[u8], failing: &[u64]) -> Result<Self, NoMemory>
        ensures left { IfOk result (λ source. source.left ≡ bytes.now) }
        ensures calls { IfOk result (λ source. source.calls ≡ no_calls failing.now) }
    {
        Ok(MemorySource {
            bytes: Vec::from_slice(alloc, bytes)?,
            taken: 0,
            calls: Calls::new(alloc, failing)?,
        })
    }
}

impl Source for MemorySource {
    ghost tells = { Unit {0} };

    ghost left = { λ s. s.left };

    ghost faults = { λ s. s.calls.faults };

    /// Moves as many bytes as there is room for and are left.
    fn take(&mut self, into: &mut [u8]) -> Result<usize, Failed>
        ensures count { IfOk result (λ n. n ≡ min (length into.old) (length self.old.left)) }
        ensures moved { IfOk result (λ n. self.old.left ≡ take n into.new ++ self.new.left) }
        ensures kept { OnErr result (self.new.left ≡ self.old.left) }
        ensures fails { IsErr result ↔ FailsNext self.old.calls }
        ensures calls { self.new.calls ≡ after_call (is_err result) self.old.calls }
        ensures cause { HasCause self.old.calls.faults self.new.calls.faults result }
    {
        if self.calls.next_fails() {
            return Err(Failed);
        }
        let (_, left) = self.bytes.as_slice().split_at(self.taken);
        let count = copy_front(left, into);
        self.taken += count;
        Ok(count)
    }

    fn faults(&self) -> u64 {
        self.calls.faults()
    }
}

// Copies as many bytes as both have room for, from front to front.
fn copy_front(from: &[u8], into: &mut [u8]) -> usize
    ensures count { result ≡ min (length into.old) (length from.now) }
    ensures copied { take result into.new ≡ take result from.now }
{
    let count = into.len().min(from.len());
    let (front, _) = from.split_at(count);
    into[..count].copy_from_slice(front);
    count
}
