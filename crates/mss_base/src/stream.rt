// Where bytes come from, and where they go.
ghost use Rattle.std.specs.Prelude.{◌≡◌, ℕ, ◌≤◌, ◌++◌, [], List, length, take, IfOk, OnErr};
ghost use Rattle.mss_base.specs.Counts.{HasCause};
ghost use Rattle.mss_base.specs.Puts.{Puts};

use crate::Failed;

/// Bytes to read, one piece after another.
pub trait Source {
    /// Whether clauses may speak of its bytes.
    ghost tells: { Type 0 };

    /// The bytes that are left.
    ghost left: { Self → List ℕ };

    /// How many calls failed.
    ghost faults: { Self → ℕ };

    /// Moves bytes to the front of the buffer and answers how many.
    ///
    /// 0, for a buffer that isn't empty, means the end. A call that failed has moved none, but the buffer may hold anything.
    fn take(&mut self, into: &mut [u8]) -> Result<usize, Failed>
        ensures within { IfOk result (λ n. n ≤ length into.old) }
        ensures moved { tells → IfOk result
            (λ n. left self.old ≡ take n into.new ++ left self.new) }
        ensures end { tells → IfOk result
            (λ n. n ≡ 0 → 1 ≤ length into.old → left self.old ≡ []) }
        ensures kept { tells → OnErr result (left self.new ≡ left self.old) }
        ensures cause { HasCause (faults self.old) (faults self.new) result };

    /// How many calls failed. The count stands at its last value rather than go back to 0.
    fn faults(&self) -> u64
        ensures { result ≡ faults self.now };
}

/// A place to write bytes to, one piece behind another.
pub trait Sink {
    /// Whether clauses may speak of its bytes.
    ghost tells: { Type 0 };

    /// The bytes put so far.
    ghost told: { Self → List ℕ };

    /// How many calls failed.
    ghost faults: { Self → ℕ };

    /// Puts all the bytes. A call that failed has put a front of them.
    fn put(&mut self, bytes: &[u8]) -> Result<(), Failed>
        ensures bytes { tells → Puts result (told self.old) (told self.new) bytes.now }
        ensures cause { HasCause (faults self.old) (faults self.new) result };

    /// How many calls failed. The count stands at its last value rather than go back to 0.
    fn faults(&self) -> u64
        ensures { result ≡ faults self.now };
}
