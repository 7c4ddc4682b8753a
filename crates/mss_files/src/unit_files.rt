// The files that hold the units.
ghost use Rattle.std.specs.Prelude.{◌≡◌, ◌≤◌, Bool, true, length, take, IsOk, IfOk, OnOk};
ghost use Rattle.mss_base.specs.declared.place.UnitNo.{UnitNo};
ghost use Rattle.mss_files.specs.Files.{FileBytes, bytes_at, ChangesOnly, EndsAt};

use mss_base::UnitNo;
use std::io;

/// One file for each unit, read and written at any place. A file that was never written is empty.
///
/// Each call may move less than it was asked to, and be interrupted.
pub trait UnitFiles {
    /// Whether clauses may speak of what the files hold.
    ghost tells: { Type 0 };

    /// The byte at each place of each unit's file, 0 behind its end.
    ghost byte: { Self → FileBytes };

    /// Whether all that was written to a unit outlasts a stop of the machine.
    ghost lasts: { Self → UnitNo → Bool };

    /// That from here on no call fails or is interrupted. Files that can't know it have no such
    /// value.
    ghost never_fails: { Self → Type 0 } = { λ _. ⊥ };

    /// Reads once, from a place on. 0, for a buffer that isn't empty, means that the file ends
    /// there.
    fn read_some(&mut self, unit: &UnitNo, at: u64, into: &mut [u8]) -> io::Result<usize>
        ensures within { IfOk result (λ n. n ≤ length into.old) }
        ensures bytes { tells → IfOk result
            (λ n. take n into.new ≡ bytes_at (byte self.old unit.now) at n) }
        ensures end { tells → IfOk result
            (λ n. n ≡ 0 → 1 ≤ length into.old → EndsAt at (byte self.old unit.now)) }
        ensures kept { tells → byte self.new ≡ byte self.old }
        ensures works { never_fails self.old → IsOk result }
        ensures sound { never_fails self.old → never_fails self.new };

    /// Writes once, from a place on: a front of the bytes. After a failure their range may hold
    /// anything. 0, for bytes that aren't none, is a failure too.
    fn write_some(&mut self, unit: &UnitNo, at: u64, bytes: &[u8]) -> io::Result<usize>
        ensures within { IfOk result (λ n. n ≤ length bytes.now) }
        ensures bytes { tells → IfOk result
            (λ n. bytes_at (byte self.new unit.now) at n ≡ take n bytes.now) }
        ensures only { tells
            → ChangesOnly unit.now at (length bytes.now) (byte self.old) (byte self.new) }
        ensures works { never_fails self.old → IsOk result }
        ensures moves { never_fails self.old → IfOk result
            (λ n. 1 ≤ length bytes.now → 1 ≤ n) }
        ensures sound { never_fails self.old → never_fails self.new };

    /// Makes all that was written to a unit last.
    fn sync(&mut self, unit: &UnitNo) -> io::Result<()>
        ensures kept { tells → byte self.new ≡ byte self.old }
        ensures lasts { tells → OnOk result (lasts self.new unit.now ≡ true) }
        ensures works { never_fails self.old → IsOk result }
        ensures sound { never_fails self.old → never_fails self.new };

    /// Makes all that was written to any unit last.
    fn sync_all(&mut self) -> io::Result<()>
        ensures kept { tells → byte self.new ≡ byte self.old }
        ensures lasts { tells → OnOk result ((unit : UnitNo) → lasts self.new unit ≡ true) }
        ensures works { never_fails self.old → IsOk result }
        ensures sound { never_fails self.old → never_fails self.new };
}
