// The devices: blocks of 16,384 bytes.
ghost use Rattle.std.specs.Prelude.{◌≡◌, ℕ, ◌+◌, ◌≤◌, ◌++◌, [], ◌∷◌, List, length, take, Bool, false, IsOk, OnOk, OnErr};
ghost use Rattle.mss_base.specs.Sound.{StaysSound};
ghost use Rattle.mss_base.specs.Geometry.{block_bytes};
ghost use Rattle.mss_base.specs.Content.{SiteLog, content, AddsBytes, Got, synced, synced_all, unsynced};
ghost use Rattle.mss_base.specs.Counts.{HasCause, HasCounted};
ghost use Rattle.mss_base.specs.declared.place.UnitNo.{UnitNo};

use crate::{NoMemory, UnitNo};

/// A call of a device failed, and its count of faults rose.
#[derive(Clone, Copy, Debug, PartialEq, Eq)]
pub struct Failed;

/// The devices that hold the volumes and their table. Each unit is a row of blocks of 16,384 bytes, all zeros at first.
pub trait Site {
    /// Whether clauses may speak of what the devices hold.
    ghost tells: { Type 0 };

    /// What the devices held when the site was made, and the writes and syncs since.
    ghost told: { Self → SiteLog };

    /// How many writes and syncs there is room for.
    ghost spare: { Self → ℕ };

    /// How many writes and syncs were made.
    ghost writes: { Self → ℕ };

    /// How many reads, writes and syncs failed.
    ghost faults: { Self → ℕ };

    /// That from here on no call fails but reads of those units for which a test holds. A site that can't know it has no
    /// such value.
    ghost never_fails_but: { Self → (UnitNo → Bool) → Type 0 } = { λ _ _. ⊥ };

    /// The bytes of the block that was brought last.
    ghost brought: { Self → List ℕ };

    /// Makes room for so many writes and syncs. After want of memory all but the room is as it was.
    fn reserve(&mut self, count: u32) -> Result<(), NoMemory>
        ensures room { OnOk result (count ≤ spare self.new) }
        ensures spare { spare self.old ≤ spare self.new }
        ensures told { tells → told self.new ≡ told self.old }
        ensures writes { writes self.new ≡ writes self.old }
        ensures faults { faults self.new ≡ faults self.old }
        ensures sound { StaysSound never_fails_but self.old self.new };

    /// Reads the front of a block: as many bytes as the buffer has, 16,384 at most. After a failure the buffer may hold
    /// anything.
    fn read(&mut self, unit: UnitNo, block: u32, into: &mut [u8]) -> Result<(), Failed>
        requires { length into.old ≤ block_bytes }
        ensures block { tells → OnOk result
            (into.new ≡ take (length into.old) (content (told self.old) unit block)) }
        ensures told { tells → told self.new ≡ told self.old }
        ensures spare { spare self.new ≡ spare self.old }
        ensures writes { writes self.new ≡ writes self.old }
        ensures cause { HasCause (faults self.old) (faults self.new) result }
        ensures works { (but : UnitNo → Bool)
            → never_fails_but self.old but → but unit ≡ false → IsOk result }
        ensures sound { StaysSound never_fails_but self.old self.new };

    /// Brings a block to where `brought` shows it, without a copy. It counts as a read. After a failure any block may
    /// be there.
    fn bring(&mut self, unit: UnitNo, block: u32) -> Result<(), Failed>
        ensures block { tells
            → OnOk result (brought self.new ≡ content (told self.old) unit block) }
        ensures told { tells → told self.new ≡ told self.old }
        ensures spare { spare self.new ≡ spare self.old }
        ensures writes { writes self.new ≡ writes self.old }
        ensures cause { HasCause (faults self.old) (faults self.new) result }
        ensures works { (but : UnitNo → Bool)
            → never_fails_but self.old but → but unit ≡ false → IsOk result }
        ensures sound { StaysSound never_fails_but self.old self.new };

    /// The block that was brought last. After any other call that may change the site it may be another one.
    fn brought(&self) -> &[u8]
        ensures { result.now ≡ brought self.now };

    /// Writes into a block. A write is firm once its unit, or all, is synced behind it. After a failure the range may
    /// hold anything, and the rest of the block is as it was.
    fn write(&mut self, unit: UnitNo, block: u32, offset: u16, bytes: &[u8]) -> Result<(), Failed>
        requires room { 1 ≤ spare self.old }
        requires some { 1 ≤ length bytes.now }
        requires inside { offset + length bytes.now ≤ block_bytes }
        ensures ok { tells → OnOk result
            (AddsBytes unit block offset bytes.now (told self.old) (told self.new)) }
        // Whatever the outcome, the log got one write: of these bytes, or of others in their range. No sync came of it.
        ensures logged { tells → (left : List ℕ) × (length left ≡ length bytes.now)
            × AddsBytes unit block offset left (told self.old) (told self.new) }
        ensures spare { spare self.old ≤ spare self.new + 1 }
        ensures writes { HasCounted (writes self.old) (writes self.new) }
        ensures cause { HasCause (faults self.old) (faults self.new) result }
        ensures works { (but : UnitNo → Bool) → never_fails_but self.old but → IsOk result }
        ensures sound { StaysSound never_fails_but self.old self.new };

    /// Makes firm all that was written to a unit. After a failure nothing is firm that wasn't.
    fn sync(&mut self, unit: UnitNo) -> Result<(), Failed>
        requires room { 1 ≤ spare self.old }
        ensures ok { tells
            → OnOk result (Got (synced unit ∷ []) (told self.old) (told self.new)) }
        ensures err { tells
            → OnErr result (Got (unsynced ∷ []) (told self.old) (told self.new)) }
        ensures spare { spare self.old ≤ spare self.new + 1 }
        ensures writes { HasCounted (writes self.old) (writes self.new) }
        ensures cause { HasCause (faults self.old) (faults self.new) result }
        ensures works { (but : UnitNo → Bool) → never_fails_but self.old but → IsOk result }
        ensures sound { StaysSound never_fails_but self.old self.new };

    /// Makes firm all that was written. After a failure nothing is firm that wasn't.
    fn sync_all(&mut self) -> Result<(), Failed>
        requires room { 1 ≤ spare self.old }
        ensures ok { tells → OnOk result (Got (synced_all ∷ []) (told self.old) (told self.new)) }
        ensures err { tells
            → OnErr result (Got (unsynced ∷ []) (told self.old) (told self.new)) }
        ensures spare { spare self.old ≤ spare self.new + 1 }
        ensures writes { HasCounted (writes self.old) (writes self.new) }
        ensures cause { HasCause (faults self.old) (faults self.new) result }
        ensures works { (but : UnitNo → Bool) → never_fails_but self.old but → IsOk result }
        ensures sound { StaysSound never_fails_but self.old self.new };

    /// How many writes and syncs were made. The count stands at its last value rather than go back to 0.
    fn writes(&self) -> u64
        ensures { result ≡ writes self.now };

    /// How many reads, writes and syncs failed. The count stands at its last value rather than go back to 0.
    fn faults(&self) -> u64
        ensures { result ≡ faults self.now };

    /// A block has 16,384 bytes.
    ghost whole: { (s : Self) (unit : UnitNo) (block : ℕ)
        → tells → length (content (told s) unit block) ≡ 16384 };

    /// What was brought is a whole block, whatever the site tells.
    ghost full: { (s : Self) → length (brought s) ≡ 16384 };

    /// The count of writes and syncs is the length of the log.
    ghost counted: { (s : Self) → tells → writes s ≡ length (told s).log };
}
