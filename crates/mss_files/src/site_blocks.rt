// The blocks that a site in files keeps: whole, or the fronts of short ones.
ghost use Rattle.std.specs.Prelude.{◌≡◌, ◌≢◌, ℕ, ◌+◌, ◌≤◌, ◌++◌, length, take};
ghost use Rattle.std.specs.Prelude.{None, Some, true, false};
ghost use Rattle.std.specs.Prelude.{IsOk, IfOk, OnOk, OnErr};
ghost use Rattle.mss_files.specs.Files.{file_place, bytes_at, FileBytes, ChangesOnly, GotBytes};
ghost use Rattle.mss_files.specs.Noted.{slot_of};
ghost use Rattle.mss_files.specs.ShortBlocks.{AreShort, is_staging, zeros_behind};
ghost use Rattle.mss_files.specs.KeptBlocks.{Keeps};
ghost use Rattle.mss_base.specs.declared.place.BlockPlace.{BlockPlace};

use crate::UnitFiles;
use crate::kept_blocks::{KeptBlocks, file_place};
use crate::noted_places::NotedPlaces;
use crate::short_blocks::{FRONT_BYTES, ShownBlock, is_short};
use crate::transfer::{blank, write_all};
use mss_base::{BLOCK_BYTES, BlockPlace, NoMemory, UnitNo};
use std::alloc::Global;
use std::io;

/// The blocks that are kept whole, and those of which the front is kept, since they are known to be
/// zeros behind it.
///
/// A block is known to be short once it was written as a whole, as one is that is staged. Its front
/// has a sixteenth of the bytes, so four of them are brought in a page.
#[derive(Drop)]
pub struct SiteBlocks {
    whole: KeptBlocks,
    fronts: KeptBlocks,
    short: NotedPlaces,
    shown: ShownBlock,
    lent: Option<BlockPlace>,
    ghost whole_size: { whole.pieces.size ≡ 16384 },
    ghost front_size: { fronts.pieces.size ≡ 1024 },
    ghost stays: { (place : BlockPlace) → lent ≡ Some place → Keeps whole place },
}

/// Whether a unit is a staging disk. Hosts' commands bring blocks of these alone.
fn is_staging(unit: &UnitNo) -> bool
    ensures { result ≡ is_staging unit.now }
{
    matches!(unit, UnitNo::Staging(_))
}

/// Reads the front of a short block, as much as the buffer takes, and the zeros behind it.
fn read_front(front: &[u8], into: &mut [u8])
    requires front { length front.now ≡ 1024 }
    requires into { length into.old ≤ BLOCK_BYTES }
    ensures { into.new ≡ take (length into.old) (front.now ++ zeros_behind) }
{
    let count = into.len().min(FRONT_BYTES);
    let (first, rest) = into.split_at_mut(count);
    first.copy_from_slice(&front[..count]);
    blank(rest);
}

impl SiteBlocks {
    ghost use Rattle.mss_files.specs.SiteBlocks.{KeepsBlock, Shows, IsKnownShort};
    ghost use Rattle.mss_files.specs.SiteBlocks.{AreHeld, SameKept, lent};

    /// Room for both, in which no block is kept.
    pub fn new(alloc: Global) -> Result<Self, NoMemory>
        ensures none { IfOk result (λ kept. (place : BlockPlace) → KeepsBlock kept place → ⊥) }
        ensures held { IfOk result (λ kept. (byte : FileBytes) → AreHeld byte kept) }
    {
        let whole = KeptBlocks::new(alloc, BLOCK_BYTES)?;
        let fronts = KeptBlocks::new(alloc, FRONT_BYTES)?;
        let short = NotedPlaces::new(alloc)?;
        let shown = ShownBlock::new(alloc)?;
        Ok(SiteBlocks {
            whole,
            fronts,
            short,
            shown,
            lent: None,
        })
    }

    /// The block that was brought last.
    pub fn brought(&self) -> &[u8]
        ensures { result.now ≡ lent self.now }
    {
        match self.lent {
            Some(place) => self.whole.block(&place),
            None => self.shown.bytes(),
        }
    }

    /// Whether the front of this block is all that has to be brought: it is known to be short, and
    /// isn't kept whole.
    fn wants_front(&self, place: &BlockPlace) -> bool
        ensures short { result ≡ true → IsKnownShort self.now place.now }
        ensures whole { result ≡ false → IsKnownShort self.now place.now
            → Keeps self.now.whole place.now }
        ensures apart { result ≡ true → Keeps self.now.whole place.now → ⊥ }
    {
        self.short.has(place) && !self.whole.keeps(place)
    }

    /// Brings a block here, of a short one the front. One that is here already isn't read again.
    /// Where a read fails, it isn't here.
    pub fn bring<F: UnitFiles>(&mut self, files: &mut F, place: &BlockPlace) -> io::Result<()>
        requires { F.tells → AreHeld (F.byte files.old) self.old }
        ensures held { F.tells → AreHeld (F.byte files.new) self.new }
        ensures bytes { F.tells → OnOk result (lent self.new
            ≡ bytes_at (F.byte files.old place.now.unit) (file_place place.now.block 0) 16384) }
        ensures at_once { KeepsBlock self.old place.now
            → IsOk result × (files.new ≡ files.old) × SameKept self.old self.new }
        ensures here { OnOk result (KeepsBlock self.new place.now) }
        ensures shown { OnOk result (Shows self.new place.now) }
        ensures lost { OnErr result (KeepsBlock self.new place.now → ⊥) }
        ensures others { (other : BlockPlace) → slot_of other ≢ slot_of place.now
            → KeepsBlock self.old other → KeepsBlock self.new other }
        ensures files { F.tells → F.byte files.new ≡ F.byte files.old }
        ensures works { F.never_fails files.old → IsOk result }
        ensures sound { F.never_fails files.old → F.never_fails files.new }
    {
        if self.wants_front(place) {
            return self.bring_front(files, place);
        }
        self.lent = None;
        match self.whole.bring(files, place) {
            Ok(()) => {
                self.lent = Some(*place);
                Ok(())
            }
            Err(error) => Err(error),
        }
    }

    /// Brings the front of a short block here, and shows the block.
    fn bring_front<F: UnitFiles>(&mut self, files: &mut F, place: &BlockPlace) -> io::Result<()>
        requires short { IsKnownShort self.old place.now }
        requires apart { Keeps self.old.whole place.now → ⊥ }
        requires held { F.tells → AreHeld (F.byte files.old) self.old }
        ensures held { F.tells → AreHeld (F.byte files.new) self.new }
        ensures bytes { F.tells → OnOk result (lent self.new
            ≡ bytes_at (F.byte files.old place.now.unit) (file_place place.now.block 0) 16384) }
        ensures at_once { KeepsBlock self.old place.now
            → IsOk result × (files.new ≡ files.old) × SameKept self.old self.new }
        ensures here { OnOk result (KeepsBlock self.new place.now) }
        ensures shown { OnOk result (Shows self.new place.now) }
        ensures lost { OnErr result (KeepsBlock self.new place.now → ⊥) }
        ensures others { (other : BlockPlace) → slot_of other ≢ slot_of place.now
            → KeepsBlock self.old other → KeepsBlock self.new other }
        ensures files { F.tells → F.byte files.new ≡ F.byte files.old }
        ensures works { F.never_fails files.old → IsOk result }
        ensures sound { F.never_fails files.old → F.never_fails files.new }
    {
        match self.fronts.bring(files, place) {
            Ok(()) => {
                self.show(place);
                Ok(())
            }
            Err(error) => Err(error),
        }
    }

    /// Shows a short block whose front was brought.
    fn show(&mut self, place: &BlockPlace)
        requires short { IsKnownShort self.old place.now }
        requires kept { Keeps self.old.fronts place.now }
        ensures held { (byte : FileBytes) → AreHeld byte self.old → AreHeld byte self.new }
        ensures shown { Shows self.new place.now }
        ensures whole { self.new.whole ≡ self.old.whole }
        ensures fronts { self.new.fronts ≡ self.old.fronts }
        ensures short { self.new.short ≡ self.old.short }
    {
        self.shown.show(place, self.fronts.block(place));
        self.lent = None;
    }

    /// Reads the front of a block, as much as the buffer takes: of the one that is here, or else
    /// from the files.
    pub fn read<F: UnitFiles>(
        &self,
        files: &mut F,
        place: &BlockPlace,
        into: &mut [u8],
    ) -> io::Result<()>
        requires inside { length into.old ≤ BLOCK_BYTES }
        requires held { F.tells → AreHeld (F.byte files.old) self.now }
        ensures bytes { F.tells → OnOk result (into.new
            ≡ bytes_at (F.byte files.old place.now.unit) (file_place place.now.block 0)
            (length into.old)) }
        ensures at_once { KeepsBlock self.now place.now → IsOk result × (files.new ≡ files.old) }
        ensures kept { F.tells → F.byte files.new ≡ F.byte files.old }
        ensures works { F.never_fails files.old → IsOk result }
        ensures sound { F.never_fails files.old → F.never_fails files.new }
    {
        if self.wants_front(place) && self.fronts.keeps(place) {
            read_front(self.fronts.block(place), into);
            return Ok(());
        }
        self.whole.read(files, place, into)
    }

    /// Writes into a block of the files, and into what is here of it. The bytes are firm once their
    /// unit is synced. Where the files fail in that, it isn't here.
    pub fn write<F: UnitFiles>(
        &mut self,
        files: &mut F,
        place: &BlockPlace,
        offset: u16,
        bytes: &[u8],
    ) -> io::Result<()>
        requires inside { offset + length bytes.now ≤ BLOCK_BYTES }
        requires held { F.tells → AreHeld (F.byte files.old) self.old }
        ensures held { F.tells → AreHeld (F.byte files.new) self.new }
        ensures bytes { F.tells → OnOk result (bytes_at (F.byte files.new place.now.unit)
            (file_place place.now.block offset) (length bytes.now) ≡ bytes.now) }
        ensures only { F.tells → ChangesOnly place.now.unit (file_place place.now.block offset)
            (length bytes.now) (F.byte files.old) (F.byte files.new) }
        ensures stays { OnOk result (self.new.whole.places ≡ self.old.whole.places) }
        ensures fronts { OnOk result (offset + length bytes.now ≤ 1024
            → (self.new.fronts.places ≡ self.old.fronts.places)
            × (self.new.short ≡ self.old.short)) }
        ensures learned { OnOk result (is_staging place.now.unit ≡ true
            → AreShort bytes.now → IsKnownShort self.new place.now) }
        ensures others { (other : BlockPlace) → slot_of other ≢ slot_of place.now
            → KeepsBlock self.old other → KeepsBlock self.new other }
        ensures pieces { self.new.whole.pieces ≡ self.old.whole.pieces }
        ensures lent { OnOk result (self.new.lent ≡ self.old.lent) }
        ensures lost { OnErr result (KeepsBlock self.new place.now → ⊥) }
        ensures works { F.never_fails files.old → IsOk result }
        ensures sound { F.never_fails files.old → F.never_fails files.new }
    {
        let at = file_place(place.block, offset);
        match write_all(files, &place.unit, at, bytes) {
            Ok(()) => {
                self.patch(place, offset, bytes);
                Ok(())
            }
            Err(error) => {
                self.forget(place);
                Err(error)
            }
        }
    }

    /// Writes bytes into what is here of a block. A write that ends in the front leaves the block
    /// short if it was. Any other one decides anew whether it is.
    fn patch(&mut self, place: &BlockPlace, offset: u16, bytes: &[u8])
        requires { offset + length bytes.now ≤ BLOCK_BYTES }
        ensures held { (old new : FileBytes) → GotBytes place.now offset bytes.now old new
            → AreHeld old self.old → AreHeld new self.new }
        ensures stays { self.new.whole.places ≡ self.old.whole.places }
        ensures fronts { offset + length bytes.now ≤ 1024
            → (self.new.fronts.places ≡ self.old.fronts.places)
            × (self.new.short ≡ self.old.short) }
        ensures learned { is_staging place.now.unit ≡ true
            → AreShort bytes.now → IsKnownShort self.new place.now }
        ensures others { (other : BlockPlace) → slot_of other ≢ slot_of place.now
            → KeepsBlock self.old other → KeepsBlock self.new other }
        ensures pieces { self.new.whole.pieces ≡ self.old.whole.pieces }
        ensures lent { self.new.lent ≡ self.old.lent }
    {
        self.whole.patch(place, offset, bytes);
        if offset as usize + bytes.len() <= FRONT_BYTES {
            self.fronts.patch(place, offset, bytes);
            self.shown.patch(place, offset, bytes);
            return;
        }
        self.fronts.forget(place);
        self.shown.forget(place);
        self.learn(place, bytes);
    }

    /// Notes whether a block is short that got these bytes, not in its front alone.
    fn learn(&mut self, place: &BlockPlace, bytes: &[u8])
        ensures learned { is_staging place.now.unit ≡ true
            → AreShort bytes.now → IsKnownShort self.new place.now }
        ensures known { IsKnownShort self.new place.now → AreShort bytes.now }
        ensures others { (other : BlockPlace) → IsKnownShort self.new other
            → (place.now ≡ other → ⊥) → IsKnownShort self.old other }
        ensures stays { (other : BlockPlace) → slot_of other ≢ slot_of place.now
            → IsKnownShort self.old other → IsKnownShort self.new other }
        ensures whole { self.new.whole ≡ self.old.whole }
        ensures fronts { self.new.fronts ≡ self.old.fronts }
        ensures shown { self.new.shown ≡ self.old.shown }
        ensures lent { self.new.lent ≡ self.old.lent }
    {
        if is_staging(&place.unit) && is_short(bytes) {
            self.short.note(place);
            return;
        }
        self.short.forget(place);
    }

    /// Keeps nothing of a block any more.
    fn forget(&mut self, place: &BlockPlace)
        ensures held { (old new : FileBytes) (offset count : ℕ) → offset + count ≤ 16384
            → ChangesOnly place.now.unit (file_place place.now.block offset) count old new
            → AreHeld old self.old → AreHeld new self.new }
        ensures here { KeepsBlock self.new place.now → ⊥ }
        ensures others { (other : BlockPlace) → slot_of other ≢ slot_of place.now
            → KeepsBlock self.old other → KeepsBlock self.new other }
        ensures pieces { self.new.whole.pieces ≡ self.old.whole.pieces }
    {
        self.lent = None;
        self.whole.forget(place);
        self.fronts.forget(place);
        self.short.forget(place);
        self.shown.forget(place);
    }
}
