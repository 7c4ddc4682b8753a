// Blocks, or the fronts of blocks, that a site in files keeps.
ghost use Rattle.std.specs.Prelude.{◌≡◌, ◌≢◌, ℕ, ◌+◌, ◌*◌, ◌≤◌, ◌++◌, None, Some, true, false};
ghost use Rattle.std.specs.Prelude.{length, take, drop, vec_capacity, slice_set};
ghost use Rattle.std.specs.Prelude.{IsOk, IfOk, OnOk, OnErr};
ghost use Rattle.mss_files.specs.Blocks.{block_from, ChangesBlock};
ghost use Rattle.mss_files.specs.Files.{file_place, bytes_at};

use crate::UnitFiles;
use crate::noted_places::{NotedPlaces, slot_of};
use crate::pieces::{Pieces, SLOTS};
use crate::transfer::read_all;
use mss_base::{BLOCK_BYTES, BlockPlace, NoMemory};
use std::alloc::Global;
use std::io;

/// Room for as many blocks as 17 cylinders have, or for their fronts, and the places whose blocks
/// stand there.
///
/// The room is taken at once. A slot is given the next piece of it when it is first used, so no
/// more of it is touched than blocks come.
#[derive(Drop)]
pub struct KeptBlocks {
    places: NotedPlaces,
    pieces: Pieces,
    bytes: Vec<u8>,
    ghost room: { 323 * pieces.size ≤ vec_capacity bytes },
}

/// Where a byte of a block stands in its unit's file.
pub fn file_place(block: u32, offset: u16) -> u64
    ensures { result ≡ file_place block offset }
{
    block as u64 * 16_384 + offset as u64
}

/// The block of so many bytes that begins here.
fn block_from(bytes: &[u8], from: usize, size: usize) -> &[u8]
    requires { from + size ≤ length bytes.now }
    ensures bytes { result.now ≡ block_from size from bytes.now }
    ensures whole { length result.now ≡ size }
{
    &bytes[from..from + size]
}

/// Reads so many bytes of a block of the files to the place that begins here.
fn read_to<F: UnitFiles>(
    bytes: &mut [u8],
    from: usize,
    size: usize,
    files: &mut F,
    place: &BlockPlace,
) -> io::Result<()>
    requires inside { from + size ≤ length bytes.old }
    requires few { size ≤ BLOCK_BYTES }
    ensures block { F.tells → OnOk result (block_from size from bytes.new
        ≡ bytes_at (F.byte files.old place.now.unit) (file_place place.now.block 0) size) }
    ensures others { ChangesBlock size from bytes.old bytes.new }
    ensures files { F.tells → F.byte files.new ≡ F.byte files.old }
    ensures works { F.never_fails files.old → IsOk result }
    ensures sound { F.never_fails files.old → F.never_fails files.new }
{
    let at = file_place(place.block, 0);
    read_all(files, &place.unit, at, &mut bytes[from..from + size])
}

/// Writes bytes into a block, from a place on.
pub fn overwrite(block: &mut [u8], offset: u16, bytes: &[u8])
    requires { offset + length bytes.now ≤ length block.old }
    ensures { block.new ≡ take offset block.old
        ++ (bytes.now ++ drop (offset + length bytes.now) block.old) }
{
    let from = offset as usize;
    block[from..from + bytes.len()].copy_from_slice(bytes);
}

/// Writes bytes into the block of so many bytes that begins here.
fn overwrite_from(bytes: &mut [u8], from: usize, size: usize, offset: u16, new: &[u8])
    requires inside { from + size ≤ length bytes.old }
    requires fits { offset + length new.now ≤ size }
    ensures block { block_from size from bytes.new ≡ take offset (block_from size from bytes.old)
        ++ (new.now ++ drop (offset + length new.now) (block_from size from bytes.old)) }
    ensures others { ChangesBlock size from bytes.old bytes.new }
{
    overwrite(&mut bytes[from..from + size], offset, new);
}

impl KeptBlocks {
    ghost use Rattle.mss_files.specs.KeptBlocks.{slot_start, Stands, Keeps, IsHeld};
    ghost use Rattle.mss_files.specs.KeptBlocks.{KeepsStarts, SameBlocks};
    ghost use Rattle.mss_files.specs.Noted.{slot_of};
    ghost use Rattle.mss_base.specs.declared.place.BlockPlace.{BlockPlace};

    /// The room for so many bytes of each block, in which no block stands yet.
    pub fn new(alloc: Global, size: usize) -> Result<Self, NoMemory>
        requires some { 1 ≤ size }
        requires few { size ≤ BLOCK_BYTES }
        ensures none { IfOk result (λ kept. (place : BlockPlace) → Stands kept place → ⊥) }
        ensures size { IfOk result (λ kept. kept.pieces.size ≡ size) }
    {
        let places = NotedPlaces::new(alloc)?;
        let pieces = Pieces::new(alloc, size)?;
        let bytes = Vec::with_capacity(alloc, SLOTS * size)?;
        Ok(KeptBlocks {
            places,
            pieces,
            bytes,
        })
    }

    /// Whether the block of this place stands here.
    pub fn keeps(&self, place: &BlockPlace) -> bool
        ensures there { result ≡ true → Keeps self.now place.now }
        ensures elsewhere { result ≡ false → Keeps self.now place.now → ⊥ }
    {
        if !self.places.has(place) {
            return false;
        }
        self.start_of(place) + self.pieces.size() <= self.bytes.len()
    }

    /// Where the bytes of its slot begin.
    fn start_of(&self, place: &BlockPlace) -> usize
        ensures value { result ≡ slot_start self.now place.now }
        ensures inside { result + self.now.pieces.size ≤ 323 * self.now.pieces.size }
        ensures small { result + self.now.pieces.size ≤ 5292032 }
    {
        self.pieces.start(slot_of(place))
    }

    /// The block of this place, which stands here.
    pub fn block(&self, place: &BlockPlace) -> &[u8]
        requires { Keeps self.now place.now }
        ensures bytes { result.now
            ≡ block_from self.now.pieces.size (slot_start self.now place.now) self.now.bytes.items }
        ensures whole { length result.now ≡ self.now.pieces.size }
    {
        block_from(&self.bytes, self.start_of(place), self.pieces.size())
    }

    /// Brings a block here. One that is here already isn't read again. Where a read fails, it isn't
    /// here.
    pub fn bring<F: UnitFiles>(&mut self, files: &mut F, place: &BlockPlace) -> io::Result<()>
        requires { F.tells → IsHeld (F.byte files.old) self.old }
        ensures held { F.tells → IsHeld (F.byte files.new) self.new }
        ensures at_once { Keeps self.old place.now
            → IsOk result × (files.new ≡ files.old) × SameBlocks self.old self.new }
        ensures here { OnOk result (Keeps self.new place.now) }
        ensures lost { OnErr result (Stands self.new place.now → ⊥) }
        ensures others { (other : BlockPlace) → slot_of other ≢ slot_of place.now
            → Keeps self.old other → Keeps self.new other }
        ensures size { self.new.pieces.size ≡ self.old.pieces.size }
        ensures files { F.tells → F.byte files.new ≡ F.byte files.old }
        ensures works { F.never_fails files.old → IsOk result }
        ensures sound { F.never_fails files.old → F.never_fails files.new }
    {
        if self.keeps(place) {
            return Ok(());
        }
        self.clear_slot(place);
        self.fetch(files, place)
    }

    /// Notes no block for the slot of this one any more, and makes its piece whole.
    fn clear_slot(&mut self, place: &BlockPlace)
        ensures places { self.new.places.of_slots.items
            ≡ slice_set self.old.places.of_slots.items (slot_of place.now) None }
        ensures inside { slot_start self.new place.now + self.new.pieces.size
            ≤ length self.new.bytes.items }
        ensures starts { KeepsStarts place.now self.old self.new }
        ensures size { self.new.pieces.size ≡ self.old.pieces.size }
        ensures long { length self.old.bytes.items ≤ length self.new.bytes.items }
        ensures blocks { (other : ℕ) → other + self.old.pieces.size ≤ length self.old.bytes.items
            → block_from self.old.pieces.size other self.new.bytes.items
            ≡ block_from self.old.pieces.size other self.old.bytes.items }
    {
        self.places.clear(place);
        self.find_piece(place);
        let end = self.start_of(place) + self.pieces.size();
        self.reach(end);
    }

    /// Gives its slot a piece that is in use, or else the next one.
    fn find_piece(&mut self, place: &BlockPlace)
        ensures places { self.new.places ≡ self.old.places }
        ensures bytes { self.new.bytes.items ≡ self.old.bytes.items }
        ensures starts { KeepsStarts place.now self.old self.new }
        ensures size { self.new.pieces.size ≡ self.old.pieces.size }
    {
        if self.start_of(place) >= self.bytes.len() {
            self.pieces.give_next(slot_of(place), self.bytes.len());
        }
    }

    /// Uses so many bytes of the room at least.
    fn reach(&mut self, count: usize)
        requires { count ≤ 323 * self.old.pieces.size }
        ensures places { self.new.places ≡ self.old.places }
        ensures pieces { self.new.pieces ≡ self.old.pieces }
        ensures reached { count ≤ length self.new.bytes.items }
        ensures long { length self.old.bytes.items ≤ length self.new.bytes.items }
        ensures blocks { (other : ℕ) → other + self.old.pieces.size ≤ length self.old.bytes.items
            → block_from self.old.pieces.size other self.new.bytes.items
            ≡ block_from self.old.pieces.size other self.old.bytes.items }
    {
        if self.bytes.len() < count {
            self.bytes.resize(count, 0).unwrap();
        }
    }

    /// Reads a block from the files to the piece of its slot.
    fn fetch<F: UnitFiles>(&mut self, files: &mut F, place: &BlockPlace) -> io::Result<()>
        requires inside { slot_start self.old place.now + self.old.pieces.size
            ≤ length self.old.bytes.items }
        ensures ok { OnOk result (self.new.places.of_slots.items
            ≡ slice_set self.old.places.of_slots.items (slot_of place.now) (Some place.now)) }
        ensures err { OnErr result (self.new.places.of_slots.items
            ≡ self.old.places.of_slots.items) }
        ensures pieces { self.new.pieces ≡ self.old.pieces }
        ensures block { F.tells → OnOk result
            (block_from self.old.pieces.size (slot_start self.old place.now) self.new.bytes.items
            ≡ bytes_at (F.byte files.old place.now.unit) (file_place place.now.block 0)
            self.old.pieces.size) }
        ensures others { ChangesBlock self.old.pieces.size (slot_start self.old place.now)
            self.old.bytes.items self.new.bytes.items }
        ensures files { F.tells → F.byte files.new ≡ F.byte files.old }
        ensures works { F.never_fails files.old → IsOk result }
        ensures sound { F.never_fails files.old → F.never_fails files.new }
    {
        let from = self.start_of(place);
        match read_to(&mut self.bytes, from, self.pieces.size(), files, place) {
            Ok(()) => {
                self.places.note(place);
                Ok(())
            }
            Err(error) => Err(error),
        }
    }

    /// Reads the front of a block, as much as the buffer takes: of the one that is here, or else
    /// from the files.
    pub fn read<F: UnitFiles>(
        &self,
        files: &mut F,
        place: &BlockPlace,
        into: &mut [u8],
    ) -> io::Result<()>
        requires inside { length into.old ≤ self.now.pieces.size }
        requires held { F.tells → IsHeld (F.byte files.old) self.now }
        ensures bytes { F.tells → OnOk result (into.new
            ≡ bytes_at (F.byte files.old place.now.unit) (file_place place.now.block 0)
            (length into.old)) }
        ensures at_once { Keeps self.now place.now → IsOk result × (files.new ≡ files.old) }
        ensures kept { F.tells → F.byte files.new ≡ F.byte files.old }
        ensures works { F.never_fails files.old → IsOk result }
        ensures sound { F.never_fails files.old → F.never_fails files.new }
    {
        if self.keeps(place) {
            let block = self.block(place);
            into.copy_from_slice(&block[..into.len()]);
            return Ok(());
        }
        read_all(files, &place.unit, file_place(place.block, 0), into)
    }

    /// Writes bytes into the block that is here, if it is the one of this place.
    pub fn patch(&mut self, place: &BlockPlace, offset: u16, bytes: &[u8])
        requires { offset + length bytes.now ≤ self.old.pieces.size }
        ensures places { self.new.places ≡ self.old.places }
        ensures pieces { self.new.pieces ≡ self.old.pieces }
        ensures stays { (other : BlockPlace) → Keeps self.old other → Keeps self.new other }
        ensures here { let from = slot_start self.old place.now in
            let old = block_from self.old.pieces.size from self.old.bytes.items in
            Keeps self.old place.now → block_from self.old.pieces.size from self.new.bytes.items
            ≡ take offset old ++ (bytes.now ++ drop (offset + length bytes.now) old) }
        ensures elsewhere { (Keeps self.old place.now → ⊥)
            → self.new.bytes.items ≡ self.old.bytes.items }
        ensures others { ChangesBlock self.old.pieces.size (slot_start self.old place.now)
            self.old.bytes.items self.new.bytes.items }
    {
        if self.keeps(place) {
            let from = self.start_of(place);
            overwrite_from(&mut self.bytes, from, self.pieces.size(), offset, bytes);
        }
    }

    /// Keeps the block of this place no longer, if it is here.
    pub fn forget(&mut self, place: &BlockPlace)
        ensures here { Stands self.new place.now → ⊥ }
        ensures others { (other : BlockPlace) → Stands self.new other → Stands self.old other }
        ensures stays { (other : BlockPlace) → slot_of other ≢ slot_of place.now
            → Keeps self.old other → Keeps self.new other }
        ensures pieces { self.new.pieces ≡ self.old.pieces }
        ensures bytes { self.new.bytes.items ≡ self.old.bytes.items }
    {
        self.places.forget(place);
    }
}
