// The slots of blocks that are kept, and the pieces of a room that they have.
ghost use Rattle.std.specs.Prelude.{◌≡◌, ◌≢◌, ℕ, ◌+◌, ◌*◌, ◌<◌, ◌≤◌, length, IfOk, IfSome, IfNone};
ghost use Rattle.mss_files.specs.Allotted.{piece_of, start_in, AreInRoom, AreApart};

use mss_base::{BLOCK_BYTES, HEADS, NoMemory};
use std::alloc::Global;

/// As many blocks are kept as so many cylinders have.
///
/// It has no factor in common with 8, the cylinders of a page. So cylinders that stand at one place
/// of up to 17 neighbouring frames don't meet in a slot.
const CYLINDERS_KEPT: usize = 17;

/// How many blocks are kept: 323.
pub const SLOTS: usize = CYLINDERS_KEPT * HEADS as usize;

/// The piece of a room that each slot has, a piece of its own, and how many bytes each piece has.
#[derive(Drop)]
pub struct Pieces {
    of_slots: Vec<usize>,
    size: usize,
    ghost slots: { length of_slots.items ≡ 323 },
    ghost inside: { AreInRoom of_slots.items },
    ghost apart: { AreApart of_slots.items },
    ghost some: { 1 ≤ size },
    ghost few: { size ≤ 16384 },
}

impl Pieces {
    /// Each slot has the piece of its number.
    pub fn new(alloc: Global, size: usize) -> Result<Self, NoMemory>
        requires some { 1 ≤ size }
        requires few { size ≤ BLOCK_BYTES }
        ensures numbers { IfOk result
            (λ pieces. (slot : ℕ) → slot < 323 → piece_of pieces.of_slots.items slot ≡ slot) }
        ensures size { IfOk result (λ pieces. pieces.size ≡ size) }
    {
        let mut of_slots = Vec::with_capacity(alloc, SLOTS)?;
        for slot in 0..SLOTS {
            of_slots.push(slot)?;
        }
        Ok(Pieces { of_slots, size })
    }

    /// How many bytes each piece has.
    pub fn size(&self) -> usize
        ensures value { result ≡ self.now.size }
        ensures some { 1 ≤ self.now.size }
        ensures few { self.now.size ≤ 16384 }
    {
        self.size
    }

    /// The piece of a slot.
    fn of(&self, slot: usize) -> usize
        requires { slot < 323 }
        ensures value { result ≡ piece_of self.now.of_slots.items slot }
        ensures inside { result < 323 }
    {
        self.of_slots[slot]
    }

    /// Where the piece of a slot begins.
    pub fn start(&self, slot: usize) -> usize
        requires { slot < 323 }
        ensures value { result ≡ start_in self.now.size self.now.of_slots.items slot }
        ensures inside { result + self.now.size ≤ 323 * self.now.size }
        ensures small { result + self.now.size ≤ 5292032 }
    {
        self.of(slot) * self.size
    }

    /// Gives a slot the first piece behind so many bytes that are in use.
    pub fn give_next(&mut self, slot: usize, used: usize)
        requires { slot < 323 }
        ensures others { (other : ℕ) → other ≢ slot
            → start_in self.old.size self.old.of_slots.items other + self.old.size ≤ used
            → start_in self.new.size self.new.of_slots.items other
            ≡ start_in self.old.size self.old.of_slots.items other }
        ensures size { self.new.size ≡ self.old.size }
    {
        self.exchange(slot, used / self.size);
    }

    /// Gives a slot this piece, and the slot that had it the piece of the first one.
    fn exchange(&mut self, slot: usize, piece: usize)
        requires { slot < 323 }
        ensures given { (other : ℕ) → other < 323 → piece_of self.old.of_slots.items other ≡ piece
            → piece_of self.new.of_slots.items slot ≡ piece }
        ensures others { (other : ℕ) → other ≢ slot
            → piece_of self.old.of_slots.items other ≢ piece
            → piece_of self.new.of_slots.items other ≡ piece_of self.old.of_slots.items other }
        ensures size { self.new.size ≡ self.old.size }
    {
        if let Some(other) = self.holder(piece) {
            self.of_slots.swap(slot, other);
        }
    }

    /// The slot that has a piece.
    fn holder(&self, piece: usize) -> Option<usize>
        ensures inside { IfSome result (λ slot. slot < 323) }
        ensures has { IfSome result (λ slot. piece_of self.now.of_slots.items slot ≡ piece) }
        ensures unheld { IfNone result
            ((slot : ℕ) → slot < 323 → piece_of self.now.of_slots.items slot ≢ piece) }
    {
        for slot in 0..SLOTS {
            if self.of_slots[slot] == piece {
                return Some(slot);
            }
        }
        None
    }
}
