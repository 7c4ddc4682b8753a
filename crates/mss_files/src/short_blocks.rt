// Blocks that are zeros behind their front.
ghost use Rattle.std.specs.Prelude.{◌≡◌, ◌↔◌, ◌+◌, ◌≤◌, ◌++◌, None, Some, true, IfOk};
ghost use Rattle.std.specs.Prelude.{length, take, drop, replicate};
ghost use Rattle.mss_files.specs.ShortBlocks.{zeros_behind, AreShort};

use crate::kept_blocks::overwrite;
use mss_base::{BLOCK_BYTES, BlockPlace, NoMemory};
use std::alloc::Global;

/// How many bytes the front of a block has. A track of few records ends within them.
pub const FRONT_BYTES: usize = 1_024;

/// A short block as a whole: its front, and the zeros behind it.
#[derive(Drop)]
pub struct ShownBlock {
    place: Option<BlockPlace>,
    bytes: Vec<u8>,
    ghost whole: { length bytes.items ≡ 16384 },
    ghost zeros: { drop 1024 bytes.items ≡ zeros_behind },
}

fn zero_bytes(alloc: Global, count: usize) -> Result<Vec<u8>, NoMemory>
    ensures { IfOk result (λ bytes. bytes.items ≡ replicate count 0) }
{
    Ok(vec![in alloc; 0u8; count]?)
}

/// Puts the front of a block over the one that is here.
fn put_front(block: &mut [u8], front: &[u8])
    requires front { length front.now ≡ 1024 }
    requires block { 1024 ≤ length block.old }
    ensures { block.new ≡ front.now ++ drop 1024 block.old }
{
    overwrite(block, 0, front);
}

/// Whether all bytes are zeros. The greatest of many bytes is found faster than the first that isn't zero.
fn are_zeros(bytes: &[u8]) -> bool
    ensures { result ≡ true ↔ bytes.now ≡ replicate (length bytes.now) 0 }
{
    let mut greatest = 0u8;
    for byte in bytes {
        if *byte > greatest {
            greatest = *byte;
        }
    }
    greatest == 0
}

/// Whether these are the bytes of a whole block that is short.
pub fn is_short(bytes: &[u8]) -> bool
    ensures { result ≡ true ↔ AreShort bytes.now }
{
    if bytes.len() != BLOCK_BYTES {
        return false;
    }
    let (_, behind) = bytes.split_at(FRONT_BYTES);
    are_zeros(behind)
}

impl ShownBlock {
    ghost use Rattle.mss_base.specs.declared.place.BlockPlace.{BlockPlace};

    /// A block of zeros, of no place.
    pub fn new(alloc: Global) -> Result<Self, NoMemory>
        ensures { IfOk result (λ shown. shown.place ≡ None) }
    {
        let bytes = zero_bytes(alloc, BLOCK_BYTES)?;
        Ok(ShownBlock { place: None, bytes })
    }

    /// Whether the block of this place is shown.
    fn has(&self, place: &BlockPlace) -> bool
        ensures { result ≡ true ↔ self.now.place ≡ Some place.now }
    {
        self.place == Some(*place)
    }

    /// The block that is shown, or zeros before one is.
    pub fn bytes(&self) -> &[u8]
        ensures { result.now ≡ self.now.bytes.items }
    {
        &self.bytes
    }

    /// Shows the block of this place, of which this is the front.
    pub fn show(&mut self, place: &BlockPlace, front: &[u8])
        requires { length front.now ≡ 1024 }
        ensures place { self.new.place ≡ Some place.now }
        ensures bytes { (self.old.place ≡ Some place.now → ⊥)
            → self.new.bytes.items ≡ front.now ++ zeros_behind }
        ensures same { self.old.place ≡ Some place.now
            → self.new.bytes.items ≡ self.old.bytes.items }
    {
        if !self.has(place) {
            put_front(&mut self.bytes, front);
            self.place = Some(*place);
        }
    }

    /// Shows the block of this place no longer, if it is shown.
    pub fn forget(&mut self, place: &BlockPlace)
        ensures here { self.new.place ≡ Some place.now → ⊥ }
        ensures others { (other : BlockPlace)
            → self.new.place ≡ Some other → self.old.place ≡ Some other }
        ensures bytes { self.new.bytes.items ≡ self.old.bytes.items }
    {
        if self.has(place) {
            self.place = None;
        }
    }

    /// Writes bytes into the front that is shown, if it is that of this place.
    pub fn patch(&mut self, place: &BlockPlace, offset: u16, bytes: &[u8])
        requires { offset + length bytes.now ≤ 1024 }
        ensures place { self.new.place ≡ self.old.place }
        ensures here { self.old.place ≡ Some place.now
            → self.new.bytes.items ≡ take offset self.old.bytes.items
            ++ (bytes.now ++ drop (offset + length bytes.now) self.old.bytes.items) }
        ensures elsewhere { (self.old.place ≡ Some place.now → ⊥)
            → self.new.bytes.items ≡ self.old.bytes.items }
    {
        if self.has(place) {
            overwrite(&mut self.bytes, offset, bytes);
        }
    }
}
