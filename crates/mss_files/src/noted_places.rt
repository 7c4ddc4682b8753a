// The blocks that are noted for the slots.
ghost use Rattle.std.specs.Prelude.{◌≡◌, ◌≢◌, ◌<◌, length, None, Some, true, false};
ghost use Rattle.std.specs.Prelude.{slice_set, IfOk};
ghost use Rattle.mss_files.specs.Noted.{slot_of, IsNoted};
ghost use Rattle.mss_base.specs.declared.place.BlockPlace.{BlockPlace};

use crate::pieces::SLOTS;
use mss_base::{BlockPlace, NoMemory};
use std::alloc::Global;

/// The block that is noted for each slot, if one is.
///
/// The blocks of a cylinder follow one another, and begin at a multiple of 19, so each has a slot
/// of its own: its number by 323.
#[derive(Drop)]
pub struct NotedPlaces {
    of_slots: Vec<Option<BlockPlace>>,
    ghost slots: { length of_slots.items ≡ 323 },
}

/// The slot of a block.
pub fn slot_of(place: &BlockPlace) -> usize
    ensures number { result ≡ slot_of place.now }
    ensures below { result < 323 }
{
    (place.block % SLOTS as u32) as usize
}

impl NotedPlaces {
    /// No block is noted.
    pub fn new(alloc: Global) -> Result<Self, NoMemory>
        ensures { IfOk result
            (λ noted. (place : BlockPlace) → IsNoted noted.of_slots.items place → ⊥) }
    {
        let of_slots = Vec::from_slice(alloc, &[None; SLOTS])?;
        Ok(NotedPlaces { of_slots })
    }

    /// Whether this block is noted.
    pub fn has(&self, place: &BlockPlace) -> bool
        ensures there { result ≡ true → IsNoted self.now.of_slots.items place.now }
        ensures elsewhere { result ≡ false → IsNoted self.now.of_slots.items place.now → ⊥ }
    {
        self.of_slots[slot_of(place)] == Some(*place)
    }

    /// Notes a block for its slot.
    pub fn note(&mut self, place: &BlockPlace)
        ensures items { self.new.of_slots.items
            ≡ slice_set self.old.of_slots.items (slot_of place.now) (Some place.now) }
        ensures here { IsNoted self.new.of_slots.items place.now }
        ensures others { (other : BlockPlace) → IsNoted self.new.of_slots.items other
            → (place.now ≡ other → ⊥) → IsNoted self.old.of_slots.items other }
        ensures stays { (other : BlockPlace) → slot_of other ≢ slot_of place.now
            → IsNoted self.old.of_slots.items other → IsNoted self.new.of_slots.items other }
    {
        self.of_slots[slot_of(place)] = Some(*place);
    }

    /// Notes no block for the slot of this one any more.
    pub fn clear(&mut self, place: &BlockPlace)
        ensures { self.new.of_slots.items
            ≡ slice_set self.old.of_slots.items (slot_of place.now) None }
    {
        self.of_slots[slot_of(place)] = None;
    }

    /// Notes this block no longer, if it is noted.
    pub fn forget(&mut self, place: &BlockPlace)
        ensures here { IsNoted self.new.of_slots.items place.now → ⊥ }
        ensures others { (other : BlockPlace)
            → IsNoted self.new.of_slots.items other → IsNoted self.old.of_slots.items other }
        ensures stays { (other : BlockPlace) → slot_of other ≢ slot_of place.now
            → IsNoted self.old.of_slots.items other → IsNoted self.new.of_slots.items other }
    {
        if self.has(place) {
            self.clear(place);
        }
    }
}
