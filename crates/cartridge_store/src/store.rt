// The places of the cartridges.
ghost use Rattle.std.specs.Prelude.{◌≡◌, ◌≢◌, ◌<◌, ℕ, IfOk, IfSome, IfNone, length, slice_set};
ghost use Rattle.cartridge_store.specs.Places.{home_of, place_of, IsFreeFor, Moves};

use accessors::Accessor;
use mss_base::{CartridgeNo, Listed, NoMemory, RecorderNo};
use std::alloc::Global;
use std::marker::Model;

/// How many cartridges there are. Each has a cell of its own number.
pub const CARTRIDGES: u16 = 2048;

/// Where a cartridge is.
#[derive(Clone, Copy, PartialEq, Eq)]
pub enum Place {
    Cell(u16),
    Hand(Accessor),
    Recorder(RecorderNo),
}

/// Why a cartridge isn't moved.
#[derive(Clone, Copy, PartialEq, Eq)]
pub enum MoveFault {
    /// Another cartridge is where it was to go.
    CellTaken { by: CartridgeNo },
    /// It is at this place, and not where it was said to be.
    NotThere { place: Place },
}

/// The place of each cartridge.
#[derive(Drop)]
pub struct Store {
    places: Listed<Place>,
}

impl Model for Store {
    ghost use Rattle.std.specs.Prelude.{List};
    ghost use Rattle.cartridge_store.specs.declared.store.Place.{Place};
    ghost use Rattle.cartridge_store.specs.Places.{IsStore};

    ghost Value = { List Place };

    ghost view = { λ s. s.places.items };

    ghost invariant = { λ s. IsStore s.places.items };
}

/// Another cartridge that is at a place, if one is there.
fn other_at(places: &[Place], cartridge: CartridgeNo, place: &Place) -> Option<CartridgeNo>
    requires { length places.now ≡ CARTRIDGES }
    ensures there { IfSome result (λ by. (by ≢ cartridge) × (place_of places.now by ≡ place.now)) }
    ensures none { IfNone result (IsFreeFor places.now cartridge place.now) }
{
    let own = cartridge.get();
    for number in 0..CARTRIDGES {
        if number != own && places[number as usize] == *place {
            return CartridgeNo::of(number);
        }
    }
    None
}

fn put(places: &mut Listed<Place>, number: usize, place: Place)
    requires { number < length places.old.items }
    ensures { places.new.items ≡ slice_set places.old.items number place }
{
    places.set(number, place);
}

impl Store {
    /// Every cartridge in its home cell.
    pub fn new(alloc: Global) -> Result<Store, NoMemory>
        ensures { IfOk result (λ store. (c : ℕ) → c < CARTRIDGES → place_of store c ≡ home_of c) }
    {
        let mut places = Listed::new(alloc);
        places.reserve(usize::from(CARTRIDGES))?;
        for number in 0..CARTRIDGES {
            places.push(Place::Cell(number));
        }
        Ok(Store { places })
    }

    /// Where a cartridge is.
    pub fn place(&self, cartridge: CartridgeNo) -> Place
        ensures { result ≡ place_of self.now cartridge }
    {
        self.places.as_slice()[cartridge.get() as usize]
    }

    /// Moves a cartridge from one place to another.
    ///
    /// `NotThere` exactly where it isn't at `from`, and else `CellTaken` exactly where another one is at `to`. After
    /// both nothing has changed.
    pub fn move_to(
        &mut self,
        cartridge: CartridgeNo,
        from: Place,
        to: Place,
    ) -> Result<(), MoveFault>
        ensures moves { Moves self.old self.new cartridge from to result }
        ensures known { cartridge < length self.old }
    {
        let number = cartridge.get() as usize;
        let place = self.place(cartridge);
        if place != from {
            return Err(MoveFault::NotThere { place });
        }
        if let Some(by) = other_at(self.places.as_slice(), cartridge, &to) {
            return Err(MoveFault::CellTaken { by });
        }
        put(&mut self.places, number, to);
        Ok(())
    }
}
