// Cartridges that are moved, and moves that are refused.
use accessors::Accessor;
use cartridge_store::{MoveFault, Place, Store};
use mss_base::{CartridgeNo, RecorderNo};
use std::test::Fail;

/// In a table of places, where no cell is: the right accessor's hand, and recorder 7.
const HAND: u16 = 5000;

const RECORDER: u16 = 6007;

/// Behind a move that was done, the cartridge is where it was to go.
const DONE: u16 = 7000;

/// Cartridge 2047 is in the cell.
const TAKEN: u16 = 8000;

/// A cartridge, from where it is moved and to where, how that ends, and where it is then. The cartridge isn't there where
/// the move ends with the place at which it is.
const MOVES: [[u16; 5]; 8] = [
    [7, 7, 2047, TAKEN, 7],
    [7, HAND, RECORDER, 7, 7],
    [7, HAND, 2047, 7, 7],
    [7, 7, 7, DONE, 7],
    [7, 7, HAND, DONE, HAND],
    [7, HAND, RECORDER, DONE, RECORDER],
    [7, RECORDER, 3000, DONE, 3000],
    [2047, 2047, 7, DONE, 7],
];

fn place_of(place: u16) -> Option<Place> {
    match place {
        HAND => Some(Place::Hand(Accessor::Right)),
        RECORDER => Some(Place::Recorder(RecorderNo::of(7)?)),
        cell => Some(Place::Cell(cell)),
    }
}

/// How a move is to end.
fn due(outcome: u16) -> Option<Result<(), MoveFault>> {
    match outcome {
        DONE => Some(Ok(())),
        TAKEN => {
            let by = CartridgeNo::of(2047)?;
            Some(Err(MoveFault::CellTaken { by }))
        }
        there => {
            let place = place_of(there)?;
            Some(Err(MoveFault::NotThere { place }))
        }
    }
}

/// Whether a move ends so, and the cartridge is there.
fn goes(store: &mut Store, [number, from, to, outcome, there]: [u16; 5]) -> Option<bool> {
    let cartridge = CartridgeNo::of(number)?;
    let told = store.move_to(cartridge, place_of(from)?, place_of(to)?);
    Some(told == due(outcome)? && store.place(cartridge) == place_of(there)?)
}

/// Whether a cartridge is in the cell of its number.
fn is_at_home(store: &Store, number: u16) -> Option<bool> {
    Some(store.place(CartridgeNo::of(number)?) == Place::Cell(number))
}

fn all_go(store: &mut Store) -> bool {
    for case in MOVES {
        if goes(store, case) != Some(true) {
            return false;
        }
    }
    true
}

#[test]
fn a_cartridge_goes_where_no_other_is(rt: HostRuntime) -> Result<(), Fail> {
    let mut store = Store::new(rt.alloc())?;
    assert!(rt; is_at_home(&store, 7) == Some(true));
    assert!(rt; is_at_home(&store, 2047) == Some(true));
    assert!(rt; all_go(&mut store));
    Ok(())
}
