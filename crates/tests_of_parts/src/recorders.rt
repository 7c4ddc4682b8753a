// A recorder that is loaded and unloaded.
use mss_base::CartridgeNo;
use recording_devices::{Recorder, RecorderBusy};

/// In place of a cartridge, where there is none.
const NONE: u16 = 9999;

fn number_of(cartridge: Option<CartridgeNo>) -> u16 {
    match cartridge {
        Some(cartridge) => cartridge.get(),
        None => NONE,
    }
}

/// The cartridge that refuses a load, if one does.
fn refused(recorder: &mut Recorder, number: u16) -> Option<u16> {
    let cartridge = CartridgeNo::of(number)?;
    match recorder.load(cartridge) {
        Ok(()) => Some(NONE),
        Err(RecorderBusy { holds }) => Some(holds.get()),
    }
}

/// What a recorder holds, and what each load and unload answers.
fn answers() -> Option<[u16; 8]> {
    let mut recorder = Recorder::empty();
    let before = number_of(recorder.holds());
    let loaded = refused(&mut recorder, 7)?;
    let other = refused(&mut recorder, 2047)?;
    let twice = refused(&mut recorder, 7)?;
    let was = number_of(recorder.unload());
    let none = number_of(recorder.unload());
    let again = refused(&mut recorder, 2047)?;
    let behind = number_of(recorder.holds());
    Some([before, loaded, other, twice, was, none, again, behind])
}

#[test]
fn a_recorder_holds_one_cartridge(rt: HostRuntime) {
    let due = [NONE, NONE, 7, 7, 7, NONE, NONE, 2047];
    assert_eq!(rt; answers(), Some(due));
}
