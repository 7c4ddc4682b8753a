// The events that carry a cartridge between its cell and a recorder.
ghost use Rattle.std.specs.Prelude.{◌≡◌, ◌<◌, length, Some};
ghost use Rattle.accessors.specs.Moves.{moved_from_to};
ghost use Rattle.accessors.specs.Rails.{IsServed};
ghost use Rattle.cartridge_store.specs.Places.{place_of, with_place, IsFreeFor};
ghost use Rattle.core_state.specs.WorkRules.{work_rule};
ghost use Rattle.core_state.specs.declared.rule.WorkRule.TheVariants.{Fetches, GivesBack};
ghost use Rattle.work_events.specs.Steps.{WorkStep};

use crate::parts::tell_work;
use accessors::{Rail, cell_place, plan_move, recorder_place};
use cartridge_store::{Place, Store};
use core_state::{Core, WorkAnswer, WorkKind};
use mss_base::{CartridgeNo, RecorderNo, Site};
use recording_devices::Recorder;
use victim_choice::Choose;

/// A recorder with a cartridge in it.
fn recorder_with(cartridge: CartridgeNo) -> Recorder
    ensures { result ≡ Some cartridge }
{
    let mut recorder = Recorder::empty();
    if recorder.load(cartridge).is_err() {
        unreachable!()
    }
    recorder
}

/// Notes that an accessor carried a cartridge between two places of the rail.
fn carry(rail: &mut Rail, from: u8, to: u8)
    requires from { IsServed from }
    requires to { IsServed to }
    ensures { rail.new ≡ moved_from_to from to rail.old }
{
    let plan = plan_move(rail, from, to);
    rail.done(&plan);
}

/// Moves a cartridge from where it is to where no other one is.
fn put(store: &mut Store, cartridge: CartridgeNo, from: &Place, to: &Place)
    requires lies { place_of store.old cartridge ≡ from.now }
    requires free { IsFreeFor store.old cartridge to.now }
    ensures known { cartridge < length store.old }
    ensures there { store.new ≡ with_place cartridge to.now store.old }
{
    if store.move_to(cartridge, *from, *to).is_err() {
        unreachable!()
    }
}

/// Carries a recorder's cartridge to its cell. After want of memory all is as it was.
pub fn give_back<S: Site, C: Choose>(
    core: &mut Core<S, C>,
    recorder: RecorderNo,
    cartridge: CartridgeNo,
) -> WorkAnswer
    requires rule { work_rule core.old recorder ≡ GivesBack cartridge }
    requires fits { recorder < core.old.config.recorders }
    ensures event { WorkStep S.Site C.Choose core.old recorder
        (GivesBack cartridge) result core.new }
    ensures chooser { core.new.chooser ≡ core.old.chooser }
    ensures site { core.new.site ≡ core.old.site }
{
    if core.session.reserve().is_err() {
        return WorkAnswer::Memory;
    }
    let (within, home) = (Place::Recorder(recorder), Place::Cell(cartridge.get()));
    put(&mut core.store, cartridge, &within, &home);
    carry(
        &mut core.rail,
        recorder_place(recorder),
        cell_place(cartridge.get()),
    );
    core.recorders
        .set(usize::from(recorder.get()), Recorder::empty());
    tell_work(&mut core.session, recorder, WorkKind::GiveBack)
}

/// Carries a cartridge from its cell to a recorder that holds none. After want of memory all is as
/// it was.
pub fn fetch<S: Site, C: Choose>(
    core: &mut Core<S, C>,
    recorder: RecorderNo,
    cartridge: CartridgeNo,
) -> WorkAnswer
    requires rule { work_rule core.old recorder ≡ Fetches cartridge }
    requires fits { recorder < core.old.config.recorders }
    ensures event { WorkStep S.Site C.Choose core.old recorder (Fetches cartridge) result core.new }
    ensures chooser { core.new.chooser ≡ core.old.chooser }
    ensures site { core.new.site ≡ core.old.site }
{
    if core.session.reserve().is_err() {
        return WorkAnswer::Memory;
    }
    let (home, within) = (Place::Cell(cartridge.get()), Place::Recorder(recorder));
    put(&mut core.store, cartridge, &home, &within);
    carry(
        &mut core.rail,
        cell_place(cartridge.get()),
        recorder_place(recorder),
    );
    core.recorders
        .set(usize::from(recorder.get()), recorder_with(cartridge));
    tell_work(&mut core.session, recorder, WorkKind::Fetch)
}
