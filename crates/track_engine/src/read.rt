// Reads.
ghost use Rattle.std.specs.Prelude.{◌≢◌};
ghost use Rattle.ckd_plain.specs.Effects.{read_outcome};
ghost use Rattle.ckd_plain.specs.Views.{effect_of};
ghost use Rattle.track_engine.specs.Tracks.{tracks_on};
ghost use Rattle.track_engine.specs.Faults.{ReadsDevices};
ghost use Rattle.track_engine.specs.Found.{GivesBut, KeepsVolume};

use crate::find::{at_home, found_in, this_or_next};
use crate::place::{CylinderPlace, NotDone};
use channel_commands::ReadWhat;
use ckd_plain::HostState;
use ckd_plain::steps::{DoneCommand, at_hand, home_read, record_zero_read};
use mss_base::Site;
use std::alloc::Global;

/// A read of a record.
#[tactic(auto, unfolding(ckd_plain::specs::Effects::read_outcome))]
fn read_record<S: Site>(
    alloc: Global,
    site: &mut S,
    place: &CylinderPlace,
    host: &HostState,
    what: ReadWhat,
    multi: bool,
) -> Result<DoneCommand, NotDone>
    requires no_home { what ≢ ReadWhat.Home }
    requires no_zero { what ≢ ReadWhat.RecordZero }
    ensures done { S.tells → GivesBut effect_of result
        (read_outcome (tracks_on (S.told site.old) place.now) host.now what multi) }
    ensures volume { KeepsVolume (λ done. done.host) host.now.mounted result }
    ensures site_ { ReadsDevices S.Site place.now.unit site.old site.new result }
{
    let at_hand = at_hand(what, host.position);
    let at = this_or_next(site, place, host, at_hand, multi)?;
    Ok(found_in(site.brought(), &at).given(alloc, what)?)
}

/// A read of any kind.
#[tactic(auto, unfolding(ckd_plain::specs::Effects::read_outcome))]
pub fn read<S: Site>(
    alloc: Global,
    site: &mut S,
    place: &CylinderPlace,
    host: &HostState,
    what: ReadWhat,
    multi: bool,
) -> Result<DoneCommand, NotDone>
    ensures done { S.tells → GivesBut effect_of result
        (read_outcome (tracks_on (S.told site.old) place.now) host.now what multi) }
    ensures volume { KeepsVolume (λ done. done.host) host.now.mounted result }
    ensures site_ { ReadsDevices S.Site place.now.unit site.old site.new result }
{
    match what {
        ReadWhat::Home => Ok(home_read(alloc, &at_home(host, multi)?)?),
        ReadWhat::RecordZero => Ok(record_zero_read(alloc, &at_home(host, multi)?)?),
        _ => read_record(alloc, site, place, host, what, multi),
    }
}
