// Searches.
ghost use Rattle.std.specs.Prelude.{◌≡◌, ◌≤◌, length, MatchResult};
ghost use Rattle.channel_commands.specs.declared.command.SearchField.{SearchField};
ghost use Rattle.channel_commands.specs.declared.command.SearchTest.{SearchTest};
ghost use Rattle.ckd_plain.specs.Effects.{search};
ghost use Rattle.ckd_plain.specs.Index.{Tracks};
ghost use Rattle.ckd_plain.specs.Views.{effect_of, Gives};
ghost use Rattle.track_engine.specs.Tracks.{tracks_on};
ghost use Rattle.track_engine.specs.Faults.{ReadsDevices};
ghost use Rattle.track_engine.specs.Found.{GivesBut, KeepsVolume};

use crate::find::{at_home, found_in, next_record, this_or_next};
use crate::place::{CylinderPlace, NotDone};
use channel_commands::SearchTest;
use ckd_plain::steps::{DoneCommand, home_searched, key_at_hand};
use ckd_plain::{HostState, Refusal};
use mss_base::Site;
use std::alloc::Global;

/// Search home address equal.
#[tactic(auto, unfolding(ckd_plain::specs::Effects::search))]
pub fn search_home(
    alloc: Global,
    host: &HostState,
    multi: bool,
    argument: &[u8],
) -> Result<DoneCommand, Refusal>
    requires { 4 ≤ length argument.now }
    ensures done { (tracks : Tracks) (test : SearchTest)
        → Gives effect_of result (search tracks host.now SearchField.Home test multi argument.now) }
    ensures volume { MatchResult result (λ done. done.host.mounted ≡ host.now.mounted)
        (λ refusal. refusal.host.mounted ≡ host.now.mounted) }
{
    let there = at_home(host, multi)?;
    Ok(home_searched(alloc, &there, argument))
}

/// Search ID.
#[tactic(auto, unfolding(ckd_plain::specs::Effects::search))]
pub fn search_id<S: Site>(
    alloc: Global,
    site: &mut S,
    place: &CylinderPlace,
    host: &HostState,
    test: SearchTest,
    multi: bool,
    argument: &[u8],
) -> Result<DoneCommand, NotDone>
    requires long { 5 ≤ length argument.now }
    ensures done { S.tells → GivesBut effect_of result
        (search (tracks_on (S.told site.old) place.now) host.now SearchField.Id test multi
        argument.now) }
    ensures volume { KeepsVolume (λ done. done.host) host.now.mounted result }
    ensures site_ { ReadsDevices S.Site place.now.unit site.old site.new result }
{
    let at = next_record(site, place, host, 0, multi)?;
    Ok(found_in(site.brought(), &at).id_searched(alloc, test, argument))
}

/// Search key.
#[tactic(auto, unfolding(ckd_plain::specs::Effects::search))]
pub fn search_key<S: Site>(
    alloc: Global,
    site: &mut S,
    place: &CylinderPlace,
    host: &HostState,
    test: SearchTest,
    multi: bool,
    argument: &[u8],
) -> Result<DoneCommand, NotDone>
    ensures done { S.tells → GivesBut effect_of result
        (search (tracks_on (S.told site.old) place.now) host.now SearchField.Key test multi
        argument.now) }
    ensures volume { KeepsVolume (λ done. done.host) host.now.mounted result }
    ensures site_ { ReadsDevices S.Site place.now.unit site.old site.new result }
{
    let at_hand = key_at_hand(host.position);
    let at = this_or_next(site, place, host, at_hand, multi)?;
    Ok(found_in(site.brought(), &at).key_searched(alloc, test, argument))
}
