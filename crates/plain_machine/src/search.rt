// Searches.
ghost use Rattle.std.specs.Prelude.{◌≡◌, ◌≤◌, length};
ghost use Rattle.ckd_plain.specs.Effects.{home_searched, id_searched, key_searched, key_at_hand, search};
ghost use Rattle.channel_commands.specs.Codes.{least};
ghost use Rattle.ckd_plain.specs.Views.{Gives, effect_of};
ghost use Rattle.plain_machine.specs.Outcomes.{cylinder_of};
ghost use Rattle.mss_base.specs.Geometry.{cylinder_heads};

use crate::index::{next_record, this_or_next};
use channel_commands::{Command, SearchField, SearchTest};
use ckd_plain::steps::{DoneCommand, home_searched, key_at_hand, to_home};
use ckd_plain::{HostState, Refusal};
use ckd_track::Track;
use std::alloc::Global;

#[tactic(auto, unfolding(ckd_plain::specs::Effects::search))]
fn search_id(
    alloc: Global,
    tracks: &[Track],
    host: &HostState,
    test: SearchTest,
    multi: bool,
    argument: &[u8],
) -> Result<DoneCommand, Refusal>
    requires cylinder { length tracks.now ≡ cylinder_heads }
    requires long { 5 ≤ length argument.now }
    ensures { Gives effect_of result
        (search (cylinder_of tracks.now) host.now SearchField.Id test multi argument.now) }
{
    match &next_record(tracks, host, 0, multi) {
        Ok(found) => Ok(found.id_searched(alloc, test, argument)),
        Err(refusal) => Err(*refusal),
    }
}

#[tactic(auto, unfolding(ckd_plain::specs::Effects::search))]
fn search_key(
    alloc: Global,
    tracks: &[Track],
    host: &HostState,
    test: SearchTest,
    multi: bool,
    argument: &[u8],
) -> Result<DoneCommand, Refusal>
    requires cylinder { length tracks.now ≡ cylinder_heads }
    ensures { Gives effect_of result
        (search (cylinder_of tracks.now) host.now SearchField.Key test multi argument.now) }
{
    match &this_or_next(tracks, host, key_at_hand(host.position), multi) {
        Ok(found) => Ok(found.key_searched(alloc, test, argument)),
        Err(refusal) => Err(*refusal),
    }
}

/// A search of any kind.
#[tactic(auto, unfolding(ckd_plain::specs::Effects::search))]
pub fn search(
    alloc: Global,
    tracks: &[Track],
    host: &HostState,
    field: SearchField,
    test: SearchTest,
    multi: bool,
    argument: &[u8],
) -> Result<DoneCommand, Refusal>
    requires cylinder { length tracks.now ≡ cylinder_heads }
    requires long { least (Command.Search field test multi) ≤ length argument.now }
    ensures { Gives effect_of result
        (search (cylinder_of tracks.now) host.now field test multi argument.now) }
{
    match field {
        SearchField::Home => Ok(home_searched(alloc, &to_home(*host, multi)?, argument)),
        SearchField::Id => search_id(alloc, tracks, host, test, multi, argument),
        SearchField::Key => search_key(alloc, tracks, host, test, multi, argument),
    }
}
