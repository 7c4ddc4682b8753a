// Reads.
ghost use Rattle.std.specs.Prelude.{◌≡◌, ◌≢◌, length};
ghost use Rattle.ckd_plain.specs.Effects.{at_hand, record_zero_read, home_read, read_outcome};
ghost use Rattle.ckd_plain.specs.Views.{effect_of};
ghost use Rattle.plain_machine.specs.Outcomes.{cylinder_of, GivesUnless};
ghost use Rattle.mss_base.specs.Geometry.{cylinder_heads};

use crate::index::this_or_next;
use crate::trouble::Trouble;
use channel_commands::ReadWhat;
use ckd_plain::HostState;
use ckd_plain::steps::{DoneCommand, at_hand, home_read, record_zero_read, to_home};
use ckd_track::Track;
use std::alloc::Global;

/// A read of a record.
#[tactic(auto, unfolding(ckd_plain::specs::Effects::read_outcome))]
fn read_record(
    alloc: Global,
    tracks: &[Track],
    host: &HostState,
    what: ReadWhat,
    multi: bool,
) -> Result<DoneCommand, Trouble>
    requires cylinder { length tracks.now ≡ cylinder_heads }
    requires no_home { what ≢ ReadWhat.Home }
    requires no_zero { what ≢ ReadWhat.RecordZero }
    ensures { GivesUnless effect_of result
        (read_outcome (cylinder_of tracks.now) host.now what multi) }
{
    match &this_or_next(tracks, host, at_hand(what, host.position), multi) {
        Ok(found) => Ok(found.given(alloc, what)?),
        Err(refusal) => Err(Trouble::Refused(*refusal)),
    }
}

/// A read of any kind.
#[tactic(auto, unfolding(ckd_plain::specs::Effects::read_outcome))]
pub fn read(
    alloc: Global,
    tracks: &[Track],
    host: &HostState,
    what: ReadWhat,
    multi: bool,
) -> Result<DoneCommand, Trouble>
    requires cylinder { length tracks.now ≡ cylinder_heads }
    ensures { GivesUnless effect_of result
        (read_outcome (cylinder_of tracks.now) host.now what multi) }
{
    match what {
        ReadWhat::Home => Ok(home_read(alloc, &to_home(*host, multi)?)?),
        ReadWhat::RecordZero => Ok(record_zero_read(alloc, &to_home(*host, multi)?)?),
        _ => read_record(alloc, tracks, host, what, multi),
    }
}
