// Where a command finds its record.
ghost use Rattle.std.specs.Prelude.{◌≡◌, ◌<◌, ◌≤◌, length, IfSome, IfOk};
ghost use Rattle.ckd_track.specs.Data.{HasCount};
ghost use Rattle.ckd_plain.specs.Index.{candidate, pass_index, record_at, next_record, same_record};
ghost use Rattle.ckd_plain.specs.Effects.{this_or_next};
ghost use Rattle.ckd_plain.specs.Views.{item_of, found_of, Gives};
ghost use Rattle.plain_machine.specs.Outcomes.{cylinder_of, IsRecordAt, IsStoredAt};
ghost use Rattle.mss_base.specs.Geometry.{cylinder_heads};

use ckd_plain::steps::{FoundRecord, candidate, pass_index};
use ckd_plain::{HostState, Refusal, UnitCheck};
use ckd_track::Track;

/// How many tracks a command may look at.
const LOOKS: u8 = 20;

/// Record `number` of the host's track, where it is there.
fn record_at<'a>(track: &'a Track, host: &HostState, number: usize) -> Option<FoundRecord<'a>>
    ensures item { IsRecordAt number host.now result (record_at track.now host.now number) }
    ensures small { IfSome result (λ _. number ≤ 97) }
    ensures counted { IfSome result (λ found. HasCount (item_of found)) }
{
    if number == 0 {
        return Some(FoundRecord::zero(host));
    }
    let record = track.records.as_slice().get(number - 1)?;
    Some(FoundRecord::stored(number as u8, record, host))
}

/// The record of this number on the track under the host's head, one of a cylinder's tracks.
fn record_under<'a>(tracks: &'a [Track], host: &HostState, number: usize) -> Option<FoundRecord<'a>>
    requires { length tracks.now ≡ cylinder_heads }
    ensures item { IsRecordAt number host.now result
        (record_at (cylinder_of tracks.now host.now.head) host.now number) }
    ensures small { IfSome result (λ _. number ≤ 97) }
    ensures counted { IfSome result (λ found. HasCount (item_of found)) }
{
    record_at(&tracks[usize::from(host.head.get())], host, number)
}

/// The next record, where `first` is the first that counts.
#[tactic(auto, unfolding(ckd_plain::specs::Index::next_record))]
pub fn next_record<'a>(
    tracks: &'a [Track],
    from: &HostState,
    first: u8,
    multi: bool,
) -> Result<FoundRecord<'a>, Refusal>
    requires cylinder { length tracks.now ≡ cylinder_heads }
    ensures found { Gives found_of result
        (next_record (cylinder_of tracks.now) from.now first multi) }
    ensures counted { IfOk result (λ found. HasCount (item_of found)) }
{
    let mut host = *from;
    for _ in 0..LOOKS {
        let number = candidate(host.position, first);
        if let Some(found) = record_under(tracks, &host, number) {
            return Ok(found);
        }
        host = pass_index(host, multi)?;
    }
    Err(Refusal {
        check: UnitCheck::NoRecordFound,
        host,
    })
}

/// Record `number` itself.
#[tactic(auto, unfolding(ckd_plain::specs::Index::same_record))]
pub fn same_record<'a>(
    track: &'a Track,
    host: &HostState,
    number: u8,
) -> Result<FoundRecord<'a>, Refusal>
    ensures found { Gives found_of result (same_record track.now host.now number) }
    ensures counted { IfOk result (λ found. HasCount (item_of found)) }
    ensures small { IfOk result (λ _. number ≤ 97) }
    ensures itself { IfOk result (λ found. (found.number ≡ number) × (found.host ≡ host.now)) }
    ensures stored { 0 < number → IfOk result
        (λ found. IsStoredAt track.now number (item_of found)) }
{
    let Some(found) = record_at(track, host, usize::from(number)) else {
        return Err(Refusal {
            check: UnitCheck::NoRecordFound,
            host: *host,
        });
    };
    Ok(found)
}

/// The record at hand, or else the next from R1.
pub fn this_or_next<'a>(
    tracks: &'a [Track],
    host: &HostState,
    at_hand: Option<u8>,
    multi: bool,
) -> Result<FoundRecord<'a>, Refusal>
    requires cylinder { length tracks.now ≡ cylinder_heads }
    ensures found { Gives found_of result
        (this_or_next at_hand (cylinder_of tracks.now) host.now multi) }
    ensures counted { IfOk result (λ found. HasCount (item_of found)) }
{
    match at_hand {
        Some(number) => same_record(&tracks[usize::from(host.head.get())], host, number),
        None => next_record(tracks, host, 1, multi),
    }
}
