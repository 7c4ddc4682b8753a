// Where a command finds its record.
ghost use Rattle.std.specs.Prelude.{◌≡◌, Bool, false, Ok, Err, None, length};
ghost use Rattle.std.specs.Prelude.{IfOk, IsOk, OnOk, IfErr, MatchOption, MatchResult};
ghost use Rattle.mss_base.specs.Counts.{HasCause};
ghost use Rattle.mss_base.specs.Sites.{OnlyReads};
ghost use Rattle.mss_base.specs.declared.place.UnitNo.{UnitNo};
ghost use Rattle.ckd_track.specs.Data.{HasCount};
ghost use Rattle.ckd_track.specs.Track.{reading};
ghost use Rattle.ckd_plain.specs.Views.{item_of, found_of};
ghost use Rattle.ckd_plain.specs.Index.{record_at, pass_index, next_record, same_record, to_home};
ghost use Rattle.ckd_plain.specs.Effects.{this_or_next};
ghost use Rattle.track_engine.specs.Tracks.{tracks_on, IsBlockOn};
ghost use Rattle.track_engine.specs.Faults.{IsFailedRead, ReadsDevices};
ghost use Rattle.track_engine.specs.Found.{found_at, StandsIn, IsPlaceOf, GivesBut, KeepsVolume};
ghost use Rattle.mss_base.specs.Geometry.{block_bytes};

use crate::place::{CylinderPlace, EngineFault, NotDone};
use ckd_plain::steps::{FoundRecord, candidate, pass_index, to_home};
use ckd_plain::{HostState, Refusal, UnitCheck};
use ckd_track::{find_place, record_at};
use mss_base::{Failed, Head, Site};

/// How many tracks a command may look at.
const LOOKS: u8 = 20;

/// A record that was found on the host's track, and where it begins in the block: at 0 R0, which stands in none.
///
/// The block is lent by its site, so the record itself can't be kept while a command goes on.
#[derive(Clone, Copy)]
pub struct RecordPlace {
    pub number: u8,
    pub begins_at: u16,
    pub host: HostState,
}

/// Brings the block of a head to where the site shows it.
pub fn bring_block<S: Site>(
    site: &mut S,
    place: &CylinderPlace,
    head: Head,
) -> Result<(), EngineFault>
    ensures block { S.tells
        → OnOk result (IsBlockOn (S.told site.old) place.now head (S.brought site.new)) }
    ensures reads { OnlyReads S.Site site.old site.new }
    ensures cause { HasCause (S.faults site.old) (S.faults site.new) result }
    ensures fault { IfErr result (IsFailedRead (S.faults site.new)) }
    ensures works { (but : UnitNo → Bool) → S.never_fails_but site.old but
        → but place.now.unit ≡ false → IsOk result }
{
    let at = place.block_of(head);
    match site.bring(at.unit, at.block) {
        Ok(()) => Ok(()),
        Err(Failed) => Err(EngineFault::ReadFailed {
            fault: site.faults(),
        }),
    }
}

/// The place of record `number` of the host's track, which is that of the block, where it is there.
fn place_in(block: &[u8], host: &HostState, number: usize) -> Option<RecordPlace>
    requires { length block.now ≡ block_bytes }
    ensures { MatchOption result
        (record_at (reading block.now).records host.now number ≡ None)
        (IsPlaceOf number host.now block.now) }
{
    if number == 0 {
        return Some(RecordPlace {
            number: 0,
            begins_at: 0,
            host: *host,
        });
    }
    if number > 97 {
        return None;
    }
    let number = number as u8;
    let begins_at = find_place(block, number)?;
    Some(RecordPlace {
        number,
        begins_at,
        host: *host,
    })
}

/// The record at a place in its block.
pub fn found_in<'a>(block: &'a [u8], at: &RecordPlace) -> FoundRecord<'a>
    requires whole { length block.now ≡ block_bytes }
    requires there { StandsIn block.now at.now }
    ensures found { found_of result ≡ found_at block.now at.now }
    ensures counted { HasCount (item_of result) }
{
    if at.number == 0 {
        return FoundRecord::zero(&at.host);
    }
    let stored = record_at(block, at.begins_at);
    FoundRecord {
        number: at.number,
        id: stored.id,
        key: stored.key,
        body: stored.body,
        host: at.host,
    }
}

/// Passes the index, and brings the block of the next head where the head was raised.
fn pass<S: Site>(
    site: &mut S,
    place: &CylinderPlace,
    host: &HostState,
    multi: bool,
) -> Result<HostState, NotDone>
    ensures passed { GivesBut (λ passed. passed) result (pass_index host.now multi) }
    ensures block { S.tells
        → IsBlockOn (S.told site.old) place.now host.now.head (S.brought site.old)
        → IfOk result (λ passed.
        IsBlockOn (S.told site.old) place.now passed.head (S.brought site.new)) }
    ensures volume { KeepsVolume (λ passed. passed) host.now.mounted result }
    ensures site_ { ReadsDevices S.Site place.now.unit site.old site.new result }
{
    let passed = pass_index(*host, multi)?;
    if passed.head == host.head {
        return Ok(passed);
    }
    bring_block(site, place, passed.head)?;
    Ok(passed)
}

/// The next record, where `first` is the first that counts. The block that has it is brought then.
pub fn next_record<S: Site>(
    site: &mut S,
    place: &CylinderPlace,
    from: &HostState,
    first: u8,
    multi: bool,
) -> Result<RecordPlace, NotDone>
    ensures found { S.tells → GivesBut (found_at (S.brought site.new)) result
        (next_record (tracks_on (S.told site.old) place.now) from.now first multi) }
    ensures there { IfOk result (StandsIn (S.brought site.new)) }
    ensures volume { KeepsVolume (λ at. at.host) from.now.mounted result }
    ensures site_ { ReadsDevices S.Site place.now.unit site.old site.new result }
{
    let mut host = *from;
    bring_block(site, place, host.head)?;
    for _ in 0..LOOKS {
        let number = candidate(host.position, first);
        if let Some(at) = place_in(site.brought(), &host, number) {
            return Ok(at);
        }
        host = pass(site, place, &host, multi)?;
    }
    Err(NotDone::Refused(Refusal {
        check: UnitCheck::NoRecordFound,
        host,
    }))
}

/// Record `number` itself, on the host's track, which is that of the block.
#[tactic(auto, unfolding(ckd_plain::specs::Index::same_record))]
fn same_record(block: &[u8], host: &HostState, number: u8) -> Result<RecordPlace, Refusal>
    requires { length block.now ≡ block_bytes }
    ensures found { MatchResult result
        (λ at. same_record (reading block.now).records host.now number ≡ Ok (found_at block.now at))
        (λ refusal. same_record (reading block.now).records host.now number ≡ Err refusal) }
    ensures itself { IfOk result (IsPlaceOf number host.now block.now) }
    ensures volume { IfErr result (λ refusal. refusal.host ≡ host.now) }
{
    let Some(at) = place_in(block, host, usize::from(number)) else {
        return Err(Refusal {
            check: UnitCheck::NoRecordFound,
            host: *host,
        });
    };
    Ok(at)
}

/// Record `number` itself, on the host's track. The block that has it is brought then.
pub fn bring_record<S: Site>(
    site: &mut S,
    place: &CylinderPlace,
    host: &HostState,
    number: u8,
) -> Result<RecordPlace, NotDone>
    ensures found { S.tells → GivesBut (found_at (S.brought site.new)) result
        (same_record (tracks_on (S.told site.old) place.now host.now.head) host.now number) }
    ensures itself { IfOk result (IsPlaceOf number host.now (S.brought site.new)) }
    ensures block { S.tells → OnOk result
        (IsBlockOn (S.told site.old) place.now host.now.head (S.brought site.new)) }
    ensures volume { KeepsVolume (λ at. at.host) host.now.mounted result }
    ensures site_ { ReadsDevices S.Site place.now.unit site.old site.new result }
{
    bring_block(site, place, host.head)?;
    Ok(same_record(site.brought(), host, number)?)
}

/// The record at hand on the host's track, or else the next from R1. The block that has it is brought then.
pub fn this_or_next<S: Site>(
    site: &mut S,
    place: &CylinderPlace,
    host: &HostState,
    at_hand: Option<u8>,
    multi: bool,
) -> Result<RecordPlace, NotDone>
    ensures found { S.tells → GivesBut (found_at (S.brought site.new)) result
        (this_or_next at_hand (tracks_on (S.told site.old) place.now) host.now multi) }
    ensures there { IfOk result (StandsIn (S.brought site.new)) }
    ensures volume { KeepsVolume (λ at. at.host) host.now.mounted result }
    ensures site_ { ReadsDevices S.Site place.now.unit site.old site.new result }
{
    let Some(number) = at_hand else {
        return next_record(site, place, host, 1, multi);
    };
    bring_record(site, place, host, number)
}

/// The host at the home address of its track, or of the next. No block is needed for that.
pub fn at_home(host: &HostState, multi: bool) -> Result<HostState, Refusal>
    ensures home { result ≡ to_home host.now multi }
    ensures volume { MatchResult result (λ there. there.mounted ≡ host.now.mounted)
        (λ refusal. refusal.host.mounted ≡ host.now.mounted) }
{
    to_home(*host, multi)
}
