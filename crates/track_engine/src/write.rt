// Writes.
ghost use Rattle.std.specs.Prelude.{◌≡◌, ◌≤◌, ◌<◌, ◌+◌, ◌-◌, Ok, None, [], length, take};
ghost use Rattle.std.specs.Prelude.{IfOk, OnOk, IfErr, IfSome, Bool, true};
ghost use Rattle.mss_base.specs.Content.{content};
ghost use Rattle.mss_base.specs.Sites.{OnlyReads};
ghost use Rattle.mss_base.specs.declared.place.UnitNo.{UnitNo};
ghost use Rattle.ckd_track.specs.Data.{cost, cost_of, HasCount};
ghost use Rattle.ckd_track.specs.Track.{reading, record_at};
ghost use Rattle.ckd_track.specs.Formatting.{IsRecord};
ghost use Rattle.ckd_track.specs.Updating.{updated_length, record_behind, MayUpdate};
ghost use Rattle.ckd_plain.specs.Data.{padded_bytes};
ghost use Rattle.ckd_plain.specs.Effects.{new_record, prior_number, write_};
ghost use Rattle.ckd_plain.specs.Views.{item_of};
ghost use Rattle.track_engine.specs.Tracks.{tracks_on, AreTracksOn, IsBlockOn, IsTrackAt};
ghost use Rattle.track_engine.specs.Faults.{HasNotFailed, ReadsDevices, UsesDevices};
ghost use Rattle.track_engine.specs.Found.{IsPlaceOf, GivesBut, KeepsVolume, StandsIn};
ghost use Rattle.track_engine.specs.Writing.{CarriesOut, Spells, formatted_behind, target_in};
ghost use Rattle.track_engine.specs.Writing.{target_of, update_kind, updated_at, updated_with};
ghost use Rattle.mss_base.specs.Geometry.{track_cost, update_items, format_items};

use crate::find::{RecordPlace, bring_record, found_in};
use crate::place::{CylinderPlace, EngineFault, NotDone};
use channel_commands::{Command, WriteKind};
use ckd_plain::steps::{DONE, DoneCommand, FoundRecord, written};
use ckd_plain::{HostState, Prior, Refusal, UnitCheck};
use ckd_track::{TRACK_COST, cost_at, cost_of_front, format_record, record_length, update_record};
use mss_base::{BlockPlace, Bytes, Failed, NoMemory, Site};
use std::alloc::Global;

/// The first bytes of an argument, where it has so many.
fn first_bytes(argument: &[u8], length: usize) -> Option<&[u8]>
    ensures { IfSome result (λ bytes. bytes.now ≡ padded_bytes length argument.now) }
{
    if length > argument.len() {
        return None;
    }
    Some(&argument[..length])
}

/// The argument's count, key and data, where it has all their bytes.
fn whole_record(argument: &[u8]) -> Option<&[u8]>
    requires { 8 ≤ length argument.now }
    ensures { IfSome result (λ bytes. Spells argument.now bytes.now) }
{
    first_bytes(argument, record_length(argument, 0))
}

/// The argument's count, and its key and data padded with zeros.
fn padded_record(alloc: Global, argument: &[u8]) -> Result<Bytes, NoMemory>
    requires { 8 ≤ length argument.now }
    ensures { IfOk result (λ bytes. Spells argument.now bytes.items) }
{
    Bytes::padded(alloc, record_length(argument, 0), argument)
}

/// The record behind which the argument's record goes, where that fits. The block of the host's track is brought then.
fn kept_record<S: Site>(
    site: &mut S,
    place: &CylinderPlace,
    host: &HostState,
    left: Prior,
    argument: &[u8],
) -> Result<RecordPlace, NotDone>
    requires long { 8 ≤ length argument.now }
    ensures format { S.tells → GivesBut
        (formatted_behind (reading (S.brought site.new)).records (new_record argument.now)) result
        (write_ (tracks_on (S.told site.old) place.now host.now.head)
        host.now left WriteKind.CountKeyData argument.now) }
    ensures fits { IfOk result (λ at. cost (take at.number (reading (S.brought site.new)).records)
        + cost_of (new_record argument.now) ≤ track_cost) }
    ensures itself { IfOk result (IsPlaceOf (prior_number left) host.now (S.brought site.new)) }
    ensures block { S.tells → OnOk result
        (IsBlockOn (S.told site.old) place.now host.now.head (S.brought site.new)) }
    ensures volume { KeepsVolume (λ at. at.host) host.now.mounted result }
    ensures site_ { ReadsDevices S.Site place.now.unit site.old site.new result }
{
    let at = bring_record(site, place, host, left.number())?;
    let cost = cost_of_front(site.brought(), at.number) + cost_at(argument, 0);
    if cost > TRACK_COST {
        return Err(NotDone::Refused(Refusal {
            check: UnitCheck::InvalidTrackFormat,
            host: *host,
        }));
    }
    Ok(at)
}

/// Formats a record behind the one at a place, in the block that was brought last.
#[tactic(auto, using(ckd_track::proofs::TrackFacts::reading_length), unfolding(ckd_plain::specs::Effects::is_ending))]
fn format_behind<S: Site>(
    alloc: Global,
    site: &mut S,
    to: &BlockPlace,
    at: &RecordPlace,
    bytes: &[u8],
) -> Result<DoneCommand, NotDone>
    requires track { S.tells → IsTrackAt (content (S.told site.old)) to.now (S.brought site.old) }
    requires there { at.now.number ≤ length (reading (S.brought site.old)).records }
    requires record { IsRecord bytes.now }
    requires fits { cost (take at.now.number (reading (S.brought site.old)).records)
        + cost_of (record_at 0 bytes.now) ≤ track_cost }
    requires room { format_items ≤ S.spare site.old }
    ensures done { S.tells → CarriesOut (Ok
        (formatted_behind (reading (S.brought site.old)).records (record_at 0 bytes.now) at.now))
        (Command.Write WriteKind.CountKeyData) (target_in to.now (S.brought site.old) at.now)
        (S.told site.old) (S.told site.new) result }
    ensures volume { KeepsVolume (λ done. done.host) at.now.host.mounted result }
    ensures site_ { UsesDevices S.Site format_items true to.now.unit site.old site.new result }
    ensures works { (but : UnitNo → Bool) → S.never_fails_but site.old but
        → IfErr result HasNotFailed }
{
    let number = at.number + 1;
    match format_record(site, to, number, bytes) {
        Ok(()) => Ok(written(alloc, &at.host, DONE, number, Prior::Wrote(number))),
        Err(Failed) => Err(NotDone::Fault(EngineFault::WriteFailed {
            fault: site.faults(),
        })),
    }
}

/// Formats the argument's record behind the one at a place, in the block that was brought last.
#[tactic(auto, using(crate::proofs::Formats::format_spelled))]
fn format_argument<S: Site>(
    alloc: Global,
    site: &mut S,
    to: &BlockPlace,
    at: &RecordPlace,
    argument: &[u8],
) -> Result<DoneCommand, NotDone>
    requires long { 8 ≤ length argument.now }
    requires track { S.tells → IsTrackAt (content (S.told site.old)) to.now (S.brought site.old) }
    requires there { at.now.number ≤ length (reading (S.brought site.old)).records }
    requires fits { cost (take at.now.number (reading (S.brought site.old)).records)
        + cost_of (new_record argument.now) ≤ track_cost }
    requires room { format_items ≤ S.spare site.old }
    ensures done { S.tells → CarriesOut (Ok
        (formatted_behind (reading (S.brought site.old)).records (new_record argument.now) at.now))
        (Command.Write WriteKind.CountKeyData) (target_in to.now (S.brought site.old) at.now)
        (S.told site.old) (S.told site.new) result }
    ensures volume { KeepsVolume (λ done. done.host) at.now.host.mounted result }
    ensures site_ { UsesDevices S.Site format_items true to.now.unit site.old site.new result }
{
    match whole_record(argument) {
        Some(bytes) => format_behind(alloc, site, to, at, bytes),
        None => {
            let bytes = padded_record(alloc, argument)?;
            format_behind(alloc, site, to, at, bytes.as_slice())
        }
    }
}

/// Write count key data.
pub fn write_count_key_data<S: Site>(
    alloc: Global,
    site: &mut S,
    place: &CylinderPlace,
    host: &HostState,
    left: Prior,
    argument: &[u8],
) -> Result<DoneCommand, NotDone>
    requires long { 8 ≤ length argument.now }
    requires tracks { S.tells → AreTracksOn (S.told site.old) place.now }
    requires room { format_items ≤ S.spare site.old }
    ensures done { S.tells → CarriesOut
        (write_ (tracks_on (S.told site.old) place.now host.now.head)
        host.now left WriteKind.CountKeyData argument.now)
        (Command.Write WriteKind.CountKeyData)
        (target_of (S.told site.old) place.now host.now left)
        (S.told site.old) (S.told site.new) result }
    ensures volume { KeepsVolume (λ done. done.host) host.now.mounted result }
    ensures site_ { UsesDevices S.Site format_items true place.now.unit site.old site.new result }
{
    let to = place.block_of(host.head);
    let at = kept_record(site, place, host, left, argument)?;
    format_argument(alloc, site, &to, &at, argument)
}

/// How many bytes an update of the record writes: its data, or its key and data.
fn updated_length(found: &FoundRecord<'_>, key_too: bool) -> usize
    requires { HasCount (item_of found.now) }
    ensures { result ≡ updated_length key_too (item_of found.now) }
{
    if key_too {
        found.key.len() + found.body.len()
    } else {
        found.body.len()
    }
}

/// Updates the record at a place, in the block that was brought last.
fn update_at<S: Site>(
    alloc: Global,
    site: &mut S,
    to: &BlockPlace,
    at: &RecordPlace,
    key_too: bool,
    bytes: &[u8],
) -> Result<DoneCommand, NotDone>
    requires track { S.tells → IsTrackAt (content (S.told site.old)) to.now (S.brought site.old) }
    requires may { MayUpdate at.now.number at.now.begins_at key_too bytes.now (S.brought site.old) }
    requires room { update_items ≤ S.spare site.old }
    ensures done { S.tells → CarriesOut (Ok
        (updated_at key_too (reading (S.brought site.old)).records bytes.now at.now))
        (Command.Write (update_kind key_too)) (target_in to.now (S.brought site.old) at.now)
        (S.told site.old) (S.told site.new) result }
    ensures volume { KeepsVolume (λ done. done.host) at.now.host.mounted result }
    ensures untouched { bytes.now ≡ [] → site.new ≡ site.old }
    ensures site_ { UsesDevices S.Site update_items true to.now.unit site.old site.new result }
    ensures works { (but : UnitNo → Bool) → S.never_fails_but site.old but
        → IfErr result HasNotFailed }
{
    let status = found_in(site.brought(), at).status();
    match update_record(site, to, at.number, at.begins_at, key_too, bytes) {
        Ok(()) => Ok(written(alloc, &at.host, status, at.number, at.host.prior)),
        Err(Failed) => Err(NotDone::Fault(EngineFault::WriteFailed {
            fault: site.faults(),
        })),
    }
}

/// Updates the record at a place with an argument, in the block that was brought last.
#[tactic(auto, using(crate::proofs::Updates::argument_updated))]
fn update_argument<S: Site>(
    alloc: Global,
    site: &mut S,
    to: &BlockPlace,
    at: &RecordPlace,
    key_too: bool,
    argument: &[u8],
) -> Result<DoneCommand, NotDone>
    requires track { S.tells → IsTrackAt (content (S.told site.old)) to.now (S.brought site.old) }
    requires first { 1 ≤ at.now.number }
    requires stands { StandsIn (S.brought site.old) at.now }
    requires room { update_items ≤ S.spare site.old }
    ensures done { S.tells → CarriesOut (Ok
        (updated_with key_too (reading (S.brought site.old)).records argument.now at.now))
        (Command.Write (update_kind key_too)) (target_in to.now (S.brought site.old) at.now)
        (S.told site.old) (S.told site.new) result }
    ensures volume { KeepsVolume (λ done. done.host) at.now.host.mounted result }
    ensures untouched { updated_length key_too (record_behind (at.now.number - 1)
        (reading (S.brought site.old)).records) ≡ 0 → site.new ≡ site.old }
    ensures site_ { UsesDevices S.Site update_items true to.now.unit site.old site.new result }
{
    let length = updated_length(&found_in(site.brought(), at), key_too);
    match first_bytes(argument, length) {
        Some(bytes) => update_at(alloc, site, to, at, key_too, bytes),
        None => {
            let bytes = Bytes::padded(alloc, length, argument)?;
            update_at(alloc, site, to, at, key_too, bytes.as_slice())
        }
    }
}

/// Write data, or with `key_too` write key data.
pub fn write_data<S: Site>(
    alloc: Global,
    site: &mut S,
    place: &CylinderPlace,
    host: &HostState,
    left: Prior,
    key_too: bool,
    argument: &[u8],
) -> Result<DoneCommand, NotDone>
    requires first { 0 < prior_number left }
    requires tracks { S.tells → AreTracksOn (S.told site.old) place.now }
    requires room { update_items ≤ S.spare site.old }
    ensures done { S.tells → CarriesOut
        (write_ (tracks_on (S.told site.old) place.now host.now.head)
        host.now left (update_kind key_too) argument.now)
        (Command.Write (update_kind key_too))
        (target_of (S.told site.old) place.now host.now left)
        (S.told site.old) (S.told site.new) result }
    ensures volume { KeepsVolume (λ done. done.host) host.now.mounted result }
    ensures untouched { S.tells → updated_length key_too (record_behind (prior_number left - 1)
        (tracks_on (S.told site.old) place.now host.now.head)) ≡ 0
        → OnlyReads S.Site site.old site.new }
    ensures site_ { UsesDevices S.Site update_items true place.now.unit site.old site.new result }
{
    let to = place.block_of(host.head);
    let at = bring_record(site, place, host, left.number())?;
    update_argument(alloc, site, &to, &at, key_too, argument)
}
