// Writes.
ghost use Rattle.std.specs.Prelude.{◌≡◌, ◌+◌, ◌-◌, ◌<◌, ◌≤◌, ◌^◌, [], ◌∷◌, ◌++◌, length, take, drop, slice_set, slice_index_or, IsTrue, IfOk, OnOk, OnErr};
ghost use Rattle.channel_commands.specs.Codes.{least};
ghost use Rattle.ckd_track.specs.Data.{blank_record, cost_of, cost, HasCount};
ghost use Rattle.ckd_plain.specs.Checks.{is_prior_permitted};
ghost use Rattle.ckd_plain.specs.Data.{padded_bytes};
ghost use Rattle.ckd_plain.specs.Effects.{new_record, write_, prior_number};
ghost use Rattle.plain_machine.specs.Outcomes.{GivesWritten};
ghost use Rattle.mss_base.specs.Geometry.{track_cost};

use crate::index::same_record;
use crate::trouble::Trouble;
use channel_commands::{Command, WriteKind};
use ckd_plain::steps::{DONE, DoneCommand, number_at, written};
use ckd_plain::{HostState, Prior, Refusal, UnitCheck};
use ckd_track::{Record, TRACK_COST, Track, cost_of_lengths};
use mss_base::{Bytes, NoMemory};
use std::alloc::Global;

fn cost_of(stored: &Record) -> u32
    requires { HasCount stored.now }
    ensures { result ≡ cost_of stored.now }
{
    let key = stored.key.as_slice();
    let body = stored.body.as_slice();
    cost_of_lengths(key.len() as u8, body.len() as u16)
}

/// What the first `count` records cost.
fn cost_of_first(track: &Track, count: usize) -> u32
    requires { count ≤ length track.now }
    ensures value { result ≡ cost (take count track.now) }
    ensures within { result ≤ track_cost }
{
    let records = &track.records.as_slice()[..count];
    let mut cost = 0;
    for record in records {
        cost += cost_of(record);
    }
    cost
}

/// Gives the record at a place another key and other data of the same lengths.
fn set_key_body(track: &mut Track, place: usize, key: Bytes, body: Bytes)
    requires there { place < length track.old }
    requires same_key { length key.items ≡ length
        (slice_index_or track.old place blank_record).key }
    requires same_body { length body.items ≡ length
        (slice_index_or track.old place blank_record).body }
    ensures { track.new ≡ slice_set track.old place
        (record (slice_index_or track.old place blank_record)
        { key = key.items; body = body.items }) }
{
    let old = &track.records.as_slice()[place];
    let id = old.id;
    track.records.set(place, Record { id, key, body });
}

/// Ends the track before a record, and puts a new one there.
fn format(track: &mut Track, count: usize, new: Record) -> Result<(), NoMemory>
    requires there { count ≤ length track.old }
    requires counted { HasCount new }
    requires fits { cost (take count track.old ++ new ∷ []) ≤ track_cost }
    ensures ok { OnOk result (track.new ≡ take count track.old ++ new ∷ []) }
    ensures err { OnErr result (track.new ≡ track.old) }
{
    track.records.reserve(1)?;
    track.records.truncate(count);
    track.records.push(new);
    Ok(())
}

/// A key and data of these lengths: the bytes, cut or padded with zeros.
fn key_and_body(
    alloc: Global,
    key_length: usize,
    body_length: usize,
    bytes: &[u8],
) -> Result<(Bytes, Bytes), NoMemory>
    requires { key_length + body_length < 2 ^ 64 }
    ensures key { IfOk result (λ both. both.0.items
        ≡ take key_length (padded_bytes (key_length + body_length) bytes.now)) }
    ensures body { IfOk result (λ both. both.1.items
        ≡ drop key_length (padded_bytes (key_length + body_length) bytes.now)) }
    ensures key_length { IfOk result (λ both. length both.0.items ≡ key_length) }
    ensures body_length { IfOk result (λ both. length both.1.items ≡ body_length) }
{
    let bytes = Bytes::padded(alloc, key_length + body_length, bytes)?;
    let (key, body) = bytes.as_slice().split_at(key_length);
    let key = Bytes::of(alloc, key)?;
    let body = Bytes::of(alloc, body)?;
    Ok((key, body))
}

/// The record that a count, a key and data spell.
fn new_record(alloc: Global, argument: &[u8]) -> Result<Record, NoMemory>
    requires { 8 ≤ length argument.now }
    ensures value { IfOk result (λ r. r ≡ new_record argument.now) }
    ensures counted { IfOk result HasCount }
{
    let key_length = usize::from(argument[5]);
    let body_length = usize::from(number_at(argument, 6));
    let (key, body) = key_and_body(alloc, key_length, body_length, &argument[8..])?;
    Ok(Record {
        id: [
            argument[0],
            argument[1],
            argument[2],
            argument[3],
            argument[4],
        ],
        key,
        body,
    })
}

#[tactic(auto, unfolding(ckd_plain::specs::Effects::write_))]
fn write_data(
    alloc: Global,
    track: &mut Track,
    host: &HostState,
    left: Prior,
    argument: &[u8],
) -> Result<DoneCommand, Trouble>
    requires { 0 < prior_number left }
    ensures { GivesWritten track.old track.new result
        (write_ track.old host.now left WriteKind.Data argument.now) }
{
    let number = left.number();
    let (status, copied, length) = match &same_record(track, host, number) {
        Ok(found) => (
            found.status(),
            Bytes::of(alloc, found.key),
            found.body.len(),
        ),
        Err(refusal) => return Err(Trouble::Refused(*refusal)),
    };
    let key = copied?;
    let body = Bytes::padded(alloc, length, argument)?;
    set_key_body(track, usize::from(number) - 1, key, body);
    Ok(written(alloc, host, status, number, host.prior))
}

#[tactic(auto, unfolding(ckd_plain::specs::Effects::write_))]
fn write_key_data(
    alloc: Global,
    track: &mut Track,
    host: &HostState,
    left: Prior,
    argument: &[u8],
) -> Result<DoneCommand, Trouble>
    requires { 0 < prior_number left }
    ensures { GivesWritten track.old track.new result
        (write_ track.old host.now left WriteKind.KeyData argument.now) }
{
    let number = left.number();
    let (status, key_length, body_length) = match &same_record(track, host, number) {
        Ok(found) => (found.status(), found.key.len(), found.body.len()),
        Err(refusal) => return Err(Trouble::Refused(*refusal)),
    };
    let (key, body) = key_and_body(alloc, key_length, body_length, argument)?;
    set_key_body(track, usize::from(number) - 1, key, body);
    Ok(written(alloc, host, status, number, host.prior))
}

#[tactic(auto, unfolding(ckd_plain::specs::Effects::write_, ckd_plain::specs::Effects::is_ending))]
fn write_count_key_data(
    alloc: Global,
    track: &mut Track,
    host: &HostState,
    left: Prior,
    argument: &[u8],
) -> Result<DoneCommand, Trouble>
    requires { 8 ≤ length argument.now }
    ensures { GivesWritten track.old track.new result
        (write_ track.old host.now left WriteKind.CountKeyData argument.now) }
{
    let number = left.number();
    if let Err(refusal) = &same_record(track, host, number) {
        return Err(Trouble::Refused(*refusal));
    }
    let new = new_record(alloc, argument)?;
    let kept = usize::from(number);
    if cost_of_first(track, kept) + cost_of(&new) > TRACK_COST {
        return Err(Trouble::Refused(Refusal {
            check: UnitCheck::InvalidTrackFormat,
            host: *host,
        }));
    }
    format(track, kept, new)?;
    Ok(written(alloc, host, DONE, number + 1, Prior::Wrote(number + 1)))
}

/// A write of any kind, on the host's track, where the command before left this prior.
#[tactic(auto, unfolding(ckd_plain::specs::Effects::write_))]
pub fn write(
    alloc: Global,
    track: &mut Track,
    host: &HostState,
    left: Prior,
    kind: WriteKind,
    argument: &[u8],
) -> Result<DoneCommand, Trouble>
    requires long { least (Command.Write kind) ≤ length argument.now }
    requires permitted { IsTrue (is_prior_permitted left (Command.Write kind)) }
    ensures { GivesWritten track.old track.new result
        (write_ track.old host.now left kind argument.now) }
{
    match kind {
        WriteKind::Data => write_data(alloc, track, host, left, argument),
        WriteKind::KeyData => write_key_data(alloc, track, host, left, argument),
        WriteKind::CountKeyData => write_count_key_data(alloc, track, host, left, argument),
    }
}
