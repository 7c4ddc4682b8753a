// What a block's track is, found by walking over its counts: nothing is copied, and no memory is taken.
ghost use Rattle.std.specs.Prelude.{◌≡◌, ◌≤◌, ◌<◌, ◌+◌, ◌-◌, ◌↔◌, [], None, Some, length, take};
ghost use Rattle.std.specs.Prelude.{IsTrue, IsOk, IfErr, MatchOption};
ghost use Rattle.mss_base.specs.Geometry.{block_bytes, track_gates, track_cost, track_records_at};
ghost use Rattle.ckd_track.specs.Data.{IsTrack, cost};
ghost use Rattle.ckd_track.specs.Track.{reading, reading_of, reading_from, BeginsAt};
ghost use Rattle.ckd_track.specs.Stored.{GoesOn};

use crate::layout::{FIRST_PLACE, GATES, TRACK_COST, cost_at, record_length};
use crate::{BadRecord, stored_records};
use mss_base::{Block, OPEN};

/// Whether a block is a track, or its first record that is no part of one.
///
/// It looks at one byte of a blank track.
pub fn check_track(block: &Block) -> Result<(), BadRecord>
    ensures ok { IsOk result ↔ ((reading block.now).bad ≡ None) }
    ensures bad { IfErr result (λ e. (reading block.now).bad ≡ Some e) }
    ensures track { IsTrack (reading block.now).records }
{
    let mut stored = stored_records(block.as_slice());
    while stored.next_record()?.is_some() {}
    Ok(())
}

/// Whether a block is a blank track, which its first gate tells.
pub fn is_blank(block: &Block) -> bool
    ensures { IsTrue result ↔ (reading block.now ≡ reading_of []) }
{
    block.as_slice()[GATES as usize + 1] != OPEN
}

/// What the records up to this one cost together, where it is one of the track.
///
/// One that the track has room for ends inside the block, so its cost is all that is looked at behind its gate.
fn cost_up_to(block: &[u8], number: u8, place: usize, cost_before: u32) -> Option<u32>
    requires whole { length block.now ≡ block_bytes }
    requires few { number ≤ track_gates }
    requires cheap { cost_before ≤ track_cost }
    requires near { place ≤ track_records_at + cost_before }
    ensures { MatchOption result
        (length (reading_from (99 - number) number place cost_before block.now).records ≡ 0)
        (GoesOn number place cost_before block.now) }
{
    if block[GATES as usize + number as usize] != OPEN {
        return None;
    }
    let cost = cost_before + cost_at(block, place);
    if cost > TRACK_COST {
        return None;
    }
    Some(cost)
}

/// Where record `number` of a block's track begins: the place of its count. R0 stands in no block.
pub fn find_place(block: &[u8], number: u8) -> Option<u16>
    requires whole { length block.now ≡ block_bytes }
    requires first { 1 ≤ number }
    ensures { MatchOption result (length (reading block.now).records < number)
        (λ place. BeginsAt number place block.now) }
{
    let mut place = FIRST_PLACE;
    let mut cost = 0;
    for earlier in 1..number {
        cost = cost_up_to(block, earlier, place, cost)?;
        place += record_length(block, place);
    }
    cost_up_to(block, number, place, cost)?;
    Some(place as u16)
}

/// How many records there are on a block's track.
#[tactic(auto, using(crate::proofs::TrackFacts::reading_length))]
pub fn record_count(block: &Block) -> u8
    ensures count { result ≡ length (reading block.now).records }
    ensures few { result ≤ 97 }
{
    stored_records(block.as_slice()).count() as u8
}

/// What the first `count` records of a block's track take of it together.
pub fn cost_of_front(block: &[u8], count: u8) -> u32
    requires { length block.now ≡ block_bytes }
    ensures cost { result ≡ cost (take count (reading block.now).records) }
    ensures within { result ≤ track_cost }
{
    let mut stored = stored_records(block);
    let mut cost = 0;
    for _ in 0..count {
        let Some(record) = stored.next() else {
            return cost;
        };
        cost += record.cost();
    }
    cost
}
