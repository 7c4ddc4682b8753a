// Records where they stand in a block: nothing is copied, and no memory is taken.
ghost use Rattle.std.specs.Prelude.{◌≡◌, ◌≤◌, ◌+◌, ℕ, [], Some, IfOk, IfErr, MatchOption, length};
ghost use Rattle.std.specs.Iterator.{YieldsFirstBy, item_count};
ghost use Rattle.mss_base.specs.Geometry.{block_bytes};
ghost use Rattle.ckd_track.specs.Data.{IsTrack, cost_of};
ghost use Rattle.ckd_track.specs.Track.{reading, reading_of, before, stopped_at, record_length, record_at};

use crate::layout::{
    FIRST_PLACE, GATES, TRACK_COST, cost_at, cost_of_lengths, data_length, key_length,
    record_length,
};
use crate::{BadRecord, Record, TrackCause};
use mss_base::{Bytes, NoMemory, OPEN};
use std::alloc::Global;
use std::marker::Model;

/// A record in its block: its ID (CC HH R), its key of at most 255 bytes and its data of at most
/// 65,535 bytes.
#[derive(Drop)]
pub struct StoredRecord<'a> {
    pub id: [u8; 5],
    pub key: &'a [u8],
    pub body: &'a [u8],
}

impl<'a> Model for StoredRecord<'a> {
    ghost use Rattle.ckd_track.specs.Data.{RecordData};

    ghost Value = { RecordData };

    ghost use Rattle.ckd_track.specs.Stored.{stored_data, stored_holds};

    ghost view = { stored_data };

    ghost invariant = { stored_holds };
}

impl<'a> StoredRecord<'a> {
    /// What it takes of its track.
    pub fn cost(&self) -> u32
        ensures { result ≡ cost_of self.now }
    {
        cost_of_lengths(self.key.len() as u8, self.body.len() as u16)
    }

    /// A copy of it.
    pub fn to_record(&self, alloc: Global) -> Result<Record, NoMemory>
        ensures { IfOk result (λ copy. copy ≡ self.now) }
    {
        let key = Bytes::of(alloc, self.key)?;
        let body = Bytes::of(alloc, self.body)?;
        Ok(Record {
            id: self.id,
            key,
            body,
        })
    }
}

/// The records of a block's track that are left to read, the first one first.
#[derive(Drop)]
pub struct StoredRecords<'a> {
    block: &'a [u8],
    number: u8,
    place: usize,
    spent: u32,
}

impl<'a> Model for StoredRecords<'a> {
    ghost use Rattle.ckd_track.specs.Track.{Reading};

    ghost Value = { Reading };

    ghost use Rattle.ckd_track.specs.Stored.{rest_of, walk_holds};

    ghost view = { rest_of };

    ghost invariant = { walk_holds };
}

/// The records of the track of a block of 16,384 bytes, from R1 on.
#[tactic(auto, unfolding(crate::specs::Track::reading))]
pub fn stored_records(block: &[u8]) -> StoredRecords<'_>
    requires { length block.now ≡ block_bytes }
    ensures all { result ≡ reading block.now }
    ensures track { IsTrack (reading block.now).records }
{
    StoredRecords {
        block,
        number: 1,
        place: FIRST_PLACE,
        spent: 0,
    }
}

/// The record that begins at a place (`find_place`). Those before it aren't looked at.
pub fn record_at(block: &[u8], place: u16) -> StoredRecord<'_>
    requires { place + record_length place block.now ≤ length block.now }
    ensures { result ≡ record_at place block.now }
{
    let place = place as usize;
    let id = [
        block[place],
        block[place + 1],
        block[place + 2],
        block[place + 3],
        block[place + 4],
    ];
    let key_end = place + 8 + key_length(block, place) as usize;
    let body_end = key_end + data_length(block, place) as usize;
    StoredRecord {
        id,
        key: &block[place + 8..key_end],
        body: &block[key_end..body_end],
    }
}

impl<'a> StoredRecords<'a> {
    /// The next record, or `None` where the track ends.
    ///
    /// After `None` and after the bad record it stands where it stood.
    pub fn next_record(&mut self) -> Result<Option<StoredRecord<'a>>, BadRecord>
        ensures next { IfOk result (λ found. MatchOption found
            ((self.old ≡ reading_of []) × (self.new ≡ self.old))
            (λ r. self.old ≡ before r self.new)) }
        ensures bad { IfErr result (λ e. (self.old ≡ stopped_at e) × (self.new ≡ self.old)) }
    {
        let block = self.block;
        let number = self.number;
        if block[GATES as usize + number as usize] != OPEN {
            return Ok(None);
        }
        let place = self.place;
        let end = place + record_length(block, place);
        if end > block.len() {
            let cause = TrackCause::RunsPast;
            return Err(BadRecord { number, cause });
        }
        let spent = self.spent + cost_at(block, place);
        if spent > TRACK_COST {
            let cause = TrackCause::Overfull;
            return Err(BadRecord { number, cause });
        }
        self.number += 1;
        self.place = end;
        self.spent = spent;
        Ok(Some(record_at(block, place as u16)))
    }
}

impl<'a> Iterator for StoredRecords<'a> {
    type Item = StoredRecord<'a>;

    ghost next_gives = { YieldsFirstBy (λ r. r) (λ s. s.records) };

    ghost remaining = { item_count (λ s. s.records) };

    fn next(&mut self) -> Option<StoredRecord<'a>> {
        match self.next_record() {
            Ok(found) => found,
            Err(_) => None,
        }
    }
}
