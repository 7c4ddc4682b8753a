// Reading the track of a block into memory of its own.
ghost use Rattle.std.specs.Prelude.{◌≡◌, IfOk, IfErr, length};
ghost use Rattle.mss_base.specs.Geometry.{block_bytes};
ghost use Rattle.ckd_track.specs.Track.{reading, reading_of};
ghost use Rattle.ckd_track.specs.ReadTrackFault.{IsFault};
ghost use Rattle.ckd_track.specs.declared.read.ReadTrackFault.TheVariants.{Bad, Memory};

use crate::{BadRecord, Records, Track, TrackCause, stored_records};
use mss_base::NoMemory;
use std::alloc::Global;

/// Why no track could be read.
#[derive(Clone, Copy, Debug, PartialEq, Eq)]
pub enum ReadTrackFault {
    /// Record `number`, counted from 1, is no part of a track, and those before it are.
    Bad { number: u8, cause: TrackCause },
    /// Memory ran out.
    Memory,
}

impl From<NoMemory> for ReadTrackFault {
    ghost from_gives = { λ _ e. e ≡ Memory };

    fn from(_: NoMemory) -> Self {
        ReadTrackFault::Memory
    }
}

impl From<BadRecord> for ReadTrackFault {
    ghost from_gives = { λ bad e. e ≡ Bad bad.number bad.cause };

    fn from(bad: BadRecord) -> Self {
        ReadTrackFault::Bad {
            number: bad.number,
            cause: bad.cause,
        }
    }
}

/// The track of a block of 16,384 bytes, or the first record that is no part of one.
pub fn read_track(alloc: Global, block: &[u8]) -> Result<Track, ReadTrackFault>
    requires { length block.now ≡ block_bytes }
    ensures track { IfOk result (λ t. reading block.now ≡ reading_of t) }
    ensures bad { IfErr result (λ e. IsFault e (reading block.now)) }
{
    let mut stored = stored_records(block);
    let mut records = Records::new(alloc);
    while let Some(record) = stored.next_record()? {
        records.reserve(1)?;
        records.push(record.to_record(alloc)?);
    }
    Ok(Track { records })
}

/// The records of a block of 16,384 bytes before the first that is no part of a track.
pub fn read_front(alloc: Global, block: &[u8]) -> Result<Track, NoMemory>
    requires { length block.now ≡ block_bytes }
    ensures { IfOk result (λ t. t ≡ (reading block.now).records) }
{
    let mut records = Records::new(alloc);
    for record in stored_records(block) {
        records.reserve(1)?;
        records.push(record.to_record(alloc)?);
    }
    Ok(Track { records })
}
