//! Records and tracks as values.
ghost use Rattle.std.specs.Prelude.{◌≡◌};

use mss_base::{Bytes, Listed};
use std::marker::Model;

/// A record: its ID (CC HH R), its key of at most 255 bytes and its data of at most 65,535 bytes.
#[derive(Drop)]
pub struct Record {
    pub id: [u8; 5],
    pub key: Bytes,
    pub body: Bytes,
}

impl Model for Record {
    ghost use Rattle.ckd_track.specs.Data.{RecordData};

    ghost Value = { RecordData };

    ghost view = { λ r. record { id = r.id; key = r.key.items; body = r.body.items } };
}

/// The records of a track, R1 first.
pub type Records = Listed<Record>;

/// A track: records whose costs together are at most 13,165.
#[derive(Drop)]
pub struct Track {
    pub records: Records,
}

impl Model for Track {
    ghost use Rattle.std.specs.Prelude.{List};
    ghost use Rattle.ckd_track.specs.Data.{RecordData, IsTrack};

    ghost Value = { List RecordData };

    ghost view = { λ t. t.records.items };

    ghost invariant = { λ t. IsTrack t.records.items };
}
