//! Tracks of count-key-data records, as values and in blocks of 16,384 bytes.
//!
//! A track is read from its block (`read_track`), looked at where it lies, without memory (`find_place`,
//! `record_at`, `stored_records`, `check_track`), and changed by `format_record` and `update_record`, whose stop at any
//! moment leaves a track. Each call is exact by `reading`, the definition of a block's track in
//! specs/Track.antt. Records as plain data stand in specs/Data.antt, what formatting and updating may leave
//! in specs/Formatting.antt and specs/Updating.antt, and what holds of every block's records, and of every
//! track, in proofs/TrackFacts.antt.
#![tactic(auto)]

mod format;
mod in_place;
mod layout;
mod read;
mod record;
mod stored;
mod track;
mod update;

pub use format::{FORMAT_ITEMS, format_record};
pub use in_place::{check_track, cost_of_front, find_place, is_blank, record_count};
pub use layout::{TRACK_COST, cost_at, cost_of_lengths, record_length};
pub use mss_base::BlockPlace;
pub use read::{ReadTrackFault, read_front, read_track};
pub use record::{Record, Records, Track};
pub use stored::{StoredRecord, StoredRecords, record_at, stored_records};
pub use track::{BadRecord, TrackCause};
pub use update::update_record;
