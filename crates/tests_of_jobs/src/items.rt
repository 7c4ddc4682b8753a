// How many items of a site's log the steps of a session make, so many calls of the devices as well.

/// All units are synced, before a site is opened, or one is.
pub const SYNC_ITEMS: u64 = 1;

/// A row is created: each copy is marked, and then each is filled and opened, with a sync behind each of these
/// writes.
pub const CREATE_ITEMS: u64 = 12;

/// A row is changed: each copy gets a slot, by its body and then by its gate, and each of these writes is synced.
pub const CHANGE_ITEMS: u64 = 8;

/// The tracks of a cylinder are written where they are copied to.
pub const TRACK_ITEMS: u64 = 19;

/// They are all written, and then the unit is synced that they went to.
pub const COPY_ITEMS: u64 = TRACK_ITEMS + SYNC_ITEMS;

/// A frame is assigned, a blank cylinder is staged in it, and both are told in the row.
pub const STAGE_ITEMS: u64 = CHANGE_ITEMS + COPY_ITEMS + CHANGE_ITEMS;

/// A record is formatted behind the last one of its track: it is written and synced, its gate is opened and synced.
pub const APPEND_ITEMS: u64 = 4;

/// A record is formatted that has others behind it: its gate is closed and synced before, and theirs are closed.
pub const FORMAT_ITEMS: u64 = 7;

/// A record is updated: its bytes are written and synced.
pub const UPDATE_ITEMS: u64 = 2;

/// How many calls there are before the session on one volume. All units are synced. For the survey both copies of
/// 32 rows are read, and again for repairs. Then each copy of the new row is read and marked, and each is filled by
/// two writes, with a sync behind each write.
pub const CALLS_OF_RESTART: u64 = SYNC_ITEMS + 128 + 2 + CREATE_ITEMS;
