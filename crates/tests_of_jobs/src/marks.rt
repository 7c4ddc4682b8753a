// How many writes stand before each entry and each change of rows, of whole runs on blank devices.
use crate::items::{
    APPEND_ITEMS, CHANGE_ITEMS, COPY_ITEMS, CREATE_ITEMS, FORMAT_ITEMS, STAGE_ITEMS, SYNC_ITEMS,
    TRACK_ITEMS,
};
use crate::jobs::{REPLACEMENT, THREE_HOSTS, THREE_RECORDS, WRITE_AND_READ};

/// How many writes and syncs a job makes on blank devices, and how many of them before each entry and each change
/// of rows.
#[derive(Clone, Copy)]
pub struct Marks {
    pub job: &'static str,
    pub writes: u64,
    pub entries: &'static [u64],
    pub changes: &'static [u64],
}

// The moments behind the steps of a session on one volume.
const CREATED: u64 = SYNC_ITEMS + CREATE_ITEMS;

const ASSIGNED: u64 = CREATED + CHANGE_ITEMS;

pub const STAGED: u64 = CREATED + STAGE_ITEMS;

pub const CHANGED: u64 = STAGED + CHANGE_ITEMS;

pub const APPENDED: u64 = CHANGED + APPEND_ITEMS;

const WRITTEN: Marks = Marks {
    job: WRITE_AND_READ,
    writes: APPENDED,
    entries: &[
        CREATED, CREATED, STAGED, APPENDED, APPENDED, APPENDED, APPENDED, APPENDED,
    ],
    changes: &[CREATED, ASSIGNED, STAGED, CHANGED],
};

pub const THREE_APPENDED: u64 = CHANGED + 3 * APPEND_ITEMS;

/// The three records, each behind the last, and the new one.
const FORMATTING: Marks = Marks {
    job: THREE_RECORDS,
    writes: THREE_APPENDED + FORMAT_ITEMS,
    entries: &[
        CREATED,
        STAGED,
        APPENDED,
        APPENDED + APPEND_ITEMS,
        THREE_APPENDED,
        THREE_APPENDED,
        THREE_APPENDED,
        THREE_APPENDED + FORMAT_ITEMS,
    ],
    changes: &[CREATED, ASSIGNED, STAGED, CHANGED],
};

// A cylinder is destaged, its page freed, and another one staged in the frame.
const REPLACE_ITEMS: u64 = COPY_ITEMS + 2 * CHANGE_ITEMS + STAGE_ITEMS;

pub const REPLACED_ONCE: u64 = APPENDED + REPLACE_ITEMS;

pub const APPENDED_AGAIN: u64 = REPLACED_ONCE + CHANGE_ITEMS + APPEND_ITEMS;

pub const RETURNED: u64 = APPENDED_AGAIN + REPLACE_ITEMS;

const REPLACING: Marks = Marks {
    job: REPLACEMENT,
    writes: RETURNED,
    entries: &[
        CREATED,
        CREATED,
        STAGED,
        APPENDED,
        APPENDED,
        REPLACED_ONCE,
        APPENDED_AGAIN,
        APPENDED_AGAIN,
        RETURNED,
        RETURNED,
        RETURNED,
    ],
    changes: &[
        CREATED,
        ASSIGNED,
        STAGED,
        CHANGED,
        APPENDED + COPY_ITEMS + CHANGE_ITEMS,
        APPENDED + COPY_ITEMS + 2 * CHANGE_ITEMS,
        APPENDED + COPY_ITEMS + 3 * CHANGE_ITEMS,
        REPLACED_ONCE,
        REPLACED_ONCE + CHANGE_ITEMS,
        APPENDED_AGAIN + COPY_ITEMS + CHANGE_ITEMS,
        APPENDED_AGAIN + COPY_ITEMS + 2 * CHANGE_ITEMS,
        APPENDED_AGAIN + COPY_ITEMS + 3 * CHANGE_ITEMS,
        RETURNED,
    ],
};

const FOUR_CREATED: u64 = SYNC_ITEMS + 4 * CREATE_ITEMS;

const THREE_STAGED: u64 = FOUR_CREATED + 3 * STAGE_ITEMS;

const THREE_CHANGED: u64 = THREE_STAGED + 3 * CHANGE_ITEMS;

const FIRST_WRITES: u64 = THREE_CHANGED + APPEND_ITEMS;

const SECOND_WRITES: u64 = FIRST_WRITES + APPEND_ITEMS;

const THIRD_WRITES: u64 = SECOND_WRITES + APPEND_ITEMS;

const FOURTH_STAGED: u64 = THIRD_WRITES + STAGE_ITEMS;

const FOURTH_CHANGED: u64 = FOURTH_STAGED + CHANGE_ITEMS;

const ALL_WRITTEN: u64 = FOURTH_CHANGED + APPEND_ITEMS;

/// The searches of the three hosts are answered when all three cylinders are staged. Two recorders assign and stage
/// side by side, both on one disk, which the first sync makes firm for both; then one of them does for the third
/// host.
const TURNING: Marks = Marks {
    job: THREE_HOSTS,
    writes: ALL_WRITTEN,
    entries: &[
        FOUR_CREATED,
        FOUR_CREATED,
        FOUR_CREATED,
        FOUR_CREATED,
        FOUR_CREATED,
        FOUR_CREATED,
        FOUR_CREATED,
        FOUR_CREATED,
        FOUR_CREATED,
        FOUR_CREATED,
        FOUR_CREATED,
        FOUR_CREATED,
        THREE_STAGED,
        THREE_STAGED,
        THREE_STAGED,
        FIRST_WRITES,
        SECOND_WRITES,
        THIRD_WRITES,
        THIRD_WRITES,
        THIRD_WRITES,
        THIRD_WRITES,
        THIRD_WRITES,
        THIRD_WRITES,
        THIRD_WRITES,
        THIRD_WRITES,
        THIRD_WRITES,
        THIRD_WRITES,
        THIRD_WRITES,
        THIRD_WRITES,
        THIRD_WRITES,
        THIRD_WRITES,
        THIRD_WRITES,
        THIRD_WRITES,
        THIRD_WRITES,
        THIRD_WRITES,
        THIRD_WRITES,
        THIRD_WRITES,
        THIRD_WRITES,
        THIRD_WRITES,
        THIRD_WRITES,
        THIRD_WRITES,
        FOURTH_STAGED,
        ALL_WRITTEN,
    ],
    changes: &[
        CREATED,
        SYNC_ITEMS + 2 * CREATE_ITEMS,
        SYNC_ITEMS + 3 * CREATE_ITEMS,
        FOUR_CREATED,
        FOUR_CREATED + CHANGE_ITEMS,
        FOUR_CREATED + 2 * CHANGE_ITEMS,
        FOUR_CREATED + 2 * TRACK_ITEMS + SYNC_ITEMS + 3 * CHANGE_ITEMS,
        FOUR_CREATED + 2 * STAGE_ITEMS,
        FOUR_CREATED + 2 * STAGE_ITEMS + CHANGE_ITEMS,
        THREE_STAGED,
        THREE_STAGED + CHANGE_ITEMS,
        THREE_STAGED + 2 * CHANGE_ITEMS,
        THREE_CHANGED,
        THIRD_WRITES + CHANGE_ITEMS,
        FOURTH_STAGED,
        FOURTH_CHANGED,
    ],
};

/// Each of these runs.
pub const RUNS: &[Marks] = &[WRITTEN, FORMATTING, REPLACING, TURNING];
