// Devices that fail below an event.
use crate::events::{Course, other_answer};
use crate::items::{
    APPEND_ITEMS, CALLS_OF_RESTART, CHANGE_ITEMS, COPY_ITEMS, CREATE_ITEMS, STAGE_ITEMS,
    TRACK_ITEMS,
};
use crate::steps::{Row, Step, Told};
use core_state::WorkKind;
use std::alloc::Global;

const ONE_VOLUME: &str = "mss 1 frames 1 recorders 1\nvolume 0 VOL001\ndone\n";

const R0: &[u8] = &[0, 0, 0, 0, 0];

const R1: &[u8] = &[0, 0, 0, 0, 1, 0, 0, 1, 0x41];

/// Behind the restart a cylinder is staged, searched and told as changed; the track is read, and the write fails.
const WRITE: u64 = CALLS_OF_RESTART + (STAGE_ITEMS + 1) + (CHANGE_ITEMS + 1) + 1;

const WRITE_FAILS: &[Row] = &[
    (1, Step::Mount(1, 0), Told::Mounted),
    (1, Step::Chain(1, 0x31, R0), Told::Fault(0)),
    (1, Step::Work, Told::Did(WorkKind::Pick)),
    (1, Step::Work, Told::Did(WorkKind::Assign)),
    (19, Step::Work, Told::Did(WorkKind::Copy)),
    (1, Step::Work, Told::Did(WorkKind::End)),
    (1, Step::Chain(1, 0x31, R0), Told::Status(0x4C, 0)),
    (1, Step::Ask(1, 0x1D, R1), Told::Marked),
    (1, Step::Ask(1, 0x1D, R1), Told::Stopped(1)),
    (1, Step::Ask(1, 0x03, &[]), Told::Stopped(1)),
    (1, Step::Work, Told::Stopped(1)),
];

const FAILED_WRITE: Course = Course {
    job: ONE_VOLUME,
    rows: WRITE_FAILS,
    entries: 3,
    changes: 4,
    state: None,
};

#[test]
fn a_failed_write_stops_the_session(rt: HostRuntime) {
    assert_eq!(rt; other_answer(rt.alloc(), [WRITE, 0], &FAILED_WRITE), None);
}

/// The first search reads the track, and the second can't.
const SECOND_SEARCH: u64 = CALLS_OF_RESTART + (STAGE_ITEMS + 1) + 1;

const READ_FAILS: &[Row] = &[
    (1, Step::Mount(1, 0), Told::Mounted),
    (1, Step::Chain(1, 0x31, R0), Told::Fault(0)),
    (1, Step::Work, Told::Did(WorkKind::Pick)),
    (1, Step::Work, Told::Did(WorkKind::Assign)),
    (19, Step::Work, Told::Did(WorkKind::Copy)),
    (1, Step::Work, Told::Did(WorkKind::End)),
    (1, Step::Chain(1, 0x31, R0), Told::Status(0x4C, 0)),
    (1, Step::Ask(1, 0x31, R0), Told::EquipmentCheck),
    (1, Step::Ask(1, 0x04, &[]), Told::Status(0x0C, 0x10)),
    (1, Step::Ask(1, 0x31, R0), Told::Status(0x4C, 0)),
];

const FAILED_READ: Course = Course {
    job: ONE_VOLUME,
    rows: READ_FAILS,
    entries: 5,
    changes: 3,
    state: None,
};

#[test]
fn a_failed_read_is_an_equipment_check_once(rt: HostRuntime) {
    assert_eq!(rt;
        other_answer(rt.alloc(), [SECOND_SEARCH, 0], &FAILED_READ),
        None
    );
}

/// The frame is told, and three tracks are written.
const FOURTH_TRACK: u64 = CALLS_OF_RESTART + CHANGE_ITEMS + 4;

/// The fourth track can't be written, so the host is told; then the cylinder is staged anew.
const COPY_FAILS: &[Row] = &[
    (1, Step::Mount(1, 0), Told::Mounted),
    (1, Step::Ask(1, 0x31, R0), Told::Fault(0)),
    (1, Step::Work, Told::Did(WorkKind::Pick)),
    (1, Step::Work, Told::Did(WorkKind::Assign)),
    (3, Step::Work, Told::Did(WorkKind::Copy)),
    (1, Step::Work, Told::Did(WorkKind::Copy)),
    (1, Step::Work, Told::Idle),
    (1, Step::Ask(1, 0x31, R0), Told::EquipmentCheck),
    (1, Step::Ask(1, 0x31, R0), Told::Fault(0)),
    (1, Step::Work, Told::Did(WorkKind::Pick)),
    (19, Step::Work, Told::Did(WorkKind::Copy)),
    (1, Step::Work, Told::Did(WorkKind::End)),
    (1, Step::Ask(1, 0x31, R0), Told::Status(0x4C, 0)),
];

const FAILED_COPY: Course = Course {
    job: ONE_VOLUME,
    rows: COPY_FAILS,
    entries: 3,
    changes: 3,
    state: None,
};

#[test]
fn a_failed_copy_is_an_equipment_check_of_its_host(rt: HostRuntime) {
    assert_eq!(rt;
        other_answer(rt.alloc(), [FOURTH_TRACK, 0], &FAILED_COPY),
        None
    );
}

/// The frame is told, the tracks are written, and the sync behind them fails.
const STAGING_SYNC: u64 = CALLS_OF_RESTART + CHANGE_ITEMS + COPY_ITEMS;

/// The tracks aren't firm, so the host is told, and no row says that the cylinder is staged; then it is staged anew.
const STAGING_SYNC_FAILS: &[Row] = &[
    (1, Step::Mount(1, 0), Told::Mounted),
    (1, Step::Ask(1, 0x31, R0), Told::Fault(0)),
    (1, Step::Work, Told::Did(WorkKind::Pick)),
    (1, Step::Work, Told::Did(WorkKind::Assign)),
    (19, Step::Work, Told::Did(WorkKind::Copy)),
    (1, Step::Work, Told::Did(WorkKind::End)),
    (1, Step::Work, Told::Idle),
    (1, Step::Ask(1, 0x31, R0), Told::EquipmentCheck),
    (1, Step::Ask(1, 0x31, R0), Told::Fault(0)),
    (1, Step::Work, Told::Did(WorkKind::Pick)),
    (19, Step::Work, Told::Did(WorkKind::Copy)),
    (1, Step::Work, Told::Did(WorkKind::End)),
    (1, Step::Ask(1, 0x31, R0), Told::Status(0x4C, 0)),
];

const UNSYNCED_STAGING: Course = Course {
    job: ONE_VOLUME,
    rows: STAGING_SYNC_FAILS,
    entries: 3,
    changes: 3,
    state: None,
};

#[test]
fn a_staging_that_cant_be_synced_isnt_told_in_its_row(rt: HostRuntime) {
    assert_eq!(rt;
        other_answer(rt.alloc(), [STAGING_SYNC, 0], &UNSYNCED_STAGING),
        None
    );
}

/// Behind the 19 tracks of the second staging the row can't be written, and the second fault has its own number.
const ROW_BEHIND: u64 = STAGING_SYNC + COPY_ITEMS + 1;

const STAGING_AND_ROW_FAIL: &[Row] = &[
    (1, Step::Mount(1, 0), Told::Mounted),
    (1, Step::Ask(1, 0x31, R0), Told::Fault(0)),
    (1, Step::Work, Told::Did(WorkKind::Pick)),
    (1, Step::Work, Told::Did(WorkKind::Assign)),
    (19, Step::Work, Told::Did(WorkKind::Copy)),
    (1, Step::Work, Told::Did(WorkKind::End)),
    (1, Step::Ask(1, 0x31, R0), Told::EquipmentCheck),
    (1, Step::Ask(1, 0x31, R0), Told::Fault(0)),
    (1, Step::Work, Told::Did(WorkKind::Pick)),
    (19, Step::Work, Told::Did(WorkKind::Copy)),
    (1, Step::Work, Told::Stopped(2)),
    (1, Step::Ask(1, 0x31, R0), Told::Stopped(2)),
];

const UNSTAGED: Course = Course {
    job: ONE_VOLUME,
    rows: STAGING_AND_ROW_FAIL,
    entries: 2,
    changes: 2,
    state: None,
};

#[test]
fn two_failed_calls_have_two_numbers(rt: HostRuntime) {
    assert_eq!(rt;
        other_answer(rt.alloc(), [STAGING_SYNC, ROW_BEHIND], &UNSTAGED),
        None
    );
}

const TWO_VOLUMES: &str = "mss 1 frames 1 recorders 1\nvolume 0 VOL001\nvolume 1 VOL002\ndone\n";

/// The restart creates one volume more; then a cylinder is staged, searched, told as changed, read and written. The
/// first copy to the cartridge can't read the frame.
const FRAME_UNREAD: u64 = CALLS_OF_RESTART
    + (CREATE_ITEMS + 2)
    + (STAGE_ITEMS + 1)
    + (CHANGE_ITEMS + 1 + APPEND_ITEMS)
    + 1;

/// The sync behind the copies to the cartridge.
const DESTAGE_SYNC: u64 = FRAME_UNREAD - 1 + TRACK_ITEMS + COPY_ITEMS;

/// The host that waits for that sync is told, and the cylinder is still changed.
const DESTAGE_SYNC_FAILS: &[Row] = &[
    (1, Step::Mount(1, 0), Told::Mounted),
    (1, Step::Mount(2, 1), Told::Mounted),
    (1, Step::Chain(1, 0x31, R0), Told::Fault(0)),
    (1, Step::Settle, Told::Idle),
    (1, Step::Chain(1, 0x31, R0), Told::Status(0x4C, 0)),
    (1, Step::Chain(1, 0x1D, R1), Told::Marked),
    (1, Step::Ask(1, 0x1D, R1), Told::Status(0x0C, 0)),
    (1, Step::Ask(2, 0x31, R0), Told::Fault(0)),
    (1, Step::Work, Told::Did(WorkKind::Pick)),
    (1, Step::Work, Told::Did(WorkKind::Fetch)),
    (19, Step::Work, Told::Did(WorkKind::Copy)),
    (1, Step::Work, Told::Did(WorkKind::End)),
    (1, Step::Work, Told::Did(WorkKind::GiveBack)),
    (1, Step::Work, Told::Idle),
    (1, Step::Ask(2, 0x31, R0), Told::EquipmentCheck),
];

const UNSYNCED_DESTAGE: Course = Course {
    job: TWO_VOLUMES,
    rows: DESTAGE_SYNC_FAILS,
    entries: 5,
    changes: 5,
    state: Some(4),
};

#[test]
fn a_destage_that_cant_be_synced_leaves_its_cylinder_changed(rt: HostRuntime) {
    assert_eq!(rt;
        other_answer(rt.alloc(), [DESTAGE_SYNC, 0], &UNSYNCED_DESTAGE),
        None
    );
}

/// The host that waits for the first copy is told. At its next try it gets the frame: the cylinder is copied, the
/// row changes four times, the other one is staged, and its search reads a track. Two changes later the cartridge
/// can't be read.
const CARTRIDGE_UNREAD: u64 = FRAME_UNREAD
    + (TRACK_ITEMS + COPY_ITEMS)
    + (4 * CHANGE_ITEMS + COPY_ITEMS + 1)
    + 2 * CHANGE_ITEMS
    + 1;

const BOTH_FAIL: &[Row] = &[
    (1, Step::Mount(1, 0), Told::Mounted),
    (1, Step::Mount(2, 1), Told::Mounted),
    (1, Step::Chain(1, 0x31, R0), Told::Fault(0)),
    (1, Step::Settle, Told::Idle),
    (1, Step::Chain(1, 0x31, R0), Told::Status(0x4C, 0)),
    (1, Step::Chain(1, 0x1D, R1), Told::Marked),
    (1, Step::Ask(1, 0x1D, R1), Told::Status(0x0C, 0)),
    (1, Step::Ask(2, 0x31, R0), Told::Fault(0)),
    (1, Step::Work, Told::Did(WorkKind::Pick)),
    (1, Step::Work, Told::Did(WorkKind::Fetch)),
    (1, Step::Work, Told::Did(WorkKind::Copy)),
    (1, Step::Work, Told::Did(WorkKind::GiveBack)),
    (1, Step::Work, Told::Idle),
    (1, Step::Ask(2, 0x31, R0), Told::EquipmentCheck),
    (1, Step::Ask(2, 0x31, R0), Told::Fault(0)),
    (1, Step::Settle, Told::Idle),
    (1, Step::Ask(2, 0x31, R0), Told::Status(0x4C, 0)),
    // The first host's cylinder is on its cartridge now.
    (1, Step::Ask(1, 0x31, R0), Told::Fault(0)),
    (1, Step::Work, Told::Did(WorkKind::Pick)),
    (1, Step::Work, Told::Did(WorkKind::Free)),
    (1, Step::Work, Told::Did(WorkKind::Assign)),
    (1, Step::Work, Told::Did(WorkKind::Fetch)),
    (1, Step::Work, Told::Did(WorkKind::Copy)),
    (1, Step::Ask(1, 0x31, R0), Told::EquipmentCheck),
    (1, Step::Ask(1, 0x04, &[]), Told::Status(0x0C, 0x10)),
    (1, Step::Ask(1, 0x31, R0), Told::Fault(0)),
    (1, Step::Settle, Told::Idle),
    (1, Step::Ask(1, 0x31, R0), Told::Status(0x4C, 0)),
];

const FAILED_BOTH: Course = Course {
    job: TWO_VOLUMES,
    rows: BOTH_FAIL,
    entries: 9,
    changes: 12,
    state: None,
};

fn other_unread(alloc: Global) -> Option<usize> {
    other_answer(alloc, [FRAME_UNREAD, CARTRIDGE_UNREAD], &FAILED_BOTH)
}

#[test]
fn a_frame_and_a_cartridge_that_fail_once_are_told_once(rt: HostRuntime) {
    assert_eq!(rt; other_unread(rt.alloc()), None);
}
