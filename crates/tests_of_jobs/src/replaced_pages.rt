// Pages that give their frame to another.
use crate::events::{Course, other_answer, other_of_both};
use crate::running::NONE_FAILS;
use crate::steps::{Row, Step, Told};
use core_state::WorkKind;

const TWO_VOLUMES: &str = "mss 1 frames 1 recorders 1\nvolume 0 VOL001\nvolume 1 VOL002\ndone\n";

const R0: &[u8] = &[0, 0, 0, 0, 0];

const R1: &[u8] = &[0, 0, 0, 0, 1, 0, 0, 1, 0x41];

/// A record of one byte on head 3.
const WRITE_41: &[u8] = &[0, 0, 0, 3, 1, 0, 0, 1, 0x41];

/// Host 2 writes 41 on volume 0, cylinder 0, head 3, and meets the record by search. Host 1 wants the frame. Host 2 writes
/// 42 while its cylinder is destaged, so the task is given up.
const GIVEN_UP: &[Row] = &[
    (1, Step::Mount(2, 0), Told::Mounted),
    (1, Step::Mount(1, 1), Told::Mounted),
    (
        1,
        Step::Chain(2, 0x07, &[0, 0, 0, 0, 0, 3]),
        Told::Status(0x0C, 0),
    ),
    (1, Step::Chain(2, 0x31, &[0, 0, 0, 3, 0]), Told::Fault(0)),
    (1, Step::Work, Told::Did(WorkKind::Pick)),
    (1, Step::Work, Told::Did(WorkKind::Assign)),
    (19, Step::Work, Told::Did(WorkKind::Copy)),
    (1, Step::Work, Told::Did(WorkKind::End)),
    (
        1,
        Step::Chain(2, 0x31, &[0, 0, 0, 3, 0]),
        Told::Status(0x4C, 0),
    ),
    (1, Step::Chain(2, 0x1D, WRITE_41), Told::Marked),
    (1, Step::Chain(2, 0x1D, WRITE_41), Told::Status(0x0C, 0)),
    (
        1,
        Step::Chain(2, 0x31, &[0, 0, 0, 3, 1]),
        Told::Status(0x0C, 0),
    ),
    (
        1,
        Step::Chain(2, 0x31, &[0, 0, 0, 3, 1]),
        Told::Status(0x4C, 0),
    ),
    (1, Step::Ask(1, 0x31, R0), Told::Fault(0)),
    (1, Step::Work, Told::Did(WorkKind::Pick)),
    (1, Step::Work, Told::Did(WorkKind::Fetch)),
    (8, Step::Work, Told::Did(WorkKind::Copy)),
    (1, Step::Ask(2, 0x05, &[0x42]), Told::Status(0x0C, 0)),
    (11, Step::Work, Told::Did(WorkKind::Copy)),
    (1, Step::Work, Told::Did(WorkKind::Abandon)),
];

const GIVING_UP: Course = Course {
    job: TWO_VOLUMES,
    rows: GIVEN_UP,
    entries: 8,
    changes: 5,
    state: Some(4),
};

#[test]
fn a_page_that_is_written_while_it_is_destaged_keeps_its_frame(rt: HostRuntime) {
    assert_eq!(rt; other_answer(rt.alloc(), NONE_FAILS, &GIVING_UP), None);
}

/// Then the frame is taken all the same, and host 2 reads its byte from the cartridge.
const READ_BACK: &[Row] = &[
    (1, Step::Mount(2, 0), Told::Mounted),
    (1, Step::Mount(1, 1), Told::Mounted),
    (
        1,
        Step::Chain(2, 0x07, &[0, 0, 0, 0, 0, 3]),
        Told::Status(0x0C, 0),
    ),
    (1, Step::Chain(2, 0x31, &[0, 0, 0, 3, 0]), Told::Fault(0)),
    (1, Step::Work, Told::Did(WorkKind::Pick)),
    (1, Step::Work, Told::Did(WorkKind::Assign)),
    (19, Step::Work, Told::Did(WorkKind::Copy)),
    (1, Step::Work, Told::Did(WorkKind::End)),
    (
        1,
        Step::Chain(2, 0x31, &[0, 0, 0, 3, 0]),
        Told::Status(0x4C, 0),
    ),
    (1, Step::Chain(2, 0x1D, WRITE_41), Told::Marked),
    (1, Step::Chain(2, 0x1D, WRITE_41), Told::Status(0x0C, 0)),
    (
        1,
        Step::Chain(2, 0x31, &[0, 0, 0, 3, 1]),
        Told::Status(0x0C, 0),
    ),
    (
        1,
        Step::Chain(2, 0x31, &[0, 0, 0, 3, 1]),
        Told::Status(0x4C, 0),
    ),
    (1, Step::Ask(1, 0x31, R0), Told::Fault(0)),
    (1, Step::Work, Told::Did(WorkKind::Pick)),
    (1, Step::Work, Told::Did(WorkKind::Fetch)),
    (8, Step::Work, Told::Did(WorkKind::Copy)),
    (1, Step::Ask(2, 0x05, &[0x42]), Told::Status(0x0C, 0)),
    (11, Step::Work, Told::Did(WorkKind::Copy)),
    (1, Step::Work, Told::Did(WorkKind::Abandon)),
    (1, Step::Work, Told::Did(WorkKind::GiveBack)),
    (1, Step::Work, Told::Did(WorkKind::Pick)),
    (1, Step::Work, Told::Did(WorkKind::Fetch)),
    (19, Step::Work, Told::Did(WorkKind::Copy)),
    (1, Step::Work, Told::Did(WorkKind::End)),
    (1, Step::Work, Told::Did(WorkKind::Free)),
    (1, Step::Work, Told::Did(WorkKind::Assign)),
    (19, Step::Work, Told::Did(WorkKind::Copy)),
    (1, Step::Work, Told::Did(WorkKind::End)),
    (1, Step::Work, Told::Did(WorkKind::GiveBack)),
    (1, Step::Work, Told::Idle),
    (1, Step::Ask(1, 0x31, R0), Told::Status(0x4C, 0)),
    (1, Step::Chain(2, 0x31, &[0, 0, 0, 3, 1]), Told::Fault(0)),
    (1, Step::Work, Told::Did(WorkKind::Pick)),
    (1, Step::Work, Told::Did(WorkKind::Free)),
    (1, Step::Work, Told::Did(WorkKind::Assign)),
    (1, Step::Work, Told::Did(WorkKind::Fetch)),
    (19, Step::Work, Told::Did(WorkKind::Copy)),
    (1, Step::Work, Told::Did(WorkKind::End)),
    (1, Step::Work, Told::Did(WorkKind::GiveBack)),
    (
        1,
        Step::Chain(2, 0x31, &[0, 0, 0, 3, 1]),
        Told::Status(0x0C, 0),
    ),
    (
        1,
        Step::Chain(2, 0x31, &[0, 0, 0, 3, 1]),
        Told::Status(0x4C, 0),
    ),
    (1, Step::Ask(2, 0x06, &[]), Told::Status(0x0C, 0x42)),
];

const READING_BACK: Course = Course {
    job: TWO_VOLUMES,
    rows: READ_BACK,
    entries: 12,
    changes: 12,
    state: None,
};

#[test]
fn a_page_is_destaged_with_what_was_written_meanwhile(rt: HostRuntime) {
    assert_eq!(rt; other_answer(rt.alloc(), NONE_FAILS, &READING_BACK), None);
}

/// Cylinder 0 of both volumes is written, and then both are destaged.
const BOTH_ON_CARTRIDGES: &[Row] = &[
    (1, Step::Mount(1, 0), Told::Mounted),
    (1, Step::Chain(1, 0x31, R0), Told::Fault(0)),
    (1, Step::Settle, Told::Idle),
    (1, Step::Chain(1, 0x31, R0), Told::Status(0x4C, 0)),
    (1, Step::Chain(1, 0x1D, R1), Told::Marked),
    (1, Step::Ask(1, 0x1D, R1), Told::Status(0x0C, 0)),
    (1, Step::Mount(2, 1), Told::Mounted),
    (1, Step::Chain(2, 0x31, R0), Told::Fault(0)),
    (1, Step::Settle, Told::Idle),
    (1, Step::Chain(2, 0x31, R0), Told::Status(0x4C, 0)),
    (1, Step::Chain(2, 0x1D, R1), Told::Marked),
    (1, Step::Ask(2, 0x1D, R1), Told::Status(0x0C, 0)),
    (
        1,
        Step::Chain(1, 0x07, &[0, 0, 0, 8, 0, 0]),
        Told::Status(0x0C, 0),
    ),
    (1, Step::Chain(1, 0x31, &[0, 8, 0, 0, 0]), Told::Fault(8)),
    (1, Step::Settle, Told::Idle),
    (
        1,
        Step::Ask(1, 0x31, &[0, 8, 0, 0, 0]),
        Told::Status(0x4C, 0),
    ),
];

/// The next session has two more frames.
const TWO_MORE_FRAMES: &str =
    "mss 1 frames 3 recorders 1\nvolume 0 VOL001\nvolume 1 VOL002\ndone\n";

const STAGED_IN_TURN: &[Row] = &[
    (1, Step::Mount(1, 0), Told::Mounted),
    (1, Step::Mount(2, 1), Told::Mounted),
    (1, Step::Ask(1, 0x31, R0), Told::Fault(0)),
    (1, Step::Ask(2, 0x31, R0), Told::Fault(0)),
    (1, Step::Work, Told::Did(WorkKind::Pick)),
    (1, Step::Work, Told::Did(WorkKind::Assign)),
    (1, Step::Work, Told::Did(WorkKind::Fetch)),
    (19, Step::Work, Told::Did(WorkKind::Copy)),
    (1, Step::Work, Told::Did(WorkKind::End)),
    (1, Step::Work, Told::Did(WorkKind::GiveBack)),
    (1, Step::Work, Told::Did(WorkKind::Pick)),
    (1, Step::Work, Told::Did(WorkKind::Assign)),
    (1, Step::Work, Told::Did(WorkKind::Fetch)),
    (19, Step::Work, Told::Did(WorkKind::Copy)),
    (1, Step::Work, Told::Did(WorkKind::End)),
    (1, Step::Work, Told::Did(WorkKind::GiveBack)),
    (1, Step::Work, Told::Idle),
];

const CARTRIDGED: Course = Course {
    job: TWO_VOLUMES,
    rows: BOTH_ON_CARTRIDGES,
    entries: 8,
    changes: 14,
    state: Some(1),
};

const STAGED: Course = Course {
    job: TWO_MORE_FRAMES,
    rows: STAGED_IN_TURN,
    entries: 2,
    changes: 4,
    state: Some(3),
};

#[test]
fn cylinders_on_cartridges_are_staged_in_turn(rt: HostRuntime) {
    assert_eq!(rt; other_of_both(rt.alloc(), &CARTRIDGED, &STAGED), None);
}
