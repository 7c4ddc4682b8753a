// Two hosts of one volume, and hosts that bind all frames.
use crate::events::{Course, other_answer};
use crate::running::NONE_FAILS;
use crate::steps::{Row, Step, Told};
use core_state::WorkKind;

pub const ONE_VOLUME: &str = "mss 1 frames 1 recorders 1\nvolume 0 VOL001\ndone\n";

/// R0 of cylinder 0, head 0; a record of one byte, 41.
const R0: &[u8] = &[0, 0, 0, 0, 0];

const R1: &[u8] = &[0, 0, 0, 0, 1, 0, 0, 1, 0x41];

pub const TURNS: &[Row] = &[
    (1, Step::Work, Told::Idle),
    (1, Step::Mount(1, 0), Told::Mounted),
    (1, Step::Mount(2, 0), Told::Mounted),
    (1, Step::Chain(1, 0x31, R0), Told::Fault(0)),
    (1, Step::Ask(2, 0x03, &[]), Told::Busy(1)),
    (1, Step::Work, Told::Did(WorkKind::Pick)),
    // Its own host can't do anything else while its request is served.
    (1, Step::Ask(1, 0x03, &[]), Told::Fault(0)),
    (1, Step::Work, Told::Did(WorkKind::Assign)),
    (19, Step::Work, Told::Did(WorkKind::Copy)),
    (1, Step::Work, Told::Did(WorkKind::End)),
    (1, Step::Work, Told::Idle),
    (1, Step::Chain(1, 0x31, R0), Told::Status(0x4C, 0)),
    (1, Step::Ask(2, 0x03, &[]), Told::Busy(1)),
    (1, Step::Ask(1, 0x1D, R1), Told::Marked),
    (1, Step::Ask(1, 0x1D, R1), Told::Status(0x0C, 0)),
    (1, Step::Ask(2, 0x03, &[]), Told::Status(0x0C, 0)),
    (1, Step::Work, Told::Idle),
];

const TAKING_TURNS: Course = Course {
    job: ONE_VOLUME,
    rows: TURNS,
    entries: 5,
    changes: 4,
    state: None,
};

#[test]
fn a_host_waits_for_the_owner_of_its_volume(rt: HostRuntime) {
    assert_eq!(rt; other_answer(rt.alloc(), NONE_FAILS, &TAKING_TURNS), None);
}

const THREE_VOLUMES: &str =
    "mss 1 frames 2 recorders 1\nvolume 0 VOL001\nvolume 1 VOL002\nvolume 2 VOL003\ndone\n";

/// Both frames are bound, until a host demounts.
const NO_SPACE: &[Row] = &[
    (1, Step::Bind(1, 0), Told::Mounted),
    (1, Step::Bind(2, 1), Told::Mounted),
    (1, Step::Mount(3, 2), Told::Mounted),
    (1, Step::Ask(1, 0x31, R0), Told::Fault(0)),
    (1, Step::Ask(2, 0x31, R0), Told::Fault(0)),
    (1, Step::Work, Told::Did(WorkKind::Pick)),
    (1, Step::Work, Told::Did(WorkKind::Assign)),
    (19, Step::Work, Told::Did(WorkKind::Copy)),
    (1, Step::Work, Told::Did(WorkKind::End)),
    (1, Step::Work, Told::Did(WorkKind::Pick)),
    (1, Step::Work, Told::Did(WorkKind::Assign)),
    (19, Step::Work, Told::Did(WorkKind::Copy)),
    (1, Step::Work, Told::Did(WorkKind::End)),
    (1, Step::Work, Told::Idle),
    (1, Step::Ask(3, 0x31, R0), Told::NoSpace),
    (1, Step::Ask(1, 0x31, R0), Told::Status(0x4C, 0)),
    (1, Step::Ask(2, 0x31, R0), Told::Status(0x4C, 0)),
    (1, Step::Demount(1), Told::Demounted),
    (1, Step::Ask(3, 0x31, R0), Told::Fault(0)),
    (1, Step::Work, Told::Did(WorkKind::Pick)),
    // The page that is to give its frame can't be bound meanwhile.
    (1, Step::Bind(1, 0), Told::Held(0)),
    (1, Step::Work, Told::Did(WorkKind::Free)),
    (1, Step::Bind(1, 0), Told::Mounted),
    (1, Step::Work, Told::Did(WorkKind::Assign)),
    (19, Step::Work, Told::Did(WorkKind::Copy)),
    (1, Step::Work, Told::Did(WorkKind::End)),
    (1, Step::Ask(3, 0x31, R0), Told::Status(0x4C, 0)),
];

const WITHOUT_SPACE: Course = Course {
    job: THREE_VOLUMES,
    rows: NO_SPACE,
    entries: 9,
    changes: 10,
    state: None,
};

#[test]
fn there_is_no_space_while_every_frame_is_bound(rt: HostRuntime) {
    assert_eq!(rt; other_answer(rt.alloc(), NONE_FAILS, &WITHOUT_SPACE), None);
}

/// A command without a volume; an update that no search leads to; a seek that the file mask forbids.
const REFUSED: &[Row] = &[
    (1, Step::Ask(1, 0x03, &[]), Told::Status(0x0E, 0)),
    (1, Step::Mount(1, 0), Told::Mounted),
    (1, Step::Ask(1, 0x05, &[0x41]), Told::Status(0x0E, 0)),
    (1, Step::Ask(1, 0x04, &[]), Told::Status(0x0C, 0x80)),
    (1, Step::Work, Told::Idle),
    (1, Step::Chain(1, 0x1F, &[0x18]), Told::Status(0x0C, 0)),
    (
        1,
        Step::Ask(1, 0x07, &[0, 0, 0, 5, 0, 3]),
        Told::Status(0x0E, 0),
    ),
    (1, Step::Work, Told::Idle),
];

const REFUSING: Course = Course {
    job: ONE_VOLUME,
    rows: REFUSED,
    entries: 6,
    changes: 1,
    state: None,
};

#[test]
fn a_refused_command_asks_for_no_cylinder(rt: HostRuntime) {
    assert_eq!(rt; other_answer(rt.alloc(), NONE_FAILS, &REFUSING), None);
}

/// 4,096 entries, and then none more.
const FILLED: &[Row] = &[
    (4096, Step::Demount(1), Told::AnotherReply),
    (1, Step::Demount(1), Told::Limit),
    (1, Step::Work, Told::Idle),
];

const FILLING: Course = Course {
    job: ONE_VOLUME,
    rows: FILLED,
    entries: 4096,
    changes: 1,
    state: None,
};

#[test]
fn the_history_ends_with_4096_entries(rt: HostRuntime) {
    assert_eq!(rt; other_answer(rt.alloc(), NONE_FAILS, &FILLING), None);
}
