// A chooser of our own: the third page takes the frame of the second. `tests/cases` shows the program's choice.
use crate::events::{Course, other_by};
use crate::running::NONE_FAILS;
use crate::steps::{Row, Step, Told};
use core_state::WorkKind;
use victim_choice::Kept;

/// Two frames for three pages.
const TWO_FRAMES: &str =
    "mss 1 frames 2 recorders 1\nvolume 0 VOL001\nvolume 1 VOL002\nvolume 2 VOL003\ndone\n";

const R0: &[u8] = &[0, 0, 0, 0, 0];

const LAST_TAKEN: &[Row] = &[
    (1, Step::Mount(1, 0), Told::Mounted),
    (1, Step::Mount(2, 1), Told::Mounted),
    (1, Step::Mount(3, 2), Told::Mounted),
    (1, Step::Ask(1, 0x31, R0), Told::Fault(0)),
    (1, Step::Settle, Told::Idle),
    (1, Step::Ask(1, 0x31, R0), Told::Status(0x4C, 0)),
    (1, Step::Ask(2, 0x31, R0), Told::Fault(0)),
    (1, Step::Settle, Told::Idle),
    (1, Step::Ask(2, 0x31, R0), Told::Status(0x4C, 0)),
    (1, Step::Demount(2), Told::Demounted),
    (1, Step::Ask(3, 0x31, R0), Told::Fault(0)),
    (1, Step::Work, Told::Did(WorkKind::Pick)),
    // The page that is to give its frame can't be bound meanwhile.
    (1, Step::Bind(2, 1), Told::Held(1)),
    (1, Step::Work, Told::Did(WorkKind::Free)),
    (1, Step::Work, Told::Did(WorkKind::Assign)),
    (19, Step::Work, Told::Did(WorkKind::Copy)),
    (1, Step::Work, Told::Did(WorkKind::End)),
    (1, Step::Work, Told::Idle),
    (1, Step::Ask(3, 0x31, R0), Told::Status(0x4C, 0)),
    // The page that was looked at least recently has its frame still.
    (1, Step::Ask(1, 0x31, R0), Told::Status(0x4C, 0)),
];

const TAKING_THE_LAST: Course = Course {
    job: TWO_FRAMES,
    rows: LAST_TAKEN,
    entries: 8,
    changes: 10,
    state: Some(2),
};

#[test]
fn a_kept_closure_chooses_for_a_session(rt: HostRuntime) {
    let last = Kept::new(|list| list.len() - 1);
    assert_eq!(rt;
        other_by(rt.alloc(), NONE_FAILS, last, &TAKING_THE_LAST),
        None
    );
}
