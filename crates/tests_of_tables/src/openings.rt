// One old and two new volumes: what opening makes of them, also where a stop or a failure comes
// within. What it makes of the old one's row that has another mark than is asked for, or is of version 1.
use crate::lines::runs::run;

// The row of volume 3 in copy A, which is open, and a made mark in copy B, which is closed.
const OLD: &str = "\
put table A 3 VOL004 0 2
fill table B 3 511 x4D";

// Opened, and opened again.
const TWICE: &str = "\
open -> 0 VOL001 1 3 3 VOL004 0 2 5 VOL006 4 5
writes -> 30
survey -> 0 VOL001 1 3 3 VOL004 0 2 5 VOL006 4 5
open -> 0 VOL001 1 3 3 VOL004 0 2 5 VOL006 4 5
writes -> 30";

#[test]
fn opens_one_old_and_two_new_volumes(rt: HostRuntime) {
    run(&rt, rt.alloc(), OLD, TWICE);
}

// The same devices, opened.
const OPENED: &str = "\
put table A 3 VOL004 0 2
fill table B 3 511 x4D
open -> 0 VOL001 1 3 3 VOL004 0 2 5 VOL006 4 5";

// What a stop leaves shows a front of the new volumes, and is opened as if there had been no stop. The repair
// writes the body of copy B and opens it. Each creation makes two marks, writes and opens copy A, then copy B, with
// a sync behind each of these writes; its volume is shown from the opening of copy A on, where the byte of the gate
// is C1, and stays from the sync of that on, whatever becomes of what isn't firm.
const STOPS: &str = "\
turns 2 12
stop N 0 0 survey -> 3 VOL004 0 2
stop N 0 0 open -> 0 VOL001 1 3 3 VOL004 0 2 5 VOL006 4 5
stop N 2 x5555 survey -> 3 VOL004 0 2
stop N 2 x5555 open -> 0 VOL001 1 3 3 VOL004 0 2 5 VOL006 4 5

turns 13 24
stop N 0 0 survey -> 0 VOL001 1 3 3 VOL004 0 2
stop N 0 0 open -> 0 VOL001 1 3 3 VOL004 0 2 5 VOL006 4 5
stop N 2 x5555 survey -> 0 VOL001 1 3 3 VOL004 0 2
stop N 2 x5555 open -> 0 VOL001 1 3 3 VOL004 0 2 5 VOL006 4 5

turns 25 30
stop N 0 0 survey -> 0 VOL001 1 3 3 VOL004 0 2 5 VOL006 4 5
stop N 0 0 open -> 0 VOL001 1 3 3 VOL004 0 2 5 VOL006 4 5
stop N 2 x5555 survey -> 0 VOL001 1 3 3 VOL004 0 2 5 VOL006 4 5
stop N 2 x5555 open -> 0 VOL001 1 3 3 VOL004 0 2 5 VOL006 4 5

turns 18 23
stop N 1 x00 survey -> 0 VOL001 1 3 3 VOL004 0 2
stop N 1 xC1 survey -> 0 VOL001 1 3 3 VOL004 0 2
stop N 3 xFF00FF survey -> 0 VOL001 1 3 3 VOL004 0 2

turns 24 24
stop N 1 x00 survey -> 0 VOL001 1 3 3 VOL004 0 2
stop N 1 xC1 survey -> 0 VOL001 1 3 3 VOL004 0 2 5 VOL006 4 5
stop N 3 xFF00FF survey -> 0 VOL001 1 3 3 VOL004 0 2

turns 25 30
stop N 1 x00 survey -> 0 VOL001 1 3 3 VOL004 0 2 5 VOL006 4 5
stop N 1 xC1 survey -> 0 VOL001 1 3 3 VOL004 0 2 5 VOL006 4 5
stop N 3 xFF00FF survey -> 0 VOL001 1 3 3 VOL004 0 2 5 VOL006 4 5

turns 18 25
stop N fill x00 survey -> 0 VOL001 1 3 3 VOL004 0 2
stop N fill xFF survey -> 0 VOL001 1 3 3 VOL004 0 2
stop N lost 0 survey -> 0 VOL001 1 3 3 VOL004 0 2

turns 26 30
stop N fill x00 survey -> 0 VOL001 1 3 3 VOL004 0 2 5 VOL006 4 5
stop N fill xFF survey -> 0 VOL001 1 3 3 VOL004 0 2 5 VOL006 4 5
stop N lost 0 survey -> 0 VOL001 1 3 3 VOL004 0 2 5 VOL006 4 5";

#[test]
fn shows_a_front_of_the_new_volumes_after_each_stop(rt: HostRuntime) {
    run(&rt, rt.alloc(), OPENED, STOPS);
}

// The survey reads both copies of each volume, but of volume 3 copy A alone, which is open; without
// it the row isn't known. A failure loses none of the volumes that were shown.
const SURVEY_READS: &str = "\
turns 1 6
fail N
open -> stopped 1
fail 0
survey -> 3 VOL004 0 2

turns 7 7
fail N
open -> unread 3 1
fail 0
survey -> 3 VOL004 0 2

turns 8 63
fail N
open -> stopped 1
fail 0
survey -> 3 VOL004 0 2";

#[test]
fn refuses_each_failing_read_of_the_survey_by_name(rt: HostRuntime) {
    run(&rt, rt.alloc(), OLD, SURVEY_READS);
}

// The repair reads both copies of each volume, and writes and syncs twice: 68 calls.
const REPAIR_CALLS: &str = "\
turns 64 131
fail N
open -> stopped 1
fail 0
survey -> 3 VOL004 0 2";

#[test]
fn refuses_each_failing_call_of_the_repair_by_name(rt: HostRuntime) {
    run(&rt, rt.alloc(), OLD, REPAIR_CALLS);
}

// Then both copies of volume 3 are read for their version. Each of the two creations reads two blocks before it marks
// them, and writes and syncs six times; its volume is shown from the ninth of these calls on, which opens copy A. No
// call is the 162nd.
const CREATION_CALLS: &str = "\
turns 132 141
fail N
open -> stopped 1
fail 0
survey -> 3 VOL004 0 2

turns 142 155
fail N
open -> stopped 1
fail 0
survey -> 0 VOL001 1 3 3 VOL004 0 2

turns 156 161
fail N
open -> stopped 1
fail 0
survey -> 0 VOL001 1 3 3 VOL004 0 2 5 VOL006 4 5

turns 162 162
fail N
open -> 0 VOL001 1 3 3 VOL004 0 2 5 VOL006 4 5
fail 0
survey -> 0 VOL001 1 3 3 VOL004 0 2 5 VOL006 4 5";

#[test]
fn refuses_each_failing_call_of_a_creation_by_name(rt: HostRuntime) {
    run(&rt, rt.alloc(), OLD, CREATION_CALLS);
}

// Where one copy of the table can't be read, it is as before; where none can, that is told.
const LOST: &str = "\
open -> 0 VOL001 1 3 3 VOL004 0 2 5 VOL006 4 5
lose table A
survey -> 0 VOL001 1 3 3 VOL004 0 2 5 VOL006 4 5

open -> 0 VOL001 1 3 3 VOL004 0 2 5 VOL006 4 5
lose table B
survey -> 0 VOL001 1 3 3 VOL004 0 2 5 VOL006 4 5

open -> 0 VOL001 1 3 3 VOL004 0 2 5 VOL006 4 5
lose table A table B
survey -> unread 0 2";

#[test]
fn one_unreadable_copy_changes_nothing_and_two_are_told(rt: HostRuntime) {
    run(&rt, rt.alloc(), OLD, LOST);
}

// The row of volume 3 in both copies, and it isn't read-only.
const UNMARKED: &str = "\
put table A 3 VOL004 0 2
put table B 3 VOL004 0 2";

// The two creations make 24 items behind the two that were put, and the mark eight. It is the first slot of each
// copy: an open gate, kind 6, mark 1. Where that mark is asked for again, nothing is written; where none is, the
// next slot takes it away.
const MARKED: &str = "\
open readonly -> 0 VOL001 1 3 3 VOL004 0 2 readonly 5 VOL006 4 5 protect 3 34
writes -> 34
survey -> 0 VOL001 1 3 3 VOL004 0 2 readonly 5 VOL006 4 5
has table A 3 512 xC1
has table A 3 513 6
has table A 3 514 0
has table A 3 515 1
has table B 3 512 xC1
has table B 3 513 6
has table B 3 514 0
has table B 3 515 1
open readonly -> 0 VOL001 1 3 3 VOL004 0 2 readonly 5 VOL006 4 5
writes -> 34
open -> 0 VOL001 1 3 3 VOL004 0 2 5 VOL006 4 5 unprotect 3 42
writes -> 42
survey -> 0 VOL001 1 3 3 VOL004 0 2 5 VOL006 4 5
has table A 3 520 xC1
has table A 3 521 6
has table A 3 523 0";

#[test]
fn gives_an_old_volume_the_mark_that_is_asked_for(rt: HostRuntime) {
    run(&rt, rt.alloc(), UNMARKED, MARKED);
}

const MARKING: &str = "\
put table A 3 VOL004 0 2
put table B 3 VOL004 0 2
open readonly -> 0 VOL001 1 3 3 VOL004 0 2 readonly 5 VOL006 4 5 protect 3 34";

// Behind the 26 items: body and gate of the slot of A, each with a sync; then of B.
const STOPPED_MARKS: &str = "\
turns 26 28
stop N 0 0 survey -> 0 VOL001 1 3 3 VOL004 0 2 5 VOL006 4 5
stop N 1 x00 survey -> 0 VOL001 1 3 3 VOL004 0 2 5 VOL006 4 5

stop 28 1 xC1 survey -> 0 VOL001 1 3 3 VOL004 0 2 readonly 5 VOL006 4 5

turns 29 34
stop N 0 0 survey -> 0 VOL001 1 3 3 VOL004 0 2 readonly 5 VOL006 4 5
stop N 1 x00 survey -> 0 VOL001 1 3 3 VOL004 0 2 readonly 5 VOL006 4 5

turns 26 29
stop N lost 0 survey -> 0 VOL001 1 3 3 VOL004 0 2 5 VOL006 4 5

turns 30 34
stop N lost 0 survey -> 0 VOL001 1 3 3 VOL004 0 2 readonly 5 VOL006 4 5";

#[test]
fn a_stop_within_a_mark_leaves_the_old_one_or_the_new(rt: HostRuntime) {
    run(&rt, rt.alloc(), MARKING, STOPPED_MARKS);
}

// The row of volume 3 in both copies, in version 1.
const OLD_VERSION: &str = "\
put table A 3 VOL004 0 2
put table B 3 VOL004 0 2
fill table A 3 1 1
fill table B 3 1 1
open readonly -> 0 VOL001 1 3 3 VOL004 0 2 readonly 5 VOL006 4 5 protect 3 48";

// Behind the four items: the gate of A is closed, its body written, its gate opened, each with a sync; then so with B.
// The creations and the mark come behind that.
const MIGRATED: &str = "\
writes -> 48
has table A 3 1 2
has table B 3 1 2

turns 4 16
stop N 0 0 survey -> 3 VOL004 0 2
stop N 0 0 open -> 0 VOL001 1 3 3 VOL004 0 2 5 VOL006 4 5
stop N 2 x5555 survey -> 3 VOL004 0 2
stop N 2 x5555 open -> 0 VOL001 1 3 3 VOL004 0 2 5 VOL006 4 5";

#[test]
fn writes_a_row_of_version_1_anew(rt: HostRuntime) {
    run(&rt, rt.alloc(), OLD_VERSION, MIGRATED);
}
