// A row changed with each call failing in turn, and stopped at each moment.
use crate::lines::runs::run;

// Three new volumes, by 36 items.
const MADE: &str = "open -> 0 VOL001 0 1 3 VOL004 2 3 5 VOL006 4 5";

// A change appends a slot to copy A, then to copy B: its body, a sync, its gate, a sync. A copy that has none free
// it writes whole: its gate, a sync, the body, the gate of slot 0, a sync, its gate, a sync. A failing write leaves
// its bytes here.
const CHANGES: &str = "\
turns 1 2
fail N
assign 0 3 0 0 -> failed
fail 0
survey -> 0 VOL001 0 1 3 VOL004 2 3 5 VOL006 4 5

turns 3 8
fail N
assign 0 3 0 0 -> failed
fail 0
survey -> 0 VOL001 0 1 frame 3 3 VOL004 2 3 5 VOL006 4 5

fail 9
assign 0 3 0 0
writes -> 44
fail 0
has table A 0 12 xFF
has table B 0 512 xC1

turns 1 5
fail N
assign 0 3 1984 1984 -> failed
fail 0
survey -> 0 VOL001 0 1 3 VOL004 2 3 5 VOL006 4 5

turns 6 14
fail N
assign 0 3 1984 1984 -> failed
fail 0
survey -> 0 VOL001 0 1 frame 3 3 VOL004 2 3 5 VOL006 4 5

fail 15
assign 0 3 1984 1984
writes -> 50
fail 0
has table A 0 12 3
has table B 0 512 0";

#[test]
fn changes_a_row_or_leaves_it(rt: HostRuntime) {
    run(&rt, rt.alloc(), MADE, CHANGES);
}

const CHANGED: &str = "\
open -> 0 VOL001 0 1 3 VOL004 2 3 5 VOL006 4 5
assign 0 3 0 0";

// Behind the 36 items: body and gate of the slot of A, each with a sync; then of B. The new row is there once the
// slot of A is open, and stays from the sync of its gate on.
const STOPPED_CHANGES: &str = "\
writes -> 44

turns 36 37
stop N 0 0 survey -> 0 VOL001 0 1 3 VOL004 2 3 5 VOL006 4 5
stop N 1 x00 survey -> 0 VOL001 0 1 3 VOL004 2 3 5 VOL006 4 5
stop N 1 xC1 survey -> 0 VOL001 0 1 3 VOL004 2 3 5 VOL006 4 5
stop N 3 xFF00FF survey -> 0 VOL001 0 1 3 VOL004 2 3 5 VOL006 4 5

stop 38 0 0 survey -> 0 VOL001 0 1 3 VOL004 2 3 5 VOL006 4 5
stop 38 1 x00 survey -> 0 VOL001 0 1 3 VOL004 2 3 5 VOL006 4 5
stop 38 1 xC1 survey -> 0 VOL001 0 1 frame 3 3 VOL004 2 3 5 VOL006 4 5
stop 38 3 xFF00FF survey -> 0 VOL001 0 1 3 VOL004 2 3 5 VOL006 4 5

turns 39 44
stop N 0 0 survey -> 0 VOL001 0 1 frame 3 3 VOL004 2 3 5 VOL006 4 5
stop N 1 x00 survey -> 0 VOL001 0 1 frame 3 3 VOL004 2 3 5 VOL006 4 5
stop N 1 xC1 survey -> 0 VOL001 0 1 frame 3 3 VOL004 2 3 5 VOL006 4 5
stop N 3 xFF00FF survey -> 0 VOL001 0 1 frame 3 3 VOL004 2 3 5 VOL006 4 5

turns 36 39
stop N fill x00 survey -> 0 VOL001 0 1 3 VOL004 2 3 5 VOL006 4 5
stop N fill xFF survey -> 0 VOL001 0 1 3 VOL004 2 3 5 VOL006 4 5
stop N lost 0 survey -> 0 VOL001 0 1 3 VOL004 2 3 5 VOL006 4 5

turns 40 44
stop N fill x00 survey -> 0 VOL001 0 1 frame 3 3 VOL004 2 3 5 VOL006 4 5
stop N fill xFF survey -> 0 VOL001 0 1 frame 3 3 VOL004 2 3 5 VOL006 4 5
stop N lost 0 survey -> 0 VOL001 0 1 frame 3 3 VOL004 2 3 5 VOL006 4 5";

#[test]
fn a_stop_within_a_change_leaves_the_old_row_or_the_new(rt: HostRuntime) {
    run(&rt, rt.alloc(), CHANGED, STOPPED_CHANGES);
}

const WHOLE: &str = "\
open -> 0 VOL001 0 1 3 VOL004 2 3 5 VOL006 4 5
assign 0 3 1984 1984";

// The row is written whole: gate of A, body and gate of slot 0, gate, with three syncs; then of B. A closed copy A
// leaves the row to copy B.
const STOPPED_REWRITINGS: &str = "\
writes -> 50

turns 36 40
stop N 0 0 survey -> 0 VOL001 0 1 3 VOL004 2 3 5 VOL006 4 5
stop N 1 x00 survey -> 0 VOL001 0 1 3 VOL004 2 3 5 VOL006 4 5
stop N 1 xC1 survey -> 0 VOL001 0 1 3 VOL004 2 3 5 VOL006 4 5
stop N 3 xFF00FF survey -> 0 VOL001 0 1 3 VOL004 2 3 5 VOL006 4 5

stop 41 0 0 survey -> 0 VOL001 0 1 3 VOL004 2 3 5 VOL006 4 5
stop 41 1 x00 survey -> 0 VOL001 0 1 3 VOL004 2 3 5 VOL006 4 5
stop 41 1 xC1 survey -> 0 VOL001 0 1 frame 3 3 VOL004 2 3 5 VOL006 4 5
stop 41 3 xFF00FF survey -> 0 VOL001 0 1 3 VOL004 2 3 5 VOL006 4 5

turns 42 50
stop N 0 0 survey -> 0 VOL001 0 1 frame 3 3 VOL004 2 3 5 VOL006 4 5
stop N 1 x00 survey -> 0 VOL001 0 1 frame 3 3 VOL004 2 3 5 VOL006 4 5
stop N 1 xC1 survey -> 0 VOL001 0 1 frame 3 3 VOL004 2 3 5 VOL006 4 5
stop N 3 xFF00FF survey -> 0 VOL001 0 1 frame 3 3 VOL004 2 3 5 VOL006 4 5

turns 36 42
stop N fill x00 survey -> 0 VOL001 0 1 3 VOL004 2 3 5 VOL006 4 5
stop N fill xFF survey -> 0 VOL001 0 1 3 VOL004 2 3 5 VOL006 4 5
stop N lost 0 survey -> 0 VOL001 0 1 3 VOL004 2 3 5 VOL006 4 5

turns 43 50
stop N fill x00 survey -> 0 VOL001 0 1 frame 3 3 VOL004 2 3 5 VOL006 4 5
stop N fill xFF survey -> 0 VOL001 0 1 frame 3 3 VOL004 2 3 5 VOL006 4 5
stop N lost 0 survey -> 0 VOL001 0 1 frame 3 3 VOL004 2 3 5 VOL006 4 5";

#[test]
fn a_stop_while_a_row_is_written_whole_leaves_the_old_or_the_new(rt: HostRuntime) {
    run(&rt, rt.alloc(), WHOLE, STOPPED_REWRITINGS);
}
