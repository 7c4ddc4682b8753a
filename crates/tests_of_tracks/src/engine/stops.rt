//! What a stop within a command's writes leaves of a track: block 98 is that of cylinder 5, head 3.
use crate::lines::run_stopped;

/// A record takes two writes, each with a sync, and an update one with its sync. Until its sync a write may be
/// lost, or leave any bytes.
const UPDATE: &str = "\
# a record of a blank track, and other data
07 000000050003 0C
31 0005000300 4C
1D 0005000301000003414243 0C
07 000000050003 0C
31 0005000301 0C
31 0005000301 4C
05 58595A 0C";

const TORN: &str = "\
2 00
t 0 98 0 - ok

2 C1
t 0 98 1 414243 ok

3 -
t 0 98 1 414243 ok

3 fill 00
t 0 98 0 - ok

3 lost
t 0 98 0 - ok

4 -
t 0 98 1 414243 ok

4 FF00FF
t 0 98 1 FF00FF ok

4 lost
t 0 98 1 414243 ok

5 FF00FF
t 0 98 1 58595A ok

5 fill 00
t 0 98 1 000000 ok

5 lost
t 0 98 1 414243 ok

6 -
t 0 98 1 58595A ok

6 fill 00
t 0 98 1 58595A ok

6 lost
t 0 98 1 58595A ok

7 -
none";

/// Three records take four items each. The second is formatted again: its gate is closed and synced; the next is
/// closed, it is put, and both are synced; its gate is opened and synced.
const FORMATS: &str = "\
# three records, and the second again
07 000000050003 0C
31 0005000300 4C
1D 0005000301000003414243 0C
1D 0005000302000003444546 0C
1D 0005000303000003474849 0C
07 000000050003 0C
31 0005000301 0C
31 0005000301 4C
1D 000500030200000358595A 0C";

const ENDED: &str = "\
12 -
t 0 98 3 414243444546474849 ok

12 C1
t 0 98 3 414243444546474849 ok

12 00
t 0 98 1 414243 ok

13 -
t 0 98 1 414243 ok

13 fill C1
t 0 98 3 414243444546474849 ok

13 lost
t 0 98 3 414243444546474849 ok

14 C1
t 0 98 1 414243 ok

14 fill C1
t 0 98 1 414243 ok

15 FF
t 0 98 1 414243 ok

16 -
t 0 98 1 414243 ok

16 fill C1
t 0 98 1 414243 ok

16 lost
t 0 98 1 414243 ok

17 00
t 0 98 1 414243 ok

17 C1
t 0 98 2 41424358595A ok

18 -
t 0 98 2 41424358595A ok

18 fill 00
t 0 98 1 414243 ok

19 -
t 0 98 2 41424358595A ok

19 lost
t 0 98 2 41424358595A ok

20 -
none";

/// A record takes four items, and six where it is formatted again: its gate alone is closed and synced first.
/// Behind it one without data takes four; an update of that makes none.
const TWICE: &str = "\
# a record of a blank track, it again, one without data behind it, and an update of that
07 000000050003 0C
31 0005000300 4C
1D 0005000301000003414243 0C
07 000000050003 0C
31 0005000300 4C
1D 000500030100000358595A 0C
1D 0005000302000000 0C
07 000000050003 0C
31 0005000302 0C
31 0005000302 0C
31 0005000302 4C
05 FF 0D";

const ENDED_TWICE: &str = "\
4 C1
t 0 98 1 414243 ok

5 -
t 0 98 0 - ok

6 -
t 0 98 0 - ok

7 -
t 0 98 0 - ok

8 00
t 0 98 0 - ok

8 C1
t 0 98 1 58595A ok

9 -
t 0 98 1 58595A ok

10 -
t 0 98 1 58595A ok

12 00
t 0 98 1 58595A ok

13 -
t 0 98 2 58595A ok

14 -
t 0 98 2 58595A ok

15 -
none";

#[test]
fn a_torn_update_shows_its_bytes(rt: HostRuntime) {
    run_stopped(&rt, rt.alloc(), "", UPDATE, TORN);
}

#[test]
fn a_stop_within_a_format_ends_the_track_before_its_record(rt: HostRuntime) {
    run_stopped(&rt, rt.alloc(), "", FORMATS, ENDED);
}

#[test]
fn a_format_closes_no_gate_that_is_shut(rt: HostRuntime) {
    run_stopped(&rt, rt.alloc(), "", TWICE, ENDED_TWICE);
}
