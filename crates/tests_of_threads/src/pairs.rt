// Two recorders at once: each has a thread of its own.
use crate::gates::{ANSWER, ENTER, HOSTS, NONE, RECORDER, RECORDERS, Rule, WORK};
use crate::running::counted;
use std::test::Fail;

const JOB: &str = "mss 1 frames 2 recorders 2\n\
    volume 0 VOL001\n\
    volume 1 VOL002\n\
    host 1\n\
    mount VOL001\n\
    program\n\
    ccw 31 0000000000\n\
    end\n\
    host 2\n\
    mount VOL002\n\
    program\n\
    ccw 31 0000000000\n\
    end\n\
    done\n";

const ANSWERED_1: usize = 0;

const ANSWERED_2: usize = 1;

const WORKED_0: usize = 2;

const WORKED_1: usize = 3;

/// The recorders come in once both hosts are answered, and each stands at its first work until the other has worked. A
/// host that works for one that isn't in does one step, and stands there until both have.
const PAIR: [Rule; 8] = [
    (1, ANSWER, ANSWERED_1, NONE, 0),
    (2, ANSWER, ANSWERED_2, NONE, 0),
    (HOSTS, WORK, NONE, WORKED_0, 1),
    (HOSTS, WORK, NONE, WORKED_1, 1),
    (RECORDERS, ENTER, NONE, ANSWERED_1, 1),
    (RECORDERS, ENTER, NONE, ANSWERED_2, 1),
    (RECORDER, WORK, WORKED_0, WORKED_1, 1),
    (RECORDER + 1, WORK, WORKED_1, WORKED_0, 1),
];

#[test]
fn two_recorders_work_at_once(rt: HostRuntime) -> Result<(), Fail> {
    let counts = counted(&rt, JOB, &PAIR, 2)?;
    assert!(rt; counts[WORKED_0] > 0 && counts[WORKED_1] > 0);
    Ok(())
}
