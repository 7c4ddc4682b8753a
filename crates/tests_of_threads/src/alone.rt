// Hosts without recorders' own workers: who came first and left, or comes when all is done.
use crate::gates::{ENTER, HOSTS, LEAVE, NONE, RECORDERS, Rule, WORK};
use crate::running::counted;
use std::test::Fail;

const JOB: &str = "mss 1 frames 1 recorders 2\n\
    volume 0 VOL001\n\
    volume 1 VOL002\n\
    host 1\n\
    mount VOL001\n\
    program\n\
    ccw 31 0000000000\n\
    end\n\
    host 2\n\
    mount VOL002\n\
    program\n\
    ccw 31 0000000000\n\
    end\n\
    done\n";

/// What the counters count.
const HOSTS_WORKED: usize = 0;

const WORKERS_WORKED: usize = 1;

const LEFT: usize = 2;

/// Hosts come in once both workers have left.
const LATE_HOSTS: [Rule; 4] = [
    (HOSTS, WORK, HOSTS_WORKED, NONE, 0),
    (RECORDERS, WORK, WORKERS_WORKED, NONE, 0),
    (RECORDERS, LEAVE, LEFT, NONE, 0),
    (HOSTS, ENTER, NONE, LEFT, 2),
];

/// Workers come in once both hosts have left.
const LATE_WORKERS: [Rule; 4] = [
    (HOSTS, WORK, HOSTS_WORKED, NONE, 0),
    (RECORDERS, WORK, WORKERS_WORKED, NONE, 0),
    (HOSTS, LEAVE, LEFT, NONE, 0),
    (RECORDERS, ENTER, NONE, LEFT, 2),
];

// A worker that sees no host in leaves. Hosts then do its work, replacements too: there is one frame for both.
#[test]
fn hosts_work_for_workers_that_left(rt: HostRuntime) -> Result<(), Fail> {
    let counts = counted(&rt, JOB, &LATE_HOSTS, 2)?;
    assert!(rt; counts[HOSTS_WORKED] > 0 && counts[WORKERS_WORKED] == 0);
    Ok(())
}

// A worker is in only from its coming on.
#[test]
fn hosts_work_for_workers_that_are_late(rt: HostRuntime) -> Result<(), Fail> {
    let counts = counted(&rt, JOB, &LATE_WORKERS, 2)?;
    assert!(rt; counts[HOSTS_WORKED] > 0 && counts[WORKERS_WORKED] == 0);
    Ok(())
}
