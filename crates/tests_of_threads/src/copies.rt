// A host that is answered while a recorder is held between two copies, and a run that a failed write ends.
use crate::gates::{ANSWER, COPY, ENTER, NONE, RECORDERS, Rule, RuleGate, WORK};
use crate::running::tells;
use memory_devices::SiteFault;
use mss_run::OpenGate;
use mss_top::Status;
use std::test::Fail;

const JOB: &str = "mss 1 frames 1 recorders 1\n\
    volume 0 VOL001\n\
    volume 1 VOL002\n\
    host 1\n\
    mount VOL001\n\
    program\n\
    ccw 31 0000000000\n\
    end\n\
    host 2\n\
    mount VOL002\n\
    done\n";

/// What the counters count.
const ANSWERED_1: usize = 0;

const ANSWERED_2: usize = 1;

const WORKED: usize = 2;

const COPIED: usize = 3;

/// The recorder stands between its first two copies until host 2 was answered, which enters only then.
const HOLDING: [Rule; 7] = [
    (1, ANSWER, ANSWERED_1, NONE, 0),
    (1, WORK, NONE, WORKED, 1),
    (2, ENTER, NONE, COPIED, 1),
    (2, ANSWER, ANSWERED_2, NONE, 0),
    (RECORDERS, ENTER, NONE, ANSWERED_1, 1),
    (RECORDERS, WORK, WORKED, NONE, 0),
    (RECORDERS, COPY, COPIED, ANSWERED_2, 1),
];

/// The recorder works only once host 1 has mounted its volume, and host 2 mounts its own between two copies.
const BETWEEN_COPIES: &str = "MSS REPORT 1\n\
    entry 1 host 1 mount 0 mounted\n\
    entry 2 host 2 mount 1 mounted\n\
    entry 3 host 1 ccw 31 status 4C\n\
    change 1 volume 0 create VOL001 0 1\n\
    change 2 volume 1 create VOL002 2 3\n\
    change 3 volume 0 assign page 0 frame 0\n\
    change 4 volume 0 staged cylinder 0\n\
    volume 0 VOL001\n\
    volume 1 VOL002\n\
    END\n\
    host 1 true [0, 2]\n\
    host 2 true [1]\n";

fn has_copied(gate: &RuleGate) -> bool {
    match gate.counts() {
        Some(counts) => counts[COPIED] == 19 && counts[ANSWERED_2] == 1,
        None => false,
    }
}

// Host 1 waits for a cylinder; while that is copied, host 2 enters, and is answered. On one thread nobody could answer
// it then, and the gate would give up; a run that passes no gate would copy nothing that it counts.
#[test]
fn a_host_is_answered_between_two_copies(rt: HostRuntime) -> Result<(), Fail> {
    let gate = RuleGate::new(rt.alloc(), &HOLDING)?;
    let status = tells(&rt, JOB, &gate, &[], BETWEEN_COPIES)?;
    assert!(rt; status == Status::Done && has_copied(&gate));
    Ok(())
}

const ONE_SEARCH: &str = "mss 1 frames 1 recorders 1\n\
    volume 0 VOL001\n\
    host 1\n\
    mount VOL001\n\
    program\n\
    ccw 31 0000000000\n\
    end\n\
    done\n";

const STOPPED: &str = "MSS REPORT 1\n\
    entry 1 host 1 mount 0 mounted\n\
    change 1 volume 0 create VOL001 0 1\n\
    STOPPED 1\n\
    host 1 false [0]\n";

// The recorder's first write, which gives the frame to the page, fails behind the 143 calls of the restart.
#[test]
fn a_failed_write_ends_the_run(rt: HostRuntime) -> Result<(), Fail> {
    let status = tells(&rt, ONE_SEARCH, &OpenGate, &[SiteFault::Call(144)], STOPPED)?;
    assert!(rt; status == Status::Stopped);
    Ok(())
}
