// Each actor passes its first and its last gate once, and one behind each event.
use crate::gates::{ANSWER, ENTER, HOSTS, LEAVE, NONE, RECORDER, RECORDERS, Rule, RuleGate, WORK};
use crate::running::{RunEnd, ended_well, run};
use core_state::{Event, Session};
use memory_devices::MemorySink;
use std::sync::Wait;
use std::test::Fail;
use std::thread::Threads;
use volume_table::Change;

const JOB: &str = "mss 1 frames 1 recorders 2\n\
    volume 0 VOL001\n\
    volume 1 VOL002\n\
    volume 2 VOL003\n\
    host 1\n\
    mount VOL001\n\
    program\n\
    ccw 07 000000010001\n\
    ccw 31 0001000100\n\
    tic 1\n\
    ccw 1D 0001000101000005484F535431\n\
    end\n\
    host 2\n\
    mount VOL002\n\
    program\n\
    ccw 07 000000020002\n\
    ccw 31 0002000200\n\
    tic 1\n\
    ccw 1D 0002000201000005484F535432\n\
    end\n\
    host 3\n\
    mount VOL003\n\
    program\n\
    ccw 31 0000000000\n\
    end\n\
    done\n";

/// Behind the counters of the five actors' first and last points: all these points, and those behind replies and marks, and
/// behind work.
const ALL: usize = 10;

const ANSWERED: usize = 11;

const WORKED: usize = 12;

const RULES: [Rule; 17] = [
    (1, ENTER, 0, NONE, 0),
    (2, ENTER, 1, NONE, 0),
    (3, ENTER, 2, NONE, 0),
    (RECORDER, ENTER, 3, NONE, 0),
    (RECORDER + 1, ENTER, 4, NONE, 0),
    (1, LEAVE, 5, NONE, 0),
    (2, LEAVE, 6, NONE, 0),
    (3, LEAVE, 7, NONE, 0),
    (RECORDER, LEAVE, 8, NONE, 0),
    (RECORDER + 1, LEAVE, 9, NONE, 0),
    (HOSTS, ENTER, ALL, NONE, 0),
    (RECORDERS, ENTER, ALL, NONE, 0),
    (HOSTS, LEAVE, ALL, NONE, 0),
    (RECORDERS, LEAVE, ALL, NONE, 0),
    (HOSTS, ANSWER, ANSWERED, NONE, 0),
    (HOSTS, WORK, WORKED, NONE, 0),
    (RECORDERS, WORK, WORKED, NONE, 0),
];

/// How many replies and marks a session has. A mark stands before the first write of a cylinder.
fn answers_of(session: &Session) -> usize {
    let is_mark = |message: &&core_state::Message| matches!(message.change, Change::Changed { .. });
    let marks = session.console.as_slice().iter().filter(is_mark).count();
    session.history.as_slice().len().saturating_add(marks)
}

fn works_of(session: &Session) -> usize {
    let is_work = |event: &&Event| matches!(event, Event::Work(_));
    session.events.as_slice().iter().filter(is_work).count()
}

/// What the counters are due to come to: each actor came and left once, and there was a point behind each event.
fn due(end: &RunEnd) -> Option<[u64; 13]> {
    let session = end.session.as_ref()?;
    let (answers, works) = (answers_of(session) as u64, works_of(session) as u64);
    Some([1, 1, 1, 1, 1, 1, 1, 1, 1, 1, 10, answers, works])
}

fn are_due(gate: &RuleGate, end: &RunEnd) -> bool {
    match (gate.counts(), due(end)) {
        (Some(counts), Some(due)) => counts.starts_with(&due),
        _ => false,
    }
}

fn are_passed<R: Threads + Wait + Sync + AllocGlobal>(
    rt: &R,
    gate: &RuleGate,
    output: &mut MemorySink,
) -> Result<bool, Fail> {
    let end = run(rt, JOB, gate, &[], output)?;
    ended_well(&end, 3)?;
    Ok(are_due(gate, &end))
}

#[test]
fn actors_pass_each_point_once(rt: HostRuntime) -> Result<(), Fail> {
    let gate = RuleGate::new(rt.alloc(), &RULES)?;
    let mut output = MemorySink::new(rt.alloc(), &[])?;
    assert!(rt; are_passed(&rt, &gate, &mut output)?);
    Ok(())
}
