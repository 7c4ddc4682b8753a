// A session, step by step, and what each step is answered.
use channel_commands::{Argument, Call, DeviceCommand, Reply};
use core_state::{Waiting, WorkAnswer, WorkKind};
use host_events::HostAnswer;
use mss_base::{HostNo, VolumeNo};
use std::alloc::Global;

/// A session whose hosts make their calls one by one, and whose recorder 0 its events, by a runtime.
pub trait Events<R> {
    fn call(&mut self, rt: &R, host: HostNo, call: &Call) -> HostAnswer;

    fn work(&mut self, rt: &R) -> WorkAnswer;
}

/// What is done: by a host, named first, or by the recorder.
#[derive(Clone, Copy)]
pub enum Step {
    Mount(u8, u8),
    Bind(u8, u8),
    Demount(u8),
    /// The host, the code and the argument of a command with which its chain ends.
    Ask(u8, u8, &'static [u8]),
    /// One that is chained.
    Chain(u8, u8, &'static [u8]),
    Work,
    /// Events of the recorder until it is idle.
    Settle,
}

/// What is answered.
#[derive(Clone, Copy, PartialEq, Eq)]
pub enum Told {
    /// The status of a command, and the first byte that it gives, or 0.
    Status(u8, u8),
    Mounted,
    Demounted,
    EquipmentCheck,
    NoSpace,
    AnotherReply,
    /// A reply that isn't said to stand behind those before.
    Misplaced,
    Marked,
    /// The host that owns the volume.
    Busy(u8),
    /// The cylinder that is to be staged.
    Fault(u16),
    /// The frame that is being taken.
    Held(u8),
    Did(WorkKind),
    Idle,
    /// The fault that stopped the core.
    Stopped(u64),
    Limit,
    Memory,
}

/// A step that is done so many times, and is answered alike.
pub type Row = (u16, Step, Told);

fn replied(reply: &Reply) -> Told {
    match reply {
        Reply::Done { status, bytes } => {
            Told::Status(*status, bytes.as_slice().first().copied().unwrap_or(0))
        }
        Reply::Mounted => Told::Mounted,
        Reply::Demounted => Told::Demounted,
        Reply::EquipmentCheck => Told::EquipmentCheck,
        Reply::NoSpace => Told::NoSpace,
        _ => Told::AnotherReply,
    }
}

fn waits(waiting: Waiting) -> Told {
    match waiting {
        Waiting::Busy { owner } => Told::Busy(owner.get()),
        Waiting::Fault { cylinder } => Told::Fault(cylinder.get()),
        Waiting::Held { frame } => Told::Held(frame.get()),
    }
}

/// A reply stands at the place behind the replies before, whose count grows by it.
fn placed(replies: &mut u64, index: u64, reply: &Reply) -> Told {
    if index != *replies {
        return Told::Misplaced;
    }
    *replies = replies.saturating_add(1);
    replied(reply)
}

fn answered(replies: &mut u64, answer: HostAnswer) -> Told {
    match answer {
        HostAnswer::Replied { index, reply } => placed(replies, index, &reply),
        HostAnswer::Marked => Told::Marked,
        HostAnswer::Wait(waiting) => waits(waiting),
        HostAnswer::Stopped { fault } => Told::Stopped(fault),
        HostAnswer::CommandLimit => Told::Limit,
        HostAnswer::Memory => Told::Memory,
    }
}

fn done(answer: WorkAnswer) -> Told {
    match answer {
        WorkAnswer::Did(kind) => Told::Did(kind),
        WorkAnswer::Idle => Told::Idle,
        WorkAnswer::Stopped { fault } => Told::Stopped(fault),
        WorkAnswer::Memory => Told::Memory,
    }
}

fn settled<R, E: Events<R>>(rt: &R, session: &mut E) -> Told {
    for _ in 0..200 {
        match session.work(rt) {
            WorkAnswer::Did(_) => {}
            answer => return done(answer),
        }
    }
    Told::AnotherReply
}

fn command(alloc: Global, code: u8, argument: &[u8], chained: bool) -> Option<Call> {
    let argument = Argument::of(alloc, argument).ok()?;
    Some(Call::Command(DeviceCommand {
        code,
        argument,
        chained,
    }))
}

fn mount(volume: u8, bind: bool) -> Option<Call> {
    let volume = VolumeNo::of(volume)?;
    Some(Call::Mount { volume, bind })
}

/// The call of a step; none of a step of the recorder.
fn call_of(alloc: Global, step: Step) -> Option<Call> {
    match step {
        Step::Mount(_, volume) => mount(volume, false),
        Step::Bind(_, volume) => mount(volume, true),
        Step::Demount(_) => Some(Call::Demount),
        Step::Ask(_, code, argument) => command(alloc, code, argument, false),
        Step::Chain(_, code, argument) => command(alloc, code, argument, true),
        Step::Work | Step::Settle => None,
    }
}

/// The host of a step; none of a step of the recorder.
fn host_of(step: Step) -> Option<HostNo> {
    match step {
        Step::Mount(host, _)
        | Step::Bind(host, _)
        | Step::Demount(host)
        | Step::Ask(host, _, _)
        | Step::Chain(host, _, _) => HostNo::of(host),
        Step::Work | Step::Settle => None,
    }
}

fn called<R, E: Events<R>>(
    rt: &R,
    alloc: Global,
    session: &mut E,
    replies: &mut u64,
    step: Step,
) -> Option<Told> {
    let host = host_of(step)?;
    let call = call_of(alloc, step)?;
    Some(answered(replies, session.call(rt, host, &call)))
}

/// What a step is answered; nothing where memory runs out, or it names no host or volume.
fn perform<R, E: Events<R>>(
    rt: &R,
    alloc: Global,
    session: &mut E,
    replies: &mut u64,
    step: Step,
) -> Option<Told> {
    match step {
        Step::Work => Some(done(session.work(rt))),
        Step::Settle => Some(settled(rt, session)),
        _ => called(rt, alloc, session, replies, step),
    }
}

/// Whether a step that is done so many times is answered so each time.
fn is_answered<R, E: Events<R>>(
    rt: &R,
    alloc: Global,
    session: &mut E,
    replies: &mut u64,
    row: Row,
) -> bool {
    let (times, step, expected) = row;
    for _ in 0..times {
        if perform(rt, alloc, session, replies, step) != Some(expected) {
            return false;
        }
    }
    true
}

/// The place of the first row of a new session that is answered otherwise.
pub fn first_other<R, E: Events<R>>(
    rt: &R,
    alloc: Global,
    session: &mut E,
    rows: &[Row],
) -> Option<usize> {
    let mut replies = 0u64;
    for (place, row) in rows.iter().enumerate() {
        if !is_answered(rt, alloc, session, &mut replies, *row) {
            return Some(place);
        }
    }
    None
}
