// The gate of the tests: rules tell who is counted where, and who waits there until something came so often.
use core_state::WorkKind;
use mss_run::{Actor, Gate, Point};
use std::alloc::{AllocError, Global};
use std::sync::atomic::{AtomicU64, Ordering};
use std::thread;

/// How often a held actor asks at most whether it may go on.
const TURNS: u64 = 100_000_000;

/// Who passes: a host by its number, a recorder by this and its number, the copier, each host, each recorder.
pub const RECORDER: u8 = 10;

pub const COPIER: u8 = 18;

pub const HOSTS: u8 = 0;

pub const RECORDERS: u8 = 9;

/// Where: before it is counted in, behind an answer, behind work of any kind, behind a recorder's copy, after it was
/// counted out, behind a track that the copier took.
pub const ENTER: u8 = 0;

pub const ANSWER: u8 = 1;

pub const WORK: u8 = 2;

pub const COPY: u8 = 3;

pub const LEAVE: u8 = 4;

pub const TAKE: u8 = 5;

/// Who, where, the counter that counts it, and the counter that has to come to a number before the actor goes on. Who waits
/// for nothing waits until a counter comes to 0.
pub type Rule = (u8, u8, usize, usize, u64);

/// A counter that no test looks at.
pub const NONE: usize = 15;

const COUNTERS: usize = 16;

/// How often something came so far.
#[derive(Drop)]
struct Counter {
    count: AtomicU64,
}

impl Counter {
    fn new() -> Counter {
        Counter {
            count: AtomicU64::new(0),
        }
    }

    fn add(&self) {
        self.count.fetch_add(1, Ordering::SeqCst);
    }

    fn get(&self) -> u64 {
        self.count.load(Ordering::SeqCst)
    }

    /// Waits until it came so often. Whether it did.
    fn comes_to(&self, count: u64) -> bool {
        for _ in 0..TURNS {
            if self.get() >= count {
                return true;
            }
            thread::yield_now();
        }
        false
    }
}

fn push_counters(list: &mut Vec<Counter>) -> Result<(), AllocError> {
    for _ in 0..COUNTERS {
        list.push(Counter::new())?;
    }
    Ok(())
}

fn counters(alloc: Global) -> Result<Vec<Counter>, AllocError> {
    let mut list = Vec::new(alloc);
    push_counters(&mut list)?;
    Ok(list)
}

/// What counts and holds the actors, and how often one of them gave up waiting.
#[derive(Drop)]
pub struct RuleGate {
    rules: Vec<Rule>,
    counters: Vec<Counter>,
    given_up: Counter,
}

fn number_of(actor: Actor) -> u8 {
    match actor {
        Actor::Host(host) => host.get(),
        Actor::Recorder(recorder) => RECORDER + recorder.get(),
        Actor::Copier => COPIER,
    }
}

fn place_of(point: Point) -> u8 {
    match point {
        Point::Enter => ENTER,
        Point::Host(_) => ANSWER,
        Point::Work(WorkKind::Copy) => COPY,
        Point::Work(_) => WORK,
        Point::Take => TAKE,
        Point::Leave => LEAVE,
    }
}

fn is_for((who, at, _, _, _): Rule, actor: u8, place: u8) -> bool {
    let is_who = match who {
        HOSTS => actor < RECORDER,
        RECORDERS => actor >= RECORDER && actor < COPIER,
        one => actor == one,
    };
    is_who && (at == place || (at == WORK && place == COPY))
}

impl RuleGate {
    pub fn new(alloc: Global, rules: &[Rule]) -> Result<RuleGate, AllocError> {
        let rules = Vec::from_slice(alloc, rules)?;
        let counters = counters(alloc)?;
        Ok(RuleGate {
            rules,
            counters,
            given_up: Counter::new(),
        })
    }

    fn apply(&self, (_, _, counts, waits, until): Rule) {
        if let Some(counter) = self.counters.as_slice().get(counts) {
            counter.add();
        }
        if let Some(counter) = self.counters.as_slice().get(waits) {
            if !counter.comes_to(until) {
                self.given_up.add();
            }
        }
    }

    /// How often each counter counted; none where an actor waited in vain.
    pub fn counts(&self) -> Option<[u64; COUNTERS]> {
        if self.given_up.get() > 0 {
            return None;
        }
        let mut counts = [0; COUNTERS];
        for (count, counter) in counts.iter_mut().zip(self.counters.as_slice()) {
            *count = counter.get();
        }
        Some(counts)
    }
}

impl Gate for RuleGate {
    fn pass(&self, actor: Actor, point: Point) {
        let (who, place) = (number_of(actor), place_of(point));
        for rule in self.rules.as_slice() {
            if is_for(*rule, who, place) {
                self.apply(*rule);
            }
        }
    }

    fn events_in_a_hold(&self) -> u8 {
        1
    }
}
