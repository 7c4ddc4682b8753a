//! The sessions of several choosers.
ghost use Rattle.std.specs.Prelude.{◌≡◌, [], ◌∷◌, IfOk, OnErr};
ghost use Rattle.victim_rules.specs.Closures.{IsTest, NarrowMay};
ghost use Rattle.compared_runs.specs.Comparing.{Adds, Compares, GoesOn, MayAdd, every_name};

use crate::alone::{Told, play_alone};
use core_state::Session;
use job_text::Job;
use mss_base::{Listed, NoMemory};
use serial_driver::DriveAnswer;
use std::alloc::Global;
use victim_choice::{Candidate, Choose};
use victim_rules::{Narrow, Rule, Ruled};

/// Sessions, in order.
pub type SessionList = Listed<Session>;

/// The sessions of some choosers.
#[derive(Drop)]
pub struct Comparison {
    /// One each, in their order, up to the last that came to its end or to the limit of entries.
    pub sessions: SessionList,
    /// How the last one ended; `Memory` where memory ran out behind it.
    pub end: DriveAnswer,
}

/// Makes room for a session, plays the job by a chooser, and keeps what came of it behind these.
fn add<C: Choose + Drop>(
    alloc: Global,
    job: &Job,
    sessions: &mut SessionList,
    chooser: C,
) -> Result<DriveAnswer, NoMemory>
    requires { C.can_choose chooser }
    ensures ok { IfOk result (λ end. Adds (Unit {0}) (C.may chooser) job.now
        sessions.old.items sessions.new.items end) }
    ensures err { OnErr result (sessions.new.items ≡ sessions.old.items) }
{
    sessions.reserve(1)?;
    let Told { session, end } = play_alone(alloc, job, chooser)?;
    sessions.push(session);
    Ok(end)
}

/// Adds the session that a chooser leads to. Where memory runs out, the comparison ends by it.
fn go_on<C: Choose + Drop>(
    alloc: Global,
    job: &Job,
    mut sessions: SessionList,
    chooser: C,
) -> Comparison
    requires { C.can_choose chooser }
    ensures { MayAdd (Unit {0}) (C.may chooser) job.now sessions.items
        result.sessions.items result.end }
{
    match add(alloc, job, &mut sessions, chooser) {
        Ok(end) => Comparison { sessions, end },
        Err(NoMemory) => Comparison {
            sessions,
            end: DriveAnswer::Memory,
        },
    }
}

/// Plays the job by one chooser more, unless the last session came to the limit, or memory ran out.
fn then<C: Choose + Drop>(alloc: Global, job: &Job, so_far: Comparison, chooser: C) -> Comparison
    requires { C.can_choose chooser }
    ensures { GoesOn (Unit {0}) (C.may chooser) job.now so_far.sessions.items so_far.end
        result.sessions.items result.end }
{
    match so_far.end {
        DriveAnswer::Done => go_on(alloc, job, so_far.sessions, chooser),
        _ => so_far,
    }
}

/// One rule alone.
fn only(rule: Rule) -> Ruled
    ensures { result ≡ rule ∷ [] }
{
    let mut rules = Ruled::none();
    rules.push(rule);
    rules
}

/// Plays a job by four choosers, each on devices of its own, of zeros and of which no call fails: by no rule, by `clean`,
/// by `quota:1`, and by the closure that is handed in.
///
/// The first session that comes to the limit of entries is the last, and so is the one behind which memory runs out.
pub fn compared<F: Fn(&Candidate) -> bool + Drop>(
    alloc: Global,
    job: &Job,
    other: Narrow<F>,
) -> Comparison
    requires { IsTest F.Fn other }
    ensures { Compares (Unit {0}) (NarrowMay F.Fn other) job.now every_name
        result.sessions.items result.end }
{
    let none = Comparison {
        sessions: SessionList::new(alloc),
        end: DriveAnswer::Done,
    };
    let by_no_rule = then(alloc, job, none, Ruled::none());
    let by_clean = then(alloc, job, by_no_rule, only(Rule::Clean));
    let by_quota = then(alloc, job, by_clean, only(Rule::Quota(1)));
    then(alloc, job, by_quota, other)
}
