// A job in threads on devices in memory.
use crate::gates::{Rule, RuleGate};
use core_state::Session;
use memory_devices::{MemorySink, MemorySite, MemorySource, SiteFault};
use mss_base::{Sink, Site, Source};
use mss_run::{Gate, HostEnd, HostEnds};
use mss_top::{Status, threads};
use std::alloc::Global;
use std::sync::Wait;
use std::test::Fail;
use std::thread::Threads;
use victim_choice::{Choose, Lru};

/// What a run came to.
#[derive(Drop)]
pub struct RunEnd {
    pub status: Status,
    pub hosts: HostEnds,
    pub session: Option<Session>,
}

/// Runs a job by these words, and lets the devices go.
fn run_by<
    I: Source,
    O: Sink,
    S: Site + Send + Drop,
    C: Choose + Drop + Send,
    G: Gate + Sync,
    R: Threads + Wait + Sync + AllocGlobal,
>(rt: &R, words: &[String], input: &mut I, output: &mut O, site: S, chooser: C, gate: &G) -> RunEnd
    requires { C.can_choose chooser }
{
    let end = threads(rt, words, input, output, site, chooser, gate);
    RunEnd {
        status: end.run.status,
        hosts: end.hosts,
        session: end.run.session,
    }
}

/// The word of the command.
fn command(alloc: Global) -> Result<Vec<String>, Fail> {
    let mut words = Vec::new(alloc);
    words.push(String::from_str(alloc, "threads")?)?;
    Ok(words)
}

/// Blank devices, of which these calls fail.
fn failing_site(alloc: Global, calls: &[SiteFault]) -> Result<MemorySite, Fail> {
    let mut site = MemorySite::new(alloc)?;
    site.fail(calls)?;
    Ok(site)
}

fn run_words<G: Gate + Sync, R: Threads + Wait + Sync + AllocGlobal>(
    rt: &R,
    words: &[String],
    input: &mut MemorySource,
    gate: &G,
    failing: &[SiteFault],
    output: &mut MemorySink,
) -> Result<RunEnd, Fail> {
    let site = failing_site(rt.alloc(), failing)?;
    Ok(run_by(rt, words, input, output, site, Lru, gate))
}

/// Runs a job on blank devices, of which these calls fail, and puts its report.
pub fn run<G: Gate + Sync, R: Threads + Wait + Sync + AllocGlobal>(
    rt: &R,
    job: &str,
    gate: &G,
    failing: &[SiteFault],
    output: &mut MemorySink,
) -> Result<RunEnd, Fail> {
    let words = command(rt.alloc())?;
    let mut input = MemorySource::of(rt.alloc(), job.as_bytes(), &[])?;
    run_words(rt, words.as_slice(), &mut input, gate, failing, output)
}

/// How many hosts there are, each of which came to the end of its script; none where one didn't.
pub fn finished_hosts(end: &RunEnd) -> Option<usize> {
    let hosts = end.hosts.as_slice();
    hosts
        .iter()
        .all(|host| host.finished)
        .then_some(hosts.len())
}

/// That a run ended well, with so many hosts.
pub fn ended_well(end: &RunEnd, hosts: usize) -> Result<(), Fail> {
    if end.status == Status::Done && finished_hosts(end) == Some(hosts) {
        return Ok(());
    }
    Err("ended otherwise".into())
}

/// Runs a job on blank devices, which ends well with so many hosts.
fn run_well<R: Threads + Wait + Sync + AllocGlobal>(
    rt: &R,
    job: &str,
    gate: &RuleGate,
    hosts: usize,
    output: &mut MemorySink,
) -> Result<(), Fail> {
    let end = run(rt, job, gate, &[], output)?;
    ended_well(&end, hosts)
}

fn count<R: Threads + Wait + Sync + AllocGlobal>(
    rt: &R,
    job: &str,
    gate: &RuleGate,
    hosts: usize,
) -> Result<[u64; 16], Fail> {
    let mut output = MemorySink::new(rt.alloc(), &[])?;
    run_well(rt, job, gate, hosts, &mut output)?;
    match gate.counts() {
        Some(counts) => Ok(counts),
        None => Err("an actor waited in vain".into()),
    }
}

/// How often each counter of these rules counts in such a run.
pub fn counted<R: Threads + Wait + Sync + AllocGlobal>(
    rt: &R,
    job: &str,
    rules: &[Rule],
    hosts: usize,
) -> Result<[u64; 16], Fail> {
    let gate = RuleGate::new(rt.alloc(), rules)?;
    count(rt, job, &gate, hosts)
}

fn push_host(alloc: Global, text: &mut String, host: &HostEnd) -> Option<()> {
    let own = host.own.as_slice();
    let line = format!(in alloc; "host {} {} {:?}\n", host.host.get(), host.finished, own).ok()?;
    text.push_str(line.as_str()).ok()
}

fn push_hosts(alloc: Global, text: &mut String, end: &RunEnd) -> Option<()> {
    for host in end.hosts.as_slice() {
        push_host(alloc, text, host)?;
    }
    Some(())
}

/// Whether a report has this text, and behind it how each host ended: whether it came to the end of its script, and the
/// places of its entries.
fn is_told(alloc: Global, report: &[u8], end: &RunEnd, expected: &str) -> bool {
    let mut hosts = String::new(alloc);
    if push_hosts(alloc, &mut hosts, end).is_none() {
        return false;
    }
    let Ok(report) = str::from_utf8(report) else {
        return false;
    };
    expected.strip_prefix(report) == Some(hosts.as_str())
}

fn status_of<G: Gate + Sync, R: Threads + Wait + Sync + AllocGlobal>(
    rt: &R,
    job: &str,
    gate: &G,
    failing: &[SiteFault],
    expected: &str,
    output: &mut MemorySink,
) -> Result<Status, Fail> {
    let end = run(rt, job, gate, failing, output)?;
    if !is_told(rt.alloc(), output.bytes(), &end, expected) {
        return Err("told otherwise".into());
    }
    Ok(end.status)
}

/// A job on blank devices, of which these calls fail, has this report, and behind it how each host ended.
pub fn tells<G: Gate + Sync, R: Threads + Wait + Sync + AllocGlobal>(
    rt: &R,
    job: &str,
    gate: &G,
    failing: &[SiteFault],
    expected: &str,
) -> Result<Status, Fail> {
    let mut output = MemorySink::new(rt.alloc(), &[])?;
    status_of(rt, job, gate, failing, expected, &mut output)
}
