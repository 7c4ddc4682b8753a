// The actors of a job, each in a thread of its own.
ghost use Rattle.std.specs.Prelude.{◌≡◌, ◌≤◌, ◌+◌, ◌++◌, ◌∷◌, [], Bool, IfOk, IfSome, None, is_some, length, nat_eq};
ghost use Rattle.std.specs.List.{IsDistinct, list_all};
ghost use Rattle.std.specs.Thread.{IsSend, IsSync};
ghost use Rattle.mss_base.specs.Sound.{StaysSound};
ghost use Rattle.mss_base.specs.declared.place.UnitNo.{UnitNo};
ghost use Rattle.ckd_plain.specs.History.{IsLegal};
ghost use Rattle.seen_book.specs.Books.{AreOfThese};
ghost use Rattle.core_state.specs.CoreValue.{seen_core};
ghost use Rattle.core_state.specs.IsCore.{opening_of};
ghost use Rattle.volume_copy.specs.Beside.{IsReadyFor, StandsBeside, asked_copy};
ghost use Rattle.mss_run.specs.Beginning.{OpensWith};
ghost use Rattle.mss_run.specs.Led.{LeadsTo};
ghost use Rattle.mss_run.specs.Runs.{
  AreRuns,
  AreStarts,
  AskByScript,
  IsEmptyFor,
  IsRun,
  IsStart,
  LeavesEnds,
  LeavesRun,
  hosts_of,
  run_answer,
};

use crate::actor::{Actor, Gate, Point, Run};
use crate::ends::{HostEnd, HostEnds, RunAnswer, RunEnd};
use crate::hold::Hold;
use crate::host::Running;
use crate::setup::Setup;
use crate::shared::Shared;
use core_state::{Core, ENTRY_LIMIT};
use job_text::{HostScript, Job};
use mss_base::{NoMemory, RecorderNo, Site};
use seen_book::{Blank, Book, HostPass, Name, PassList, Word, host_pass, make, start_book};
use std::alloc::Global;
use std::marker::Brand;
use std::sync::Wait;
use std::thread::{Threads, join};
use victim_choice::Choose;
use volume_copy::{CopiedCore, Copier};

impl<N: Setup, S: Site, C: Choose, G: Gate, R: Wait> Run<'_, N, S, C, G, R> {
    /// A host as an actor: it is counted in, makes the calls of its script, and is counted out.
    fn run_host(&self, script: &HostScript, pass: HostPass<N>) -> (HostPass<N>, HostEnd)
        requires { IsStart script.now pass }
        ensures { IsRun script.now result.0 result.1 }
    {
        let host = pass.host();
        self.gate.pass(Actor::Host(host), Point::Enter);
        let mut hold = Hold::new(self.gate.events_in_a_hold());
        self.shared.enter_host(self.rt, &mut hold, host);
        let running = Running::start(self.alloc, pass);
        let (running, finished) = self.run_script(&mut hold, running, script.items.as_slice());
        let (pass, own) = running.into_parts();
        let _after = pass.host();
        self.shared.leave_host(self.rt, &mut hold, host);
        self.gate.pass(Actor::Host(host), Point::Leave);
        let end = HostEnd {
            host,
            finished,
            own,
        };
        (pass, end)
    }
}

/// The pass of the last script.
fn take_pass<N: Name>(
    script: &HostScript,
    rest: &[HostScript],
    passes: &mut PassList<N>,
) -> HostPass<N>
    requires { AreStarts (rest.now ++ script.now ∷ []) passes.old.items }
    ensures start { IsStart script.now result }
    ensures starts { AreStarts rest.now passes.new.items }
    ensures count { length passes.new.items + 1 ≡ length passes.old.items }
    ensures spare { passes.new.spare ≡ passes.old.spare + 1 }
{
    // The clauses speak of the scripts; no code does.
    let _ = script;
    let _ = rest;
    let Some(pass) = passes.pop() else {
        unreachable!()
    };
    pass
}

/// The lists with the pass and the end of one script more, for which they have room.
fn with_run<N: Name>(
    script: &HostScript,
    rest: &[HostScript],
    mut passes: PassList<N>,
    mut ends: HostEnds,
    pass: HostPass<N>,
    end: HostEnd,
) -> (PassList<N>, HostEnds)
    requires runs { AreRuns rest.now passes.items ends.items }
    requires run { IsRun script.now pass end }
    requires room { 1 ≤ passes.spare }
    requires room_ends { 1 ≤ ends.spare }
    ensures runs { AreRuns (rest.now ++ script.now ∷ []) result.0.items result.1.items }
    ensures spare { result.0.spare + 1 ≡ passes.spare }
    ensures spare_ends { result.1.spare + 1 ≡ ends.spare }
{
    // The clauses speak of the scripts; no code does.
    let _ = script;
    let _ = rest;
    passes.push(pass);
    ends.push(end);
    (passes, ends)
}

impl<
    N: Setup + Send + Sync,
    S: Site + Send,
    C: Choose + Send,
    G: Gate + Sync,
    R: Threads + Wait + Sync,
> Run<'_, N, S, C, G, R> {
    /// Each host of these scripts in a thread of its own, the first one in the caller's. The list of ends has room for
    /// all of them.
    fn run_hosts(
        &self,
        scripts: &[HostScript],
        mut passes: PassList<N>,
        ends: HostEnds,
    ) -> (PassList<N>, HostEnds)
        requires starts { AreStarts scripts.now passes.items }
        requires room { length passes.items ≤ ends.spare }
        requires empty { ends.items ≡ [] }
        ensures runs { AreRuns scripts.now result.0.items result.1.items }
        ensures spare { result.0.spare ≡ passes.spare }
        ensures room { ends.spare ≤ result.1.spare + length passes.items }
    {
        let Some((script, rest)) = scripts.split_last() else {
            return (passes, ends);
        };
        let pass = take_pass(script, rest, &mut passes);
        if rest.is_empty() {
            let (pass, end) = self.run_host(script, pass);
            return with_run(script, rest, passes, ends, pass, end);
        }
        let (first, others) = join(
            self.rt,
            || -> (HostPass<N>, HostEnd)
                requires { IsStart script.now pass }
                ensures { IsRun script.entry.now result.0 result.1 }
            { self.run_host(script, pass) },
            || -> (PassList<N>, HostEnds)
                requires { IsSync R.row × IsSend N.row × IsSync N.row × IsSend S.row × IsSend C.row
                    × IsSync G.row × AreStarts rest.now passes.items
                    × (length passes.items ≤ ends.spare) × (ends.items ≡ []) }
                ensures { AreRuns rest.entry.now result.0.items result.1.items
                    × (result.0.spare ≡ passes.spare)
                    × (ends.spare ≤ result.1.spare + length passes.items) }
            { self.run_hosts(rest, passes, ends) },
        );
        let (pass, end) = first;
        let (passes, ends) = others;
        with_run(script, rest, passes, ends, pass, end)
    }

    /// Each of the first so many recorders in a thread of its own, recorder 0 in the caller's.
    fn run_workers(&self, count: u8) {
        if count == 0 {
            return;
        }
        let below = count - 1;
        let Some(recorder) = RecorderNo::of(below) else {
            return;
        };
        if below == 0 {
            return self.work_for(recorder);
        }
        join(
            self.rt,
            || self.work_for(recorder),
            ||
                requires { IsSync R.row × IsSend N.row × IsSync N.row × IsSend S.row × IsSend C.row
                    × IsSync G.row }
            { self.run_workers(below) },
        );
    }

    /// The recorders, and beside them the copier, where a copy is asked for.
    fn run_others(&self, recorders: u8) {
        if !self.shared.copies() {
            return self.run_workers(recorders);
        }
        join(
            self.rt,
            || self.copy(),
            ||
                requires { IsSync R.row × IsSend N.row × IsSync N.row × IsSend S.row × IsSend C.row
                    × IsSync G.row }
            { self.run_workers(recorders) },
        );
    }

    /// Hosts and recorders side by side, and the copier, where a copy is asked for. The recorders begin a thread later:
    /// one that comes while no host is in leaves, and then hosts do its work.
    fn run_all(
        &self,
        scripts: &[HostScript],
        passes: PassList<N>,
        ends: HostEnds,
    ) -> (PassList<N>, HostEnds)
        requires starts { AreStarts scripts.now passes.items }
        requires room { length passes.items ≤ ends.spare }
        requires empty { ends.items ≡ [] }
        ensures { AreRuns scripts.now result.0.items result.1.items }
    {
        let recorders = self.shared.recorders();
        let (_, ended) = join(
            self.rt,
            ||
                requires { IsSync R.row × IsSend N.row × IsSync N.row × IsSend S.row × IsSend C.row
                    × IsSync G.row }
            { self.run_others(recorders) },
            || -> (PassList<N>, HostEnds)
                requires { IsSync R.row × IsSend N.row × IsSync N.row × IsSend S.row × IsSend C.row
                    × IsSync G.row × AreStarts scripts.now passes.items
                    × (length passes.items ≤ ends.spare) × (ends.items ≡ []) }
                ensures { AreRuns scripts.entry.now result.0.items result.1.items }
            { self.run_hosts(scripts, passes, ends) },
        );
        ended
    }
}

/// A pass of each host, in order.
fn make_passes<N: Name>(
    word: &Word<N>,
    mut book: Book<N>,
    scripts: &[HostScript],
    mut passes: PassList<N>,
) -> (Book<N>, PassList<N>)
    requires book { book ≡ record { list = []; made = [] } }
    requires hosts { N.hosts ≡ hosts_of scripts.now }
    requires differ { IsDistinct nat_eq N.hosts }
    requires empty { passes.items ≡ [] }
    requires room { length scripts.now ≤ passes.spare }
    ensures book { result.0.list ≡ [] }
    ensures starts { AreStarts scripts.now result.1.items }
    ensures count { length result.1.items ≡ length scripts.now }
{
    for script in scripts {
        let (grown, pass) = host_pass(word, book, script.host);
        book = grown;
        passes.push(pass);
    }
    (book, passes)
}

fn are_all_finished(ends: &[HostEnd]) -> bool
    ensures { result ≡ list_all (λ e. e.finished) ends.now }
{
    ends.iter().all(|end| end.finished)
}

/// What ended a run of so many hosts.
fn answer_of<S: Site, C: Choose>(core: &Core<S, C>, hosts: usize, ends: &[HostEnd]) -> RunAnswer
    ensures { result ≡ run_answer core.now.stopped (length core.now.history) hosts ends.now }
{
    if let Some(fault) = core.stopped() {
        return RunAnswer::Stopped { fault };
    }
    let all_there = ends.len() == hosts;
    let finished = are_all_finished(ends);
    let full = core.history().as_slice().len() == ENTRY_LIMIT;
    if all_there && finished {
        return RunAnswer::Done;
    }
    if full && all_there {
        return RunAnswer::CommandLimit;
    }
    RunAnswer::Memory
}

/// What a run takes before its first actor: its word's blank, and lists with room for each host.
#[derive(Drop)]
struct Supplies<N: Name> {
    blank: Blank,
    passes: PassList<N>,
    ends: HostEnds,
}

/// The blank, with what a run of so many hosts takes beside it.
fn supplies_for<N: Name>(alloc: Global, blank: Blank, hosts: usize) -> Result<Supplies<N>, NoMemory>
    ensures blank { IfOk result (λ taken. taken.blank ≡ blank) }
    ensures passes { IfOk result (λ taken. IsEmptyFor hosts taken.passes) }
    ensures ends { IfOk result (λ taken. IsEmptyFor hosts taken.ends) }
{
    let mut ends = HostEnds::new(alloc);
    ends.reserve(hosts)?;
    let mut passes = PassList::new(alloc);
    passes.reserve(hosts)?;
    Ok(Supplies {
        blank,
        passes,
        ends,
    })
}

/// The core as it is, in which no call was made, and the copier, without the end of any host.
fn without_ends<S: Site, C: Choose>(
    alloc: Global,
    core: Core<S, C>,
    job: &Job,
    copier: Option<Copier>,
) -> RunEnd<S, C>
    requires empty { core.history ≡ [] }
    requires ready { IfSome copier (IsReadyFor core.history) }
    ensures leaves { LeavesRun S.Site job.now (is_some (asked_copy copier)) core result.core
        result.hosts.items result.answer }
    ensures copier { asked_copy result.copier ≡ asked_copy copier }
    ensures stands { IfSome result.copier (StandsBeside S.Site result.core) }
{
    let scripts = job.hosts.as_slice();
    let ends = HostEnds::new(alloc);
    let none = ends.as_slice();
    let answer = answer_of(&core, scripts.len(), none);
    let (core, copier) = CopiedCore::new(core, copier).into_parts();
    RunEnd {
        core,
        copier,
        hosts: ends,
        answer,
    }
}

/// Runs a job under a name that names the blank, the core's session and the job's hosts.
fn run_named<
    N: Setup + Send + Sync,
    S: Site + Send,
    C: Choose + Send,
    G: Gate + Sync,
    R: Threads + Wait + Sync,
>(
    rt: &R,
    alloc: Global,
    blank: Blank,
    core: Core<S, C>,
    job: &Job,
    gate: &G,
    copier: Option<Copier>,
) -> RunEnd<S, C>
    requires word { blank ≡ N.table }
    requires opening { OpensWith N.opening N.setup S.tells (S.never_fails_but core.site)
        (seen_core S.Site core) }
    requires began { N.setup.began ≡ seen_core S.Site core }
    requires sound { (but : UnitNo → Bool)
        → S.never_fails_but core.site but → N.setup.never_fails_but but }
    requires hosts { N.hosts ≡ hosts_of job.now.hosts }
    requires empty { core.history ≡ [] }
    requires ready { IfSome copier (IsReadyFor core.history) }
    requires copy { asked_copy copier ≡ N.setup.copy }
    ensures leaves { LeavesRun S.Site job.now (is_some (asked_copy copier)) core result.core
        result.hosts.items result.answer }
    ensures copier { asked_copy result.copier ≡ asked_copy copier }
    ensures stands { IfSome result.copier (StandsBeside S.Site result.core) }
{
    let hosts = job.hosts.as_slice().len();
    let Ok(taken) = supplies_for::<N>(alloc, blank, hosts) else {
        return without_ends(alloc, core, job, copier);
    };
    run_supplied(rt, alloc, taken, core, job, gate, copier)
}

/// Runs a job under such a name, with the lists that the run fills.
fn run_supplied<
    N: Setup + Send + Sync,
    S: Site + Send,
    C: Choose + Send,
    G: Gate + Sync,
    R: Threads + Wait + Sync,
>(
    rt: &R,
    alloc: Global,
    taken: Supplies<N>,
    core: Core<S, C>,
    job: &Job,
    gate: &G,
    copier: Option<Copier>,
) -> RunEnd<S, C>
    requires word { taken.blank ≡ N.table }
    requires passes { IsEmptyFor (length job.now.hosts) taken.passes }
    requires ends { IsEmptyFor (length job.now.hosts) taken.ends }
    requires opening { OpensWith N.opening N.setup S.tells (S.never_fails_but core.site)
        (seen_core S.Site core) }
    requires began { N.setup.began ≡ seen_core S.Site core }
    requires sound { (but : UnitNo → Bool)
        → S.never_fails_but core.site but → N.setup.never_fails_but but }
    requires hosts { N.hosts ≡ hosts_of job.now.hosts }
    requires empty { core.history ≡ [] }
    requires ready { IfSome copier (IsReadyFor core.history) }
    requires copy { asked_copy copier ≡ N.setup.copy }
    ensures leaves { LeavesRun S.Site job.now (is_some (asked_copy copier)) core result.core
        result.hosts.items result.answer }
    ensures copier { asked_copy result.copier ≡ asked_copy copier }
    ensures stands { IfSome result.copier (StandsBeside S.Site result.core) }
{
    let Supplies {
        blank,
        passes,
        ends,
    } = taken;
    let scripts = job.hosts.as_slice();
    let (word, book) = start_book::<N>(blank);
    let (book, passes) = make_passes(&word, book, scripts, passes);
    let shared = Shared::new(word, book, core, copier);
    let run = Run {
        rt,
        alloc,
        shared: &shared,
        gate,
    };
    let (passes, ends) = run.run_all(scripts, passes, ends);
    let (core, copier) = shared.close(passes);
    let answer = answer_of(&core, scripts.len(), ends.as_slice());
    RunEnd {
        core,
        copier,
        hosts: ends,
        answer,
    }
}

/// Runs each host and each recorder of a job as an actor in a thread of its own, and gives back the core when all have
/// left.
///
/// Events of hosts and recorders led to it, one after the other, as the rules have them. Its history is legal from where that began, whatever the order in which the
/// actors came, and each entry is of a host of the job. Of each host there is its end: the places of all entries that
/// it was told of, in rising order, and whether what it was told follows its script to the end; for want of memory at
/// the start there is none, and no entry. Each entry is a call of its host's script, in order, also one that stopped
/// the core. All memory that is common to them is taken before the first actor starts. Where nothing but reads can
/// fail, the core isn't stopped.
///
/// Where a copier is handed in, it is an actor too, and comes back for the same copy, which stands for the session. Its
/// copy isn't whole where the others left first, or where memory was wanting: `finish` takes the rest.
pub fn run_actors<S: Site + Send, C: Choose + Send, G: Gate + Sync, R: Threads + Wait + Sync>(
    rt: &R,
    alloc: Global,
    core: Core<S, C>,
    job: &Job,
    gate: &G,
    copier: Option<Copier>,
) -> RunEnd<S, C>
    requires empty { core.history ≡ [] }
    requires ready { IfSome copier (IsReadyFor core.history) }
    requires config { core.config ≡ job.now.config }
    ensures led { LeadsTo S.tells (is_some (asked_copy copier)) (seen_core S.Site core)
        (seen_core S.Site result.core) }
    ensures sound { StaysSound S.never_fails_but core.site result.core.site }
    ensures only_reads_fail { (but : UnitNo → Bool) → S.never_fails_but core.site but
        → core.stopped ≡ None → result.core.stopped ≡ None }
    ensures legal { S.tells → IsLegal (opening_of (S.told core.site) core) result.core.history }
    ensures hosts { AreOfThese (hosts_of job.now.hosts) result.core.history }
    ensures ends { LeavesEnds result.core.history job.now.hosts result.hosts.items }
    ensures follow { AskByScript result.core.history job.now.hosts }
    ensures answer { result.answer ≡ run_answer result.core.stopped (length result.core.history)
        (length job.now.hosts) result.hosts.items }
    ensures copier { asked_copy result.copier ≡ asked_copy copier }
    ensures stands { IfSome result.copier (StandsBeside S.Site result.core) }
{
    let Ok(blank) = make::<Brand>(alloc) else {
        return without_ends(alloc, core, job, copier);
    };
    run_named::<Brand, S, C, G, R>(rt, alloc, blank, core, job, gate, copier)
}
