//! A run in threads: words, input, job, session, report.
ghost use Rattle.std.specs.Prelude.{◌≡◌, [], Bool, IfSome, None, Some, map, string_bytes};
ghost use Rattle.mss_base.specs.declared.place.UnitNo.{UnitNo};
ghost use Rattle.command_words.specs.Words.{IsCopyWithin, meaning};
ghost use Rattle.command_words.specs.declared.command.Command.TheVariants as command;
ghost use Rattle.core_state.specs.Sessions.{session_data};
ghost use Rattle.job_text.specs.Jobs.{JobData};
ghost use Rattle.mss_restart.specs.Creations.{WritesOn};
ghost use Rattle.session_report.specs.Parties.{sink_between, source_between};
ghost use Rattle.job_runs.specs.Parties.{devices};
ghost use Rattle.job_runs.specs.Copies.{job_with};
ghost use Rattle.volume_copy.specs.Beside.{IsReadyFor};
ghost use Rattle.mss_top.specs.Serial.{IsComplete, JobBrokeOff, OnUnstopped};
ghost use Rattle.mss_top.specs.Threads.{EndsJob, EndsThreads, GoesWellAtOnce};
ghost use Rattle.mss_top.specs.Threads.{ThreadsBrokeOff};
ghost use Rattle.mss_top.specs.Status.{IsLinePut};
ghost use Rattle.mss_top.specs.declared.status.Status.TheVariants.{Stopped};

use crate::admission::{command_in, job_of_input};
use crate::copying::copier_for;
use crate::ending::{Ended, refusal_line, refuse};
use crate::run::close;
use command_words::{Command, CopyAsked};
use job_runs::{JobEnd, Outcome};
use job_text::Job;
use mss_base::{Sink, Site, Source};
use mss_run::{Gate, HostEnds};
use report_text::OneLine;
use std::alloc::Global;
use std::sync::Wait;
use std::thread::Threads;
use thread_runs::{EndAtOnce, run_at_once};
use victim_choice::Choose;
use volume_copy::Copier;

/// What a run in threads leaves.
#[derive(Drop)]
pub struct EndedAtOnce<S> {
    pub run: Ended<S>,
    /// How the hosts of the job ended, in its order; none where no session began.
    pub hosts: HostEnds,
}

/// Runs the job in threads on the site, or puts the line that says why the site isn't taken up.
fn run_job_at_once<
    O: Sink,
    S: Site + Send,
    C: Choose + Drop + Send,
    G: Gate + Sync,
    R: Threads + Wait + Sync + AllocGlobal,
>(
    rt: &R,
    job: &Job,
    copier: Option<Copier>,
    output: &mut O,
    site: S,
    chooser: C,
    gate: &G,
) -> EndedAtOnce<S>
    requires able { C.can_choose chooser }
    requires ready { IfSome copier (IsReadyFor []) }
    ensures ended { EndsJob (job_with job.now copier) (devices S.Site site result.run.site)
        (sink_between O.Sink output.old output.new)
        result.run.status result.hosts.items result.run.session }
    ensures unread { result.run.status ≡ Stopped → OnUnstopped result.run.session (JobBrokeOff
        S.Site site job.now (devices S.Site site result.run.site)
        (sink_between O.Sink output.old output.new)) }
    ensures only_reads_fail { (but : UnitNo → Bool) → S.never_fails_but site but
        → IfSome result.run.session (λ s. (session_data s).stopped ≡ None) }
    ensures devices { WritesOn S.Site site result.run.site }
{
    let EndAtOnce { job, hosts } = run_at_once(
        rt,
        rt.alloc(),
        job,
        site,
        chooser,
        copier,
        gate,
        output,
    );
    let JobEnd { site, outcome } = job;
    match outcome {
        Outcome::Untaken(refused) => EndedAtOnce {
            run: refuse(output, site, refusal_line(&refused)),
            hosts,
        },
        Outcome::Ran(session, end, told) => EndedAtOnce {
            run: Ended {
                status: close(output, end, told),
                site,
                session: Some(session),
            },
            hosts,
        },
    }
}

/// The end of a run in threads that has no session: its one line is put.
fn refuse_threads<O: Sink, S: Site>(
    alloc: Global,
    output: &mut O,
    site: S,
    line: OneLine,
) -> EndedAtOnce<S>
    ensures put { IsLinePut line (sink_between O.Sink output.old output.new) result.run.status }
    ensures hosts { result.hosts.items ≡ [] }
    ensures site { result.run.site ≡ site }
    ensures session { result.run.session ≡ None }
{
    EndedAtOnce {
        run: refuse(output, site, line),
        hosts: HostEnds::new(alloc),
    }
}

/// Does a run in threads on the site, of the job that the input has, or puts the line that says why there is none.
pub fn run_threads<
    I: Source,
    O: Sink,
    S: Site + Send,
    C: Choose + Drop + Send,
    G: Gate + Sync,
    R: Threads + Wait + Sync + AllocGlobal,
>(
    rt: &R,
    copy: Option<CopyAsked>,
    input: &mut I,
    output: &mut O,
    site: S,
    chooser: C,
    gate: &G,
) -> EndedAtOnce<S>
    requires able { C.can_choose chooser }
    requires copy { IsCopyWithin copy }
    ensures ended { EndsThreads (Some (command.Threads copy))
        (source_between I.Source input.old input.new) (devices S.Site site result.run.site)
        (sink_between O.Sink output.old output.new)
        result.run.status result.hosts.items result.run.session }
    ensures unread { result.run.status ≡ Stopped → OnUnstopped result.run.session
        (ThreadsBrokeOff S.Site site (Some (command.Threads copy))
        (source_between I.Source input.old input.new) (devices S.Site site result.run.site)
        (sink_between O.Sink output.old output.new)) }
    ensures only_reads_fail { (but : UnitNo → Bool) → S.never_fails_but site but
        → IfSome result.run.session (λ s. (session_data s).stopped ≡ None) }
    ensures devices { WritesOn S.Site site result.run.site }
{
    let Ok(copier) = copier_for(rt.alloc(), copy) else {
        return refuse_threads(rt.alloc(), output, site, OneLine::WantOfMemory);
    };
    match job_of_input(rt.alloc(), input) {
        Ok(job) => run_job_at_once(rt, &job, copier, output, site, chooser, gate),
        Err(line) => refuse_threads(rt.alloc(), output, site, line),
    }
}

/// Does the run in threads that the words ask for on the site, with its report: each host of the job and each recorder
/// goes in a thread of its own.
///
/// The words are the command `threads` with its options. The input is read to its end, or to one byte past the
/// longest job text, before anything is looked at; a text that is no job, and a site that isn't taken up, are refused
/// as by `serial`. The order in which the threads come is the system's: the history is that of plain volumes for each.
/// All actors pass the gate between their holds. Where nothing but reads can fail, no session is stopped; where a read
/// for the report fails, it ends before that track. Whether and when the threads get on no clause says.
pub fn threads<
    I: Source,
    O: Sink,
    S: Site + Send,
    C: Choose + Drop + Send,
    G: Gate + Sync,
    R: Threads + Wait + Sync + AllocGlobal,
>(
    rt: &R,
    words: &[String],
    input: &mut I,
    output: &mut O,
    site: S,
    chooser: C,
    gate: &G,
) -> EndedAtOnce<S>
    requires able { C.can_choose chooser }
    ensures ended { EndsThreads (meaning (map string_bytes words.now))
        (source_between I.Source input.old input.new) (devices S.Site site result.run.site)
        (sink_between O.Sink output.old output.new)
        result.run.status result.hosts.items result.run.session }
    ensures unread { result.run.status ≡ Stopped → OnUnstopped result.run.session
        (ThreadsBrokeOff S.Site site (meaning (map string_bytes words.now))
        (source_between I.Source input.old input.new) (devices S.Site site result.run.site)
        (sink_between O.Sink output.old output.new)) }
    ensures complete { (job : JobData) → GoesWellAtOnce (meaning (map string_bytes words.now))
        (source_between I.Source input.old input.new) (devices S.Site site result.run.site)
        (sink_between O.Sink output.old output.new) job
        → IsComplete result.run.status }
    ensures only_reads_fail { (but : UnitNo → Bool) → S.never_fails_but site but
        → IfSome result.run.session (λ s. (session_data s).stopped ≡ None) }
    ensures devices { WritesOn S.Site site result.run.site }
{
    match command_in(rt.alloc(), words) {
        Ok(Command::Threads { copy }) => run_threads(rt, copy, input, output, site, chooser, gate),
        Ok(_) => refuse_threads(rt.alloc(), output, site, OneLine::WordsRefused),
        Err(line) => refuse_threads(rt.alloc(), output, site, line),
    }
}
