// A job, run in threads on a site.
ghost use Rattle.std.specs.Prelude.{◌≡◌, [], Bool, Err, IfErr, IfOk, IfSome, None};
ghost use Rattle.mss_base.specs.declared.place.UnitNo.{UnitNo};
ghost use Rattle.core_state.specs.CoreValue.{DevicesSeen, seen_core, seen_site};
ghost use Rattle.core_state.specs.Sessions.{session_data};
ghost use Rattle.mss_restart.specs.Creations.{WritesOn};
ghost use Rattle.session_report.specs.Parties.{sink_between};
ghost use Rattle.job_runs.specs.Parties.{devices};
ghost use Rattle.job_runs.specs.Runs.{AreRowsOf, GoesUnstopped, IsBegun, OnUnread, RefusesStart, ReportBrokeOff};
ghost use Rattle.job_runs.specs.Copies.{HoldsCopy, job_with};
ghost use Rattle.volume_copy.specs.Beside.{IsReadyFor, asked_copy};
ghost use Rattle.thread_runs.specs.Runs.{EndsAtOnce, IsPlayedAtOnce, ended_as};

use core_restart::{Refused, restart};
use core_state::Core;
use job_runs::{JobEnd, Outcome, Played, finish_copy, look, put_report};
use job_text::Job;
use mss_base::{Sink, Site};
use mss_run::{Gate, HostEnds, RunAnswer, RunEnd, run_actors};
use plain_sessions::law::sessions_are_plain;
use serial_driver::DriveAnswer;
use std::alloc::Global;
use std::sync::Wait;
use std::thread::Threads;
use victim_choice::Choose;
use volume_copy::Copier;

/// A session that was run in threads, and how each host of its job ended.
#[derive(Drop)]
struct PlayedAtOnce<S> {
    played: Played<S>,
    /// The hosts of the job, in its order; none where memory ran out before they began.
    hosts: HostEnds,
}

/// What became of a job that was run in threads, and how each of its hosts ended.
#[derive(Drop)]
pub struct EndAtOnce<S> {
    pub job: JobEnd<S>,
    /// The hosts of the job, in its order; none where no session began, or where memory ran out before they did.
    pub hosts: HostEnds,
}

/// What ended a run in threads, as it is told of every session.
fn ended_as(answer: RunAnswer) -> DriveAnswer
    ensures { result ≡ ended_as answer }
{
    match answer {
        RunAnswer::Done => DriveAnswer::Done,
        RunAnswer::Stopped { fault } => DriveAnswer::Stopped { fault },
        RunAnswer::CommandLimit => DriveAnswer::CommandLimit,
        RunAnswer::Memory => DriveAnswer::Memory,
    }
}

/// A core that has just begun on the site, for a job, or the site and why it isn't taken up.
fn begin<S: Site, C: Choose + Drop>(
    alloc: Global,
    job: &Job,
    site: S,
    chooser: C,
) -> Result<Core<S, C>, (S, Refused)>
    requires able { C.can_choose chooser }
    ensures begun { IfOk result (λ core. IsBegun S.tells job.now.config
        (seen_site S.Site site) (seen_core S.Site core)) }
    ensures devices { IfOk result (λ core. WritesOn S.Site site core.site) }
    ensures untaken { IfErr result (λ back. RefusesStart job.now.config
        (devices S.Site site back.0) back.1) }
    ensures back { IfErr result (λ back. WritesOn S.Site site back.0) }
{
    match restart(alloc, site, &job.config, chooser) {
        Ok(core) => {
            look(&core);
            Ok(core)
        }
        Err((site, refused)) => Err((site, refused)),
    }
}

/// Plays a job in threads on a core that has just begun.
fn play_on<S: Site + Send, C: Choose + Drop + Send, G: Gate + Sync, R: Threads + Wait + Sync>(
    rt: &R,
    alloc: Global,
    core: Core<S, C>,
    job: &Job,
    gate: &G,
    copier: Option<Copier>,
) -> PlayedAtOnce<S>
    requires empty { core.history ≡ [] }
    requires ready { IfSome copier (IsReadyFor core.history) }
    requires config { core.config ≡ job.now.config }
    requires writes { core.first_write ≡ S.writes core.site }
    requires faults { core.first_faults ≡ S.faults core.site }
    ensures session { (was : DevicesSeen)
        → IsBegun S.tells job.now.config was (seen_core S.Site core)
        → IsPlayedAtOnce (job_with job.now copier) (record {
          tells = S.tells;
          was = was;
          now = seen_site S.Site result.played.site;
        })
        result.played.end result.hosts.items (session_data result.played.session) }
    ensures asked { asked_copy result.played.copier ≡ asked_copy copier }
    ensures copy { (was : DevicesSeen) → IsBegun S.tells job.now.config was (seen_core S.Site core)
        → HoldsCopy S.Site job.now.config was.told result.played }
    ensures rows { AreRowsOf S.tells (S.told result.played.site) result.played.session.stopped
        result.played.rows }
    ensures devices { WritesOn S.Site core.site result.played.site }
    ensures only_reads_fail { (but : UnitNo → Bool) → S.never_fails_but core.site but
        → core.stopped ≡ None → result.played.session.stopped ≡ None }
{
    sessions_are_plain::<S>();
    let RunEnd {
        mut core,
        hosts,
        answer,
        mut copier,
    } = run_actors(rt, alloc, core, job, gate, copier);
    let end = finish_copy(&mut core, &mut copier, ended_as(answer));
    look(&core);
    let (site, session, rows) = core.into_session();
    PlayedAtOnce {
        played: Played {
            site,
            rows,
            session,
            end,
            copier,
        },
        hosts,
    }
}

/// Takes up a site and runs a job on it in threads, each host of the job and each recorder in one of its own, and the
/// copier, if a copy is asked for; and puts the report. Where a read for it fails, it ends before that track.
///
/// A site that a session left, stopped at whatever moment, is taken up; one with another fault is refused by the
/// first, untouched, and handed back. The session's history is that of plain volumes, whatever the order in which the
/// threads came; in it each host's entries are those that it was told of. All actors pass the gate between holds. Where
/// nothing but reads can fail, the session isn't stopped.
pub fn run_at_once<
    S: Site + Send,
    C: Choose + Drop + Send,
    G: Gate + Sync,
    O: Sink,
    R: Threads + Wait + Sync,
>(
    rt: &R,
    alloc: Global,
    job: &Job,
    site: S,
    chooser: C,
    copier: Option<Copier>,
    gate: &G,
    output: &mut O,
) -> EndAtOnce<S>
    requires able { C.can_choose chooser }
    requires armed { IfSome copier (IsReadyFor []) }
    ensures ends { EndsAtOnce (job_with job.now copier) (devices S.Site site result.job.site)
        (sink_between O.Sink output.old output.new) result.job.outcome result.hosts.items }
    ensures unread { OnUnread result.job.outcome (ReportBrokeOff S.Site site job.now
        (devices S.Site site result.job.site) (sink_between O.Sink output.old output.new)) }
    ensures devices { WritesOn S.Site site result.job.site }
    ensures only_reads_fail { (but : UnitNo → Bool) → S.never_fails_but site but
        → GoesUnstopped result.job.outcome }
{
    match begin(alloc, job, site, chooser) {
        Ok(core) => {
            let done = play_on(rt, alloc, core, job, gate, copier);
            EndAtOnce {
                job: put_report(alloc, job, done.played, output),
                hosts: done.hosts,
            }
        }
        Err((site, refused)) => EndAtOnce {
            job: JobEnd {
                site,
                outcome: Outcome::Untaken(refused),
            },
            hosts: HostEnds::new(alloc),
        },
    }
}
