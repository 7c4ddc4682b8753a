// A job, run on a site.
ghost use Rattle.std.specs.Prelude.{◌≡◌, ◌⊎◌, Bool, [], Err, IfErr, IfOk, IfSome, OnOk, None, is_some};
ghost use Rattle.mss_base.specs.Content.{SiteLog, content};
ghost use Rattle.mss_base.specs.Sites.{OnlyReads};
ghost use Rattle.mss_base.specs.declared.place.UnitNo.{UnitNo};
ghost use Rattle.volume_table.specs.Listed.{row_in_list};
ghost use Rattle.core_state.specs.Counted.{IsCounted};
ghost use Rattle.core_state.specs.CoreValue.{DevicesSeen, seen_core, seen_site};
ghost use Rattle.core_state.specs.IsCore.{IsTold};
ghost use Rattle.core_state.specs.SessionData.{data_of};
ghost use Rattle.mss_restart.specs.Creations.{WritesOn};
ghost use Rattle.plain_sessions.specs.Sessions.{IsPlainSession};
ghost use Rattle.session_report.specs.Parties.{seen_with, site_between, sink_between};
ghost use Rattle.session_report.specs.Parts.{IsUnread};
ghost use Rattle.session_report.specs.Reports.{BreaksOff};
ghost use Rattle.serial_driver.specs.Drives.{AreTurns, IsUnused, LeavesDrive, terms_by};
ghost use Rattle.serial_driver.specs.declared.answer.DriveAnswer.TheVariants.{Done, Memory};
ghost use Rattle.volume_copy.specs.Beside.{IsCopied, IsReadyFor, ReadsBeside, StandsBeside, asked_copy};
ghost use Rattle.volume_copy.specs.Copies.{IsCopier, asked_by};
ghost use Rattle.volume_copy.specs.Steps.{ReadsCore};
ghost use Rattle.job_runs.specs.Copies.{EndsForCopy, HoldsCopy, IsToldWhole, job_with};
ghost use Rattle.job_runs.specs.Parties.{devices};
ghost use Rattle.job_runs.specs.Runs.{
  AreRowsOf,
  JobEnds,
  FollowScripts,
  FollowToEnd,
  Goes,
  GoesUnstopped,
  IsBegun,
  IsHalted,
  IsMarked,
  IsPlayed,
  OnUnread,
  RefusesStart,
  ReportBrokeOff,
  TellsSession,
  matter_of,
};
ghost use Rattle.core_state.specs.Sessions.{session_data};

use crate::telling::tell;
use core_restart::{Refused, restart};
use core_state::{Core, Rows, Session};
use job_text::Job;
use mss_base::{NoMemory, Sink, Site};
use plain_sessions::law::sessions_are_plain;
use serial_driver::{Drive, DriveAnswer};
use session_report::ReportFault;
use session_report::law::rows_of_a_content_show_its_volumes;
use std::alloc::Global;
use victim_choice::Choose;
use volume_copy::Copier;
use volume_copy::law::whole_copies_are_their_volumes;

/// A session that was run, and what it left.
#[derive(Drop)]
pub struct Played<S> {
    pub site: S,
    /// The rows of the site's volumes, 32 of them.
    pub rows: Rows,
    pub session: Session,
    pub end: DriveAnswer,
    /// The copy, if one was asked for. Where the session ended by itself it is finished.
    pub copier: Option<Copier>,
}

/// What became of a job.
#[derive(Drop)]
pub enum Outcome {
    /// The site isn't taken up. Nothing was put.
    Untaken(Refused),
    /// A session was run: how it ended, and whether its report was put whole. After `DriveAnswer::Memory` nothing
    /// was put.
    Ran(Session, DriveAnswer, Result<(), ReportFault>),
}

/// The site that is handed back, and what became of the job on it.
#[derive(Drop)]
pub struct JobEnd<S> {
    pub site: S,
    pub outcome: Outcome,
}

/// A core that a run left, with the copier that was beside it, and how the run ended.
#[derive(Drop)]
struct Driven<S: Site, C: Choose> {
    core: Core<S, C>,
    copier: Option<Copier>,
    end: DriveAnswer,
}

/// Runs the scripts of a job on a core in which nothing has happened: by turns, and then by rounds, until no host has a
/// call or an event ends them.
fn run_scripts<S: Site, C: Choose + Drop>(
    core: Core<S, C>,
    job: &Job,
    turns: &[u32],
    copier: Option<Copier>,
) -> Driven<S, C>
    requires unused { IsUnused core job.now }
    requires ready { IfSome copier (IsReadyFor core.history) }
    requires turns { AreTurns job.now.hosts job.now.config turns.now }
    ensures goes { Goes (terms_by S.Site C.may core.chooser copier) job.now.hosts turns.now
        (seen_core S.Site core) result.end (seen_core S.Site result.core) }
    ensures follow { FollowScripts job.now.hosts result.core.history }
    ensures reach { result.end ≡ Done → FollowToEnd job.now.hosts result.core.history }
    ensures stands { IsToldWhole result.end
        → IfSome result.copier (StandsBeside S.Site result.core) }
    ensures leaves { let hosts = job.now.hosts in
        LeavesDrive S.Site (record { core = core; copier = copier; scripts = hosts })
        (record { core = result.core; copier = result.copier; scripts = hosts }) result.end }
{
    match Drive::new(core, job, copier) {
        Ok(mut drive) => {
            let end = drive.run(turns);
            let _follows = drive.core();
            let (core, copier) = drive.into_core();
            Driven { core, copier, end }
        }
        Err((core, copier, NoMemory)) => Driven {
            core,
            copier,
            end: DriveAnswer::Memory,
        },
    }
}

/// Takes the rest of a copy.
fn finish<S: Site, C: Choose>(
    core: &mut Core<S, C>,
    copier: &mut Copier,
    end: DriveAnswer,
) -> DriveAnswer
    ensures core { ReadsCore S.Site core.old core.new }
    ensures asked { asked_by copier.new ≡ asked_by copier.old }
    ensures ended { (result ≡ end) ⊎ (result ≡ Memory) }
    ensures copied { IsToldWhole result → StandsBeside S.Site core.old copier.old
        → IsCopied S.Site core.new copier.new }
{
    match copier.finish(core) {
        Ok(_) => end,
        Err(NoMemory) => DriveAnswer::Memory,
    }
}

/// Takes the rest of the copy that is asked for, if one is, behind a run that ended by itself. Where memory runs out in
/// it, the run is told to have ended so.
pub fn finish_copy<S: Site, C: Choose>(
    core: &mut Core<S, C>,
    copier: &mut Option<Copier>,
    end: DriveAnswer,
) -> DriveAnswer
    ensures core { ReadsBeside S.Site (is_some (asked_copy copier.old)) core.old core.new }
    ensures asked { asked_copy copier.new ≡ asked_copy copier.old }
    ensures ended { (result ≡ end) ⊎ EndsForCopy copier.old end result }
    ensures copied { IsToldWhole result → IfSome copier.old (StandsBeside S.Site core.old)
        → IfSome copier.new (IsCopied S.Site core.new) }
{
    match end {
        DriveAnswer::Done | DriveAnswer::CommandLimit => match copier {
            Some(copier) => finish(core, copier, end),
            None => end,
        },
        DriveAnswer::Stopped { .. } | DriveAnswer::Memory => end,
    }
}

/// What every core keeps, for the proof of a caller that holds one.
pub fn look<S: Site, C: Choose>(core: &Core<S, C>)
    ensures told { S.tells → IsTold (S.told core.now.site) core.now }
    ensures counted { IsCounted (S.writes core.now.site) (S.faults core.now.site)
        core.now.requests (data_of core.now) }
    ensures marked { IsMarked (data_of core.now) }
{
    let _site = &core.site;
}

/// Plays a job on a core that has just begun.
fn play_on<S: Site, C: Choose + Drop>(
    core: Core<S, C>,
    job: &Job,
    turns: &[u32],
    copier: Option<Copier>,
) -> Played<S>
    requires unused { IsUnused core job.now }
    requires going { core.stopped ≡ None }
    requires ready { IfSome copier (IsReadyFor core.history) }
    requires turns { AreTurns job.now.hosts job.now.config turns.now }
    ensures session { (was : DevicesSeen)
        → IsBegun S.tells job.now.config was (seen_core S.Site core)
        → IsPlayed (C.may core.chooser) (job_with job.now copier) turns.now
        (record { tells = S.tells; was = was; now = seen_site S.Site result.site })
        result.end (session_data result.session) }
    ensures asked { asked_copy result.copier ≡ asked_copy copier }
    ensures copy { (was : DevicesSeen) → IsBegun S.tells job.now.config was (seen_core S.Site core)
        → HoldsCopy S.Site job.now.config was.told result }
    ensures rows { AreRowsOf S.tells (S.told result.site) result.session.stopped result.rows }
    ensures devices { WritesOn S.Site core.site result.site }
    ensures only_reads_fail { (but : UnitNo → Bool) → S.never_fails_but core.site but
        → result.session.stopped ≡ None }
{
    sessions_are_plain::<S>();
    let Driven {
        mut core,
        mut copier,
        end,
    } = run_scripts(core, job, turns, copier);
    let end = finish_copy(&mut core, &mut copier, end);
    look(&core);
    let (site, session, rows) = core.into_session();
    Played {
        site,
        rows,
        session,
        end,
        copier,
    }
}

/// Takes up a site and runs a job on it, with a copier beside it, if a copy is asked for.
///
/// A site that a session left, stopped at whatever moment, is taken up; one with another fault is refused by the
/// first, untouched, and handed back. Hosts and recorders take the turns of a list first, one event each: a turn is a
/// number, of which the hosts of the job come first, in order, and then the recorders. Then the hosts call by rounds:
/// the recorders work until nothing is left to do, and each host that has a call makes it once, in the order of the
/// job, until no host has one, or one has at 4,096 entries.
pub fn play<S: Site, C: Choose + Drop>(
    alloc: Global,
    job: &Job,
    turns: &[u32],
    site: S,
    chooser: C,
    copier: Option<Copier>,
) -> Result<Played<S>, (S, Refused)>
    requires able { C.can_choose chooser }
    requires armed { IfSome copier (IsReadyFor []) }
    requires turns { AreTurns job.now.hosts job.now.config turns.now }
    ensures played { IfOk result (λ p. IsPlayed (C.may chooser) (job_with job.now copier)
        turns.now (devices S.Site site p.site) p.end (session_data p.session)) }
    ensures asked { IfOk result (λ p. asked_copy p.copier ≡ asked_copy copier) }
    ensures copy { IfOk result (HoldsCopy S.Site job.now.config (S.told site)) }
    ensures rows { IfOk result (λ p. AreRowsOf S.tells (S.told p.site) p.session.stopped p.rows) }
    ensures devices { IfOk result (λ p. WritesOn S.Site site p.site) }
    ensures only_reads_fail { IfOk result (λ p. (but : UnitNo → Bool)
        → S.never_fails_but site but → p.session.stopped ≡ None) }
    ensures untaken { IfErr result (λ back. RefusesStart job.now.config
        (devices S.Site site back.0) back.1) }
    ensures back { IfErr result (λ back. WritesOn S.Site site back.0) }
{
    match restart(alloc, site, &job.config, chooser) {
        Ok(core) => {
            look(&core);
            Ok(play_on(core, job, turns, copier))
        }
        Err((site, refused)) => Err((site, refused)),
    }
}

/// What every copier keeps, for the proof of a caller that holds one.
fn look_at_copy(copier: &Option<Copier>)
    ensures { IfSome copier.now IsCopier }
{
    if let Some(copier) = copier {
        let _state = copier.state();
    }
}

/// Puts the report of a session that was played, and hands the site back.
///
/// Where it promises plain volumes, those are told, and behind them the copy, if one was asked for. Where a read
/// fails, the report ends before a track that one of its rows shows in a unit of which a read may fail.
pub fn put_report<S: Site, O: Sink>(
    alloc: Global,
    job: &Job,
    played: Played<S>,
    output: &mut O,
) -> JobEnd<S>
    requires rows { AreRowsOf S.tells (S.told played.site) played.session.stopped played.rows }
    requires halts { IsHalted played.end played.session.stopped }
    ensures tells { (was : SiteLog) → (S.tells → IsPlainSession job.now.config was
        (S.told played.site) (session_data played.session))
        → HoldsCopy S.Site job.now.config was played
        → TellsSession (job_with job.now played.copier) was
        (devices S.Site played.site result.site) (sink_between O.Sink output.old output.new)
        played.end (session_data played.session) result.outcome }
    ensures unread { (was : SiteLog) → (S.tells → IsPlainSession job.now.config was
        (S.told played.site) (session_data played.session))
        → OnUnread result.outcome (λ s. BreaksOff
        (IsUnread S.Site played.site (row_in_list played.rows) job.now.config.volumes)
        (matter_of job.now (content was) s [])
        (seen_with (site_between S.Site played.site result.site)
        (sink_between O.Sink output.old output.new))) }
    ensures site { OnlyReads S.Site played.site result.site }
{
    rows_of_a_content_show_its_volumes();
    let Played {
        mut site,
        rows,
        session,
        end,
        copier,
    } = played;
    let volumes = job.config.volumes.as_slice();
    whole_copies_are_their_volumes();
    look_at_copy(&copier);
    let told = tell(
        alloc,
        &mut site,
        &rows,
        volumes,
        &session,
        end,
        output,
        copier.as_ref(),
    );
    JobEnd {
        site,
        outcome: Outcome::Ran(session, end, told),
    }
}

/// Plays a job on a site, with a copier beside it, if a copy is asked for, and puts the report. Where a read for it
/// fails, it ends before that track.
pub fn run_job<S: Site, C: Choose + Drop, O: Sink>(
    alloc: Global,
    job: &Job,
    turns: &[u32],
    site: S,
    chooser: C,
    copier: Option<Copier>,
    output: &mut O,
) -> JobEnd<S>
    requires able { C.can_choose chooser }
    requires armed { IfSome copier (IsReadyFor []) }
    requires turns { AreTurns job.now.hosts job.now.config turns.now }
    ensures ends { JobEnds (C.may chooser) (job_with job.now copier) turns.now
        (devices S.Site site result.site) (sink_between O.Sink output.old output.new)
        result.outcome }
    ensures unread { OnUnread result.outcome (ReportBrokeOff S.Site site job.now
        (devices S.Site site result.site) (sink_between O.Sink output.old output.new)) }
    ensures devices { WritesOn S.Site site result.site }
    ensures only_reads_fail { (but : UnitNo → Bool) → S.never_fails_but site but
        → GoesUnstopped result.outcome }
{
    match play(alloc, job, turns, site, chooser, copier) {
        Ok(played) => put_report(alloc, job, played, output),
        Err((site, refused)) => JobEnd {
            site,
            outcome: Outcome::Untaken(refused),
        },
    }
}
