// A load, run on a site, with its summary.
ghost use Rattle.std.specs.Prelude.{Bool, Ok};
ghost use Rattle.mss_base.specs.declared.place.UnitNo.{UnitNo};
ghost use Rattle.core_state.specs.Sessions.{session_data};
ghost use Rattle.mss_restart.specs.Creations.{WritesOn};
ghost use Rattle.serial_driver.specs.Drives.{AreTurns};
ghost use Rattle.session_report.specs.Answers.{IsPut, SinkCounts};
ghost use Rattle.session_report.specs.Parties.{sink_between};
ghost use Rattle.session_report.specs.Reports.{ending_of};
ghost use Rattle.session_report.specs.Summaries.{summary_text};
ghost use Rattle.job_runs.specs.Parties.{devices};
ghost use Rattle.job_runs.specs.Runs.{GoesUnstopped, IsHalted, IsSummed, LoadEnds};

use crate::run::{JobEnd, Outcome, Played, play};
use crate::telling::last_of;
use core_state::Session;
use job_text::Job;
use mss_base::{Sink, Site};
use serial_driver::DriveAnswer;
use session_report::{Last, ReportFault, summary};
use std::alloc::Global;
use victim_choice::Choose;

/// Puts the summary of a session that ended so.
fn put_summary<O: Sink>(
    programs: u32,
    session: &Session,
    last: Last,
    output: &mut O,
) -> Result<(), ReportFault>
    ensures put { let ending = ending_of session.now.stopped last in
        IsPut (Ok tt) (summary_text programs (session_data session.now) ending)
        (sink_between O.Sink output.old output.new) result }
    ensures counted { SinkCounts (O.faults output.old) (O.faults output.new) result }
{
    summary(programs, session, last, output)?;
    Ok(())
}

/// Puts the summary of a session that ended so, of which so many programs were asked for. Where memory ran out in it,
/// nothing is put.
fn tell_load<O: Sink>(
    programs: u32,
    session: &Session,
    end: DriveAnswer,
    output: &mut O,
) -> Result<(), ReportFault>
    requires halts { IsHalted end session.now.stopped }
    ensures summed { IsSummed programs (session_data session.now) end
        (sink_between O.Sink output.old output.new) result }
    ensures counted { SinkCounts (O.faults output.old) (O.faults output.new) result }
{
    match last_of(end) {
        Some(last) => put_summary(programs, session, last, output),
        None => Err(ReportFault::Memory),
    }
}

/// Plays the job of a load on a site, and puts the summary. So many programs were asked for.
pub fn run_load<S: Site, C: Choose + Drop, O: Sink>(
    alloc: Global,
    job: &Job,
    programs: u32,
    turns: &[u32],
    site: S,
    chooser: C,
    output: &mut O,
) -> JobEnd<S>
    requires able { C.can_choose chooser }
    requires turns { AreTurns job.now.hosts job.now.config turns.now }
    ensures ends { LoadEnds (C.may chooser) job.now programs turns.now
        (devices S.Site site result.site)
        (sink_between O.Sink output.old output.new) result.outcome }
    ensures devices { WritesOn S.Site site result.site }
    ensures only_reads_fail { (but : UnitNo → Bool) → S.never_fails_but site but
        → GoesUnstopped result.outcome }
{
    match play(alloc, job, turns, site, chooser, None) {
        Ok(played) => {
            let Played {
                site,
                rows: _,
                session,
                end,
                copier: _,
            } = played;
            let told = tell_load(programs, &session, end, output);
            JobEnd {
                site,
                outcome: Outcome::Ran(session, end, told),
            }
        }
        Err((site, refused)) => JobEnd {
            site,
            outcome: Outcome::Untaken(refused),
        },
    }
}
