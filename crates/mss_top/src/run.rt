//! A whole run: words, input, job, session, report.
ghost use Rattle.std.specs.Prelude.{◌≡◌, [], Bool, IfSome, None, Some, map, string_bytes};
ghost use Rattle.mss_base.specs.declared.place.UnitNo.{UnitNo};
ghost use Rattle.core_state.specs.Sessions.{session_data};
ghost use Rattle.command_words.specs.Words.{IsCopyWithin, meaning};
ghost use Rattle.job_text.specs.Jobs.{JobData};
ghost use Rattle.mss_restart.specs.Creations.{WritesOn};
ghost use Rattle.serial_driver.specs.Drives.{AreTurns};
ghost use Rattle.session_report.specs.Parties.{sink_between, source_between};
ghost use Rattle.job_runs.specs.Parties.{devices};
ghost use Rattle.job_runs.specs.Runs.{GoesUnstopped, OnUnread, ReportBrokeOff};
ghost use Rattle.volume_copy.specs.Beside.{IsReadyFor, asked_copy};
ghost use Rattle.mss_top.specs.Admission.{IsLoad, command_of, copy_asked, task_of};
ghost use Rattle.mss_top.specs.Serial.{Closes, EndsCommand, EndsRun, GoesWell, IsComplete, RunsAdmitted};
ghost use Rattle.mss_top.specs.Serial.{JobBrokeOff, OnUnstopped, RunBrokeOff};
ghost use Rattle.mss_top.specs.declared.admission.Settings.{Settings};
ghost use Rattle.mss_top.specs.declared.status.Status.TheVariants.{Stopped};
ghost use Rattle.victim_rules.specs.Rules.{RulesMay};

use crate::admission::{Admitted, Settings, admit, command_in};
use crate::copying::copier_for;
use crate::ending::{Ended, refusal_line, refuse, say, status_of};
use crate::status::Status;
use command_words::Command;
use job_runs::{JobEnd, Outcome, run_job, run_load};
use mss_base::{Sink, Site, Source};
use report_text::OneLine;
use serial_driver::DriveAnswer;
use session_report::ReportFault;
use std::alloc::Global;
use victim_choice::Choose;
use victim_rules::Ruled;
use volume_copy::Copier;

/// Ends the output of a session, and answers with the status: where memory ran out in it, nothing was put yet, and one
/// line says so.
pub fn close<O: Sink>(output: &mut O, end: DriveAnswer, told: Result<(), ReportFault>) -> Status
    ensures { Closes end told (sink_between O.Sink output.old output.new) result }
{
    match end {
        DriveAnswer::Memory => say(output, OneLine::WantOfMemory),
        end => status_of(end, told),
    }
}

/// Runs the job on the site, and puts its report, or the summary of a load.
fn run_told<S: Site, C: Choose + Drop, O: Sink>(
    alloc: Global,
    run: &Admitted,
    copier: Option<Copier>,
    site: S,
    chooser: C,
    output: &mut O,
) -> JobEnd<S>
    requires able { C.can_choose chooser }
    requires ready { IfSome copier (IsReadyFor []) }
    requires copy { asked_copy copier ≡ copy_asked run.now.settings.copy }
    requires turns { AreTurns run.now.job.hosts run.now.job.config run.now.turns.items }
    ensures runs { RunsAdmitted (C.may chooser) run.now.settings.load
        (task_of run.now.job run.now.settings.copy) run.now.turns.items
        (devices S.Site site result.site)
        (sink_between O.Sink output.old output.new) result.outcome }
    ensures unread { OnUnread result.outcome (ReportBrokeOff S.Site site run.now.job
        (devices S.Site site result.site) (sink_between O.Sink output.old output.new)) }
    ensures only_reads_fail { (but : UnitNo → Bool) → S.never_fails_but site but
        → GoesUnstopped result.outcome }
    ensures devices { WritesOn S.Site site result.site }
{
    match run.settings.load {
        None => run_job(alloc, &run.job, &run.turns, site, chooser, copier, output),
        Some(programs) => run_load(alloc, &run.job, programs, &run.turns, site, chooser, output),
    }
}

/// Does an admitted run on the site, with the copier of its copy, or puts the line that says why the site isn't taken
/// up.
fn run_admitted<S: Site, C: Choose + Drop, O: Sink>(
    alloc: Global,
    run: &Admitted,
    copier: Option<Copier>,
    site: S,
    chooser: C,
    output: &mut O,
) -> Ended<S>
    requires able { C.can_choose chooser }
    requires ready { IfSome copier (IsReadyFor []) }
    requires copy { asked_copy copier ≡ copy_asked run.now.settings.copy }
    requires turns { AreTurns run.now.job.hosts run.now.job.config run.now.turns.items }
    ensures ended { EndsRun (C.may chooser) run.now (devices S.Site site result.site)
        (sink_between O.Sink output.old output.new) result.status result.session }
    ensures unread { result.status ≡ Stopped → OnUnstopped result.session (JobBrokeOff
        S.Site site run.now.job (devices S.Site site result.site)
        (sink_between O.Sink output.old output.new)) }
    ensures only_reads_fail { (but : UnitNo → Bool) → S.never_fails_but site but
        → IfSome result.session (λ s. (session_data s).stopped ≡ None) }
    ensures devices { WritesOn S.Site site result.site }
{
    let JobEnd { site, outcome } = run_told(alloc, run, copier, site, chooser, output);
    match outcome {
        Outcome::Untaken(refused) => refuse(output, site, refusal_line(&refused)),
        Outcome::Ran(session, end, told) => Ended {
            status: close(output, end, told),
            site,
            session: Some(session),
        },
    }
}

/// Does the run of these settings on the site, or puts the line that says why there is none.
pub fn run_with<I: Source, O: Sink, S: Site, C: Choose + Drop>(
    alloc: Global,
    settings: Settings,
    input: &mut I,
    output: &mut O,
    site: S,
    chooser: C,
) -> Ended<S>
    requires able { C.can_choose chooser }
    requires load { IsLoad settings.load }
    requires copy { IsCopyWithin settings.copy }
    ensures ended { EndsCommand (Some (command_of settings)) (C.may chooser)
        (source_between I.Source input.old input.new) (devices S.Site site result.site)
        (sink_between O.Sink output.old output.new) result.status result.session }
    ensures unread { result.status ≡ Stopped → OnUnstopped result.session (RunBrokeOff
        S.Site site (Some (command_of settings)) (source_between I.Source input.old input.new)
        (devices S.Site site result.site) (sink_between O.Sink output.old output.new)) }
    ensures only_reads_fail { (but : UnitNo → Bool) → S.never_fails_but site but
        → IfSome result.session (λ s. (session_data s).stopped ≡ None) }
    ensures devices { WritesOn S.Site site result.site }
{
    let Ok(copier) = copier_for(alloc, settings.copy) else {
        return refuse(output, site, OneLine::WantOfMemory);
    };
    match admit(alloc, settings, input) {
        Ok(run) => run_admitted(alloc, &run, copier, site, chooser, output),
        Err(line) => refuse(output, site, line),
    }
}

/// Does the run of these settings on the site, in which rules choose. It promises what `serial` does with that chooser.
pub fn policy<I: Source, O: Sink, S: Site>(
    alloc: Global,
    rules: Ruled,
    settings: Settings,
    input: &mut I,
    output: &mut O,
    site: S,
) -> Ended<S>
    requires load { IsLoad settings.load }
    requires copy { IsCopyWithin settings.copy }
    ensures ended { EndsCommand (Some (command_of settings)) (RulesMay rules)
        (source_between I.Source input.old input.new) (devices S.Site site result.site)
        (sink_between O.Sink output.old output.new) result.status result.session }
    ensures unread { result.status ≡ Stopped → OnUnstopped result.session (RunBrokeOff
        S.Site site (Some (command_of settings)) (source_between I.Source input.old input.new)
        (devices S.Site site result.site) (sink_between O.Sink output.old output.new)) }
    ensures only_reads_fail { (but : UnitNo → Bool) → S.never_fails_but site but
        → IfSome result.session (λ s. (session_data s).stopped ≡ None) }
    ensures devices { WritesOn S.Site site result.site }
{
    run_with(alloc, settings, input, output, site, rules)
}

/// Does the run that the words ask for on the site: of the job that the input has, with its report, or of a load,
/// with its summary.
///
/// The words are the command `serial` with its options, as `command_words` reads them. With `--load` the input isn't
/// read; else it is, to its end or to one byte past the longest job text, before anything is looked at. A text that
/// is no job is refused with its first bad line, and a site that isn't taken up with its first fault. Hosts and
/// recorders first take the turns that `--order` draws, `--turns` of them, and then go on by rounds. Nothing is
/// written to the site before the whole job was admitted. Without a session the output is one line, which says why.
/// Where nothing but reads can fail, no session is stopped. Where a read for the report fails, it ends before that
/// track.
pub fn serial<I: Source, O: Sink, S: Site, C: Choose + Drop>(
    alloc: Global,
    words: &[String],
    input: &mut I,
    output: &mut O,
    site: S,
    chooser: C,
) -> Ended<S>
    requires able { C.can_choose chooser }
    ensures ended { EndsCommand (meaning (map string_bytes words.now)) (C.may chooser)
        (source_between I.Source input.old input.new) (devices S.Site site result.site)
        (sink_between O.Sink output.old output.new) result.status result.session }
    ensures unread { result.status ≡ Stopped → OnUnstopped result.session (RunBrokeOff
        S.Site site (meaning (map string_bytes words.now))
        (source_between I.Source input.old input.new) (devices S.Site site result.site)
        (sink_between O.Sink output.old output.new)) }
    ensures complete { (settings : Settings) (job : JobData)
        → GoesWell (meaning (map string_bytes words.now))
        (source_between I.Source input.old input.new) (devices S.Site site result.site)
        (sink_between O.Sink output.old output.new) settings job
        → IsComplete result.status }
    ensures only_reads_fail { (but : UnitNo → Bool) → S.never_fails_but site but
        → IfSome result.session (λ s. (session_data s).stopped ≡ None) }
    ensures devices { WritesOn S.Site site result.site }
{
    match command_in(alloc, words) {
        Ok(
            Command::Serial {
                order,
                turns,
                load,
                copy,
            },
        ) => {
            let settings = Settings {
                order,
                turns,
                load,
                copy,
            };
            run_with(alloc, settings, input, output, site, chooser)
        }
        Ok(_) => refuse(output, site, OneLine::WordsRefused),
        Err(line) => refuse(output, site, line),
    }
}
