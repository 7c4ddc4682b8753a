// What is put of a session.
ghost use Rattle.std.specs.Prelude.{◌≡◌};
ghost use Rattle.std.specs.Option.{option_map};
ghost use Rattle.mss_base.specs.Content.{content};
ghost use Rattle.mss_base.specs.Sites.{OnlyReads};
ghost use Rattle.volume_table.specs.Listed.{row_in_list};
ghost use Rattle.shown_volumes.specs.Shown.{shown_by};
ghost use Rattle.core_state.specs.Sessions.{session_data};
ghost use Rattle.session_report.specs.Answers.{SinkCounts};
ghost use Rattle.session_report.specs.CopyTexts.{behind_text};
ghost use Rattle.session_report.specs.Parties.{seen_with, site_between, sink_between};
ghost use Rattle.session_report.specs.Parts.{IsUnread};
ghost use Rattle.session_report.specs.Reports.{BreaksOff, OnRead, SiteCounts, report_matter};
ghost use Rattle.job_runs.specs.Runs.{IsFramed, IsHalted, IsTold, last_of};

use core_state::Session;
use mss_base::{Serial, Sink, Site, VolumeNo};
use serial_driver::DriveAnswer;
use session_report::{Last, ReportFault, report};
use std::alloc::Global;
use volume_copy::Copier;
use volume_table::Rows;

/// The last line of what is told of a session that ended so, if anything is.
pub fn last_of(end: DriveAnswer) -> Option<Last>
    ensures { result ≡ last_of end }
{
    match end {
        DriveAnswer::Done | DriveAnswer::Stopped { .. } => Some(Last::End),
        DriveAnswer::CommandLimit => Some(Last::Limit),
        DriveAnswer::Memory => None,
    }
}

/// Puts the report of a session that ended so. Where memory ran out in it, nothing is put.
pub fn tell<S: Site, O: Sink>(
    alloc: Global,
    site: &mut S,
    rows: &Rows,
    volumes: &[(VolumeNo, Serial, bool)],
    session: &Session,
    end: DriveAnswer,
    output: &mut O,
    copy: Option<&Copier>,
) -> Result<(), ReportFault>
    requires halts { IsHalted end session.now.stopped }
    ensures told { let shown = shown_by (row_in_list rows.now) (content (S.told site.old)) in
        IsTold (report_matter (session_data session.now) volumes.now shown
        (behind_text (option_map (λ c. c.now) copy.entry))) end
        (site_between S.Site site.old site.new) (sink_between O.Sink output.old output.new) result }
    ensures unread { let shown = shown_by (row_in_list rows.now) (content (S.told site.old)) in
        OnRead result (BreaksOff (IsUnread S.Site site.old (row_in_list rows.now) volumes.now)
        (report_matter (session_data session.now) volumes.now shown
        (behind_text (option_map (λ c. c.now) copy.entry)))
        (seen_with (site_between S.Site site.old site.new)
        (sink_between O.Sink output.old output.new))) }
    ensures framed { IsFramed (session_data session.now) end
        (sink_between O.Sink output.old output.new) result }
    ensures counted { SiteCounts (S.faults site.old) (S.faults site.new) result }
    ensures output { SinkCounts (O.faults output.old) (O.faults output.new) result }
    ensures site { OnlyReads S.Site site.old site.new }
{
    match last_of(end) {
        Some(last) => report(alloc, site, rows, volumes, session, last, output, copy),
        None => Err(ReportFault::Memory),
    }
}
