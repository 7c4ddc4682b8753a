// The report of a session.
ghost use Rattle.std.specs.Prelude.{◌≡◌, ◌≢◌, ◌++◌, IsErrOf, OnOk};
ghost use Rattle.std.specs.Option.{option_map};
ghost use Rattle.mss_base.specs.Content.{content};
ghost use Rattle.mss_base.specs.Counts.{HasCause};
ghost use Rattle.mss_base.specs.Puts.{Puts};
ghost use Rattle.mss_base.specs.Sites.{OnlyReads};
ghost use Rattle.volume_table.specs.Listed.{row_in_list};
ghost use Rattle.shown_volumes.specs.Shown.{shown_by};
ghost use Rattle.core_state.specs.Sessions.{session_data};
ghost use Rattle.report_text.specs.Causes.{HasOutputCause};
ghost use Rattle.session_report.specs.Answers.{SinkCounts};
ghost use Rattle.session_report.specs.CopyTexts.{behind_text};
ghost use Rattle.session_report.specs.Parties.{seen_with, site_between, sink_between};
ghost use Rattle.session_report.specs.Parts.{PutsVolumes, CountsReads, CountsPuts};
ghost use Rattle.session_report.specs.Parts.{CanReadShown, IsUnread, TellsNoRead};
ghost use Rattle.session_report.specs.Reports.{AnswersNoRead, IsReported, SiteCounts};
ghost use Rattle.session_report.specs.Reports.{BreaksOff, Closes, EndsWith, Frames, Grows, OnRead};
ghost use Rattle.session_report.specs.Reports.{ending_of, finished};
ghost use Rattle.session_report.specs.Reports.{last_text, opening_text, report_matter};
ghost use Rattle.session_report.specs.Reports.{untitled_matter, volumes_text};

use crate::changes::put_changes;
use crate::copies::put_behind;
use crate::fault::{ReportFault, VolumesFault};
use crate::volumes::put_volumes;
use core_state::Session;
use mss_base::{Block, Bytes, Failed, Serial, Sink, Site, VolumeNo};
use report_text::{ReportFault as PartFault, put_end, put_history, put_limit, put_stopped};
use std::alloc::Global;
use volume_copy::Copier;
use volume_table::Rows;

/// The last line of a report whose volumes are told.
#[derive(Clone, Copy)]
pub enum Last {
    /// The session came to its end.
    End,
    /// It came to the limit of its entries.
    Limit,
}

pub fn put_last<O: Sink>(output: &mut O, last: Last) -> Result<(), Failed>
    ensures bytes { O.tells → Puts result (O.told output.old) (O.told output.new) (last_text last) }
    ensures cause { HasCause (O.faults output.old) (O.faults output.new) result }
{
    match last {
        Last::End => put_end(output),
        Last::Limit => put_limit(output),
    }
}

/// Puts the history and the changes of rows. Memory may run out behind the first line.
fn put_opening<O: Sink>(
    output: &mut O,
    line: &mut Bytes,
    session: &Session,
) -> Result<(), PartFault>
    ensures bytes { O.tells → Puts result (O.told output.old) (O.told output.new)
        (opening_text (session_data session.now)) }
    ensures cause { HasOutputCause (O.faults output.old) (O.faults output.new) result }
    ensures begun { O.tells → IsErrOf result PartFault.Memory
        → O.told output.new ≢ O.told output.old }
{
    put_history(output, line, session.history.as_slice())?;
    put_changes(output, line, session.console.as_slice())
}

/// Puts what stands behind the volumes, and the last line.
fn put_closing<O: Sink>(
    output: &mut O,
    line: &mut Bytes,
    copy: Option<&Copier>,
    last: Last,
) -> Result<(), PartFault>
    ensures bytes { let copy = option_map (λ c. c.now) copy.entry in
        O.tells → Puts result (O.told output.old) (O.told output.new)
        (behind_text copy ++ last_text last) }
    ensures cause { HasOutputCause (O.faults output.old) (O.faults output.new) result }
    ensures ended { O.tells → OnOk result
        (EndsWith (O.told output.old) (O.told output.new) (last_text last)) }
{
    put_behind(output, line, copy)?;
    put_last(output, last)?;
    Ok(())
}

/// Puts the listed volumes, what stands behind them, and the last line.
fn put_to_end<S: Site, O: Sink>(
    site: &mut S,
    output: &mut O,
    rows: &Rows,
    volumes: &[(VolumeNo, Serial, bool)],
    copy: Option<&Copier>,
    last: Last,
    block: &mut Block,
    line: &mut Bytes,
) -> Result<(), VolumesFault>
    ensures bytes { let shown = shown_by (row_in_list rows.now) (content (S.told site.old)) in
        let behind = behind_text (option_map (λ c. c.now) copy.entry) in
        PutsVolumes (S.tells × O.tells)
        (IsUnread S.Site site.old (row_in_list rows.now) volumes.now)
        (untitled_matter volumes.now shown behind)
        (volumes_text shown volumes.now ++ (behind ++ last_text last))
        (O.told output.old) (O.told output.new) result }
    ensures grown { O.tells → Grows (O.told output.old) (O.told output.new) }
    ensures ended { O.tells → OnOk result
        (EndsWith (O.told output.old) (O.told output.new) (last_text last)) }
    ensures counted { CountsReads (S.faults site.old) (S.faults site.new) result }
    ensures works { CanReadShown S.Site site.old (row_in_list rows.now) → TellsNoRead result }
    ensures site { OnlyReads S.Site site.old site.new }
    ensures output { CountsPuts (O.faults output.old) (O.faults output.new) result }
{
    put_volumes(site, output, rows, volumes, block, line)?;
    put_closing(output, line, copy, last)?;
    Ok(())
}

/// Puts the listed volumes, what stands behind them, and the last line; or where a read fails the volumes before it and
/// the count of faults.
pub fn put_ending<S: Site, O: Sink>(
    alloc: Global,
    site: &mut S,
    rows: &Rows,
    volumes: &[(VolumeNo, Serial, bool)],
    last: Last,
    output: &mut O,
    copy: Option<&Copier>,
) -> Result<(), ReportFault>
    ensures report { let shown = shown_by (row_in_list rows.now) (content (S.told site.old)) in
        let behind = behind_text (option_map (λ c. c.now) copy.entry) in
        IsReported (untitled_matter volumes.now shown behind) (finished last)
        (site_between S.Site site.old site.new) (sink_between O.Sink output.old output.new) result }
    ensures unread { let shown = shown_by (row_in_list rows.now) (content (S.told site.old)) in
        let behind = behind_text (option_map (λ c. c.now) copy.entry) in
        OnRead result (BreaksOff (IsUnread S.Site site.old (row_in_list rows.now) volumes.now)
        (untitled_matter volumes.now shown behind)
        (seen_with (site_between S.Site site.old site.new)
        (sink_between O.Sink output.old output.new))) }
    ensures closed { O.tells → Closes last (O.told output.old) (O.told output.new) result }
    ensures counted { SiteCounts (S.faults site.old) (S.faults site.new) result }
    ensures works { CanReadShown S.Site site.old (row_in_list rows.now) → AnswersNoRead result }
    ensures site { OnlyReads S.Site site.old site.new }
    ensures output { SinkCounts (O.faults output.old) (O.faults output.new) result }
{
    let mut block = Block::zeros(alloc)?;
    let mut line = Bytes::new(alloc);
    match put_to_end(
        site, output, rows, volumes, copy, last, &mut block, &mut line,
    ) {
        Ok(()) => Ok(()),
        Err(VolumesFault::Read { fault }) => {
            put_stopped(output, fault)?;
            Err(ReportFault::Read { fault })
        }
        Err(VolumesFault::Put(fault)) => Err(ReportFault::from(fault)),
    }
}

/// Puts the report of a session on the volumes of its job: the history, the changes of rows, the volumes as the rows
/// show them over the devices, the copy that was taken in it, if one was, and a last line.
///
/// A session that was stopped has no volumes and no copy, and its last line tells the fault. Where a read for a track
/// fails, the report ends before that track, with a line that tells the count of faults. Of devices that don't tell
/// what they hold, all but the volumes and the copy is known. Memory may run out behind the first line.
pub fn report<S: Site, O: Sink>(
    alloc: Global,
    site: &mut S,
    rows: &Rows,
    volumes: &[(VolumeNo, Serial, bool)],
    session: &Session,
    last: Last,
    output: &mut O,
    copy: Option<&Copier>,
) -> Result<(), ReportFault>
    ensures report { let shown = shown_by (row_in_list rows.now) (content (S.told site.old)) in
        let behind = behind_text (option_map (λ c. c.now) copy.entry) in
        IsReported (report_matter (session_data session.now) volumes.now shown behind)
        (ending_of session.now.stopped last) (site_between S.Site site.old site.new)
        (sink_between O.Sink output.old output.new) result }
    ensures unread { let shown = shown_by (row_in_list rows.now) (content (S.told site.old)) in
        let behind = behind_text (option_map (λ c. c.now) copy.entry) in
        OnRead result (BreaksOff (IsUnread S.Site site.old (row_in_list rows.now) volumes.now)
        (report_matter (session_data session.now) volumes.now shown behind)
        (seen_with (site_between S.Site site.old site.new)
        (sink_between O.Sink output.old output.new))) }
    ensures framed { O.tells → Frames (opening_text (session_data session.now))
        (ending_of session.now.stopped last) (O.told output.old) (O.told output.new) result }
    ensures counted { SiteCounts (S.faults site.old) (S.faults site.new) result }
    ensures works { CanReadShown S.Site site.old (row_in_list rows.now) → AnswersNoRead result }
    ensures site { OnlyReads S.Site site.old site.new }
    ensures output { SinkCounts (O.faults output.old) (O.faults output.new) result }
{
    let mut line = Bytes::new(alloc);
    put_opening(output, &mut line, session)?;
    match session.stopped {
        Some(kept) => {
            put_stopped(output, kept)?;
            Ok(())
        }
        None => put_ending(alloc, site, rows, volumes, last, output, copy),
    }
}
