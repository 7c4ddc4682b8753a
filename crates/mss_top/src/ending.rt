//! How a run ends: its status, and an output of one line.
ghost use Rattle.std.specs.Prelude.{◌≡◌, None};
ghost use Rattle.session_report.specs.Parties.{sink_between};
ghost use Rattle.mss_top.specs.Ending.{line_of};
ghost use Rattle.mss_top.specs.Status.{IsLinePut, end_status, line_status, status_of};

use crate::status::Status;
use core_restart::Refused;
use core_state::Session;
use mss_base::{Failed, Sink, Site};
use report_text::{OneLine, put_line};
use serial_driver::DriveAnswer;
use session_report::ReportFault;

/// What a run leaves.
#[derive(Drop)]
pub struct Ended<S> {
    pub status: Status,
    pub site: S,
    /// The session, from the moment when the site was taken up.
    pub session: Option<Session>,
}

/// The line of a site that isn't taken up.
pub fn refusal_line(refused: &Refused) -> OneLine
    ensures { result ≡ line_of refused.now }
{
    match refused {
        Refused::Memory => OneLine::WantOfMemory,
        why => OneLine::RestartRefused(*why),
    }
}

/// The status of an output of one line.
fn line_status(line: OneLine) -> Status
    ensures { result ≡ line_status line }
{
    match line {
        OneLine::WordsRefused => Status::WordsRefused,
        OneLine::InputFault => Status::InputFault,
        OneLine::JobRefused { .. } => Status::JobRefused,
        OneLine::RestartRefused(_) => Status::RestartRefused,
        OneLine::WantOfMemory => Status::Memory,
    }
}

/// Puts an output of one line, and answers with its status.
pub fn say<O: Sink>(output: &mut O, line: OneLine) -> Status
    ensures put { IsLinePut line (sink_between O.Sink output.old output.new) result }
{
    match put_line(output, &line) {
        Ok(()) => line_status(line),
        Err(Failed) => Status::OutputFault,
    }
}

/// Ends a run without a session by its one line.
pub fn refuse<O: Sink, S: Site>(output: &mut O, site: S, line: OneLine) -> Ended<S>
    ensures put { IsLinePut line (sink_between O.Sink output.old output.new) result.status }
    ensures site { result.site ≡ site }
    ensures session { result.session ≡ None }
{
    Ended {
        status: say(output, line),
        site,
        session: None,
    }
}

/// The status of a session that ended so, and whose report was put whole.
pub fn end_status(end: DriveAnswer) -> Status
    ensures { result ≡ end_status end }
{
    match end {
        DriveAnswer::Done => Status::Done,
        DriveAnswer::CommandLimit => Status::Limit,
        DriveAnswer::Stopped { .. } => Status::Stopped,
        DriveAnswer::Memory => Status::Memory,
    }
}

/// The status of a session that ended so, and was told so.
pub fn status_of(end: DriveAnswer, report: Result<(), ReportFault>) -> Status
    ensures { result ≡ status_of end report }
{
    match report {
        Ok(()) => end_status(end),
        Err(ReportFault::Read { .. }) => Status::Stopped,
        Err(ReportFault::Output) => Status::OutputFault,
        Err(ReportFault::Memory) => Status::Memory,
    }
}
