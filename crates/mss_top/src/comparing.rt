//! A comparison of choosers.
ghost use Rattle.std.specs.Prelude.{◌≡◌, ◌≢◌, [], None, Some, map, string_bytes};
ghost use Rattle.command_words.specs.Words.{meaning};
ghost use Rattle.command_words.specs.declared.command.Command.TheVariants as command;
ghost use Rattle.compared_runs.specs.Texts.{policies_text};
ghost use Rattle.job_text.specs.Jobs.{JobData};
ghost use Rattle.session_report.specs.Parties.{sink_between, source_between};
ghost use Rattle.victim_rules.specs.Closures.{IsTest, NarrowMay};
ghost use Rattle.mss_top.specs.Comparing.{ComparesJob, ComparesWell, EndsCompared, IsCompared};
ghost use Rattle.mss_top.specs.Serial.{IsComplete};
ghost use Rattle.mss_top.specs.Status.{IsLinePut, IsTextPut, end_status};
ghost use Rattle.mss_top.specs.declared.status.Status.TheVariants.{Stopped};

use crate::admission::{command_in, job_of_input};
use crate::ending::{Ended, end_status, say};
use crate::status::Status;
use command_words::Command;
use compared_runs::{Comparison, SessionList, compared, put_policies};
use core_state::Session;
use job_text::Job;
use mss_base::{Failed, Sink, Site, Source};
use report_text::OneLine;
use serial_driver::DriveAnswer;
use std::alloc::Global;
use victim_choice::Candidate;
use victim_rules::Narrow;

/// What a comparison leaves.
#[derive(Drop)]
pub struct Compared {
    pub status: Status,
    /// The session of each line, in order.
    pub sessions: SessionList,
}

/// Puts a line for each session and a last line, and answers with the status.
fn tell<O: Sink>(output: &mut O, sessions: &[Session], end: DriveAnswer) -> Status
    ensures put { IsTextPut (policies_text sessions.now end) (end_status end)
        (sink_between O.Sink output.old output.new) result }
{
    match put_policies(output, sessions, end) {
        Ok(()) => end_status(end),
        Err(Failed) => Status::OutputFault,
    }
}

/// Plays a job by each chooser, and puts what came of it.
fn compare_job<O: Sink, F: Fn(&Candidate) -> bool + Drop>(
    alloc: Global,
    job: &Job,
    output: &mut O,
    other: Narrow<F>,
) -> Compared
    requires { IsTest F.Fn other }
    ensures { ComparesJob (NarrowMay F.Fn other) job.now
        (sink_between O.Sink output.old output.new) result.status result.sessions.items }
{
    let Comparison { sessions, end } = compared(alloc, job, other);
    let status = tell(output, sessions.as_slice(), end);
    Compared { status, sessions }
}

/// The end of a comparison that has no job: its one line is put.
fn refuse_comparison<O: Sink>(alloc: Global, output: &mut O, line: OneLine) -> Compared
    ensures put { IsLinePut line (sink_between O.Sink output.old output.new) result.status }
    ensures none { result.sessions.items ≡ [] }
{
    Compared {
        status: say(output, line),
        sessions: SessionList::new(alloc),
    }
}

/// Compares the choosers over the job that the input has, or puts the line that says why there is none.
pub fn compare_input<I: Source, O: Sink, F: Fn(&Candidate) -> bool + Drop>(
    alloc: Global,
    input: &mut I,
    output: &mut O,
    other: Narrow<F>,
) -> Compared
    requires { IsTest F.Fn other }
    ensures { EndsCompared (Some command.Compare) (NarrowMay F.Fn other)
        (source_between I.Source input.old input.new)
        (sink_between O.Sink output.old output.new) result.status result.sessions.items }
{
    match job_of_input(alloc, input) {
        Ok(job) => compare_job(alloc, &job, output, other),
        Err(line) => refuse_comparison(alloc, output, line),
    }
}

/// Compares beside a site, which is handed back as it is. No device of a comparison fails.
pub fn compare_beside<I: Source, O: Sink, S: Site, F: Fn(&Candidate) -> bool + Drop>(
    alloc: Global,
    input: &mut I,
    output: &mut O,
    site: S,
    other: Narrow<F>,
) -> Ended<S>
    requires { IsTest F.Fn other }
    ensures ended { IsCompared (Some command.Compare) (NarrowMay F.Fn other)
        (source_between I.Source input.old input.new)
        (sink_between O.Sink output.old output.new) result.status }
    ensures going { result.status ≢ Stopped }
    ensures site { result.site ≡ site }
    ensures session { result.session ≡ None }
{
    let Compared {
        status,
        sessions: _,
    } = compare_input(alloc, input, output, other);
    Ended {
        status,
        site,
        session: None,
    }
}

/// Runs the job of the input once by each of four choosers, to compare what they bring about, with a line for each.
///
/// The words are the one word `compare`. The input is read to its end, or to one byte past the longest job text, before
/// anything is looked at; a text that is no job is refused as by `serial`. Each session is that of `serial` without
/// options, on devices of zeros of its own, in memory, of which no call fails: by no rule, by `clean`, by `quota:1`,
/// and by the closure that is handed in. Its line counts the cylinders that were staged and destaged, and the pages
/// that gave their frames back. A session that comes to the limit of entries is the last; one that memory ended has no
/// line.
pub fn compare<I: Source, O: Sink, F: Fn(&Candidate) -> bool + Drop>(
    alloc: Global,
    words: &[String],
    input: &mut I,
    output: &mut O,
    other: Narrow<F>,
) -> Compared
    requires { IsTest F.Fn other }
    ensures ended { EndsCompared (meaning (map string_bytes words.now)) (NarrowMay F.Fn other)
        (source_between I.Source input.old input.new)
        (sink_between O.Sink output.old output.new) result.status result.sessions.items }
    ensures complete { (job : JobData) → ComparesWell (meaning (map string_bytes words.now))
        (source_between I.Source input.old input.new)
        (sink_between O.Sink output.old output.new) job
        → IsComplete result.status }
{
    match command_in(alloc, words) {
        Ok(Command::Compare) => compare_input(alloc, input, output, other),
        Ok(_) => refuse_comparison(alloc, output, OneLine::WordsRefused),
        Err(line) => refuse_comparison(alloc, output, line),
    }
}
