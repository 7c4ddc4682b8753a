//! What the words ask for, and what is run: the settings, the job, and the turns that are drawn.
ghost use Rattle.std.specs.Prelude.{◌≡◌, ◌≤◌, Some, length, map, string_bytes, IfErr, IfOk};
ghost use Rattle.command_words.specs.Words.{IsWithin, meaning};
ghost use Rattle.draws.specs.Load.{load_job};
ghost use Rattle.report_text.specs.declared.one_line.OneLine.TheVariants.{WantOfMemory};
ghost use Rattle.serial_driver.specs.Drives.{AreTurns};
ghost use Rattle.session_report.specs.Parties.{source_between};
ghost use Rattle.mss_top.specs.Admission.{Admits, Asks, GivesJob, IsDrawn, IsLoad, IsTaken};
ghost use Rattle.mss_top.specs.Admission.{TakesText, actors, command_of};

use crate::input::{InputFault, read_input};
use command_words::{Command, CommandFault, CopyAsked, read_command};
use draws::{load_job, schedule};
use job_text::{Job, JobFault, read_job};
use mss_base::{NoMemory, Source};
use report_text::OneLine;
use std::alloc::Global;

/// The input is read to its end, or to one byte past the longest job text.
const READ_LIMIT: usize = 4_194_305;

/// What the words give to a run.
#[derive(Clone, Copy)]
pub struct Settings {
    /// The number from which turns and load are drawn.
    pub order: u64,
    /// How many turns are drawn, 0 to 100,000.
    pub turns: u32,
    /// Of how many programs, 1 to 1,000, a load stands in for the input's job, if one does.
    pub load: Option<u32>,
    /// The copy that is taken, if one is.
    pub copy: Option<CopyAsked>,
}

/// A run that is admitted.
#[derive(Drop)]
pub struct Admitted {
    pub settings: Settings,
    pub job: Job,
    /// Whose turn it is, by number, until the rounds begin.
    pub turns: Vec<u32>,
}

/// The command that the words ask for, or the line that refuses them.
pub fn command_in(alloc: Global, words: &[String]) -> Result<Command, OneLine>
    ensures asks { Asks (meaning (map string_bytes words.now)) result }
    ensures within { IfOk result IsWithin }
{
    match read_command(alloc, words) {
        Ok(command) => Ok(command),
        Err(CommandFault::Refused) => Err(OneLine::WordsRefused),
        Err(CommandFault::Memory) => Err(OneLine::WantOfMemory),
    }
}

/// The job of a text, or the line that refuses it: its first bad line, and why that is bad.
fn job_of_text(alloc: Global, text: &[u8]) -> Result<Job, OneLine>
    ensures { IsTaken text.now result }
{
    match read_job(alloc, text) {
        Ok(job) => Ok(job),
        Err(JobFault::Bad { line, kind }) => Err(OneLine::JobRefused { line, kind }),
        Err(JobFault::Memory) => Err(OneLine::WantOfMemory),
    }
}

/// The job of the input, or the line that says why there is none.
pub fn job_of_input<I: Source>(alloc: Global, input: &mut I) -> Result<Job, OneLine>
    ensures { TakesText (source_between I.Source input.old input.new) result }
{
    match read_input(alloc, input, READ_LIMIT) {
        Ok(text) => job_of_text(alloc, text.as_slice()),
        Err(InputFault::Failed) => Err(OneLine::InputFault),
        Err(InputFault::Memory) => Err(OneLine::WantOfMemory),
    }
}

/// The job of a load of so many programs, 1 to 1,000, as `order` draws them.
fn job_of_load(alloc: Global, order: u64, programs: u32) -> Result<Job, OneLine>
    requires some { 1 ≤ programs }
    requires few { programs ≤ 1000 }
    ensures job { IfOk result (λ job. job ≡ load_job order programs) }
    ensures memory { IfErr result (λ said. said ≡ WantOfMemory) }
{
    match load_job(alloc, order, programs) {
        Ok(drawn) => Ok(drawn),
        Err(NoMemory) => Err(OneLine::WantOfMemory),
    }
}

/// The job that is run: of a load, for which the input isn't read, or of the input.
fn job_for<I: Source>(alloc: Global, settings: Settings, input: &mut I) -> Result<Job, OneLine>
    requires load { IsLoad settings.load }
    ensures { GivesJob settings.load settings.order
        (source_between I.Source input.old input.new) result }
{
    match settings.load {
        Some(programs) => job_of_load(alloc, settings.order, programs),
        None => job_of_input(alloc, input),
    }
}

/// How many hosts a job has: they differ, and none has a number above 8.
fn host_count(job: &Job) -> usize
    ensures value { result ≡ length job.now.hosts }
    ensures few { result ≤ 9 }
{
    job.hosts.as_slice().len()
}

/// How many actors a run has: the hosts of its job, and its recorders.
fn actors(job: &Job) -> u32
    ensures value { result ≡ actors job.now }
    ensures some { 1 ≤ result }
{
    host_count(job) as u32 + u32::from(job.config.recorders)
}

/// Whose turn it is until the rounds begin, as `order` draws it.
fn turns_for(alloc: Global, settings: Settings, job: &Job) -> Result<Vec<u32>, OneLine>
    ensures drawn { IfOk result (λ turns. IsDrawn settings job.now turns.items) }
    ensures turns { IfOk result (λ turns. AreTurns job.now.hosts job.now.config turns.items) }
    ensures memory { IfErr result (λ said. said ≡ WantOfMemory) }
{
    match schedule(alloc, settings.order, settings.turns, actors(job)) {
        Ok(turns) => Ok(turns),
        Err(NoMemory) => Err(OneLine::WantOfMemory),
    }
}

/// The run of these settings, or the line that says why there is none.
pub fn admit<I: Source>(
    alloc: Global,
    settings: Settings,
    input: &mut I,
) -> Result<Admitted, OneLine>
    requires load { IsLoad settings.load }
    ensures admits { Admits (Some (command_of settings))
        (source_between I.Source input.old input.new) result }
    ensures turns { IfOk result (λ run. AreTurns run.job.hosts run.job.config run.turns.items) }
{
    let job = job_for(alloc, settings, input)?;
    let turns = turns_for(alloc, settings, &job)?;
    Ok(Admitted {
        settings,
        job,
        turns,
    })
}
