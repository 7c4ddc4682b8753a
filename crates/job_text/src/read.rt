//! A text and its job.
ghost use Rattle.std.specs.Prelude.{◌≡◌, ◌<◌, ◌^◌, length, IfOk, OnOk, ◌==◌, ◌++◌};
ghost use Rattle.std.specs.Option.{option_to_list};
ghost use Rattle.std.specs.List.{find};
ghost use Rattle.job_text.specs.Words.{lines_of};
ghost use Rattle.job_text.specs.Jobs.{by_number, IsJob};
ghost use Rattle.job_text.specs.Grammar.{nothing, lines_after, job_of};
ghost use Rattle.job_text.specs.Outcomes.{Reads};
ghost use Rattle.job_text.specs.FirstLine.{Takes};
ghost use Rattle.job_text.specs.SoFar.{so_far};

use crate::command::command_at;
use crate::job::Job;
use crate::kind::{JobKind, Place};
use crate::line::LineFault;
use crate::lines::first_line;
use crate::numbered::volume_with;
use crate::reading::Reading;
use mss_base::{Config, NoMemory, Serial, VolumeList, VolumeNo};
use std::alloc::Global;

/// Why a text has no job.
#[derive(Clone, Copy)]
pub enum JobFault {
    /// The first bad line, counted from 1, and the first kind that applies to it.
    Bad { line: u32, kind: JobKind },
    /// Memory ran out.
    Memory,
}

impl From<NoMemory> for JobFault {
    ghost use Rattle.std.specs.Prelude.{◌≡◌};
    ghost use Rattle.job_text.specs.declared.read.JobFault.TheVariants.{Memory};

    ghost from_gives = { λ _ e. e ≡ Memory };

    fn from(_error: NoMemory) -> JobFault {
        JobFault::Memory
    }
}

/// The most bytes of a text.
const TEXT_LIMIT: usize = 4_194_304;

/// Takes the first line of a text, and gives the text behind it. The words of the line are put into the list that is
/// lent, where they have to be cut.
fn take_first<'t>(
    alloc: Global,
    reading: &mut Reading,
    words: &mut Vec<&'t [u8]>,
    text: &'t [u8],
) -> Result<&'t [u8], LineFault>
    requires { 0 < length text.now }
    ensures { Takes result (so_far reading.old) text.now (so_far reading.new) }
{
    if reading.place == Place::Program {
        if let Some(command) = command_at(alloc, text)? {
            reading.put_ccw(command.code, command.argument)?;
            return Ok(command.behind);
        }
    }
    let (line, printable, behind) = first_line(text);
    reading.take_line(alloc, words, line, printable)?;
    Ok(behind)
}

/// Takes all lines of a text.
fn take_lines(alloc: Global, reading: &mut Reading, text: &[u8]) -> Result<(), JobFault>
    requires { length text.now < 2 ^ 31 }
    ensures { Reads (λ _. so_far reading.new) result
        (lines_after (so_far reading.old) 1 (lines_of text.now)) }
{
    let mut words = Vec::new(alloc);
    let mut number = 1u32;
    let mut rest = text;
    while !rest.is_empty() {
        match take_first(alloc, reading, &mut words, rest) {
            Ok(behind) => rest = behind,
            Err(LineFault::Bad(kind)) => return Err(JobFault::Bad { line: number, kind }),
            Err(LineFault::Memory) => return Err(JobFault::Memory),
        }
        number += 1;
    }
    if reading.place != Place::After {
        return Err(JobFault::Bad {
            line: number,
            kind: JobKind::Ended,
        });
    }
    Ok(())
}

/// What all lines of a text say.
fn read_lines(alloc: Global, text: &[u8]) -> Result<Reading, JobFault>
    requires { length text.now < 2 ^ 31 }
    ensures { Reads so_far result (lines_after nothing 1 (lines_of text.now)) }
{
    let mut reading = Reading::new(alloc);
    take_lines(alloc, &mut reading, text)?;
    Ok(reading)
}

/// Puts the volume with this number, if there is one.
fn put_numbered(
    ordered: &mut VolumeList,
    volumes: &[(VolumeNo, Serial, bool)],
    number: u8,
) -> Result<(), NoMemory>
    ensures { OnOk result
        (ordered.new.items
        ≡ ordered.old.items ++ option_to_list (find (λ v. v.0 == number) volumes.now)) }
{
    if let Some(volume) = volume_with(volumes, number) {
        ordered.reserve(1)?;
        ordered.push(volume);
    }
    Ok(())
}

/// The volumes in order of number.
fn by_number(alloc: Global, volumes: &[(VolumeNo, Serial, bool)]) -> Result<VolumeList, NoMemory>
    ensures { IfOk result (λ ordered. ordered.items ≡ by_number volumes.now) }
{
    let mut ordered = VolumeList::new(alloc);
    for number in 0..32u8 {
        put_numbered(&mut ordered, volumes, number)?;
    }
    Ok(ordered)
}

/// The job of a text, or the first bad line with the first kind that applies, or want of memory.
///
/// The volumes of the job stand in order of number, whatever the order of their lines. A text of more than 4,194,304
/// bytes is `TooBig`, told with line 0; a text without `done` is `Ended`, told with the line behind its last.
pub fn read_job(alloc: Global, text: &[u8]) -> Result<Job, JobFault>
    ensures job { Reads (λ job. job) result (job_of text.now) }
    ensures whole { IfOk result IsJob }
{
    if text.len() > TEXT_LIMIT {
        return Err(JobFault::Bad {
            line: 0,
            kind: JobKind::TooBig,
        });
    }
    let reading = read_lines(alloc, text)?;
    let volumes = by_number(alloc, reading.volumes.as_slice())?;
    Ok(Job {
        config: Config {
            frames: reading.frames,
            recorders: reading.recorders,
            volumes,
        },
        hosts: reading.closed,
    })
}
