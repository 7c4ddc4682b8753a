//! Commands on blocks as text, by the steps of a session. A line is a command's code, its argument, and the status
//! and the data that come back, where `-` is no bytes. Behind ` ! ` stands which read or write of the command
//! fails, and what the command tells: that a read (`R`) or a write (`W`) failed, and the count of faults.
ghost use Rattle.std.specs.Prelude.{◌≡◌, true};
ghost use Rattle.ckd_plain.specs.Checks.{Passes};
ghost use Rattle.ckd_plain.specs.Effects.{is_data};
ghost use Rattle.ckd_plain.specs.Plain.{with_open_chain};

use crate::bench::Bench;
use crate::words::{byte_at, bytes_at, word};
use channel_commands::{Command, Reply};
use ckd_plain::steps::{is_data, opened, run_control};
use ckd_plain::{HostState, admitted};
use ckd_track::FORMAT_ITEMS;
use memory_devices::SiteFault;
use mss_base::{Cylinder, Site, UnitNo};
use std::alloc::Global;
use track_engine::{CylinderPlace, EngineFault, run_command};

/// What a command answers, or why it gave no reply. None where it can't be begun.
type Answer = Option<Result<Reply, EngineFault>>;

/// The place of a cylinder: all cylinders stand on one unit.
fn place_of(cylinder: Cylinder) -> CylinderPlace {
    CylinderPlace {
        unit: UnitNo::Staging(0),
        first_block: u32::from(cylinder.get()) * 19,
    }
}

/// A search, read or write that passed its checks, on the blocks of the host's cylinder.
fn run_on_tracks(
    alloc: Global,
    bench: &mut Bench,
    host: &mut HostState,
    command: &Command,
    argument: &[u8],
) -> Answer
    requires passes { Passes (with_open_chain host.old) command.now argument.now }
    requires data { is_data command.now ≡ true }
{
    bench.reserve(FORMAT_ITEMS).ok()?;
    let place = place_of(host.cylinder);
    Some(run_command(alloc, bench, &place, command, argument, true, host))
}

/// A command that no check refuses, in a chain that goes on.
fn run(
    alloc: Global,
    bench: &mut Bench,
    host: &mut HostState,
    code: u8,
    argument: &[u8],
) -> Answer {
    match admitted(&opened(host), code, argument) {
        Err(_) => None,
        Ok(command) => {
            if is_data(command) {
                run_on_tracks(alloc, bench, host, &command, argument)
            } else {
                Some(Ok(run_control(alloc, command, argument, true, host).ok()?))
            }
        }
    }
}

/// What the command of a line answers.
fn answer(alloc: Global, bench: &mut Bench, host: &mut HostState, line: &str) -> Answer {
    let code = byte_at(line, 0)?;
    let argument = bytes_at(alloc, line, 1)?;
    run(alloc, bench, host, code, &argument)
}

fn has_data(alloc: Global, line: &str, bytes: &[u8]) -> bool {
    match bytes_at(alloc, line, 3) {
        Some(due) => due.as_slice() == bytes,
        None => bytes.is_empty(),
    }
}

/// Whether a reply is the one of its line.
pub fn is_wanted(alloc: Global, reply: &Reply, line: &str) -> bool {
    match reply {
        Reply::Done { status, bytes } => {
            byte_at(line, 2) == Some(*status) && has_data(alloc, line, bytes.as_slice())
        }
        _ => false,
    }
}

fn gives(alloc: Global, answer: &Answer, line: &str) -> bool {
    match answer {
        Some(Ok(reply)) => is_wanted(alloc, reply, line),
        _ => false,
    }
}

/// The fault that is told, as in `02 W 01`, where the second call fails.
fn fault_of(text: &str) -> Option<EngineFault> {
    let fault = u64::from(byte_at(text, 2)?);
    if word(text, 1) == Some("R") {
        return Some(EngineFault::ReadFailed { fault });
    }
    Some(EngineFault::WriteFailed { fault })
}

fn is_fault(answer: &Answer, due: EngineFault) -> bool {
    match answer {
        Some(Err(fault)) => *fault == due,
        _ => false,
    }
}

/// Whether a command fails as the text says, and leaves the host.
fn is_failed(
    alloc: Global,
    bench: &mut Bench,
    host: &mut HostState,
    line: &str,
    fault: &str,
) -> Option<bool> {
    let due = fault_of(fault)?;
    bench.fail(&[SiteFault::Call(u64::from(byte_at(fault, 0)?))])?;
    let before = *host;
    let told = answer(alloc, bench, host, line);
    Some(is_fault(&told, due) && *host == before)
}

fn is_answered(alloc: Global, bench: &mut Bench, host: &mut HostState, line: &str) -> bool {
    let told = answer(alloc, bench, host, line);
    gives(alloc, &told, line)
}

/// Whether a command does what its line says.
pub fn is_run(alloc: Global, bench: &mut Bench, host: &mut HostState, line: &str) -> Option<bool> {
    match line.split_once(" ! ") {
        Some((command, fault)) => is_failed(alloc, bench, host, command, fault),
        None => Some(is_answered(alloc, bench, host, line)),
    }
}
