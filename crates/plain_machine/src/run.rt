// A command on the tracks of a cylinder.
ghost use Rattle.std.specs.Prelude.{◌≡◌, ◌≤◌, length, IsTrue, IfOk, OnErr};
ghost use Rattle.channel_commands.specs.Codes.{least};
ghost use Rattle.channel_commands.specs.Views.{for_command};
ghost use Rattle.ckd_plain.specs.Checks.{is_address, is_prior_permitted, Passes};
ghost use Rattle.ckd_plain.specs.Effects.{effect, write_};
ghost use Rattle.ckd_plain.specs.Plain.{command_answer, answer_on_tracks};
ghost use Rattle.plain_machine.specs.Outcomes.{cylinder_of, GivesEffect, Answers};
ghost use Rattle.mss_base.specs.Geometry.{cylinder_heads};

use crate::read::read;
use crate::search::search;
use crate::trouble::Trouble;
use crate::write::write;
use channel_commands::{Command, DeviceCommand, Reply, WriteKind};
use ckd_plain::steps::{DoneCommand, cleared, control, finished, opened, refused, refused_by};
use ckd_plain::{HostState, Prior, admitted};
use ckd_track::Track;
use mss_base::NoMemory;
use std::alloc::Global;

/// A write on the host's track among those of its cylinder.
fn write_under(
    alloc: Global,
    tracks: &mut [Track],
    host: &HostState,
    left: Prior,
    kind: WriteKind,
    argument: &[u8],
) -> Result<DoneCommand, Trouble>
    requires cylinder { length tracks.old ≡ cylinder_heads }
    requires long { least (Command.Write kind) ≤ length argument.now }
    requires permitted { IsTrue (is_prior_permitted left (Command.Write kind)) }
    ensures { GivesEffect host.now tracks.old tracks.new result
        (write_ (cylinder_of tracks.old host.now.head) host.now left kind argument.now) }
{
    let track = &mut tracks[usize::from(host.head.get())];
    match write(alloc, track, host, left, kind, argument) {
        Ok(done) => Ok(done),
        Err(trouble) => Err(trouble),
    }
}

/// A command that passed the checks.
#[tactic(auto, unfolding(ckd_plain::specs::Effects::effect))]
fn outcome(
    alloc: Global,
    tracks: &mut [Track],
    host: &HostState,
    left: Prior,
    command: Command,
    argument: &[u8],
) -> Result<DoneCommand, Trouble>
    requires cylinder { length tracks.old ≡ cylinder_heads }
    requires long { least command ≤ length argument.now }
    requires address { IsTrue (is_address command argument.now) }
    requires permitted { IsTrue (is_prior_permitted left command) }
    ensures { GivesEffect host.now tracks.old tracks.new result
        (effect (cylinder_of tracks.old) host.now left command argument.now) }
{
    match command {
        Command::Search { field, test, multi } => {
            Ok(search(alloc, tracks, host, field, test, multi, argument)?)
        }
        Command::Read { what, multi } => read(alloc, tracks, host, what, multi),
        Command::Write(kind) => write_under(alloc, tracks, host, left, kind, argument),
        _ => Ok(control(alloc, host, command, argument)?),
    }
}

/// A command that passed the checks, of a host whose chain is open, with its reply.
#[tactic(auto, unfolding(ckd_plain::specs::Plain::command_answer))]
fn performed(
    alloc: Global,
    tracks: &mut [Track],
    host: &mut HostState,
    command: Command,
    argument: &[u8],
    chained: bool,
) -> Result<Reply, NoMemory>
    requires cylinder { length tracks.old ≡ cylinder_heads }
    requires passes { Passes host.old command argument.now }
    ensures answer { IfOk result (Answers
        (command_answer (cylinder_of tracks.old) host.old command argument.now chained)
        host.old tracks.old tracks.new host.new) }
    ensures host_stays { OnErr result (host.new ≡ host.old) }
    ensures tracks_stay { OnErr result (tracks.new ≡ tracks.old) }
{
    let ready = cleared(command, host);
    match outcome(alloc, tracks, &ready, host.prior, command, argument) {
        Ok(done) => Ok(finished(host, command, chained, done)),
        Err(Trouble::Refused(refusal)) => Ok(refused(alloc, host, &refusal)),
        Err(Trouble::Memory) => Err(NoMemory),
    }
}

/// A command on the tracks of the host's cylinder.
///
/// After want of memory the host and the tracks are as they were.
#[tactic(auto, unfolding(ckd_plain::specs::Plain::answer_on_tracks))]
pub fn run_command(
    alloc: Global,
    tracks: &mut [Track],
    host: &mut HostState,
    command: &DeviceCommand,
) -> Result<Reply, NoMemory>
    requires cylinder { length tracks.old ≡ cylinder_heads }
    ensures answer { IfOk result (Answers
        (for_command (answer_on_tracks (cylinder_of tracks.old) host.old) command.now)
        host.old tracks.old tracks.new host.new) }
    ensures host_stays { OnErr result (host.new ≡ host.old) }
    ensures tracks_stay { OnErr result (tracks.new ≡ tracks.old) }
{
    let mut now = opened(host);
    let argument = command.argument.as_slice();
    let reply = match admitted(&now, command.code, argument) {
        Ok(kind) => performed(alloc, tracks, &mut now, kind, argument, command.chained)?,
        Err(check) => refused_by(alloc, check, &mut now),
    };
    *host = now;
    Ok(reply)
}
