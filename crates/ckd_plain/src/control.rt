// Commands that look at no track.
ghost use Rattle.std.specs.Prelude.{◌≡◌, ◌≤◌, length, true, false, None, IsTrue, IfOk, OnErr};
ghost use Rattle.channel_commands.specs.Codes.{least};
ghost use Rattle.channel_commands.specs.Views.{reply_of};
ghost use Rattle.ckd_plain.specs.declared.host.Prior.{Prior};
ghost use Rattle.ckd_plain.specs.Checks.{is_address, Passes};
ghost use Rattle.ckd_plain.specs.Effects.{is_data, data_given, effect, effect_with, seek_done};
ghost use Rattle.ckd_plain.specs.Index.{Tracks};
ghost use Rattle.ckd_plain.specs.Plain.{with_open_chain, command_answer, IsDone, KeepsChain};
ghost use Rattle.ckd_plain.specs.Views.{Responds};
ghost use Rattle.ckd_plain.specs.Views.{effect_of};

use crate::answer::{clear, finish, open};
use crate::checks::number_at;
use crate::done::{DONE, DoneCommand};
use crate::host::{HostState, Position};
use channel_commands::{Command, Reply, SeekKind};
use mss_base::{Bytes, Cylinder, Head, NoMemory};
use std::alloc::Global;

/// Whether the command is a search, read or write: one that needs a track.
pub fn is_data(command: Command) -> bool
    ensures { result ≡ is_data command }
{
    matches!(
        command,
        Command::Search { .. } | Command::Read { .. } | Command::Write(_)
    )
}

/// Moves the host to the start of the track that a seek names.
fn seek(kind: SeekKind, host: &mut HostState, argument: &[u8])
    requires long { 6 ≤ length argument.now }
    requires address { IsTrue (is_address (Command.Seek kind) argument.now) }
    ensures { host.new ≡ seek_done kind host.old argument.now }
{
    let Some(head) = Head::of(number_at(argument, 4) as u8) else {
        unreachable!()
    };
    host.head = head;
    host.position = Position::Start;
    if kind == SeekKind::Head {
        return;
    }
    let Some(cylinder) = Cylinder::of(number_at(argument, 2)) else {
        unreachable!()
    };
    host.cylinder = cylinder;
}

/// The bytes that a control command or a sense gives.
fn data_given(alloc: Global, command: Command, host: &HostState) -> Result<Bytes, NoMemory>
    ensures { IfOk result (λ bytes. bytes.items ≡ data_given command host.now) }
{
    match command {
        Command::Sense => Bytes::of(alloc, &host.sense),
        _ => Ok(Bytes::new(alloc)),
    }
}

/// Changes the host as a control command or a sense does.
#[tactic(auto, unfolding(crate::specs::Effects::effect))]
fn change(host: &mut HostState, command: Command, argument: &[u8])
    requires long { least command ≤ length argument.now }
    requires address { IsTrue (is_address command argument.now) }
    requires no_track { is_data command ≡ false }
    ensures effect_ { (tracks : Tracks) (left : Prior)
        → effect tracks host.old left command argument.now
        ≡ Ok (effect_with DONE (data_given command host.old) host.new) }
    ensures mounted { host.new.mounted ≡ host.old.mounted }
{
    match command {
        Command::SetMask => host.mask = argument[0],
        Command::Seek(kind) => seek(kind, host, argument),
        Command::Recalibrate => host.recalibrate(),
        _ => {}
    }
}

/// A control command or a sense: one that needs no track.
#[tactic(auto, unfolding(crate::specs::Effects::is_ending))]
pub fn control(
    alloc: Global,
    host: &HostState,
    command: Command,
    argument: &[u8],
) -> Result<DoneCommand, NoMemory>
    requires long { least command ≤ length argument.now }
    requires address { IsTrue (is_address command argument.now) }
    requires no_track { is_data command ≡ false }
    ensures value { IfOk result (λ done. (tracks : Tracks) (left : Prior)
        → effect tracks host.now left command argument.now ≡ Ok (effect_of done)) }
    ensures mounted { IfOk result (λ done. done.host.mounted ≡ host.now.mounted) }
{
    let bytes = data_given(alloc, command, host)?;
    let mut there = *host;
    change(&mut there, command, argument);
    Ok(DoneCommand {
        status: DONE,
        bytes,
        host: there,
    })
}

/// A control command or a sense that passed its checks, with its reply.
///
/// After want of memory the host is as it was.
#[tactic(auto, unfolding(crate::specs::Plain::command_answer, crate::specs::Effects::is_ending))]
pub fn run_control(
    alloc: Global,
    command: Command,
    argument: &[u8],
    chained: bool,
    host: &mut HostState,
) -> Result<Reply, NoMemory>
    requires passes { Passes (with_open_chain host.old) command argument.now }
    requires no_track { is_data command ≡ false }
    ensures answer { IfOk result (λ reply. (tracks : Tracks)
        → Responds (command_answer tracks
        (with_open_chain host.old) command argument.now chained) host.new
        reply) }
    ensures unwritten { IfOk result (λ reply. (tracks : Tracks)
        → (command_answer tracks (with_open_chain host.old) command argument.now chained).written
        ≡ None) }
    ensures done { IfOk result (λ reply. IsDone (reply_of reply)) }
    ensures chain { IfOk result (λ reply. KeepsChain chained (reply_of reply) host.new) }
    ensures mounted { host.new.mounted ≡ host.old.mounted }
    ensures host_stays { OnErr result (host.new ≡ host.old) }
{
    // What takes memory comes first, while the host is as it was; what follows changes it in place.
    let bytes = data_given(alloc, command, host)?;
    open(host);
    clear(command, host);
    change(host, command, argument);
    Ok(finish(host, command, chained, DONE, bytes))
}
