// Replies that need no track.
ghost use Rattle.std.specs.Prelude.{◌≡◌, Bool, Option, None, false, [], IfOk, OnErr};
ghost use Rattle.channel_commands.specs.Data.{mount, demount, is_command};
ghost use Rattle.channel_commands.specs.Views.{asked_of, call_of, reply_of};
ghost use Rattle.ckd_plain.specs.Plain.{NeedsNoTrack, response_to, break_reply, host_after_check};

use crate::answer::{admitted_in_chain, open, refused_by, sense_of};
use crate::control::run_control;
use crate::host::{HostState, Prior};
use crate::unit_check::UnitCheck;
use channel_commands::{BreakCause, Call, DeviceCommand, Reply};
use mss_base::{NoMemory, VolumeNo};
use std::alloc::Global;

/// The host after a reply that plain volumes don't give: its chain is over, and its sense says why.
pub fn checked(check: UnitCheck, host: &HostState) -> HostState
    ensures { result ≡ host_after_check check host.now }
{
    HostState {
        chain_open: false,
        prior: Prior::Nothing,
        sense: sense_of(check),
        ..*host
    }
}

#[tactic(auto, unfolding(crate::specs::Plain::response_to))]
fn mount(host: &HostState, mark: Option<bool>, volume: VolumeNo, bind: bool) -> (Reply, HostState)
    ensures { (reply_of result.0, result.1) ≡ response_to host.now mark (mount volume bind) }
{
    if host.chain_open {
        return (Reply::InChain, *host);
    }
    if host.mounted.is_some() {
        return (Reply::AlreadyMounted, *host);
    }
    match mark {
        Some(read_only) => (Reply::Mounted, host.with_volume(volume, bind, read_only)),
        None => (Reply::NoVolume, *host),
    }
}

#[tactic(auto, unfolding(crate::specs::Plain::response_to))]
fn demount(host: &HostState) -> (Reply, HostState)
    ensures { (reply_of result.0, result.1) ≡ response_to host.now None demount }
{
    if host.chain_open {
        return (Reply::InChain, *host);
    }
    if host.mounted.is_none() {
        return (Reply::NotMounted, *host);
    }
    let demounted = HostState {
        mounted: None,
        ..*host
    };
    (Reply::Demounted, demounted)
}

fn break_reply(cause: BreakCause) -> Reply
    ensures { reply_of result ≡ break_reply cause }
{
    match cause {
        BreakCause::Program => Reply::ProgramCheck,
        BreakCause::Limit => Reply::ChainLimit,
    }
}

/// The reply to a call that is no command, and the host then; `mark` says whether the volume that the call asks for is
/// read-only, and is None where there is no such volume.
#[tactic(auto, unfolding(crate::specs::Plain::response_to))]
pub fn respond(host: &HostState, mark: Option<bool>, call: &Call) -> (Reply, HostState)
    requires { is_command (call_of call.now) ≡ false }
    ensures { (reply_of result.0, result.1) ≡ response_to host.now mark (call_of call.now) }
{
    match call {
        Call::Mount { volume, bind } => mount(host, mark, *volume, *bind),
        Call::Demount => demount(host),
        Call::Break { cause } => {
            let ended = HostState {
                chain_open: false,
                ..*host
            };
            (break_reply(*cause), ended)
        }
        Call::Command(_) => unreachable!(),
    }
}

/// The reply to a command that needs no track, and the host then.
///
/// After want of memory the host is as it was.
pub fn respond_command(
    alloc: Global,
    command: &DeviceCommand,
    host: &mut HostState,
) -> Result<Reply, NoMemory>
    requires { NeedsNoTrack host.old (asked_of command.now) }
    ensures answer { IfOk result (λ reply. (mark : Option Bool)
        → (reply_of reply, host.new)
        ≡ response_to host.old mark (asked_of command.now)) }
    ensures host_stays { OnErr result (host.new ≡ host.old) }
{
    let argument = command.argument.as_slice();
    match admitted_in_chain(host, command.code, argument) {
        Ok(kind) => run_control(alloc, kind, argument, command.chained, host),
        Err(check) => {
            open(host);
            Ok(refused_by(alloc, check, host))
        }
    }
}
