// The steps round every command: what opens it, and what makes its reply.
ghost use Rattle.std.specs.Prelude.{◌≡◌, true, IfOk};
ghost use Rattle.channel_commands.specs.Views.{reply_of};
ghost use Rattle.ckd_plain.specs.Checks.{admitted_command, Passes};
ghost use Rattle.ckd_plain.specs.Effects.{effect_with, is_ending};
ghost use Rattle.ckd_plain.specs.Plain.{sense_of, with_open_chain, keeps_sense, host_for_command, keeps_passes, refusal_answer, refused_by, effect_answer, KeepsChain};
ghost use Rattle.ckd_plain.specs.Views.{effect_of};

use crate::checks::admitted;
use crate::done::{DoneCommand, END_OF_FILE, UNIT_CHECK};
use crate::host::{HostState, Position, Prior};
use crate::unit_check::{Refusal, UnitCheck};
use channel_commands::{Command, ReadWhat, Reply, SearchField};
use mss_base::Bytes;
use std::alloc::Global;

/// The 24 sense bytes of a unit check.
pub fn sense_of(check: UnitCheck) -> [u8; 24]
    ensures { result ≡ sense_of check }
{
    let (a, b, c) = match check {
        UnitCheck::CommandReject => (0x80, 0, 0),
        UnitCheck::InterventionRequired => (0x40, 0, 0),
        UnitCheck::EquipmentCheck => (0x10, 0, 0),
        UnitCheck::InvalidTrackFormat => (0, 0x40, 0),
        UnitCheck::EndOfCylinder => (0, 0x20, 0),
        UnitCheck::NoRecordFound => (0, 0x08, 0),
        UnitCheck::FileProtected => (0, 0x04, 0),
        UnitCheck::NoSpace => (0x40, 0, 0x01),
    };
    [
        a, b, c, 0, 0, 0, 0, 0, 0, 0, 0, 0, 0, 0, 0, 0, 0, 0, 0, 0, 0, 0, 0, 0,
    ]
}

/// Opens a chain, where none is open.
pub fn open(host: &mut HostState)
    ensures { host.new ≡ with_open_chain host.old }
{
    if host.chain_open {
        return;
    }
    host.chain_open = true;
    host.mask = 0;
    host.position = Position::Start;
    host.passes = 0;
    host.prior = Prior::Nothing;
}

/// The host with a chain open: a new one, where none is.
pub fn opened(host: &HostState) -> HostState
    ensures { result ≡ with_open_chain host.now }
{
    let mut now = *host;
    open(&mut now);
    now
}

/// The command of a code, where it passes the checks for a host with a chain open, a new one where none is; else what
/// the first check that fails gives.
pub fn admitted_in_chain(host: &HostState, code: u8, argument: &[u8]) -> Result<Command, UnitCheck>
    ensures value { result ≡ admitted_command (with_open_chain host.now) code argument.now }
    ensures passes { IfOk result (λ command. Passes (with_open_chain host.now) command
        argument.now) }
{
    if host.chain_open {
        return admitted(host, code, argument);
    }
    admitted(&opened(host), code, argument)
}

fn keeps_sense(command: Command) -> bool
    ensures { result ≡ keeps_sense command }
{
    matches!(command, Command::NoOp | Command::Sense)
}

/// Clears what an admitted command doesn't find: the prior, and the sense but for no-op and sense.
pub fn clear(command: Command, host: &mut HostState)
    ensures { host.new ≡ host_for_command command host.old }
{
    host.prior = Prior::Nothing;
    if keeps_sense(command) {
        return;
    }
    host.sense = [0; 24];
}

/// The host as an admitted command finds it: no prior, and no sense but for no-op and sense.
pub fn cleared(command: Command, host: &HostState) -> HostState
    ensures { result ≡ host_for_command command host.now }
{
    let mut ready = *host;
    clear(command, &mut ready);
    ready
}

fn keeps_passes(command: Command) -> bool
    ensures { result ≡ keeps_passes command }
{
    match command {
        Command::Search { field, .. } => field != SearchField::Home,
        Command::Read { what, .. } => what == ReadWhat::Count,
        _ => false,
    }
}

/// The reply of a command that ended with unit check; the host's chain ends.
pub fn refused(alloc: Global, host: &mut HostState, refusal: &Refusal) -> Reply
    ensures reply_ { reply_of result ≡ (refusal_answer refusal.now).reply }
    ensures host_ { host.new ≡ (refusal_answer refusal.now).host }
{
    *host = HostState {
        chain_open: false,
        sense: sense_of(refusal.check),
        ..refusal.host
    };
    Reply::Done {
        status: UNIT_CHECK,
        bytes: Bytes::new(alloc),
    }
}

/// The reply of a command that the checks refuse, for a host whose chain is open; the chain ends.
pub fn refused_by(alloc: Global, check: UnitCheck, host: &mut HostState) -> Reply
    ensures reply_ { reply_of result ≡ (refused_by check host.old).reply }
    ensures host_ { host.new ≡ (refused_by check host.old).host }
{
    let refusal = Refusal {
        check,
        host: HostState {
            prior: Prior::Nothing,
            ..*host
        },
    };
    refused(alloc, host, &refusal)
}

fn end(host: &mut HostState, command: Command, chained: bool, status: u8, bytes: Bytes) -> Reply
    ensures reply_ { reply_of result
        ≡ (effect_answer command chained (effect_with status bytes.items host.old)).reply }
    ensures host_ { host.new
        ≡ (effect_answer command chained (effect_with status bytes.items host.old)).host }
{
    host.chain_open = chained && status != END_OF_FILE;
    if !keeps_passes(command) {
        host.passes = 0;
    }
    Reply::Done { status, bytes }
}

/// Ends a command without unit check, on the host as the command left it: its reply. The host's chain goes on where it
/// is chained and met no end of file.
pub fn finish(
    host: &mut HostState,
    command: Command,
    chained: bool,
    status: u8,
    bytes: Bytes,
) -> Reply
    requires { is_ending status ≡ true }
    ensures reply_ { reply_of result
        ≡ (effect_answer command chained (effect_with status bytes.items host.old)).reply }
    ensures host_ { host.new
        ≡ (effect_answer command chained (effect_with status bytes.items host.old)).host }
    ensures chain { KeepsChain chained (reply_of result) host.new }
{
    end(host, command, chained, status, bytes)
}

/// The reply of a command that ended without unit check; the host's chain goes on where it is chained and met no end
/// of file.
pub fn finished(host: &mut HostState, command: Command, chained: bool, done: DoneCommand) -> Reply
    ensures reply_ { reply_of result ≡ (effect_answer command chained (effect_of done)).reply }
    ensures host_ { host.new ≡ (effect_answer command chained (effect_of done)).host }
    ensures chain { KeepsChain chained (reply_of result) host.new }
{
    let DoneCommand {
        status,
        bytes,
        host: there,
    } = done;
    *host = there;
    finish(host, command, chained, status, bytes)
}
