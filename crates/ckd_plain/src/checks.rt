// The checks that a command passes before it does anything.
ghost use Rattle.std.specs.Prelude.{◌≡◌, ◌+◌, ◌<◌, ◌≤◌, length, IfOk};
ghost use Rattle.channel_commands.specs.Codes.{least};
ghost use Rattle.ckd_plain.specs.Checks.{number_at, is_seek_allowed, is_write_allowed, is_prior_permitted, is_change_allowed, is_address, admitted_command, Passes};

use crate::host::{HostState, Prior};
use crate::unit_check::UnitCheck;
use channel_commands::{Command, SeekKind, WriteKind, command_of, least};
use mss_base::{CYLINDERS, HEADS};

/// The number in the two bytes at `place`.
pub fn number_at(argument: &[u8], place: usize) -> u16
    requires { place + 1 < length argument.now }
    ensures { result ≡ number_at argument.now place }
{
    u16::from(argument[place]) * 256 + u16::from(argument[place + 1])
}

fn is_seek_allowed(mask: u8, command: Command) -> bool
    ensures { result ≡ is_seek_allowed mask command }
{
    let seeks = mask & 0x18;
    match command {
        Command::Seek(SeekKind::Full) | Command::Recalibrate => seeks == 0,
        Command::Seek(SeekKind::Cylinder) => seeks == 0 || seeks == 0x08,
        Command::Seek(SeekKind::Head) => seeks != 0x18,
        _ => true,
    }
}

fn is_write_allowed(mask: u8, command: Command) -> bool
    ensures { result ≡ is_write_allowed mask command }
{
    let writes = mask & 0xC0;
    match command {
        Command::Write(WriteKind::CountKeyData) => !(writes == 0x40 || writes == 0x80),
        Command::Write(_) => writes != 0x40,
        _ => true,
    }
}

fn is_prior_permitted(prior: Prior, command: Command) -> bool
    ensures { result ≡ is_prior_permitted prior command }
{
    match (command, prior) {
        (Command::Write(WriteKind::CountKeyData), prior) => prior != Prior::Nothing,
        (Command::Write(WriteKind::KeyData), Prior::IdEqual(k)) => k > 0,
        (Command::Write(WriteKind::Data), Prior::IdEqual(k) | Prior::KeyEqual(k)) => k > 0,
        (Command::Write(_), _) => false,
        _ => true,
    }
}

fn is_change_allowed(read_only: bool, command: Command) -> bool
    ensures { result ≡ is_change_allowed read_only command }
{
    !(read_only && matches!(command, Command::Write(_)))
}

fn is_address(command: Command, argument: &[u8]) -> bool
    requires { least command ≤ length argument.now }
    ensures { result ≡ is_address command argument.now }
{
    match command {
        Command::Seek(SeekKind::Head) => number_at(argument, 4) < u16::from(HEADS),
        Command::Seek(_) => {
            number_at(argument, 0) == 0
                && number_at(argument, 2) < CYLINDERS
                && number_at(argument, 4) < u16::from(HEADS)
        }
        _ => true,
    }
}

/// The command of a code, where it passes the checks for a host whose chain is open; else what the first check that
/// fails gives.
#[tactic(auto, unfolding(crate::specs::Checks::admitted_command))]
pub fn admitted(host: &HostState, code: u8, argument: &[u8]) -> Result<Command, UnitCheck>
    ensures value { result ≡ admitted_command host.now code argument.now }
    ensures passes { IfOk result (λ command. Passes host.now command argument.now) }
{
    if host.mounted.is_none() && code != 0x04 {
        return Err(UnitCheck::InterventionRequired);
    }
    let Ok(command) = command_of(code) else {
        return Err(UnitCheck::CommandReject);
    };
    if argument.len() < least(command) {
        return Err(UnitCheck::CommandReject);
    }
    if !is_seek_allowed(host.mask, command) {
        return Err(UnitCheck::FileProtected);
    }
    if !is_prior_permitted(host.prior, command) || !is_write_allowed(host.mask, command) {
        return Err(UnitCheck::CommandReject);
    }
    if !is_change_allowed(host.protected, command) {
        return Err(UnitCheck::FileProtected);
    }
    if !is_address(command, argument) {
        return Err(UnitCheck::CommandReject);
    }
    Ok(command)
}
