// Copies that an event takes before it changes anything.
ghost use Rattle.std.specs.Prelude.{◌≡◌, ◌≤◌, ◌+◌, length, IfOk, IsOk};
ghost use Rattle.channel_commands.specs.Views.{
  HasShortArgument,
  IsShort,
  argument_bytes,
  asked_of,
  call_of,
  reply_of,
};
ghost use Rattle.ckd_plain.specs.History.{count_of_host};
ghost use Rattle.ckd_plain.specs.Laws.{HasNoBytes};
ghost use Rattle.core_state.specs.Counted.{AreEntries};
ghost use Rattle.core_state.specs.declared.session.TheConstants.{ENTRY_LIMIT};

use channel_commands::{Call, DeviceCommand, Reply};
use ckd_plain::Entry;
use mss_base::{Bytes, HostNo, NoMemory};
use std::alloc::Global;

fn copy_of_command(command: &DeviceCommand) -> Result<DeviceCommand, NoMemory>
    ensures copy { IfOk result (λ copy. asked_of copy ≡ asked_of command.now) }
    ensures short { IsShort (argument_bytes command.now.argument) → IsOk result }
{
    Ok(DeviceCommand {
        code: command.code,
        argument: command.argument.share()?,
        chained: command.chained,
    })
}

/// A copy of a call, which shares the argument of a command. It takes no memory, and fails only where an argument of
/// more than eight bytes has as many holders as can be counted.
pub fn copy_of_call(call: &Call) -> Result<Call, NoMemory>
    ensures copy { IfOk result (λ copy. call_of copy ≡ call_of call.now) }
    ensures short { HasShortArgument (call_of call.now) → IsOk result }
{
    Ok(match call {
        Call::Mount { volume, bind } => Call::Mount {
            volume: *volume,
            bind: *bind,
        },
        Call::Demount => Call::Demount,
        Call::Command(command) => Call::Command(copy_of_command(command)?),
        Call::Break { cause } => Call::Break { cause: *cause },
    })
}

/// A copy of a reply. Only bytes that a command read take memory.
pub fn copy_of_reply(alloc: Global, reply: &Reply) -> Result<Reply, NoMemory>
    ensures copy { IfOk result (λ copy. reply_of copy ≡ reply_of reply.now) }
    ensures none { HasNoBytes (reply_of reply.now) → IsOk result }
{
    Ok(match reply {
        Reply::Done { status, bytes } => Reply::Done {
            status: *status,
            bytes: Bytes::of(alloc, bytes.as_slice())?,
        },
        Reply::Mounted => Reply::Mounted,
        Reply::Demounted => Reply::Demounted,
        Reply::AlreadyMounted => Reply::AlreadyMounted,
        Reply::NotMounted => Reply::NotMounted,
        Reply::NoVolume => Reply::NoVolume,
        Reply::InChain => Reply::InChain,
        Reply::ProgramCheck => Reply::ProgramCheck,
        Reply::ChainLimit => Reply::ChainLimit,
        Reply::EquipmentCheck => Reply::EquipmentCheck,
        Reply::NoSpace => Reply::NoSpace,
        Reply::Stopped => Reply::Stopped,
    })
}

/// The number of a host's next entry, from 1: one more than that of its last one, which mostly lies
/// near the end.
pub fn next_number(history: &[Entry], host: HostNo) -> u64
    requires few { length history.now ≤ ENTRY_LIMIT }
    requires entries { AreEntries history.now }
    ensures { result ≡ count_of_host host history.now + 1 }
{
    match history.iter().rev().find(|entry| entry.host == host) {
        Some(last) => last.number + 1,
        None => 1,
    }
}
