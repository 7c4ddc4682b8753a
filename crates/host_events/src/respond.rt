// Replies without a look at the tracks.
ghost use Rattle.std.specs.Prelude.{◌≡◌, IfOk};
ghost use Rattle.channel_commands.specs.Views.{call_of, reply_of};
ghost use Rattle.ckd_plain.specs.Plain.{NeedsNoTrack, response_to};
ghost use Rattle.core_state.specs.HostEvents.{mark_in};
ghost use Rattle.core_state.specs.HostRules.{host_rule};
ghost use Rattle.core_state.specs.declared.rule.HostRule.TheVariants.{Responds};
ghost use Rattle.host_events.specs.Answers.{HostStep};

use crate::answer::HostAnswer;
use crate::reply::reply;
use channel_commands::{Call, Reply};
use ckd_plain::HostState;
use ckd_plain::steps::{respond, respond_command};
use core_state::Core;
use core_state::looks::host_at;
use mss_base::{HostNo, NoMemory, Site};
use std::alloc::Global;
use victim_choice::Choose;
use volume_table::Rows;

/// Whether the volume that a call asks for is read-only; None where it isn't there.
fn mark_of(rows: &Rows, call: &Call) -> Option<bool>
    ensures { result ≡ mark_in rows.now (call_of call.now) }
{
    let Call::Mount { volume, .. } = call else {
        return None;
    };
    match rows.row(*volume) {
        Some(row) => Some(row.read_only),
        None => None,
    }
}

/// The reply to a call that needs no track, by which the host becomes what it is then; `mark` says
/// whether the volume that the call asks for is read-only, where it is there.
#[inline(always)]
fn response(
    alloc: Global,
    host: &mut HostState,
    mark: Option<bool>,
    call: &Call,
) -> Result<Reply, NoMemory>
    requires { NeedsNoTrack host.old (call_of call.now) }
    ensures { IfOk result (λ reply. (reply_of reply, host.new)
        ≡ response_to host.old mark (call_of call.now)) }
{
    if let Call::Command(command) = call {
        return respond_command(alloc, command, host);
    }
    let (reply, now) = respond(host, mark, call);
    *host = now;
    Ok(reply)
}

/// Replies a call that meets no other rule, without a look at the tracks. The host's request ends,
/// if it has one.
pub fn reply_plainly<S: Site, C: Choose>(
    core: &mut Core<S, C>,
    host: HostNo,
    call: &Call,
) -> HostAnswer
    requires rule { host_rule core.old host (call_of call.now) ≡ Responds }
    ensures event { HostStep S.Site core.old host call.now Responds result core.new }
    ensures chooser { core.new.chooser ≡ core.old.chooser }
    ensures site { core.new.site ≡ core.old.site }
{
    let mut now = host_at(core.hosts.as_slice(), host);
    let mark = mark_of(&core.rows, call);
    let Ok(told) = response(core.alloc, &mut now, mark, call) else {
        return HostAnswer::Memory;
    };
    reply(core, host, call, told, None, &now)
}
