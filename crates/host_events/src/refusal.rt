// A call for which memory is wanting before its event.
ghost use Rattle.std.specs.Prelude.{◌≡◌, ℕ, None};
ghost use Rattle.channel_commands.specs.Data.{CallData};
ghost use Rattle.core_state.specs.CoreValue.{seen_core};
ghost use Rattle.core_state.specs.HostEvents.{HostEvent};
ghost use Rattle.core_state.specs.IsCore.{IsCore};
ghost use Rattle.core_state.specs.TheCore.{IsWhole};
ghost use Rattle.host_events.specs.Answers.{told_of};
ghost use Rattle.host_events.specs.Parts.{GoesOn};

use crate::answer::HostAnswer;
use core_state::{Core, ENTRY_LIMIT};
use mss_base::Site;
use victim_choice::Choose;

/// What every core keeps, and what it keeps while it isn't stopped, for the proofs of callers that hold one.
pub fn look<S: Site, C: Choose>(core: &Core<S, C>)
    ensures whole { IsWhole S.tells (S.told core.now.site) core.now }
    ensures kept { core.now.stopped ≡ None → IsCore core.now }
{
    let _site = &core.site;
}

/// What any call of a host is answered for which memory is wanting, as its event would: that the core is stopped,
/// that the history is full, or want of memory. Nothing changes.
pub fn refused<S: Site, C: Choose>(core: &Core<S, C>) -> HostAnswer
    ensures event { (h : ℕ) (call : CallData) → HostEvent S.tells (seen_core S.Site core.now) h call
        (told_of result) (seen_core S.Site core.now) }
    ensures goes_on { core.now.stopped ≡ None → GoesOn (told_of result) }
{
    match core.stopped() {
        Some(fault) => HostAnswer::Stopped { fault },
        None => lacking(core),
    }
}

/// What a call is answered for which memory is wanting, where the core isn't stopped: that the history is full, or want
/// of memory. Nothing changes.
fn lacking<S: Site, C: Choose>(core: &Core<S, C>) -> HostAnswer
    requires going { core.now.stopped ≡ None }
    ensures event { (h : ℕ) (call : CallData) → HostEvent S.tells (seen_core S.Site core.now) h call
        (told_of result) (seen_core S.Site core.now) }
    ensures goes_on { GoesOn (told_of result) }
{
    look(core);
    if core.history().as_slice().len() >= ENTRY_LIMIT {
        return HostAnswer::CommandLimit;
    }
    HostAnswer::Memory
}
