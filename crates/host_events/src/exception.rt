// Replies in place of the plain one: a failed staging, and no space.
ghost use Rattle.std.specs.Prelude.{◌≡◌};
ghost use Rattle.channel_commands.specs.Views.{call_of};
ghost use Rattle.core_state.specs.HostRules.{host_rule};
ghost use Rattle.core_state.specs.declared.rule.HostRule.TheVariants.{HasFailed, HasNoSpace};
ghost use Rattle.host_events.specs.Answers.{HostStep};

use crate::answer::HostAnswer;
use crate::reply::reply;
use channel_commands::{Call, Reply};
use ckd_plain::UnitCheck;
use ckd_plain::steps::checked;
use core_state::Core;
use core_state::looks::host_at;
use mss_base::{HostNo, Site};
use victim_choice::Choose;

/// Replies an equipment check with the count of faults that the host's request keeps, which ends.
pub fn fail<S: Site, C: Choose>(
    core: &mut Core<S, C>,
    host: HostNo,
    call: &Call,
    fault: u64,
) -> HostAnswer
    requires rule { host_rule core.old host (call_of call.now) ≡ HasFailed fault }
    ensures event { HostStep S.Site core.old host call.now (HasFailed fault) result core.new }
    ensures chooser { core.new.chooser ≡ core.old.chooser }
    ensures site { core.new.site ≡ core.old.site }
{
    let now = checked(
        UnitCheck::EquipmentCheck,
        &host_at(core.hosts.as_slice(), host),
    );
    reply(core, host, call, Reply::EquipmentCheck, Some(fault), &now)
}

/// Replies that there is no space: the page has no frame, and each frame is bound. The host's
/// request ends, if it has one.
pub fn refuse_space<S: Site, C: Choose>(
    core: &mut Core<S, C>,
    host: HostNo,
    call: &Call,
) -> HostAnswer
    requires rule { host_rule core.old host (call_of call.now) ≡ HasNoSpace }
    ensures event { HostStep S.Site core.old host call.now HasNoSpace result core.new }
    ensures chooser { core.new.chooser ≡ core.old.chooser }
    ensures site { core.new.site ≡ core.old.site }
{
    let now = checked(UnitCheck::NoSpace, &host_at(core.hosts.as_slice(), host));
    reply(core, host, call, Reply::NoSpace, None, &now)
}
