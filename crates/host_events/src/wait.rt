// Waits for a frame, or for a cylinder.
ghost use Rattle.std.specs.Prelude.{◌≡◌, None, OnOk, OnErr};
ghost use Rattle.channel_commands.specs.Data.{CallData};
ghost use Rattle.fault_queue.specs.Requests.{request_of};
ghost use Rattle.core_state.specs.CoreValue.{seen_core};
ghost use Rattle.core_state.specs.HostEvents.{HostDoes};
ghost use Rattle.core_state.specs.HostRules.{host_rule};
ghost use Rattle.core_state.specs.declared.rule.HostRule.TheVariants.{Faults, IsHeld};
ghost use Rattle.host_events.specs.Answers.{told_of};
ghost use Rattle.host_events.specs.Replies.{IsUpheld, after_asking};

use crate::answer::HostAnswer;
use core_state::{Core, Event, Waiting};
use fault_queue::{Request, RequestState};
use mss_base::{Cylinder, FrameNo, HostNo, NoMemory, Site, VolumeNo};
use victim_choice::Choose;

/// Waits for a frame that a task takes from the volume to be bound, by whichever call meets this
/// rule.
pub fn hold<S: Site, C: Choose>(core: &Core<S, C>, host: HostNo, frame: FrameNo) -> HostAnswer
    requires rule { (call : CallData) × (host_rule core.now host call ≡ IsHeld frame) }
    ensures event { (call : CallData) → host_rule core.now host call ≡ IsHeld frame
        → HostDoes S.tells (seen_core S.Site core.now) host call
        (IsHeld frame) (told_of result) (seen_core S.Site core.now) }
{
    // A host that mounts has no volume, so it has no request that would end.
    let is_idle = core.requests.of(host).is_none();
    prove!(is_idle);
    HostAnswer::Wait(Waiting::Held { frame })
}

/// Puts a request of a host that has none last, and the event. After want of memory all is as it
/// was.
fn queue<S: Site, C: Choose>(
    core: &mut Core<S, C>,
    host: HostNo,
    request: Request,
) -> Result<(), NoMemory>
    requires none { request_of core.old.requests host ≡ None }
    requires upheld { IsUpheld S.tells (S.told core.old.site) (S.writes core.old.site)
        (S.faults core.old.site) (after_asking core.old host request) }
    ensures ok { OnOk result (core.new ≡ after_asking core.old host request) }
    ensures err { OnErr result (core.new ≡ core.old) }
{
    core.session.reserve()?;
    core.requests.ask(host, request)?;
    core.session.note(Event::Host(host));
    Ok(())
}

/// Waits for the cylinder, which is asked for unless it is already, by whichever call meets this
/// rule.
pub fn ask<S: Site, C: Choose>(
    core: &mut Core<S, C>,
    host: HostNo,
    volume: VolumeNo,
    cylinder: Cylinder,
) -> HostAnswer
    requires rule { (call : CallData) × (host_rule core.old host call ≡ Faults volume cylinder) }
    ensures event { (call : CallData) → host_rule core.old host call ≡ Faults volume cylinder
        → HostDoes S.tells (seen_core S.Site core.old) host call
        (Faults volume cylinder) (told_of result) (seen_core S.Site core.new) }
    ensures chooser { core.new.chooser ≡ core.old.chooser }
    ensures site { core.new.site ≡ core.old.site }
{
    // A request is for the cylinder where its host stands, so it is for this one.
    if core.requests.of(host).is_some() {
        return HostAnswer::Wait(Waiting::Fault { cylinder });
    }
    let request = Request {
        volume,
        cylinder,
        state: RequestState::Queued,
    };
    match queue(core, host, request) {
        Ok(()) => HostAnswer::Wait(Waiting::Fault { cylinder }),
        Err(NoMemory) => HostAnswer::Memory,
    }
}
