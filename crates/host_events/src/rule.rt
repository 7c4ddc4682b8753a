// Which rule a host's call meets.
ghost use Rattle.std.specs.Prelude.{◌≡◌, length, true, false, Some};
ghost use Rattle.std.specs.Option.{option_and_then};
ghost use Rattle.channel_commands.specs.Codes.{command_of};
ghost use Rattle.channel_commands.specs.declared.command.Command.{Command};
ghost use Rattle.channel_commands.specs.Data.{is_command};
ghost use Rattle.channel_commands.specs.Views.{call_of};
ghost use Rattle.ckd_plain.specs.Effects.{is_data};
ghost use Rattle.core_state.specs.Pins.{are_all_bound};
ghost use Rattle.core_state.specs.HostRules.{
  busy_rule,
  data_command,
  data_rule,
  failed_rule,
  fault_rule,
  frame_under,
  full_rule,
  held_rule,
  host_rule,
  is_for,
  mark_rule,
  moving_rule,
  run_rule,
  state_under,
  stopped_rule,
  taken_by,
  taken_from,
  volume_of,
  would_bind,
};
ghost use Rattle.host_events.specs.Asking.{IsAlone, IsAsked};

use crate::requests::request_of;
use channel_commands::{Call, Command, command_of};
use ckd_plain::HostState;
use ckd_plain::steps::{admitted_in_chain, is_data};
use core_state::looks::{are_all_bound, host_at, is_on, owner_of, state_in};
use core_state::{Core, ENTRY_LIMIT, HostRule, Task};
use fault_queue::{Request, RequestState};
use mss_base::{FrameNo, HostNo, Site, VolumeNo};
use shown_volumes::frame_in;
use victim_choice::Choose;
use volume_table::CylinderState;

/// A host's call, with the state of the host and its request.
#[derive(Clone, Copy)]
struct Asked<'a> {
    host: HostNo,
    state: &'a HostState,
    call: &'a Call,
    /// The search, read or write that it is.
    command: Option<Command>,
    request: Option<Request>,
}

fn is_command(call: &Call) -> bool
    ensures { result ≡ is_command (call_of call.now) }
{
    matches!(call, Call::Command(_))
}

/// Whether a code is that of a search, read or write.
fn names_data(code: u8) -> bool
    ensures { result ≡ false → (c : Command) → command_of code ≡ Some c → is_data c ≡ false }
{
    match command_of(code) {
        Ok(command) => is_data(command),
        Err(_) => false,
    }
}

/// The search, read or write that a call is, where it passes the checks. Of other commands the code tells that they are
/// none, so that they are checked once, when they are replied.
#[tactic(auto, using(crate::proofs::RuleParts::named_none))]
fn data_command(host: &HostState, call: &Call) -> Option<Command>
    ensures { result ≡ data_command host.now (call_of call.now) }
{
    let Call::Command(command) = call else {
        return None;
    };
    if !names_data(command.code) {
        return None;
    }
    match admitted_in_chain(host, command.code, command.argument.as_slice()) {
        Ok(kind) if is_data(kind) => Some(kind),
        _ => None,
    }
}

/// Whether a call is for a request.
fn is_for(asked: &Asked, request: &Request) -> bool
    requires { asked.now.command ≡ data_command asked.now.state.now (call_of asked.now.call.now) }
    ensures { result ≡ is_for asked.now.state.now (call_of asked.now.call.now) request.now }
{
    asked.command.is_some() && asked.state.cylinder == request.cylinder
}

fn stopped_rule<S: Site, C: Choose>(core: &Core<S, C>) -> Option<HostRule>
    ensures { result ≡ stopped_rule core.now }
{
    let fault = core.session.stopped?;
    Some(HostRule::IsStopped { fault })
}

fn full_rule<S: Site, C: Choose>(core: &Core<S, C>) -> Option<HostRule>
    ensures { result ≡ full_rule core.now }
{
    if core.session.history.as_slice().len() >= ENTRY_LIMIT {
        return Some(HostRule::IsFull);
    }
    None
}

/// Whether no other host has the volume mounted.
fn is_alone(hosts: &[HostState], host: HostNo, volume: VolumeNo) -> bool
    requires { length hosts.now ≡ 8 }
    ensures { result ≡ true → IsAlone hosts.now host volume }
{
    for number in 1..9 {
        let other = HostNo::of(number).unwrap();
        if other != host && is_on(&host_at(hosts, other), volume) {
            return false;
        }
    }
    true
}

fn busy_rule<S: Site, C: Choose>(core: &Core<S, C>, asked: &Asked) -> Option<HostRule>
    requires { IsAsked core.now asked.now }
    ensures { result ≡ busy_rule core.now asked.now.host (call_of asked.now.call.now) }
{
    let (volume, _) = asked.state.mounted?;
    // Only another host keeps a command off, and mostly there is none.
    if is_alone(core.hosts.as_slice(), asked.host, volume) {
        return None;
    }
    let owner = owner_of(core.hosts.as_slice(), &core.requests, volume)?;
    if is_command(asked.call) && owner != asked.host {
        return Some(HostRule::IsBusy { owner });
    }
    None
}

fn moving_rule<S: Site, C: Choose>(core: &Core<S, C>, asked: &Asked) -> Option<HostRule>
    requires { IsAsked core.now asked.now }
    ensures { result ≡ moving_rule core.now asked.now.host (call_of asked.now.call.now) }
{
    let request = asked.request?;
    if request.state == RequestState::Moving && !is_for(asked, &request) {
        let cylinder = request.cylinder;
        return Some(HostRule::IsMoving { cylinder });
    }
    None
}

/// The frame that a task takes from a volume.
fn taken_by(task: &Option<Task>, volume: VolumeNo) -> Option<FrameNo>
    ensures { result ≡ option_and_then (taken_by volume) task.now }
{
    match task {
        Some(task) => match task.victim {
            Some((victim, _)) if victim == volume => Some(task.frame),
            _ => None,
        },
        None => None,
    }
}

/// The frame that the lowest recorder's task takes from a volume.
fn taken_from(tasks: &[Option<Task>], volume: VolumeNo) -> Option<FrameNo>
    ensures { result ≡ taken_from volume tasks.now }
{
    for task in tasks {
        if let Some(frame) = taken_by(task, volume) {
            return Some(frame);
        }
    }
    None
}

/// The volume that a call would mount with bind.
fn would_bind<S: Site, C: Choose>(
    core: &Core<S, C>,
    host: &HostState,
    call: &Call,
) -> Option<VolumeNo>
    ensures { result ≡ would_bind core.now host.now (call_of call.now) }
{
    let Call::Mount { volume, bind: true } = call else {
        return None;
    };
    let is_there = core.rows.row(*volume).is_some();
    if !host.chain_open && host.mounted.is_none() && is_there {
        return Some(*volume);
    }
    None
}

fn held_rule<S: Site, C: Choose>(core: &Core<S, C>, asked: &Asked) -> Option<HostRule>
    requires { IsAsked core.now asked.now }
    ensures { result ≡ held_rule core.now asked.now.host (call_of asked.now.call.now) }
{
    let volume = would_bind(core, asked.state, asked.call)?;
    let frame = taken_from(&core.tasks, volume)?;
    Some(HostRule::IsHeld { frame })
}

fn failed_rule<S: Site, C: Choose>(core: &Core<S, C>, asked: &Asked) -> Option<HostRule>
    requires { IsAsked core.now asked.now }
    ensures { result ≡ failed_rule core.now asked.now.host (call_of asked.now.call.now) }
{
    let request = asked.request?;
    let RequestState::Failed { fault } = request.state else {
        return None;
    };
    if is_for(asked, &request) {
        return Some(HostRule::HasFailed { fault });
    }
    None
}

/// The number of the state of the host's cylinder.
fn state_under<S: Site, C: Choose>(core: &Core<S, C>, host: &HostState, volume: VolumeNo) -> u8
    requires { volume ≡ volume_of host.now }
    ensures { result ≡ state_under core.now host.now }
{
    state_in(&core.rows, volume, host.cylinder)
}

/// The frame of the page of the host's cylinder.
fn frame_under<S: Site, C: Choose>(
    core: &Core<S, C>,
    host: &HostState,
    volume: VolumeNo,
) -> Option<FrameNo>
    requires { volume ≡ volume_of host.now }
    ensures { result ≡ frame_under core.now host.now }
{
    frame_in(&core.rows, volume, host.cylinder.page())
}

/// Whether each frame is bound.
fn has_no_space<S: Site, C: Choose>(core: &Core<S, C>) -> bool
    ensures { result ≡ are_all_bound core.now }
{
    let count = core.config.frame_count();
    are_all_bound(core.hosts.as_slice(), &core.frames, count)
}

fn fault_rule<S: Site, C: Choose>(
    core: &Core<S, C>,
    host: &HostState,
    volume: VolumeNo,
    command: Command,
) -> Option<HostRule>
    requires { volume ≡ volume_of host.now }
    ensures { result ≡ fault_rule core.now host.now command }
{
    if state_under(core, host, volume) >= CylinderState::StagedBlank.number() {
        return None;
    }
    if frame_under(core, host, volume).is_none() && has_no_space(core) {
        return Some(HostRule::HasNoSpace);
    }
    let cylinder = host.cylinder;
    Some(HostRule::Faults { volume, cylinder })
}

fn mark_rule<S: Site, C: Choose>(
    core: &Core<S, C>,
    host: &HostState,
    volume: VolumeNo,
    command: Command,
) -> Option<HostRule>
    requires { volume ≡ volume_of host.now }
    ensures { result ≡ mark_rule core.now host.now command }
{
    let state = state_under(core, host, volume);
    if matches!(command, Command::Write(_)) && state < CylinderState::Changed.number() {
        let cylinder = host.cylinder;
        return Some(HostRule::Marks { volume, cylinder });
    }
    None
}

fn run_rule<S: Site, C: Choose>(
    core: &Core<S, C>,
    host: &HostState,
    volume: VolumeNo,
    command: Command,
) -> Option<HostRule>
    requires { volume ≡ volume_of host.now }
    ensures { result ≡ run_rule core.now host.now command }
{
    let frame = frame_under(core, host, volume)?;
    Some(HostRule::Runs {
        command,
        volume,
        frame,
    })
}

fn data_rule<S: Site, C: Choose>(core: &Core<S, C>, asked: &Asked) -> Option<HostRule>
    requires { asked.now.command ≡ data_command asked.now.state.now (call_of asked.now.call.now) }
    ensures { result ≡ option_and_then (data_rule core.now asked.now.state.now) asked.now.command }
{
    let command = asked.command?;
    let host = asked.state;
    let Some((volume, _)) = host.mounted else {
        unreachable!()
    };
    if let Some(rule) = fault_rule(core, host, volume, command) {
        return Some(rule);
    }
    if let Some(rule) = mark_rule(core, host, volume, command) {
        return Some(rule);
    }
    run_rule(core, host, volume, command)
}

/// The first rule that applies.
#[tactic(auto, unfolding(core_state::specs::HostRules::host_rule))]
pub fn host_rule<S: Site, C: Choose>(core: &Core<S, C>, host: HostNo, call: &Call) -> HostRule
    ensures { result ≡ host_rule core.now host (call_of call.now) }
{
    if let Some(rule) = stopped_rule(core) {
        return rule;
    }
    if let Some(rule) = full_rule(core) {
        return rule;
    }
    let state = &host_at(core.hosts.as_slice(), host);
    let command = data_command(state, call);
    let request = request_of(&core.requests, host);
    let asked = Asked {
        host,
        state,
        call,
        command,
        request,
    };
    if let Some(rule) = busy_rule(core, &asked) {
        return rule;
    }
    if let Some(rule) = moving_rule(core, &asked) {
        return rule;
    }
    if let Some(rule) = held_rule(core, &asked) {
        return rule;
    }
    if let Some(rule) = failed_rule(core, &asked) {
        return rule;
    }
    if let Some(rule) = data_rule(core, &asked) {
        return rule;
    }
    HostRule::Responds
}
