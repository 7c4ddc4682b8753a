// Which rule a recorder meets.
ghost use Rattle.std.specs.Prelude.{◌≡◌, ◌<◌, length, None, Some, IfSome};
ghost use Rattle.std.specs.Option.{option_and_then, unwrap_or};
ghost use Rattle.core_state.specs.declared.rule.WorkRule.TheVariants.{IsIdle};
ghost use Rattle.mss_base.specs.Firsts.{◌or◌};
ghost use Rattle.volume_table.specs.Listed.{row_in_list};
ghost use Rattle.shown_volumes.specs.Sound.{frame_in};
ghost use Rattle.core_state.specs.Pins.{page_of};
ghost use Rattle.core_state.specs.WorkRules.{
  abandon_rule,
  assign_rule,
  carry_for,
  carry_rule,
  copy_rule,
  end_rule,
  first_pick,
  free_rule,
  is_within,
  needs_cartridge,
  pick_for,
  pick_on,
  pick_rule,
  return_rule,
  task_of,
  task_rule,
  work_rule,
};

use crate::choices::{free_frame, has_candidate, requests_of};
use crate::transfer::transfer_of;
use cartridge_store::Place;
use core_state::{Core, Task, WorkRule};
use fault_queue::{Request, RequestState};
use mss_base::{CartridgeNo, FrameNo, HostNo, RecorderNo, Site};
use shown_volumes::frame_in;
use transfers::{Transfer, TransferKind};
use victim_choice::Choose;

fn pick_on<S: Site, C: Choose>(
    core: &Core<S, C>,
    host: HostNo,
    frame: Option<FrameNo>,
) -> Option<WorkRule>
    requires going { core.now.stopped ≡ None }
    requires there { IfSome frame (λ f. f < length core.now.owners) }
    ensures { result ≡ pick_on core.now host frame }
{
    let Some(frame) = frame else {
        if let Some(frame) = free_frame(core) {
            return Some(WorkRule::Picks { host, frame });
        }
        if has_candidate(core) {
            return Some(WorkRule::PicksVictim { host });
        }
        return None;
    };
    if core.frames.is_moving(frame) {
        return None;
    }
    Some(WorkRule::Picks { host, frame })
}

/// Whether some tracks of the cylinder are copied, but not all.
fn is_within(transfer: Option<Transfer>) -> bool
    ensures { result ≡ is_within transfer }
{
    match transfer {
        Some(transfer) => 0 < transfer.next && transfer.next < 19,
        None => false,
    }
}

fn abandon_rule(task: &Task) -> Option<WorkRule>
    ensures { result ≡ abandon_rule task.now }
{
    if task.victim.is_some() && task.touched && !is_within(task.transfer) {
        return Some(WorkRule::Abandons);
    }
    None
}

fn needs_cartridge(kind: TransferKind) -> bool
    ensures { result ≡ needs_cartridge kind }
{
    kind != TransferKind::StageBlank
}

fn carry_for<S: Site, C: Choose>(
    core: &Core<S, C>,
    cartridge: CartridgeNo,
    holds: Option<CartridgeNo>,
) -> Option<WorkRule>
    ensures { result ≡ carry_for core.now cartridge holds }
{
    match holds {
        Some(other) if other == cartridge => None,
        Some(other) => Some(WorkRule::GivesBack { cartridge: other }),
        None => match core.store.place(cartridge) {
            Place::Cell(_) => Some(WorkRule::Fetches { cartridge }),
            _ => Some(WorkRule::IsIdle),
        },
    }
}

fn copy_rule(transfer: Transfer) -> Option<WorkRule>
    ensures { result ≡ copy_rule transfer }
{
    if transfer.next < 19 {
        return Some(WorkRule::Copies { transfer });
    }
    None
}

fn free_rule(task: &Task) -> Option<WorkRule>
    ensures { result ≡ free_rule task.now }
{
    let (volume, page) = task.victim?;
    Some(WorkRule::Frees { volume, page })
}

fn assign_rule<S: Site, C: Choose>(core: &Core<S, C>, task: &Task) -> Option<WorkRule>
    ensures { result ≡ assign_rule core.now task.now }
{
    let request = core.requests.of(task.host)?;
    let page = request.cylinder.page();
    Some(WorkRule::Assigns {
        volume: request.volume,
        page,
    })
}

fn carry_rule<S: Site, C: Choose>(
    core: &Core<S, C>,
    recorder: RecorderNo,
    transfer: &Transfer,
) -> Option<WorkRule>
    requires { recorder < length core.now.recorders }
    ensures { result ≡ carry_rule core.now recorder transfer.now }
{
    if transfer.next >= 19 || !needs_cartridge(transfer.kind) {
        return None;
    }
    let holds = core.recorders.as_slice()[usize::from(recorder.get())].holds();
    carry_for(core, transfer.cartridge, holds)
}

/// The rule of a transfer: its cartridge is brought, or a track is copied, or all are.
fn transfer_rule<S: Site, C: Choose>(
    core: &Core<S, C>,
    recorder: RecorderNo,
    transfer: Transfer,
) -> WorkRule
    requires { recorder < length core.now.recorders }
    ensures { Some result
        ≡ (carry_rule core.now recorder transfer or copy_rule transfer or end_rule transfer) }
{
    if let Some(rule) = carry_rule(core, recorder, &transfer) {
        return rule;
    }
    if let Some(rule) = copy_rule(transfer) {
        return rule;
    }
    WorkRule::Ends { transfer }
}

fn task_rule<S: Site, C: Choose>(
    core: &Core<S, C>,
    recorder: RecorderNo,
    task: &Task,
) -> Option<WorkRule>
    requires { recorder < length core.now.recorders }
    ensures { result ≡ task_rule core.now recorder task.now }
{
    if let Some(rule) = abandon_rule(task) {
        return Some(rule);
    }
    if let Some(transfer) = transfer_of(core, task) {
        return Some(transfer_rule(core, recorder, transfer));
    }
    if let Some(rule) = free_rule(task) {
        return Some(rule);
    }
    assign_rule(core, task)
}

fn return_rule<S: Site, C: Choose>(core: &Core<S, C>, recorder: RecorderNo) -> Option<WorkRule>
    requires recorders { recorder < length core.now.recorders }
    requires tasks { recorder < length core.now.tasks }
    ensures { result ≡ return_rule core.now recorder }
{
    let place = usize::from(recorder.get());
    let cartridge = core.recorders.as_slice()[place].holds()?;
    if core.tasks[place].is_some() {
        return None;
    }
    Some(WorkRule::GivesBack { cartridge })
}

/// The frame of the page that a request is on.
fn asked_frame<S: Site, C: Choose>(core: &Core<S, C>, request: &Request) -> Option<FrameNo>
    requires going { core.now.stopped ≡ None }
    ensures value { result ≡ frame_in (row_in_list core.now.rows) request.now.volume
        (page_of request.now.cylinder) }
    ensures there { IfSome result (λ f. f < length core.now.owners) }
{
    frame_in(&core.rows, request.volume, request.cylinder.page())
}

fn pick_for<S: Site, C: Choose>(
    core: &Core<S, C>,
    host: HostNo,
    request: &Request,
) -> Option<WorkRule>
    requires going { core.now.stopped ≡ None }
    ensures { result ≡ pick_for core.now host request.now request.now.state }
{
    if request.state != RequestState::Queued {
        return None;
    }
    pick_on(core, host, asked_frame(core, request))
}

/// The first request, in order of asking, that can be picked.
fn first_pick<S: Site, C: Choose>(core: &Core<S, C>) -> Option<WorkRule>
    requires going { core.now.stopped ≡ None }
    ensures { result ≡ first_pick core.now core.now.requests }
{
    let requests = requests_of(core);
    for place in 0..8 {
        let Some(asked) = requests.nth(place) else {
            return None;
        };
        if let Some(rule) = pick_for(core, asked.0, &asked.1) {
            return Some(rule);
        }
    }
    None
}

/// The first rule that applies while the core isn't stopped.
fn going_rule<S: Site, C: Choose>(core: &Core<S, C>, recorder: RecorderNo) -> WorkRule
    requires recorder { recorder < core.now.config.recorders }
    requires going { core.now.stopped ≡ None }
    ensures { result ≡ unwrap_or (
        return_rule core.now recorder
        or pick_rule core.now recorder
        or option_and_then (task_rule core.now recorder) (task_of core.now recorder)
        ) IsIdle }
{
    // This look at the core tells that it has a task and a recorder for each number.
    let _tasks = &core.tasks;
    if let Some(rule) = return_rule(core, recorder) {
        return rule;
    }
    let found = match &core.tasks[usize::from(recorder.get())] {
        Some(task) => task_rule(core, recorder, task),
        None => first_pick(core),
    };
    match found {
        Some(rule) => rule,
        None => WorkRule::IsIdle,
    }
}

/// The first rule that applies to a recorder. It takes no memory.
#[tactic(auto, unfolding(core_state::specs::WorkRules::work_rule))]
pub fn work_rule<S: Site, C: Choose>(core: &Core<S, C>, recorder: RecorderNo) -> WorkRule
    requires recorder { recorder < core.now.config.recorders }
    ensures { result ≡ work_rule core.now recorder }
{
    match core.session.stopped {
        Some(fault) => WorkRule::IsStopped { fault },
        None => going_rule(core, recorder),
    }
}
