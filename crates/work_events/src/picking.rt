// The events in which a recorder takes a host's request, and gives one up.
ghost use Rattle.std.specs.Prelude.{◌≡◌, ◌≤◌, ◌<◌, length, slice_set, true, Some, IsSome};
ghost use Rattle.fault_queue.specs.Requests.{request_of, with_state};
ghost use Rattle.fault_queue.specs.declared.queue.RequestState.TheVariants.{Moving};
ghost use Rattle.staging_adapter.specs.Frames.{IsFrame, with_moving};
ghost use Rattle.core_state.specs.WorkRules.{work_rule};
ghost use Rattle.core_state.specs.declared.rule.WorkRule.TheVariants.{Abandons, Picks, PicksVictim};
ghost use Rattle.work_events.specs.Chosen.{MayAnswer};
ghost use Rattle.work_events.specs.Steps.{WorkStep};

use crate::choices::candidates;
use crate::parts::{end_task, put_task, task_and_request, tell_work};
use core_state::{Core, Task, WorkAnswer, WorkKind};
use fault_queue::{Queue, RequestState};
use mss_base::{FrameNo, HostNo, RecorderNo, Site};
use staging_adapter::Frames;
use victim_choice::{Candidate, Choose, Chooser};

/// Begins a recorder's task: its frame moves, and so does its host's request.
fn begin_task(
    frames: &mut Frames,
    requests: &mut Queue,
    tasks: &mut Vec<Option<Task>>,
    recorder: RecorderNo,
    task: Task,
)
    requires frame { IsFrame frames.old task.frame }
    requires asked { IsSome (request_of requests.old task.host) }
    requires fits { recorder < length tasks.old.items }
    ensures frames { frames.new ≡ with_moving task.frame true frames.old }
    ensures requests { requests.new ≡ with_state task.host Moving requests.old }
    ensures tasks { tasks.new.items ≡ slice_set tasks.old.items recorder (Some task) }
{
    frames.set_moving(task.frame, true);
    requests.set(task.host, RequestState::Moving);
    put_task(tasks, recorder, Some(task));
}

/// The candidate that a chooser answers.
fn choose_among<C: Choose>(chooser: &Chooser<C>, choices: &[Candidate]) -> Candidate
    requires { 1 ≤ length choices.now }
    ensures { MayAnswer (C.may chooser.now) choices.now result }
{
    choices[chooser.choose(choices)]
}

/// Takes a host's request, with the frame that its page has, or with a free one. After want of
/// memory all is as it was.
pub fn pick<S: Site, C: Choose>(
    core: &mut Core<S, C>,
    recorder: RecorderNo,
    host: HostNo,
    frame: FrameNo,
) -> WorkAnswer
    requires rule { work_rule core.old recorder ≡ Picks host frame }
    requires fits { recorder < core.old.config.recorders }
    ensures event { WorkStep S.Site C.Choose core.old recorder (Picks host frame) result core.new }
    ensures chooser { core.new.chooser ≡ core.old.chooser }
    ensures site { core.new.site ≡ core.old.site }
{
    if core.session.reserve().is_err() {
        return WorkAnswer::Memory;
    }
    let task = Task {
        host,
        frame,
        victim: None,
        touched: false,
        transfer: None,
    };
    begin_task(
        &mut core.frames,
        &mut core.requests,
        &mut core.tasks,
        recorder,
        task,
    );
    tell_work(&mut core.session, recorder, WorkKind::Pick)
}

/// Takes a host's request, with the frame that the chooser takes from another page. After want of
/// memory all is as it was.
pub fn pick_victim<S: Site, C: Choose>(
    core: &mut Core<S, C>,
    recorder: RecorderNo,
    host: HostNo,
) -> WorkAnswer
    requires rule { work_rule core.old recorder ≡ PicksVictim host }
    requires fits { recorder < core.old.config.recorders }
    ensures event { WorkStep S.Site C.Choose core.old recorder (PicksVictim host) result core.new }
    ensures chooser { core.new.chooser ≡ core.old.chooser }
    ensures site { core.new.site ≡ core.old.site }
{
    let Ok(choices) = candidates(core) else {
        return WorkAnswer::Memory;
    };
    if core.session.reserve().is_err() {
        return WorkAnswer::Memory;
    }
    let choice = choose_among(&core.chooser, choices.as_slice());
    let task = Task {
        host,
        frame: choice.frame,
        victim: Some((choice.volume, choice.page)),
        touched: false,
        transfer: None,
    };
    begin_task(
        &mut core.frames,
        &mut core.requests,
        &mut core.tasks,
        recorder,
        task,
    );
    tell_work(&mut core.session, recorder, WorkKind::Pick)
}

/// Gives up a task whose victim a host used, and its request waits again. After want of memory all
/// is as it was.
pub fn abandon<S: Site, C: Choose>(core: &mut Core<S, C>, recorder: RecorderNo) -> WorkAnswer
    requires rule { work_rule core.old recorder ≡ Abandons }
    requires fits { recorder < core.old.config.recorders }
    ensures event { WorkStep S.Site C.Choose core.old recorder Abandons result core.new }
    ensures chooser { core.new.chooser ≡ core.old.chooser }
    ensures site { core.new.site ≡ core.old.site }
{
    let (task, _request) = task_and_request(core, recorder);
    if core.session.reserve().is_err() {
        return WorkAnswer::Memory;
    }
    let queued = RequestState::Queued;
    end_task(
        &mut core.frames,
        &mut core.requests,
        &mut core.tasks,
        recorder,
        &task,
        queued,
    );
    tell_work(&mut core.session, recorder, WorkKind::Abandon)
}
