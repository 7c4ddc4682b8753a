// Steps on the parts of a core that several events make.
ghost use Rattle.std.specs.Prelude.{◌≡◌, ◌≤◌, ◌<◌, IsSome, None, length, slice_set, false};
ghost use Rattle.core_state.specs.SessionData.{with_last_event};
ghost use Rattle.core_state.specs.Working.{Serves};
ghost use Rattle.core_state.specs.declared.rule.WorkAnswer.TheVariants.{Did, Stopped};
ghost use Rattle.core_state.specs.declared.session.Event.TheVariants.{Work};
ghost use Rattle.core_state.specs.Sessions.{session_data};
ghost use Rattle.fault_queue.specs.Requests.{request_of, with_state};
ghost use Rattle.fault_queue.specs.declared.queue.RequestState.TheVariants as state;
ghost use Rattle.staging_adapter.specs.Frames.{IsFrame, with_moving};
ghost use Rattle.work_events.specs.Served.{IsServing};
ghost use Rattle.mss_base.specs.Geometry.{volume_cylinders};

use core_state::{Core, Event, Session, Task, WorkAnswer, WorkKind};
use fault_queue::{Queue, Request, RequestState};
use mss_base::{RecorderNo, Site};
use staging_adapter::Frames;
use victim_choice::Choose;

/// The task of a recorder that has one, and its host's request.
pub fn task_and_request<S: Site, C: Choose>(
    core: &Core<S, C>,
    recorder: RecorderNo,
) -> (Task, Request)
    requires { IsServing core.now recorder }
    ensures serves { Serves core.now recorder result.0 result.1 }
    ensures low { result.1.cylinder < volume_cylinders }
    ensures known { result.0.frame < 200 }
{
    let Some(task) = core.task(recorder) else {
        unreachable!()
    };
    let Some(request) = core.request(task.host) else {
        unreachable!()
    };
    // These looks tell that the cylinder is one of 404, and the frame one of 200.
    let _cylinder = request.cylinder.get();
    let _frame = task.frame.get();
    (*task, request)
}

/// Puts a recorder's task, or none.
pub fn put_task(tasks: &mut Vec<Option<Task>>, recorder: RecorderNo, task: Option<Task>)
    requires { recorder < length tasks.old.items }
    ensures { tasks.new.items ≡ slice_set tasks.old.items recorder task }
{
    tasks[usize::from(recorder.get())] = task;
}

/// Ends a recorder's task: its frame moves no more, and its host's request is in this state.
pub fn end_task(
    frames: &mut Frames,
    requests: &mut Queue,
    tasks: &mut Vec<Option<Task>>,
    recorder: RecorderNo,
    task: &Task,
    state: RequestState,
)
    requires frame { IsFrame frames.old task.now.frame }
    requires asked { IsSome (request_of requests.old task.now.host) }
    requires fits { recorder < length tasks.old.items }
    ensures frames { frames.new ≡ with_moving task.now.frame false frames.old }
    ensures requests { requests.new ≡ with_state task.now.host state requests.old }
    ensures tasks { tasks.new.items ≡ slice_set tasks.old.items recorder None }
{
    frames.set_moving(task.frame, false);
    requests.set(task.host, state);
    put_task(tasks, recorder, None);
}

/// Tells an event of a recorder, which did this.
pub fn tell_work(session: &mut Session, recorder: RecorderNo, what: WorkKind) -> WorkAnswer
    requires { 1 ≤ session.old.events.spare }
    ensures told { session_data session.new ≡
        with_last_event (Work recorder) (session_data session.old) }
    ensures answer { result ≡ Did what }
{
    session.note(Event::Work(recorder));
    WorkAnswer::Did(what)
}

/// Tells an event of a recorder in which a write failed, behind which the count of faults was this.
pub fn tell_stop(session: &mut Session, recorder: RecorderNo, fault: u64) -> WorkAnswer
    requires { 1 ≤ session.old.events.spare }
    ensures told { session_data session.new ≡
        with_last_event (Work recorder) (session_data session.old) }
    ensures answer { result ≡ Stopped fault }
{
    session.note(Event::Work(recorder));
    WorkAnswer::Stopped { fault }
}

/// A task of which a call failed, the count of faults behind that call, and what the event tells that it did.
#[derive(Clone, Copy)]
pub struct Failing {
    pub recorder: RecorderNo,
    pub task: Task,
    pub fault: u64,
    pub what: WorkKind,
}

/// Ends a task of which a call failed: its request has failed, with the count of faults.
pub fn end_failed(
    frames: &mut Frames,
    requests: &mut Queue,
    tasks: &mut Vec<Option<Task>>,
    session: &mut Session,
    failing: &Failing,
) -> WorkAnswer
    requires frame { IsFrame frames.old failing.now.task.frame }
    requires asked { IsSome (request_of requests.old failing.now.task.host) }
    requires fits { failing.now.recorder < length tasks.old.items }
    requires room { 1 ≤ session.old.events.spare }
    ensures frames { frames.new ≡ with_moving failing.now.task.frame false frames.old }
    ensures requests { requests.new
        ≡ with_state failing.now.task.host (state.Failed failing.now.fault) requests.old }
    ensures tasks { tasks.new.items ≡ slice_set tasks.old.items failing.now.recorder None }
    ensures told { session_data session.new ≡
        with_last_event (Work failing.now.recorder) (session_data session.old) }
    ensures answer { result ≡ Did failing.now.what }
{
    let failed = RequestState::Failed {
        fault: failing.fault,
    };
    end_task(
        frames,
        requests,
        tasks,
        failing.recorder,
        &failing.task,
        failed,
    );
    tell_work(session, failing.recorder, failing.what)
}
