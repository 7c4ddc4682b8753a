// The event that ends a transfer, all of whose tracks are copied.
ghost use Rattle.std.specs.Prelude.{◌≡◌, ◌≤◌, ◌<◌, Bool, IsOk, IsSome, OnErr, OnOk, length};
ghost use Rattle.mss_base.specs.Sites.{MayWrite};
ghost use Rattle.mss_base.specs.declared.place.UnitNo.{UnitNo};
ghost use Rattle.transfers.specs.Copies.{target_unit};
ghost use Rattle.transfers.specs.Dues.{change_of};
ghost use Rattle.core_state.specs.CoreValue.{seen_site};
ghost use Rattle.core_state.specs.Devices.{FailSync, SyncUnit};
ghost use Rattle.core_state.specs.WorkRules.{work_rule};
ghost use Rattle.core_state.specs.declared.rule.WorkRule.TheVariants.{Ends};
ghost use Rattle.fault_queue.specs.Requests.{request_of};
ghost use Rattle.staging_adapter.specs.Frames.{IsFrame};
ghost use Rattle.work_events.specs.Leaving.{left_by};
ghost use Rattle.work_events.specs.Steps.{FailsNone, IsUntold, WorkStep};

use crate::parts::{
    Failing, end_failed, end_task, put_task, task_and_request, tell_stop, tell_work,
};
use core_state::{Core, Task, WorkAnswer, WorkKind, make_room, write_change};
use fault_queue::{Queue, RequestState};
use mss_base::{Failed, RecorderNo, Site};
use staging_adapter::Frames;
use table_pair::CHANGE_ITEMS;
use transfers::{Transfer, TransferKind};
use victim_choice::Choose;
use volume_table::Change;

/// How many writes and syncs the end of a transfer makes at most: the sync of its copies, and the change of the row.
pub const END_ITEMS: u32 = 1 + CHANGE_ITEMS;

/// Makes the tracks firm that a transfer copied.
fn sync_copies<S: Site>(site: &mut S, transfer: &Transfer) -> Result<(), Failed>
    requires room { 1 ≤ S.spare site.old }
    ensures firm { OnOk result (SyncUnit S.tells (target_unit transfer.now)
        (seen_site S.Site site.old) (seen_site S.Site site.new)) }
    ensures loose { OnErr result
        (FailSync S.tells (seen_site S.Site site.old) (seen_site S.Site site.new)) }
    ensures devices { MayWrite S.Site 1 site.old site.new }
    ensures works { (but : UnitNo → Bool) → S.never_fails_but site.old but → IsOk result }
{
    site.sync(transfer.unit())
}

/// How the row of its volume tells that a transfer is at its end: the victim's cylinder is destaged, or the
/// asked one is staged.
fn change_of(transfer: &Transfer) -> Change
    ensures { result ≡ change_of transfer.now }
{
    let cylinder = transfer.cylinder;
    match transfer.kind {
        TransferKind::StageBlank | TransferKind::StageCartridge => Change::Staged { cylinder },
        TransferKind::Destage => Change::Destaged { cylinder },
    }
}

/// Leaves a task whose transfer is in its row. Behind a victim's cylinder it goes on without its transfer;
/// behind the asked one it ends, and its request is ready.
fn leave_task(
    frames: &mut Frames,
    requests: &mut Queue,
    tasks: &mut Vec<Option<Task>>,
    recorder: RecorderNo,
    task: &Task,
    kind: TransferKind,
)
    requires frame { IsFrame frames.old task.now.frame }
    requires asked { IsSome (request_of requests.old task.now.host) }
    requires fits { recorder < length tasks.old.items }
    ensures { left_by kind recorder task.now
        (record { frames = frames.old; requests = requests.old; tasks = tasks.old.items })
        ≡ record { frames = frames.new; requests = requests.new; tasks = tasks.new.items } }
{
    match kind {
        TransferKind::StageBlank | TransferKind::StageCartridge => {
            let ready = RequestState::Ready;
            end_task(frames, requests, tasks, recorder, task, ready)
        }
        TransferKind::Destage => {
            let goes_on = Task {
                transfer: None,
                ..*task
            };
            put_task(tasks, recorder, Some(goes_on))
        }
    }
}

/// Ends a transfer in the row of its volume, with a message, behind a sync of the unit that was copied
/// to. Where that sync fails, and only there, the row stays, the task ends, and its request has failed
/// with the count of faults. Only where the row isn't written the core is stopped; after want of memory
/// all is as it was.
pub fn end<S: Site, C: Choose>(
    core: &mut Core<S, C>,
    recorder: RecorderNo,
    transfer: Transfer,
) -> WorkAnswer
    requires rule { work_rule core.old recorder ≡ Ends transfer }
    requires fits { recorder < core.old.config.recorders }
    ensures event { WorkStep S.Site C.Choose core.old recorder (Ends transfer) result core.new }
    ensures chooser { core.new.chooser ≡ core.old.chooser }
    ensures devices { MayWrite S.Site END_ITEMS core.old.site core.new.site }
    ensures room { IsUntold result → S.spare core.old.site ≤ S.spare core.new.site }
    ensures works { (but : UnitNo → Bool) → S.never_fails_but core.old.site but
        → core.new.stopped ≡ core.old.stopped }
    ensures none_fails { (but : UnitNo → Bool) → S.never_fails_but core.old.site but
        → FailsNone core.old.requests core.new.requests }
{
    let (task, _request) = task_and_request(core, recorder);
    if make_room(&mut core.session, &mut core.site, END_ITEMS).is_err() {
        return WorkAnswer::Memory;
    }
    if sync_copies(&mut core.site, &transfer).is_err() {
        let fault = core.site.faults();
        let failing = Failing {
            recorder,
            task,
            fault,
            what: WorkKind::End,
        };
        return end_failed(
            &mut core.frames,
            &mut core.requests,
            &mut core.tasks,
            &mut core.session,
            &failing,
        );
    }
    let volume = transfer.volume;
    let change = change_of(&transfer);
    match write_change(
        &mut core.site,
        &mut core.rows,
        &mut core.used,
        &mut core.session,
        volume,
        &change,
    ) {
        Ok(()) => {
            leave_task(
                &mut core.frames,
                &mut core.requests,
                &mut core.tasks,
                recorder,
                &task,
                transfer.kind,
            );
            tell_work(&mut core.session, recorder, WorkKind::End)
        }
        Err(_) => tell_stop(&mut core.session, recorder, core.site.faults()),
    }
}
