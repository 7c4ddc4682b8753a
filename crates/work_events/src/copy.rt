// The event that copies a track.
ghost use Rattle.std.specs.Prelude.{◌≡◌, ◌⊎◌, ◌≤◌, ◌<◌, Bool};
ghost use Rattle.mss_base.specs.Sites.{MayWrite};
ghost use Rattle.mss_base.specs.declared.place.UnitNo.{UnitNo};
ghost use Rattle.transfers.specs.Copies.{IsReadable};
ghost use Rattle.core_state.specs.CoreValue.{seen_core};
ghost use Rattle.core_state.specs.Devices.{FailRead};
ghost use Rattle.core_state.specs.WorkRules.{work_rule};
ghost use Rattle.core_state.specs.declared.rule.WorkRule.TheVariants.{Copies};
ghost use Rattle.work_events.specs.Steps.{IsUntold, WorkStep};

use crate::parts::{Failing, end_failed, put_task, task_and_request, tell_work};
use core_state::{Core, Task, WorkAnswer, WorkKind, make_room};
use mss_base::{RecorderNo, Site};
use transfers::{Transfer, copy_track};
use victim_choice::Choose;

/// Copies the next track of a transfer. Only where a read or a write fails, the task ends, and its
/// request has failed with the count of faults. After want of memory all is as it was.
pub fn copy<S: Site, C: Choose>(
    core: &mut Core<S, C>,
    recorder: RecorderNo,
    transfer: Transfer,
) -> WorkAnswer
    requires rule { work_rule core.old recorder ≡ Copies transfer }
    requires fits { recorder < core.old.config.recorders }
    ensures event { WorkStep S.Site C.Choose core.old recorder (Copies transfer) result core.new }
    ensures chooser { core.new.chooser ≡ core.old.chooser }
    ensures devices { MayWrite S.Site 1 core.old.site core.new.site }
    ensures room { IsUntold result → S.spare core.old.site ≤ S.spare core.new.site }
    ensures works { (but : UnitNo → Bool) → S.never_fails_but core.old.site but
        → IsReadable but transfer → core.new.requests ≡ core.old.requests }
    ensures unread { (but : UnitNo → Bool) → S.never_fails_but core.old.site but
        → (core.new.requests ≡ core.old.requests)
        ⊎ FailRead S.tells (seen_core S.Site core.old).site
        (seen_core S.Site core.new).site }
{
    let (task, _request) = task_and_request(core, recorder);
    if make_room(&mut core.session, &mut core.site, 1).is_err() {
        return WorkAnswer::Memory;
    }
    let mut next = transfer;
    match copy_track(&mut core.site, &mut next, core.buffer.as_mut_slice()) {
        Ok(()) => {
            let goes_on = Task {
                transfer: Some(next),
                ..task
            };
            put_task(&mut core.tasks, recorder, Some(goes_on));
            tell_work(&mut core.session, recorder, WorkKind::Copy)
        }
        Err(_) => {
            let fault = core.site.faults();
            let failing = Failing {
                recorder,
                task,
                fault,
                what: WorkKind::Copy,
            };
            end_failed(
                &mut core.frames,
                &mut core.requests,
                &mut core.tasks,
                &mut core.session,
                &failing,
            )
        }
    }
}
