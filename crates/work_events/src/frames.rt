// The events by which a frame goes from one page to another.
ghost use Rattle.std.specs.Prelude.{◌≡◌, ◌≤◌, ◌<◌, Bool, length, Some};
ghost use Rattle.mss_base.specs.Sites.{MayWrite};
ghost use Rattle.mss_base.specs.declared.place.UnitNo.{UnitNo};
ghost use Rattle.staging_adapter.specs.Frames.{IsFrame, with_owner};
ghost use Rattle.victim_choice.specs.Order.{order_after};
ghost use Rattle.core_state.specs.WorkRules.{work_rule};
ghost use Rattle.core_state.specs.declared.rule.WorkRule.TheVariants.{Assigns, Frees};
ghost use Rattle.work_events.specs.Steps.{IsUntold, WorkStep};

use crate::parts::{put_task, task_and_request, tell_stop, tell_work};
use core_state::{Core, Task, WorkAnswer, WorkKind, make_room, write_change};
use mss_base::{FrameNo, Page, RecorderNo, Site, VolumeNo};
use staging_adapter::Frames;
use table_pair::CHANGE_ITEMS;
use victim_choice::{Choose, Recency};
use volume_table::Change;

/// Gives a frame to a page, and makes it the most recently touched.
fn give_frame(
    frames: &mut Frames,
    recency: &mut Recency,
    frame: FrameNo,
    volume: VolumeNo,
    page: Page,
)
    requires known { IsFrame frames.old frame }
    requires ordered { frame < length recency.old }
    ensures frames { frames.new ≡ with_owner frame (Some (volume, page)) frames.old }
    ensures recency { recency.new ≡ order_after frame recency.old }
{
    frames.set_owner(frame, Some((volume, page)));
    recency.touch(frame);
}

/// Takes the frame from the victim's page, with a message. Only where a write fails the core is
/// stopped; after want of memory all is as it was.
pub fn free<S: Site, C: Choose>(
    core: &mut Core<S, C>,
    recorder: RecorderNo,
    volume: VolumeNo,
    page: Page,
) -> WorkAnswer
    requires rule { work_rule core.old recorder ≡ Frees volume page }
    requires fits { recorder < core.old.config.recorders }
    ensures event { WorkStep S.Site C.Choose core.old recorder (Frees volume page) result core.new }
    ensures chooser { core.new.chooser ≡ core.old.chooser }
    ensures devices { MayWrite S.Site CHANGE_ITEMS core.old.site core.new.site }
    ensures room { IsUntold result → S.spare core.old.site ≤ S.spare core.new.site }
    ensures works { (but : UnitNo → Bool) → S.never_fails_but core.old.site but
        → core.new.stopped ≡ core.old.stopped }
{
    let (task, _request) = task_and_request(core, recorder);
    if make_room(&mut core.session, &mut core.site, CHANGE_ITEMS).is_err() {
        return WorkAnswer::Memory;
    }
    let change = Change::Free { page };
    match write_change(
        &mut core.site,
        &mut core.rows,
        &mut core.used,
        &mut core.session,
        volume,
        &change,
    ) {
        Ok(()) => {
            let goes_on = Task {
                victim: None,
                ..task
            };
            core.frames.set_owner(task.frame, None);
            put_task(&mut core.tasks, recorder, Some(goes_on));
            tell_work(&mut core.session, recorder, WorkKind::Free)
        }
        Err(_) => tell_stop(&mut core.session, recorder, core.site.faults()),
    }
}

/// Gives the task's frame to the page that is asked for, with a message, and the frame is the most
/// recently touched. Only where a write fails the core is stopped; after want of memory all is as
/// it was.
pub fn assign<S: Site, C: Choose>(
    core: &mut Core<S, C>,
    recorder: RecorderNo,
    volume: VolumeNo,
    page: Page,
) -> WorkAnswer
    requires rule { work_rule core.old recorder ≡ Assigns volume page }
    requires fits { recorder < core.old.config.recorders }
    ensures event { WorkStep S.Site C.Choose core.old recorder
        (Assigns volume page) result core.new }
    ensures chooser { core.new.chooser ≡ core.old.chooser }
    ensures devices { MayWrite S.Site CHANGE_ITEMS core.old.site core.new.site }
    ensures room { IsUntold result → S.spare core.old.site ≤ S.spare core.new.site }
    ensures works { (but : UnitNo → Bool) → S.never_fails_but core.old.site but
        → core.new.stopped ≡ core.old.stopped }
{
    let (task, _request) = task_and_request(core, recorder);
    if make_room(&mut core.session, &mut core.site, CHANGE_ITEMS).is_err() {
        return WorkAnswer::Memory;
    }
    let frame = task.frame;
    let change = Change::Assign { page, frame };
    match write_change(
        &mut core.site,
        &mut core.rows,
        &mut core.used,
        &mut core.session,
        volume,
        &change,
    ) {
        Ok(()) => {
            give_frame(&mut core.frames, &mut core.recency, frame, volume, page);
            tell_work(&mut core.session, recorder, WorkKind::Assign)
        }
        Err(_) => tell_stop(&mut core.session, recorder, core.site.faults()),
    }
}
