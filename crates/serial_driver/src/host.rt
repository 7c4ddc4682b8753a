// A host's turn: its next call is made, and behind a reply its script goes on.
ghost use Rattle.std.specs.Prelude.{◌≡◌, ℕ, Bool, Some, None, map, length, slice_get};
ghost use Rattle.mss_base.specs.Sites.{MayWrite};
ghost use Rattle.mss_base.specs.declared.place.UnitNo.{UnitNo};
ghost use Rattle.channel_commands.specs.Data.{CallData};
ghost use Rattle.channel_commands.specs.Views.{call_of};
ghost use Rattle.core_state.specs.CoreValue.{seen_core};
ghost use Rattle.host_events.specs.Answers.{told_of};
ghost use Rattle.job_text.specs.Views.{item_of};
ghost use Rattle.serial_driver.specs.Answers.{of_host, IsUnstopped};
ghost use Rattle.serial_driver.specs.Drives.{HostTakes, terms_by};
ghost use Rattle.script_places.specs.Places.{StandsAt, IsPlace};
ghost use Rattle.script_places.specs.Scripts.{Left, left_behind, next_of};
ghost use Rattle.volume_copy.specs.Beside.{asked_copy};

use crate::answer::DriveAnswer;
use channel_commands::Call;
use ckd_plain::Entry;
use host_events::{EVENT_ITEMS, HostAnswer, refused};
use job_text::{HostScript, Item};
use mss_base::{HostNo, Site};
use script_places::{Place, due_call, pass};
use victim_choice::Choose;
use volume_copy::CopiedCore;

/// How a host's event ended.
fn answer_of(told: &HostAnswer) -> DriveAnswer
    ensures { result ≡ of_host (told_of told.now) }
{
    match told {
        HostAnswer::Replied { .. } => DriveAnswer::Done,
        HostAnswer::Marked => DriveAnswer::Done,
        HostAnswer::Wait(_) => DriveAnswer::Done,
        HostAnswer::Stopped { fault } => DriveAnswer::Stopped { fault: *fault },
        HostAnswer::CommandLimit => DriveAnswer::CommandLimit,
        HostAnswer::Memory => DriveAnswer::Memory,
    }
}

/// Moves a place behind the entry with a number. Where there is none, its call waits there.
#[inline(always)]
fn move_on(items: &[Item], place: &mut Place, call: Call, history: &[Entry], number: usize)
    ensures { (left : Left) → StandsAt (map item_of items.now) left place.old
        → next_of left.items left.at ≡ Some (call_of call)
        → StandsAt (map item_of items.now) (left_behind left (slice_get history.now number))
        place.new }
{
    let Some(entry) = history.get(number) else {
        place.call = Some(call);
        return;
    };
    pass(items, place, &entry.reply);
}

/// Makes a call. Behind a reply the place in the script goes on, and else the call waits there.
fn make_call<S: Site, C: Choose>(
    session: &mut CopiedCore<S, C>,
    host: HostNo,
    call: Call,
    items: &[Item],
    place: &mut Place,
) -> DriveAnswer
    ensures event { HostTakes (terms_by S.Site C.may session.old.core.chooser session.old.copier)
        host (Some (call_of call)) (seen_core S.Site session.old.core) result
        (seen_core S.Site session.new.core) }
    ensures place { (left : Left) → StandsAt (map item_of items.now) left place.old
        → next_of left.items left.at ≡ Some (call_of call)
        → StandsAt (map item_of items.now)
        (left_behind left (slice_get session.new.core.history (length session.old.core.history)))
        place.new }
    ensures copier { asked_copy session.new.copier ≡ asked_copy session.old.copier }
    ensures chooser { session.new.core.chooser ≡ session.old.core.chooser }
    ensures devices { MayWrite S.Site EVENT_ITEMS session.old.core.site session.new.core.site }
    ensures only_reads_fail { (but : UnitNo → Bool) → S.never_fails_but session.old.core.site but
        → session.old.core.stopped ≡ None → IsUnstopped result }
{
    let number = session.core().history().as_slice().len();
    let answer = answer_of(&session.host_event(host, &call));
    move_on(
        items,
        place,
        call,
        session.core().history().as_slice(),
        number,
    );
    answer
}

/// What the call of a host is answered for which memory is wanting.
fn refuse<S: Site, C: Choose>(session: &CopiedCore<S, C>) -> DriveAnswer
    ensures event { (h : ℕ) (call : CallData)
        → HostTakes (terms_by S.Site C.may session.now.core.chooser session.now.copier)
        h (Some call) (seen_core S.Site session.now.core) result
        (seen_core S.Site session.now.core) }
    ensures only_reads_fail { session.now.core.stopped ≡ None → IsUnstopped result }
{
    answer_of(&refused(session.core()))
}

/// Tries a host's next call, if it has one, and behind its reply goes on in its script.
pub fn call_host<S: Site, C: Choose>(
    session: &mut CopiedCore<S, C>,
    script: &HostScript,
    place: &mut Place,
) -> DriveAnswer
    requires stands { IsPlace script.now.items place.old }
    ensures event { (left : Left) → StandsAt script.now.items left place.old
        → HostTakes (terms_by S.Site C.may session.old.core.chooser session.old.copier)
        script.now.host (next_of left.items left.at)
        (seen_core S.Site session.old.core) result (seen_core S.Site session.new.core) }
    ensures place { (left : Left) → StandsAt script.now.items left place.old
        → StandsAt script.now.items
        (left_behind left (slice_get session.new.core.history (length session.old.core.history)))
        place.new }
    ensures copier { asked_copy session.new.copier ≡ asked_copy session.old.copier }
    ensures chooser { session.new.core.chooser ≡ session.old.core.chooser }
    ensures devices { MayWrite S.Site EVENT_ITEMS session.old.core.site session.new.core.site }
    ensures only_reads_fail { (but : UnitNo → Bool) → S.never_fails_but session.old.core.site but
        → session.old.core.stopped ≡ None → IsUnstopped result }
{
    let items = script.items.as_slice();
    match due_call(items, place) {
        Ok(Some(call)) => make_call(session, script.host, call, items, place),
        Ok(None) => DriveAnswer::Done,
        Err(_) => refuse(session),
    }
}
