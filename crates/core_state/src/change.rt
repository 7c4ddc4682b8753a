// A change of a row: in the list of rows, in both copies, and on the console.
ghost use Rattle.std.specs.Prelude.{◌≡◌, ◌≤◌, ◌+◌, length};
ghost use Rattle.std.specs.Option.{ForSome};
ghost use Rattle.mss_base.specs.Content.{content};
ghost use Rattle.mss_base.specs.Sites.{WritesAtMost};
ghost use Rattle.volume_table.specs.Changes.{IsAllowed, effect};
ghost use Rattle.volume_table.specs.Listed.{HasRow, row_in_list, with_changed};
ghost use Rattle.table_pair.specs.Slots.{change_items, used_after, used_at};
ghost use Rattle.core_state.specs.Rows.{CountsSlots, HaveListed, TellsChange, WritesRow};
ghost use Rattle.core_state.specs.Agrees.{freed_by, message_of};

use crate::session::Session;
use mss_base::{Failed, FrameNo, Site, VolumeNo};
use shown_volumes::frame_in;
use table_pair::{CHANGE_ITEMS, SlotsUsedList, change_row};
use volume_table::{Change, Rows};

/// The frame that a page gives back by a change of its volume's row.
fn freed_by(rows: &Rows, volume: VolumeNo, change: &Change) -> Option<FrameNo>
    ensures { result ≡ freed_by (row_in_list rows.now) volume change.now }
{
    match change {
        Change::Free { page } => frame_in(rows, volume, *page),
        _ => None,
    }
}

/// Changes the row of a volume: in the list, in both copies, and with its message, whose mark is
/// the count of writes then. `used` tells how many slots of the copies are in use.
///
/// A copy gets a slot more, or is rewritten where none is free. It takes no memory. Where a write
/// or a sync fails the session stops, and tells no message; the copies hold the old row or the new
/// one, and the list has the new one. The rest of the session stays, with its room.
pub fn write_change<S: Site>(
    site: &mut S,
    rows: &mut Rows,
    used: &mut SlotsUsedList,
    session: &mut Session,
    volume: VolumeNo,
    change: &Change,
) -> Result<(), Failed>
    requires there { HasRow rows.old volume (λ r. IsAllowed change.now r) }
    requires places { length used.old.items ≡ 32 }
    requires held { S.tells →
        HaveListed rows.old used.old.items volume (content (S.told site.old)) }
    requires room { CHANGE_ITEMS ≤ S.spare site.old }
    requires room_console { 1 ≤ session.old.console.spare }

    ensures rows { rows.new ≡ with_changed volume change.now rows.old }
    ensures used { CountsSlots volume used.old.items used.new.items result }
    ensures session { TellsChange
        (message_of (S.writes site.new) volume change.now (row_in_list rows.old))
        (S.faults site.new) session.old session.new result }
    ensures copies { S.tells → ForSome (row_in_list rows.old volume)
        (λ r. WritesRow volume (effect change.now r) (used_after (used_at used.old.items volume))
        (S.told site.old) (S.told site.new) result) }
    ensures few { S.tells → length (S.told site.new).log
        ≤ length (S.told site.old).log + change_items (used_at used.old.items volume) }
    ensures site_ { WritesAtMost S.Site CHANGE_ITEMS site.old site.new result }
{
    let freed = freed_by(rows, volume, change);
    rows.change(volume, change);
    let Some(row) = rows.row(volume) else {
        unreachable!()
    };
    let place = usize::from(volume.get());
    match change_row(site, volume, row, change, used.as_slice()[place]) {
        Ok(now) => used.set(place, now),
        Err(Failed) => {
            session.stopped = Some(site.faults());
            return Err(Failed);
        }
    }
    session.tell(site.writes(), volume, change, freed);
    Ok(())
}
