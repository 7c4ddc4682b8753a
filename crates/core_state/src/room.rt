// The room that an event makes before it changes anything.
ghost use Rattle.std.specs.Prelude.{◌≡◌, ◌≤◌, OnOk};
ghost use Rattle.core_state.specs.MakingRoom.{Reserves};
ghost use Rattle.core_state.specs.Sessions.{session_data};

use crate::session::Session;
use mss_base::{NoMemory, Site};

/// Makes room for what one event tells, and for so many writes. After want of memory all but the
/// room is as it was.
pub fn make_room<S: Site>(session: &mut Session, site: &mut S, writes: u32) -> Result<(), NoMemory>
    ensures session { session_data session.new ≡ session_data session.old }
    ensures site { Reserves S.Site site.old site.new }
    ensures room { OnOk result (1 ≤ session.new.history.spare) }
    ensures room_marks { OnOk result (1 ≤ session.new.marks.spare) }
    ensures room_console { OnOk result (1 ≤ session.new.console.spare) }
    ensures room_events { OnOk result (1 ≤ session.new.events.spare) }
    ensures room_site { OnOk result (writes ≤ S.spare site.new) }
{
    session.reserve()?;
    site.reserve(writes)
}
