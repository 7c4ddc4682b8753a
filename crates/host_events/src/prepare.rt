// The memory that an event which writes takes before it changes anything.
ghost use Rattle.std.specs.Prelude.{◌≡◌, ◌≤◌, IfOk, OnOk};
ghost use Rattle.channel_commands.specs.Views.{call_of};
ghost use Rattle.core_state.specs.MakingRoom.{Reserves};
ghost use Rattle.core_state.specs.Sessions.{session_data};

use crate::copies::copy_of_call;
use channel_commands::Call;
use core_state::{Session, make_room};
use mss_base::{NoMemory, Site};

/// A copy of a call, with room for what its event tells and for so many writes. After want of
/// memory all but the room is as it was.
pub fn prepare<S: Site>(
    session: &mut Session,
    site: &mut S,
    call: &Call,
    writes: u32,
) -> Result<Call, NoMemory>
    ensures copy { IfOk result (λ copy. call_of copy ≡ call_of call.now) }
    ensures session { session_data session.new ≡ session_data session.old }
    ensures room { OnOk result (1 ≤ session.new.history.spare) }
    ensures room_marks { OnOk result (1 ≤ session.new.marks.spare) }
    ensures room_console { OnOk result (1 ≤ session.new.console.spare) }
    ensures room_events { OnOk result (1 ≤ session.new.events.spare) }
    ensures room_site { OnOk result (writes ≤ S.spare site.new) }
    ensures site { Reserves S.Site site.old site.new }
{
    let copy = copy_of_call(call)?;
    make_room(session, site, writes)?;
    Ok(copy)
}
