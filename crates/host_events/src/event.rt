// A host's event.
ghost use Rattle.std.specs.Prelude.{◌≡◌, ◌≤◌, ℕ, Bool, false, None};
ghost use Rattle.mss_base.specs.Places.{frame_block};
ghost use Rattle.mss_base.specs.Sites.{MayWrite};
ghost use Rattle.mss_base.specs.declared.place.UnitNo.{UnitNo};
ghost use Rattle.channel_commands.specs.Views.{call_of};
ghost use Rattle.channel_commands.specs.declared.command.Command.{Command};
ghost use Rattle.core_state.specs.CoreValue.{seen_core};
ghost use Rattle.core_state.specs.HostEvents.{HostEvent};
ghost use Rattle.core_state.specs.HostRules.{host_rule};
ghost use Rattle.core_state.specs.Pins.{host_at};
ghost use Rattle.core_state.specs.declared.rule.HostRule.TheVariants.{Runs};
ghost use Rattle.host_events.specs.Answers.{told_of};
ghost use Rattle.host_events.specs.Parts.{GoesOn, IsUnfailed, IsUntold};

use crate::answer::HostAnswer;
use crate::exception::{fail, refuse_space};
use crate::mark::mark;
use crate::respond::reply_plainly;
use crate::rule::host_rule;
use crate::run::run_on_frame;
use crate::wait::{ask, hold};
use channel_commands::Call;
use core_state::{Core, HostRule, Waiting};
use mss_base::{HostNo, Site};
use table_pair::CHANGE_ITEMS;
use victim_choice::Choose;

/// How many items of the log a host's event makes at most: those of a change of a row. A format makes fewer.
pub const EVENT_ITEMS: u32 = CHANGE_ITEMS;

/// Does what the first rule that a host's call meets says, and answers the host.
///
/// Its memory comes first: after `Memory` all is as it was, but that the site may have more room.
/// After `Wait` and `Marked` the call is to be made again; a wait changes nothing but the host's
/// request. `Replied` and a `Stopped` of this event put one entry last. Where no call of the site
/// fails but reads, no event stops the core; where the host's track can be read, its command isn't
/// an equipment check.
pub fn host_event<S: Site, C: Choose>(
    core: &mut Core<S, C>,
    host: HostNo,
    call: &Call,
) -> HostAnswer
    ensures event { HostEvent S.tells (seen_core S.Site core.old) host
        (call_of call.now) (told_of result) (seen_core S.Site core.new) }
    ensures chooser { core.new.chooser ≡ core.old.chooser }
    ensures devices { MayWrite S.Site EVENT_ITEMS core.old.site core.new.site }
    ensures room { IsUntold (told_of result) → S.spare core.old.site ≤ S.spare core.new.site }
    ensures only_reads_fail { (but : UnitNo → Bool) → S.never_fails_but core.old.site but
        → core.old.stopped ≡ None → GoesOn (told_of result) }
    ensures works { (but : UnitNo → Bool) (c : Command) (volume frame : ℕ)
        → S.never_fails_but core.old.site but
        → host_rule core.old host (call_of call.now) ≡ Runs c volume frame
        → but (frame_block frame (host_at core.old.hosts host).cylinder 0).unit ≡ false
        → IsUnfailed (told_of result) }
{
    match host_rule(core, host, call) {
        HostRule::IsStopped { fault } => HostAnswer::Stopped { fault },
        HostRule::IsFull => HostAnswer::CommandLimit,
        HostRule::IsBusy { owner } => HostAnswer::Wait(Waiting::Busy { owner }),
        HostRule::IsMoving { cylinder } => HostAnswer::Wait(Waiting::Fault { cylinder }),
        HostRule::IsHeld { frame } => hold(core, host, frame),
        HostRule::Responds => reply_plainly(core, host, call),
        HostRule::HasFailed { fault } => fail(core, host, call, fault),
        HostRule::HasNoSpace => refuse_space(core, host, call),
        HostRule::Faults { volume, cylinder } => ask(core, host, volume, cylinder),
        HostRule::Marks { volume, cylinder } => mark(core, host, call, volume, cylinder),
        HostRule::Runs {
            command,
            volume,
            frame,
        } => run_on_frame(core, host, call, &command, volume, frame),
    }
}
