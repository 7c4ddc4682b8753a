//! What each event of a session leaves of a copy. A function calls a law to have it in its proof.
ghost use Rattle.std.specs.Prelude.{◌≡◌, ℕ, List, take, None};
ghost use Rattle.mss_base.specs.Content.{content};
ghost use Rattle.ckd_plain.specs.Data.{State};
ghost use Rattle.ckd_plain.specs.History.{EntryData, after};
ghost use Rattle.shown_volumes.specs.Shown.{volumes_shown};
ghost use Rattle.core_state.specs.IsCore.{IsTold, opening_of};
ghost use Rattle.volume_copy.specs.declared.copier.CopyState.TheVariants.{Taking, Whole};
ghost use Rattle.channel_commands.specs.Data.{CallData};
ghost use Rattle.core_state.specs.CoreValue.{CoreData};
ghost use Rattle.core_state.specs.HostEvents.{HostEvent, HostTold};
ghost use Rattle.core_state.specs.Pins.{host_at};
ghost use Rattle.core_state.specs.TheCore.{IsWhole};
ghost use Rattle.core_state.specs.WorkEvents.{WorkEvent};
ghost use Rattle.core_state.specs.declared.rule.WorkAnswer.{WorkAnswer};
ghost use Rattle.work_events.specs.WorkLaws.{IsRecorder};
ghost use Rattle.volume_copy.specs.Copies.{CopyData, IsCopier, IsVolumeIn, LeavesSame, Stands, StandsFor};
ghost use Rattle.volume_copy.specs.Steps.{Guards, LeavesCopy};

use host_events::law::{events_add_one_entry_at_most, events_are_later};
use mss_base::Site;
use victim_choice::Choose;
use work_events::law::{work_is_later, work_leaves_the_history};

/// An event of a host leaves what a copy stands for, where the track under its write was taken before. It adds one
/// entry at most, so a copy that is on time isn't late.
pub fn host_events_leave_copies<S: Site>()
    ensures { (c : CopyData) (core : CoreData) (h : ℕ) (call : CallData) (told : HostTold)
        (left : CoreData) → IsCopier c → IsWhole S.tells core.site.told core
        → Guards c (host_at core.hosts h) call → HostEvent S.tells core h call told left
        → LeavesCopy S.tells c core left }
{
    events_add_one_entry_at_most::<S>();
    events_are_later::<S>();
}

/// An event of a recorder leaves what a copy stands for, and adds no entry.
pub fn work_leaves_copies<S: Site, C: Choose>()
    ensures { (chooser : C) (c : CopyData) (core : CoreData) (recorder : ℕ) (told : WorkAnswer)
        (left : CoreData) → IsRecorder core recorder → IsWhole S.tells core.site.told core
        → WorkEvent S.tells (C.may chooser) core recorder told left
        → LeavesCopy S.tells c core left }
{
    work_is_later::<S, C>();
    work_leaves_the_history::<S, C>();
}

/// A whole copy is its volume as it was after the entries before the copy's point.
pub fn whole_copies_are_their_volumes()
    ensures { (c : CopyData) (s : State) (history : List EntryData) → IsCopier c
        → c.state ≡ Whole → Stands c.state c s history
        → IsVolumeIn c (after s (take c.point history)).volumes }
{}

/// While a session goes on, its devices show what isn't taken yet as it was at the copy's point.
pub fn tracks_left_are_shown_as_they_were()
    ensures { (c : CopyData) (core : CoreData) → IsTold core.site.told core
        → core.stopped ≡ None → c.state ≡ Taking → StandsFor core.site.told c core
        → let start = opening_of core.site.told core in
        LeavesSame c (after start (take c.point core.history)).volumes
        (volumes_shown (content core.site.told)) }
{}
