//! Laws of histories and of commands, for the layers that keep a history or run commands elsewhere, and what follows
//! from the definition of the plain machine, for its reader. A function calls a law to have it in its proof.
ghost use Rattle.std.specs.Prelude.{◌≡◌, ◌≢◌, ◌+◌, ◌≤◌, ◌<◌, ℕ, Bool, true, false, List, [], ◌∷◌, ◌++◌, IsSome, IsTrue, if◌then◌else◌};
ghost use Rattle.channel_commands.specs.Data.{CallData, command, done, equipment_check, no_space, stopped};
ghost use Rattle.ckd_track.specs.Data.{RecordData, Volumes};
ghost use Rattle.ckd_plain.specs.Data.{State};
ghost use Rattle.ckd_plain.specs.History.{EntryData, IsLegal, IsNextEntry, IsAlone, IsStopped, HasNoStop, IsDataCommand, IsWriteCommand, after, state_after, state_after_check, count_of_host};
ghost use Rattle.channel_commands.specs.Codes.{is_write};
ghost use Rattle.channel_commands.specs.declared.command.Command.{Command};
ghost use Rattle.ckd_plain.specs.declared.host.HostState.{HostState};
ghost use Rattle.ckd_plain.specs.declared.unit_check.UnitCheck.{UnitCheck};
ghost use Rattle.ckd_plain.specs.Checks.{admitted_command, Passes};
ghost use Rattle.ckd_plain.specs.Effects.{DONE, new_record, is_data};
ghost use Rattle.ckd_plain.specs.Index.{Tracks, next_within, next_record};
ghost use Rattle.ckd_plain.specs.Laws.{IsSameFor, IsUnderHead, IsWithinCost, HasTracks, HasBytes, unit_check_of, IsChecked, IsAtIndex, IsFirst, IsReadBack, HasVolume, met_by, IsPutBehind, IsNewId, HasNoBytes, KnowMarks};
ghost use Rattle.ckd_plain.specs.Plain.{UNIT_CHECK, sense_of, no_sense, keeps_sense, with_open_chain, command_answer, answer_on_tracks, plain, NeedsNoTrack, response_to, mark_for, with_response, start_of};
ghost use Rattle.mss_base.specs.Geometry.{cylinder_heads};

use crate::unit_check::UnitCheck;

/// A legal history goes on by an entry that may come next.
pub fn legal_goes_on()
    ensures { (s : State) (xs : List EntryData) (e : EntryData) → IsLegal s xs → HasNoStop xs
        → IsNextEntry (after s xs) (count_of_host e.host xs) e → IsLegal s (xs ++ e ∷ []) }
{}

/// What a history leaves goes on by what further entries leave.
pub fn after_goes_on()
    ensures { (s : State) (xs ys : List EntryData) → after s (xs ++ ys) ≡ after (after s xs) ys }
{}

/// No entry is a stopped one, where none is in either part.
pub fn no_stop_goes_on()
    ensures { (xs : List EntryData) (e : EntryData) → HasNoStop xs → (IsStopped e.reply → ⊥)
        → HasNoStop (xs ++ e ∷ []) }
{}

/// A front of a legal history is legal.
pub fn legal_front()
    ensures { (s : State) (xs ys : List EntryData) → IsLegal s (xs ++ ys) → IsLegal s xs }
{}

/// An entry with the plain reply, its number and no fault may come next, and leaves the plain state.
pub fn plain_entry_is_next()
    ensures { (s : State) (before : ℕ) (e : EntryData) → e.reply ≡ (plain s e.host e.call).0
        → e.number ≡ before + 1 → e.fault ≡ None
        → IsAlone s e.host e.call
        → IsNextEntry s before e × (state_after s e ≡ (plain s e.host e.call).1) }
{}

/// An equipment check with its fault may come next in place of a data command's reply. It leaves the volumes, ends the
/// chain, and sets the sense.
pub fn equipment_entry_is_next()
    ensures { (s : State) (before : ℕ) (e : EntryData) → e.reply ≡ equipment_check
        → e.number ≡ before + 1 → IsSome e.fault
        → IsDataCommand s e.host e.call → IsAlone s e.host e.call
        → IsNextEntry s before e
        × (state_after s e ≡ state_after_check UnitCheck.EquipmentCheck s e.host) }
{}

/// A no-space may come next in place of a data command's reply. It has no fault. It leaves the volumes, ends the chain,
/// and sets the sense.
pub fn no_space_entry_is_next()
    ensures { (s : State) (before : ℕ) (e : EntryData) → e.reply ≡ no_space → e.number ≡ before + 1
        → e.fault ≡ None
        → IsDataCommand s e.host e.call → IsAlone s e.host e.call
        → IsNextEntry s before e
        × (state_after s e ≡ state_after_check UnitCheck.NoSpace s e.host) }
{}

/// A stopped write with its fault may come next, and leaves the state.
pub fn stopped_entry_is_next()
    ensures { (s : State) (before : ℕ) (e : EntryData) → e.reply ≡ stopped → e.number ≡ before + 1
        → IsSome e.fault
        → IsWriteCommand s e.host e.call → IsAlone s e.host e.call
        → IsNextEntry s before e × (state_after s e ≡ s) }
{}

/// The definition looks at twenty tracks for the next record; more looks find the same.
pub fn twenty_looks_suffice()
    ensures { (more : ℕ) (tracks : Tracks) (host : HostState) (first : ℕ) (multi : Bool)
        → host.head < cylinder_heads
        → next_within (20 + more) tracks host first multi ≡ next_record tracks host first multi }
{}

/// An admitted command that is no write writes nothing.
pub fn only_writes_write()
    ensures { (tracks : Tracks) (host : HostState) (c : Command) (argument : List ℕ)
        (chained : Bool) → is_write c ≡ false
        → (command_answer tracks host c argument chained).written ≡ None }
{}

/// An admitted command that is no search, read or write answers the same on all tracks.
pub fn control_sees_no_track()
    ensures { (a b : Tracks) (host : HostState) (c : Command) (argument : List ℕ) (chained : Bool)
        → is_data c ≡ false
        → command_answer a host c argument chained ≡ command_answer b host c argument chained }
{}

/// A call that needs no track is answered by its host and by which volumes there are, and leaves the volumes.
pub fn call_without_track()
    ensures { (s : State) (h : ℕ) (call : CallData) → NeedsNoTrack (s.host h) call
        → plain s h call ≡ with_response s h
        (response_to (s.host h) (mark_for s.volumes call) call) }
{}

/// The reply to a write has no bytes.
pub fn write_gives_no_bytes()
    ensures { (tracks : Tracks) (host : HostState) (c : Command) (argument : List ℕ)
        (chained : Bool) → is_write c ≡ true
        → HasNoBytes (command_answer tracks host c argument chained).reply }
{}

/// A write that passes its checks is in an open chain, so opening one changes nothing.
pub fn writes_are_in_chain()
    ensures { (host : HostState) (c : Command) (argument : List ℕ)
        → Passes (with_open_chain host) c argument
        → is_write c ≡ true
        → with_open_chain host ≡ host }
{}

/// A command leaves its host's volume mounted.
pub fn volume_stays_mounted()
    ensures { (tracks : Tracks) (host : HostState) (code : ℕ) (argument : List ℕ) (chained : Bool)
        → (answer_on_tracks tracks host code argument chained).host.mounted ≡ host.mounted }
{}

/// A call sees the volumes and its own host alone: two states that have the same of both give the same reply, and have
/// the same of both after it. It leaves the other hosts.
pub fn host_sees_itself_alone()
    ensures same { (s t : State) (h : ℕ) (call : CallData) → IsSameFor h s t
        → ((plain s h call).0 ≡ (plain t h call).0)
        × IsSameFor h (plain s h call).1 (plain t h call).1 }
    ensures others { (s : State) (h other : ℕ) (call : CallData) → other ≢ h
        → (plain s h call).1.host other ≡ s.host other }
{}

/// Only a write command changes a track, and no other track than the one under its host's head. No call changes which
/// volumes there are.
pub fn only_the_track_under_a_write_changes()
    ensures no_write { (s : State) (h : ℕ) (call : CallData) → (IsWriteCommand s h call → ⊥)
        → (plain s h call).1.volumes ≡ s.volumes }
    ensures elsewhere { (s : State) (h : ℕ) (call : CallData) (v c head : ℕ)
        → (IsUnderHead (s.host h) v c head → ⊥)
        → (plain s h call).1.volumes.track v c head ≡ s.volumes.track v c head }
    ensures serials { (s : State) (h : ℕ) (call : CallData)
        → (plain s h call).1.volumes.serial ≡ s.volumes.serial }
{}

/// Each host knows whether the volume that it has mounted is read-only, from a session's start on. Nothing in a history
/// changes which volumes are.
pub fn hosts_know_their_marks()
    ensures marks { (s : State) (e : EntryData)
        → (state_after s e).volumes.read_only ≡ s.volumes.read_only }
    ensures start { (volumes : Volumes) → KnowMarks (start_of volumes) }
    ensures kept { (s : State) (e : EntryData) → KnowMarks s → KnowMarks (state_after s e) }
{}

/// Nothing in a history changes a track of a read-only volume.
pub fn read_only_volumes_stay()
    ensures { (s : State) (e : EntryData) (v c head : ℕ) → KnowMarks s
        → IsTrue (s.volumes.read_only v)
        → (state_after s e).volumes.track v c head ≡ s.volumes.track v c head }
{}

/// No track ever costs more than 13,165, and where arguments are bytes, tracks stay tracks.
pub fn tracks_stay_within_their_cost()
    ensures cost_ { (s : State) (h : ℕ) (call : CallData) → IsWithinCost s.volumes
        → IsWithinCost (plain s h call).1.volumes }
    ensures tracks { (s : State) (h : ℕ) (call : CallData) → HasBytes call → HasTracks s.volumes
        → HasTracks (plain s h call).1.volumes }
{}

/// A command that ends with unit check is answered so, with no data; its host's chain has ended, and the sense says
/// why. No other command is answered so.
pub fn unit_check_sets_the_sense()
    ensures checked { (s : State) (h code : ℕ) (argument : List ℕ) (chained : Bool)
        (check : UnitCheck)
        → unit_check_of s h code argument ≡ Some check
        → IsChecked check h (plain s h (command code argument chained)) }
    ensures unchecked { (s : State) (h code : ℕ) (argument : List ℕ) (chained : Bool)
        (bytes : List ℕ)
        → unit_check_of s h code argument ≡ None
        → (plain s h (command code argument chained)).0 ≢ done UNIT_CHECK bytes }
{}

/// The sense that a host asks for after a unit check tells it, and stays.
pub fn sense_tells_the_unit_check()
    ensures { (s : State) (h code : ℕ) (argument : List ℕ) (chained : Bool) (check : UnitCheck)
        (argument' : List ℕ) (chained' : Bool)
        → unit_check_of s h code argument ≡ Some check
        → let checked = (plain s h (command code argument chained)).1 in
        let sensed = plain checked h (command 0x04 argument' chained') in
        (sensed.0 ≡ done DONE (sense_of check)) × ((sensed.1.host h).sense ≡ sense_of check) }
{}

/// A command that ends without unit check clears the sense, but for no-op and sense, which leave it.
pub fn next_command_clears_the_sense()
    ensures { (s : State) (h code : ℕ) (argument : List ℕ) (chained : Bool) (c : Command)
        → admitted_command (with_open_chain (s.host h)) code argument ≡ Ok c
        → unit_check_of s h code argument ≡ None
        → ((plain s h (command code argument chained)).1.host h).sense
        ≡ (if keeps_sense c then (s.host h).sense else no_sense) }
{}

/// A record is found and read by its ID: where no record before it on the track has its ID, a chain that searches for
/// the ID from the index on meets the record, and the read data behind it gives the record's data.
pub fn record_is_found_and_read()
    ensures { (s : State) (h k : ℕ) (r : RecordData) → IsAtIndex s h → IsFirst s h k r
        → IsReadBack s h k r }
{}

/// A write count key data that is done puts its record behind the one that its search met, or that was written before
/// it, and the track ends there.
pub fn write_puts_its_record()
    ensures { (s : State) (h : ℕ) (argument : List ℕ) (chained : Bool) → HasVolume s h
        → (plain s h (command 0x1D argument chained)).0 ≡ done DONE []
        → IsPutBehind h (met_by s h) (new_record argument) s
        (plain s h (command 0x1D argument chained)).1 }
{}

/// A record that was written is read back: where no record up to there has its ID, the next chain finds it by its ID
/// and reads the data that were written, cut or padded to the length that its count gives.
pub fn written_record_is_read_back()
    ensures { (s : State) (h : ℕ) (argument : List ℕ) → HasVolume s h
        → (plain s h (command 0x1D argument false)).0 ≡ done DONE []
        → IsNewId s h (met_by s h) (new_record argument).id
        → IsReadBack (plain s h (command 0x1D argument false)).1 h (met_by s h + 1)
        (new_record argument) }
{}
