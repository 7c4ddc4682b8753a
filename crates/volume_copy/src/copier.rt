// The copier.
ghost use Rattle.std.specs.Prelude.{◌≡◌, ◌⊎◌, ◌↔◌, ◌≤◌, ◌<◌, ◌/◌, ◌%◌, ℕ, Some, None, length};
ghost use Rattle.std.specs.Prelude.{IsSome, IsTrue, IsOk, IfOk, OnOk, OnErr};
ghost use Rattle.std.specs.Option.{option_map};
ghost use Rattle.mss_base.specs.Content.{content};
ghost use Rattle.mss_base.specs.Sites.{OnlyReads};
ghost use Rattle.channel_commands.specs.Views.{call_of};
ghost use Rattle.volume_table.specs.Listed.{row_in_list};
ghost use Rattle.shown_volumes.specs.Shown.{shown_by};
ghost use Rattle.core_state.specs.Pins.{host_at};
ghost use Rattle.volume_copy.specs.Beside.{IsCopied, StandsBeside};
ghost use Rattle.volume_copy.specs.Copies.{
  AreNoneTaken,
  FailedIn,
  IsBlockOf,
  IsCopier,
  IsInTime,
  IsOnTime,
  StandsFor,
  asked_by,
  taken_at,
  track_number,
};
ghost use Rattle.volume_copy.specs.Steps.{
  Finishes,
  Guards,
  IsNext,
  IsStateOf,
  KeepsStanding,
  MayWriteOn,
  ReadsCore,
  TakesNextFrom,
  TakesOnce,
  TakesOrFails,
  TakesTracks,
  begun_if_armed,
  is_write_call,
  noted_copy,
  number_under,
};
ghost use Rattle.volume_copy.specs.declared.copier.CopyState.TheVariants.{Armed, Taking};
ghost use Rattle.volume_copy.specs.declared.taken.TheConstants.{TRACKS};
ghost use Rattle.mss_base.specs.Geometry.{cylinder_heads};

use crate::reading::{TakeFault, has_no_record, read_shown};
use crate::taken::{TRACKS, Taken, TakenTracks};
use channel_commands::{Call, Command, command_of};
use ckd_plain::HostState;
use core_state::Core;
use core_state::looks::{host_at, is_on};
use mss_base::{Block, Cylinder, HEADS, Head, HostNo, NoMemory, Site, VolumeNo};
use std::alloc::Global;
use std::marker::Model;
use victim_choice::Choose;
use volume_table::{Rows, VolumeRow};

/// How far a copy is.
#[derive(Clone, Copy)]
pub enum CopyState {
    /// Its point in the history isn't reached yet.
    Armed,
    /// When it was to begin, there was no such volume.
    NoVolume,
    /// Some tracks aren't taken yet.
    Taking,
    /// All tracks are taken.
    Whole,
    /// A read for it failed; the site's count of faults behind it.
    Failed { fault: u64 },
}

/// Takes a copy of a volume as it is at one point of the history. In a clause it is a `CopyData`.
#[derive(Drop)]
pub struct Copier {
    alloc: Global,
    volume: VolumeNo,
    after: u64,
    state: CopyState,
    point: u64,
    tracks: TakenTracks,
}

impl Model for Copier {
    ghost use Rattle.volume_copy.specs.Copies.{CopyData, IsCopier};

    ghost Value = { CopyData };

    ghost view = { λ c. record {
      volume = c.volume;
      after_ = c.after;
      state = c.state;
      point = c.point;
      tracks = c.tracks;
    } };

    ghost invariant = { λ c. IsCopier (record {
      volume = c.volume;
      after_ = c.after;
      state = c.state;
      point = c.point;
      tracks = c.tracks;
    }) };
}

/// How far a copy with these tracks is, once it has begun.
fn state_with(tracks: &TakenTracks) -> CopyState
    ensures { IsStateOf tracks.now result }
{
    match tracks.first_left() {
        Some(_) => CopyState::Taking,
        None => CopyState::Whole,
    }
}

/// The number of a track.
fn track_number(cylinder: Cylinder, head: Head) -> u16
    ensures number { result ≡ track_number cylinder head }
    ensures there { result < TRACKS }
{
    cylinder.get() * u16::from(HEADS) + u16::from(head.get())
}

/// The cylinder and the head of a track.
fn place_of(number: u16) -> (Cylinder, Head)
    requires { number < TRACKS }
    ensures { (result.0 ≡ number / cylinder_heads) × (result.1 ≡ number % cylinder_heads) }
{
    let (Some(cylinder), Some(head)) = (
        Cylinder::of(number / u16::from(HEADS)),
        Head::of((number % u16::from(HEADS)) as u8),
    ) else {
        unreachable!()
    };
    (cylinder, head)
}

/// Whether a call is a write command, by its code.
fn is_write_call(call: &Call) -> bool
    ensures { result ≡ is_write_call (call_of call.now) }
{
    let Call::Command(asked) = call else {
        return false;
    };
    matches!(command_of(asked.code), Ok(Command::Write(_)))
}

impl Copier {
    /// A copier of this volume, whose point is behind so many entries.
    pub fn new(alloc: Global, volume: VolumeNo, after: u64) -> Result<Self, NoMemory>
        ensures asked { IfOk result (λ c. (c.volume ≡ volume) × (c.after_ ≡ after)) }
        ensures armed { IfOk result (λ c. (c.state ≡ Armed) × (c.point ≡ 0)) }
        ensures bare { IfOk result (λ c. AreNoneTaken c.tracks) }
    {
        let tracks = TakenTracks::none(alloc)?;
        Ok(Copier {
            alloc,
            volume,
            after,
            state: CopyState::Armed,
            point: 0,
            tracks,
        })
    }

    /// The volume that it copies.
    pub fn volume(&self) -> VolumeNo
        ensures { result ≡ self.now.volume }
    {
        self.volume
    }

    /// How far the copy is, and behind how many entries it began, 0 while it is armed.
    pub fn state(&self) -> (CopyState, u64)
        ensures state { result.0 ≡ self.now.state }
        ensures point { result.1 ≡ self.now.point }
        ensures kept { IsCopier self.now }
    {
        let _ = &self.tracks;
        (self.state, self.point)
    }

    /// The block of a track that is taken and isn't blank.
    pub fn track(&self, cylinder: Cylinder, head: Head) -> Option<&Block>
        ensures { IsBlockOf (taken_at self.now.tracks (track_number cylinder head))
            (option_map (λ block. block.now) result) }
    {
        match self.tracks.get(track_number(cylinder, head)) {
            Taken::Track(block) if !has_no_record(block) => Some(block),
            _ => None,
        }
    }

    /// Begins behind so many entries, if it hasn't begun.
    fn begin(&mut self, row: &Option<VolumeRow>, entries: u64)
        ensures begins { self.new ≡ begun_if_armed row.now entries self.old }
        ensures asked { asked_by self.new ≡ asked_by self.old }
    {
        if !matches!(self.state, CopyState::Armed) {
            return;
        }
        self.point = entries;
        self.state = match row {
            Some(_) => CopyState::Taking,
            None => CopyState::NoVolume,
        };
    }

    /// Begins where its time has come. To be called before the first event, and behind each that added an entry.
    pub fn note<S: Site, C: Choose>(&mut self, core: &Core<S, C>)
        ensures begun { self.new ≡ noted_copy (row_in_list core.now.rows self.old.volume)
            (length core.now.history) self.old }
        ensures time { IsInTime self.old core.now.history → IsOnTime self.new core.now.history }
        ensures stands { S.tells → StandsFor (S.told core.now.site) self.old core.now
            → StandsFor (S.told core.now.site) self.new core.now }
        ensures asked { asked_by self.new ≡ asked_by self.old }
        ensures failed { FailedIn core.now (S.faults core.now.site) self.old.state
            → FailedIn core.now (S.faults core.now.site) self.new.state }
    {
        let entries = core.session.history.as_slice().len() as u64;
        if entries == self.after {
            self.begin(core.rows.row(self.volume), entries);
        }
    }

    /// Takes the track of this number, which isn't taken yet.
    fn take_track<S: Site>(
        &mut self,
        site: &mut S,
        rows: &Rows,
        number: u16,
    ) -> Result<(), NoMemory>
        requires there { number < TRACKS }
        requires taking { self.old.state ≡ Taking }
        requires left { taken_at self.old.tracks number ≡ None }
        ensures takes { let shown = shown_by (row_in_list rows.now) (content (S.told site.old)) in
            OnOk result (TakesOrFails S.tells shown number
            (S.faults site.old) (S.faults site.new) self.old self.new) }
        ensures memory { OnErr result ((self.new ≡ self.old) × (site.new ≡ site.old)) }
        ensures asked { asked_by self.new ≡ asked_by self.old }
        ensures site { OnlyReads S.Site site.old site.new }
    {
        let (cylinder, head) = place_of(number);
        match read_shown(self.alloc, site, rows.row(self.volume), cylinder, head) {
            Ok(taken) => {
                self.tracks.put(number, taken);
                self.state = state_with(&self.tracks);
            }
            Err(TakeFault::Read { fault }) => self.state = CopyState::Failed { fault },
            Err(TakeFault::Memory) => return Err(NoMemory),
        }
        Ok(())
    }

    /// Takes the track of this number, unless it is taken.
    fn take_once<S: Site>(&mut self, site: &mut S, rows: &Rows, number: u16) -> Result<(), NoMemory>
        requires there { number < TRACKS }
        requires taking { self.old.state ≡ Taking }
        ensures takes { let shown = shown_by (row_in_list rows.now) (content (S.told site.old)) in
            OnOk result (TakesOnce S.tells shown number
            (S.faults site.old) (S.faults site.new) self.old self.new) }
        ensures memory { OnErr result ((self.new ≡ self.old) × (site.new ≡ site.old)) }
        ensures asked { asked_by self.new ≡ asked_by self.old }
        ensures site { OnlyReads S.Site site.old site.new }
    {
        if self.tracks.has(number) {
            return Ok(());
        }
        self.take_track(site, rows, number)
    }

    /// Whether some tracks aren't taken yet.
    fn is_taking(&self) -> bool
        ensures taking { IsTrue result ↔ (self.now.state ≡ Taking) }
        ensures kept { IsCopier self.now }
    {
        let _ = &self.tracks;
        matches!(self.state, CopyState::Taking)
    }

    /// Takes the tracks that are left, until a read fails.
    fn take_rest<S: Site>(&mut self, site: &mut S, rows: &Rows) -> Result<(), NoMemory>
        ensures rest { let shown = shown_by (row_in_list rows.now) (content (S.told site.old)) in
            OnOk result (Finishes S.tells shown
            (S.faults site.old) (S.faults site.new) self.old self.new) }
        ensures memory { let shown = shown_by (row_in_list rows.now) (content (S.told site.old)) in
            OnErr result ((self.new ≡ self.old ⊎ TakesTracks S.tells shown self.old self.new)
            × (S.faults site.new ≡ S.faults site.old)) }
        ensures asked { asked_by self.new ≡ asked_by self.old }
        ensures site { OnlyReads S.Site site.old site.new }
    {
        for number in 0..TRACKS {
            if !self.is_taking() {
                return Ok(());
            }
            self.take_once(site, rows, number)?;
        }
        // Now none is left, by what a copier keeps.
        let _taking = self.is_taking();
        Ok(())
    }

    /// The first track that isn't taken, of a copy that is taking.
    fn next(&self) -> Option<u16>
        ensures { IsNext self.now result }
    {
        if self.is_taking() {
            self.tracks.first_left()
        } else {
            None
        }
    }

    /// Whether a host is about to write on the volume, while some tracks aren't taken.
    fn may_write_on(&self, host: &HostState, call: &Call) -> bool
        ensures { IsTrue result ↔ MayWriteOn self.now host.now (call_of call.now) }
    {
        self.is_taking() && is_write_call(call) && is_on(host, self.volume)
    }

    /// Takes the track under a host that is about to write on the volume. To be called before each event of a host.
    ///
    /// Where its read fails the copy has failed, and the event may go on all the same. Where memory runs out the
    /// copier and the core are as they were.
    pub fn before<S: Site, C: Choose>(
        &mut self,
        core: &mut Core<S, C>,
        host: HostNo,
        call: &Call,
    ) -> Result<(), NoMemory>
        ensures takes { let shown = shown_by (row_in_list core.old.rows)
            (content (S.told core.old.site)) in let host = host_at core.old.hosts host in
            MayWriteOn self.old host (call_of call.now)
            → OnOk result (TakesOnce S.tells shown (number_under host)
            (S.faults core.old.site) (S.faults core.new.site) self.old self.new) }
        ensures rests { (MayWriteOn self.old (host_at core.old.hosts host) (call_of call.now) → ⊥)
            → IsOk result × (self.new ≡ self.old) × (core.new ≡ core.old) }
        ensures guards { OnOk result
            (Guards self.new (host_at core.old.hosts host) (call_of call.now)) }
        ensures memory { OnErr result ((self.new ≡ self.old) × (core.new ≡ core.old)) }
        ensures keeps { KeepsStanding S.Site core.old core.new self.old self.new }
        ensures asked { asked_by self.new ≡ asked_by self.old }
        ensures core { ReadsCore S.Site core.old core.new }
    {
        let state = host_at(core.hosts.as_slice(), host);
        if !self.may_write_on(&state, call) {
            return Ok(());
        }
        let number = track_number(state.cylinder, state.head);
        self.take_once(&mut core.site, &core.rows, number)
    }

    /// Takes the next track, if one is left, and tells how far the copy is then.
    ///
    /// Where memory runs out the copier and the core are as they were.
    pub fn take<S: Site, C: Choose>(&mut self, core: &mut Core<S, C>) -> Result<CopyState, NoMemory>
        ensures takes { OnOk result
            (TakesNextFrom S.Site core.old core.new self.old self.new) }
        ensures state { IfOk result (λ state. state ≡ self.new.state) }
        ensures memory { OnErr result ((self.new ≡ self.old) × (core.new ≡ core.old)) }
        ensures keeps { KeepsStanding S.Site core.old core.new self.old self.new }
        ensures asked { asked_by self.new ≡ asked_by self.old }
        ensures core { ReadsCore S.Site core.old core.new }
    {
        let Some(number) = self.next() else {
            return Ok(self.state);
        };
        self.take_track(&mut core.site, &core.rows, number)?;
        Ok(self.state)
    }

    /// Begins, if it hasn't begun, and takes all tracks that are left. To be called behind the last event.
    ///
    /// Where memory runs out it may have begun, and have taken some more tracks.
    pub fn finish<S: Site, C: Choose>(
        &mut self,
        core: &mut Core<S, C>,
    ) -> Result<CopyState, NoMemory>
        ensures finishes { let shown = shown_by (row_in_list core.old.rows)
            (content (S.told core.old.site)) in
            let begun = begun_if_armed (row_in_list core.old.rows self.old.volume)
            (length core.old.history) self.old in
            OnOk result (Finishes S.tells shown
            (S.faults core.old.site) (S.faults core.new.site) begun self.new) }
        ensures state { IfOk result (λ state. state ≡ self.new.state) }
        ensures kept { OnOk result (IsCopier self.new) }
        ensures stands { OnOk result (S.tells → StandsFor (S.told core.old.site) self.old core.old
            → StandsFor (S.told core.new.site) self.new core.new) }
        ensures copied { OnOk result (StandsBeside S.Site core.old self.old
            → IsCopied S.Site core.new self.new) }
        ensures memory { let shown = shown_by (row_in_list core.old.rows)
            (content (S.told core.old.site)) in
            let begun = begun_if_armed (row_in_list core.old.rows self.old.volume)
            (length core.old.history) self.old in
            OnErr result ((self.new ≡ begun ⊎ TakesTracks S.tells shown begun self.new)
            × (S.faults core.new.site ≡ S.faults core.old.site)) }
        ensures asked { asked_by self.new ≡ asked_by self.old }
        ensures core { ReadsCore S.Site core.old core.new }
    {
        let entries = core.session.history.as_slice().len() as u64;
        self.begin(core.rows.row(self.volume), entries);
        self.take_rest(&mut core.site, &core.rows)?;
        let _ = &self.tracks;
        Ok(self.state)
    }
}
