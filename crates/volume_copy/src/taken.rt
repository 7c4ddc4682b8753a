// Which tracks of a volume are taken.
ghost use Rattle.std.specs.Prelude.{◌≡◌, ◌≢◌, ◌<◌, ℕ, Some, None, IsSome, IfOk, MatchOption};
ghost use Rattle.std.specs.Prelude.{is_some, length, slice_index_or};
ghost use Rattle.ckd_track.specs.Track.{reading};
ghost use Rattle.volume_copy.specs.Copies.{records_of, taken_at, AreNoneTaken, AreAllTaken, IsFirstLeft};
ghost use Rattle.volume_copy.specs.Places.{IsReached, IsFirst};

use mss_base::{Block, NoMemory};
use std::alloc::Global;
use std::marker::Model;

/// How many tracks a volume has.
pub const TRACKS: u16 = 7_676;

/// What is taken of a track.
#[derive(Drop)]
pub enum Taken {
    Not,
    /// It has no record.
    Blank,
    Track(Block),
}

/// What is taken of each track of a volume, by cylinder and head. In a clause it is their list.
#[derive(Drop)]
pub struct TakenTracks {
    tracks: Vec<Taken>,
    /// The first that isn't taken.
    next: u16,
}

impl Model for TakenTracks {
    ghost use Rattle.std.specs.Prelude.{List};
    ghost use Rattle.volume_copy.specs.declared.taken.Taken.{Taken};
    ghost use Rattle.volume_copy.specs.Places.{AreTracks};

    ghost Value = { List Taken };

    ghost view = { λ t. t.tracks.items };

    ghost invariant = { λ t. AreTracks t.tracks.items t.next };
}

/// Whether something is taken.
fn is_taken(taken: &Taken) -> bool
    ensures { result ≡ is_some (records_of taken.now) }
{
    !matches!(taken, Taken::Not)
}

/// The first track from this one on that isn't taken.
#[tactic(auto, using(crate::proofs::TakenFacts::reached_next))]
fn first_from(tracks: &[Taken], from: u16) -> u16
    requires long { length tracks.now ≡ TRACKS }
    requires before { IsReached tracks.now from }
    ensures { IsFirst tracks.now result }
{
    for number in from..TRACKS {
        if !is_taken(&tracks[usize::from(number)]) {
            return number;
        }
    }
    TRACKS
}

impl TakenTracks {
    /// No track is taken.
    pub fn none(alloc: Global) -> Result<Self, NoMemory>
        ensures { IfOk result AreNoneTaken }
    {
        let mut tracks = Vec::new(alloc);
        tracks.reserve(usize::from(TRACKS))?;
        for _ in 0..TRACKS {
            tracks.push(Taken::Not)?;
        }
        Ok(TakenTracks { tracks, next: 0 })
    }

    /// The first track that isn't taken, if one isn't.
    pub fn first_left(&self) -> Option<u16>
        ensures { MatchOption result (AreAllTaken self.now) (IsFirstLeft self.now) }
    {
        if self.next < TRACKS {
            Some(self.next)
        } else {
            None
        }
    }

    /// What is taken of the track of this number.
    pub fn get(&self, number: u16) -> &Taken
        requires { number < TRACKS }
        ensures { result.now ≡ slice_index_or self.now number Taken.Not }
    {
        &self.tracks[usize::from(number)]
    }

    /// Whether the track of this number is taken.
    pub fn has(&self, number: u16) -> bool
        requires { number < TRACKS }
        ensures { result ≡ is_some (taken_at self.now number) }
    {
        is_taken(&self.tracks[usize::from(number)])
    }

    /// Puts what is taken of a track.
    #[tactic(auto, using(crate::proofs::TakenFacts::reached_put, crate::proofs::TakenFacts::put_here, crate::proofs::TakenFacts::put_others))]
    pub fn put(&mut self, number: u16, taken: Taken)
        requires there { number < TRACKS }
        requires something { IsSome (records_of taken) }
        ensures here { taken_at self.new number ≡ records_of taken }
        ensures others { (other : ℕ) → other ≢ number
            → taken_at self.new other ≡ taken_at self.old other }
    {
        self.tracks[usize::from(number)] = taken;
        self.next = first_from(&self.tracks, self.next);
    }
}
