// An actor's hold of the lock, from one of its events to the next.
ghost use Rattle.std.specs.Prelude.{◌≡◌, ◌-◌, false, if◌then◌else◌, is_some, not};

use crate::held::Held;
use crate::setup::Setup;
use mss_base::Site;
use std::sync::{Mutex, MutexGuard, Wait};
use victim_choice::Choose;

/// The lock as an actor has it. Behind an event it may keep it for its next one. It lets go of it before it passes a
/// gate, sleeps or leaves.
#[derive(Drop)]
pub(crate) struct Hold<'a, N: Setup, S: Site, C: Choose> {
    kept: Option<MutexGuard<'a, Held<N, S, C>>>,
    /// How many events may stand in one hold.
    events: u8,
    /// How many more may stand in this one.
    left: u8,
}

impl<'a, N: Setup, S: Site, C: Choose> Hold<'a, N, S, C> {
    /// None yet.
    pub fn new(events: u8) -> Self
        ensures free { is_some result.kept ≡ false }
        ensures events { result.events ≡ events }
    {
        Hold {
            kept: None,
            events,
            left: 0,
        }
    }

    /// Whether the lock isn't kept.
    pub fn is_free(&self) -> bool
        ensures { result ≡ not (is_some self.now.kept) }
    {
        self.kept.is_none()
    }

    /// What the lock keeps: in the hold that was kept, or in a new one.
    pub fn begin<R: Wait>(
        &mut self,
        rt: &R,
        lock: &'a Mutex<Held<N, S, C>>,
    ) -> MutexGuard<'a, Held<N, S, C>>
        ensures free { is_some self.new.kept ≡ false }
        ensures events { self.new.events ≡ self.old.events }
        ensures left { self.new.left
            ≡ (if is_some self.old.kept then self.old.left else self.old.events) }
    {
        match self.kept.take() {
            Some(held) => held,
            None => {
                self.left = self.events;
                lock.lock(rt)
            }
        }
    }

    /// After an event, or what counts an actor in: keeps the lock, where another event may stand in this hold.
    pub fn keep(&mut self, held: MutexGuard<'a, Held<N, S, C>>)
        ensures left { self.new.left ≡ self.old.left - 1 }
        ensures events { self.new.events ≡ self.old.events }
        ensures last { self.new.left ≡ 0 → self.new.kept ≡ self.old.kept }
    {
        self.left = self.left.saturating_sub(1);
        if self.left > 0 {
            self.kept = Some(held);
        }
    }
}
