// When frames were last touched.
ghost use Rattle.std.specs.Prelude.{◌≡◌, ◌≤◌, ◌<◌, nat_eq, true, length, OnOk, OnErr, IfOk};
ghost use Rattle.lru.specs.LruCache.{lru_cache, promoted};
ghost use Rattle.victim_choice.specs.Order.{first_order, order_after, IsOrder};

use lru::LruCache;
use mss_base::{FrameNo, Listed, NoMemory};
use std::alloc::Global;
use std::marker::Model;
use std::num::NonZeroUsize;

/// Frames, the least recently touched first.
pub type FrameList = Listed<FrameNo>;

/// The frames in order of their last touch. In a clause it is the list of them, the least recently touched first.
#[derive(Drop)]
pub struct Recency {
    touches: LruCache<FrameNo, ()>,
}

impl Model for Recency {
    ghost use Rattle.std.specs.Prelude.{ℕ, List};
    ghost use Rattle.victim_choice.specs.Order.{order_of, IsOrder};

    ghost Value = { List ℕ };

    ghost view = { λ r. order_of r.touches.entries };

    ghost invariant = { λ r. IsOrder (order_of r.touches.entries) };
}

// Whether a frame is the first of a cache, so that it would stay so.
fn is_first(cache: &LruCache<FrameNo, ()>, frame: FrameNo) -> bool
    ensures { result ≡ true → promoted (nat_eq frame) cache.now.entries ≡ cache.now.entries }
{
    match cache.peek_mru() {
        Some((first, _)) => *first == frame,
        None => false,
    }
}

// Makes a frame the first of a cache, where it stands in it.
fn promote(cache: &mut LruCache<FrameNo, ()>, frame: FrameNo)
    ensures { cache.new ≡ lru_cache (promoted (nat_eq frame) cache.old.entries) cache.old.cap }
{
    // Mostly it is the first already, and then it needn't be looked up.
    if !is_first(cache, frame) {
        cache.promote(&frame);
    }
}

impl Recency {
    /// So many frames, 1 to 200, of which frame 0 is the least recently touched.
    pub fn new(alloc: Global, count: u16) -> Result<Recency, NoMemory>
        requires some { 1 ≤ count }
        requires few { count ≤ 200 }
        ensures { IfOk result (λ recency. recency ≡ first_order count) }
    {
        let room = NonZeroUsize::new(count as usize).unwrap();
        let mut touches = LruCache::new(alloc, room)?;
        for number in 0..count {
            let frame = FrameNo::of(number as u8).unwrap();
            touches.put(frame, ())?;
        }
        Ok(Recency { touches })
    }

    /// Makes one of the frames the most recently touched. The others keep their order. It takes no memory.
    pub fn touch(&mut self, frame: FrameNo)
        requires { frame < length self.old }
        ensures { self.new ≡ order_after frame self.old }
    {
        promote(&mut self.touches, frame);
    }

    /// Sets a list to all the frames, each once. After want of memory it is as it was.
    pub fn order(&self, into: &mut FrameList) -> Result<(), NoMemory>
        ensures ok { OnOk result (into.new.items ≡ self.now) }
        ensures err { OnErr result (into.new.items ≡ into.old.items) }
        ensures each_once { IsOrder self.now }
    {
        into.reserve(self.touches.len())?;
        into.truncate(0);
        for (frame, _) in self.touches.iter().rev() {
            into.push(*frame);
        }
        Ok(())
    }
}
