// Choosers.
ghost use Rattle.std.specs.Prelude.{◌≡◌, ◌≤◌, ◌<◌, ℕ, List, length, ⊤};
ghost use Rattle.victim_choice.specs.declared.choose.Candidate.{Candidate};

use mss_base::{FrameNo, Page, VolumeNo};

/// A frame that may be taken from its page.
#[derive(Clone, Copy, PartialEq, Eq)]
pub struct Candidate {
    pub frame: FrameNo,
    pub volume: VolumeNo,
    pub page: Page,
    /// How many of the page's cylinders are changed and not yet destaged, 0 to 8.
    pub changed: u8,
}

/// What chooses one of some candidates, of which the least recently touched stands first.
pub trait Choose {
    /// What has to hold of a chooser before it is asked: nothing, but for a closure.
    ghost can_choose: { Self → Type 0 } = { λ _. ⊤ };

    /// Which places of a list this chooser may answer.
    ghost may: { Self → List Candidate → ℕ → Type 0 };

    /// The place of the candidate whose frame is taken.
    fn choose(&self, candidates: &[Candidate]) -> usize
        requires able { can_choose self.now }
        requires some { 1 ≤ length candidates.now }
        ensures may { may self.now candidates.now result }
        ensures below { result < length candidates.now };
}

/// The least recently touched.
#[derive(Clone, Copy, Drop)]
pub struct Lru;

impl Choose for Lru {
    ghost may = { λ _ _ place. place ≡ 0 };

    fn choose(&self, _candidates: &[Candidate]) -> usize {
        0
    }
}
