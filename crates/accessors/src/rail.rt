// The rail, and moves on it.
ghost use Rattle.std.specs.Prelude.{◌≡◌};
ghost use Rattle.accessors.specs.Rails.{IsServed, rail_start};
ghost use Rattle.accessors.specs.Moves.{IsPlan, NeverMeets, rail_after, plan_of};

use crate::places::RAIL_END;
use std::marker::Model;

/// One of the two accessors.
#[derive(Clone, Copy, PartialEq, Eq)]
pub enum Accessor {
    Left,
    Right,
}

/// The places where the accessors stand, 0 to 65. The left one stands left of the right one.
#[derive(Drop)]
pub struct Rail {
    pub left: u8,
    pub right: u8,
}

/// How a cartridge is carried from one place to another.
#[derive(Clone, Copy)]
pub struct MovePlan {
    /// The accessor that carries it.
    pub serving: Accessor,
    /// Where the other one goes first, if it stands in the way.
    pub other_to: Option<u8>,
    pub from: u8,
    pub to: u8,
}

impl Model for Rail {
    ghost use Rattle.accessors.specs.Rails.{RailData, IsRail};

    ghost Value = { RailData };

    ghost view = { λ r. record { left = r.left; right = r.right } };

    ghost invariant = { λ r. IsRail (record { left = r.left; right = r.right }) };
}

/// The plan of a move between two places of cells, 1 to 64.
///
/// The accessor nearer to `from` serves, at a tie the left one. The other one first goes out of its way. They never
/// meet within the move.
pub fn plan_move(rail: &Rail, from: u8, to: u8) -> MovePlan
    requires from { IsServed from }
    requires to { IsServed to }
    ensures plan { result ≡ plan_of rail.now from to }
    ensures apart { NeverMeets rail.now result }
{
    let (left, right) = (rail.left, rail.right);
    if left.abs_diff(from) <= right.abs_diff(from) {
        let last = from.max(to);
        MovePlan {
            serving: Accessor::Left,
            other_to: (right <= last).then_some(last + 1),
            from,
            to,
        }
    } else {
        let first = from.min(to);
        MovePlan {
            serving: Accessor::Right,
            other_to: (first <= left).then_some(first - 1),
            from,
            to,
        }
    }
}

impl Rail {
    /// The accessors at the two ends.
    pub fn start() -> Rail
        ensures { result ≡ rail_start }
    {
        Rail {
            left: 0,
            right: RAIL_END,
        }
    }

    /// Notes that a move was done by the plan that the rule gives for it.
    pub fn done(&mut self, plan: &MovePlan)
        requires { IsPlan self.old plan.now }
        ensures { self.new ≡ rail_after plan.now self.old }
    {
        match plan.serving {
            Accessor::Left => {
                if let Some(place) = plan.other_to {
                    self.right = place;
                }
                self.left = plan.to;
            }
            Accessor::Right => {
                if let Some(place) = plan.other_to {
                    self.left = place;
                }
                self.right = plan.to;
            }
        }
    }
}
