//! A chooser by a closure that tests candidates.
ghost use Rattle.std.specs.Prelude.{◌≡◌};
ghost use Rattle.victim_rules.specs.Closures.{IsTest, NarrowMay};

use std::marker::Model;
use victim_choice::{Candidate, Choose};

/// A chooser of the first candidate that a closure keeps, or of the first of all where it keeps none. In a clause it is
/// that closure.
#[derive(Drop)]
pub struct Narrow<F> {
    keeps: F,
}

impl<F> Model for Narrow<F> {
    ghost Value = { F };

    ghost view = { λ n. n.keeps };
}

impl<F: Fn(&Candidate) -> bool> Narrow<F> {
    /// Keeps a closure that can be called on every candidate.
    pub fn new(keeps: F) -> Narrow<F>
        requires { IsTest F.Fn keeps }
        ensures { result ≡ keeps }
    {
        Narrow { keeps }
    }
}

impl<F: Fn(&Candidate) -> bool> Choose for Narrow<F> {
    ghost can_choose = { IsTest F.Fn };

    ghost may = { NarrowMay F.Fn };

    fn choose(&self, candidates: &[Candidate]) -> usize {
        for (place, candidate) in candidates.iter().enumerate() {
            if (self.keeps)(candidate) {
                return place;
            }
        }
        0
    }
}
