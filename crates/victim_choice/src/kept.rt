// A closure that chooses, and a chooser with what has to hold of it.
ghost use Rattle.std.specs.Prelude.{◌≡◌, ◌≤◌, ◌<◌, length};
ghost use Rattle.std.specs.Fn.{FnReturnsAt};
ghost use Rattle.victim_choice.specs.Choosers.{AnswersBelow};

use crate::choose::{Candidate, Choose};
use std::marker::Model;

/// A chooser that answers what a closure answers. In a clause it is that closure.
#[derive(Drop)]
pub struct Kept<F> {
    answer: F,
}

impl<F> Model for Kept<F> {
    ghost Value = { F };

    ghost view = { λ k. k.answer };
}

impl<F: Fn(&[Candidate]) -> usize> Kept<F> {
    /// Keeps a closure that answers below the length of each list that isn't empty.
    pub fn new(answer: F) -> Kept<F>
        requires { AnswersBelow F.Fn answer }
        ensures { result ≡ answer }
    {
        Kept { answer }
    }
}

impl<F: Fn(&[Candidate]) -> usize> Choose for Kept<F> {
    ghost can_choose = { AnswersBelow F.Fn };

    ghost may = { FnReturnsAt F.Fn };

    fn choose(&self, candidates: &[Candidate]) -> usize {
        (self.answer)(candidates)
    }
}

/// A chooser, with what has to hold of it kept beside it. In a clause it is that chooser.
///
/// A type can't say it of a closure that it holds, only of a `Choose`. So a value of this type stands in code that is
/// generic over its chooser.
#[derive(Drop)]
pub struct Chooser<C: Choose> {
    chooser: C,
}

impl<C: Choose> Model for Chooser<C> {
    ghost Value = { C };

    ghost view = { λ c. c.chooser };

    ghost invariant = { λ c. C.can_choose c.chooser };
}

impl<C: Choose> Chooser<C> {
    /// Keeps a chooser that can be asked.
    pub fn new(chooser: C) -> Self
        requires { C.can_choose chooser }
        ensures { result ≡ chooser }
    {
        Chooser { chooser }
    }

    /// The place of the candidate whose frame is taken.
    pub fn choose(&self, candidates: &[Candidate]) -> usize
        requires { 1 ≤ length candidates.now }
        ensures may { C.may self.now candidates.now result }
        ensures below { result < length candidates.now }
    {
        self.chooser.choose(candidates)
    }
}
