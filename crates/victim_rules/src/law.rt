//! What a closure narrows to.
ghost use Rattle.std.specs.Prelude.{◌≡◌, ◌≤◌, ℕ, Bool, List, length};
ghost use Rattle.std.specs.Fn.{FnReturnsAt};
ghost use Rattle.victim_choice.specs.declared.choose.Candidate.{Candidate};
ghost use Rattle.victim_rules.specs.Closures.{NarrowMay};
ghost use Rattle.victim_rules.specs.Rules.{IsFirstLeft, narrowed_candidates};

use victim_choice::Candidate;

/// A closure that answers as a test does narrows as that test: `Narrow` may answer the place of the first candidate that
/// it leaves, and no other.
pub fn closures_narrow<F: Fn(&Candidate) -> bool>()
    ensures { (keeps : F) (test : Candidate → Bool)
        → ((c : Candidate) (answer : Bool) → FnReturnsAt F.Fn keeps c answer → answer ≡ test c)
        → (given : List Candidate) (place : ℕ) → 1 ≤ length given
        → NarrowMay F.Fn keeps given place
        → IsFirstLeft given (narrowed_candidates test given) place }
{}
