//! The choice by rules: first which of them narrow the candidates at all, then the first candidate that meets those.
ghost use Rattle.std.specs.Prelude.{◌≡◌, ◌≤◌, ◌<◌, ◌+◌, ◌&&◌, true, List, ◌∷◌, length, filter};
ghost use Rattle.std.specs.List.{list_any, position};
ghost use Rattle.victim_rules.specs.Rules.{IsFirstLeft, RulesMay, count_on, holds, meets};
ghost use Rattle.victim_rules.specs.Rules.{narrowed_by};
ghost use Rattle.victim_rules.specs.declared.rule.Rule.{Rule};

use crate::rule::Rule;
use crate::ruled::Ruled;
use mss_base::VolumeNo;
use victim_choice::Candidate;

/// How many candidates are of a volume.
fn count_on(volume: VolumeNo, given: &[Candidate]) -> usize
    ensures { result ≡ count_on volume given.now }
{
    given
        .iter()
        .filter(|candidate| candidate.volume == volume)
        .count()
}

/// Whether a rule holds of a candidate of a list.
fn holds(given: &[Candidate], rule: &Rule, candidate: &Candidate) -> bool
    ensures { result ≡ holds given.now rule.now candidate.now }
{
    match rule {
        Rule::Clean => candidate.changed == 0,
        Rule::Quota(most) => (*most as usize) < count_on(candidate.volume, given),
        Rule::Avoid(volume) => candidate.volume != *volume,
    }
}

/// Whether all of these rules hold of it.
fn meets(given: &[Candidate], rules: &[Rule], candidate: &Candidate) -> bool
    ensures { result ≡ meets given.now rules.now candidate.now }
{
    rules.iter().all(|rule| holds(given, rule, candidate))
}

/// Whether a rule holds of some candidate that meets these.
fn narrows(given: &[Candidate], rules: &[Rule], rule: &Rule) -> bool
    ensures { result ≡ list_any
        (λ c. meets given.now rules.now c && holds given.now rule.now c) given.now }
{
    given.iter().any(|candidate| meets(given, rules, candidate) && holds(given, rule, candidate))
}

/// The rules in force, with another behind them if it narrows what they leave.
fn with_rule(given: &[Candidate], force: Ruled, rule: &Rule) -> Ruled
    requires room { length force < 8 }
    requires met { list_any (meets given.now force) given.now ≡ true }
    ensures leaves { (rules : List Rule)
        → narrowed_by given.now (rule.now ∷ rules) (filter (meets given.now force) given.now)
        ≡ narrowed_by given.now rules (filter (meets given.now result) given.now) }
    ensures met { list_any (meets given.now result) given.now ≡ true }
    ensures few { length result ≤ length force + 1 }
{
    if !narrows(given, force.as_slice(), rule) {
        return force;
    }
    let mut more = force;
    more.push(*rule);
    more
}

/// The rules that narrow the candidates, each behind those before it: a rule that would leave none is let go.
fn in_force(given: &[Candidate], rules: &[Rule]) -> Ruled
    requires some { 1 ≤ length given.now }
    requires few { length rules.now ≤ 8 }
    ensures narrowed { narrowed_by given.now rules.now given.now
        ≡ filter (meets given.now result) given.now }
    ensures met { list_any (meets given.now result) given.now ≡ true }
{
    let mut force = Ruled::none();
    for rule in rules {
        force = with_rule(given, force, rule);
    }
    force
}

/// The place of the first candidate that meets these rules, if one does.
fn place_of(given: &[Candidate], rules: &[Rule]) -> Option<usize>
    ensures { result ≡ position (meets given.now rules.now) given.now }
{
    given
        .iter()
        .position(|candidate| meets(given, rules, candidate))
}

/// The place of the first candidate that meets these rules, which some candidate does.
fn first_that_meets(given: &[Candidate], rules: &[Rule]) -> usize
    requires { list_any (meets given.now rules.now) given.now ≡ true }
    ensures first { IsFirstLeft given.now (filter (meets given.now rules.now) given.now) result }
    ensures below { result < length given.now }
{
    match place_of(given, rules) {
        Some(place) => place,
        None => unreachable!(),
    }
}

/// The place of the first candidate that is left of the list when these rules have narrowed it in turn.
pub fn choose_by(rules: &[Rule], given: &[Candidate]) -> usize
    requires some { 1 ≤ length given.now }
    requires few { length rules.now ≤ 8 }
    ensures may { RulesMay rules.now given.now result }
    ensures below { result < length given.now }
{
    let force = in_force(given, rules);
    first_that_meets(given, force.as_slice())
}
