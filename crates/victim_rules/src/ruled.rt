//! Up to eight rules.
ghost use Rattle.std.specs.Prelude.{◌≡◌, ◌<◌, ◌≤◌, ◌++◌, [], ◌∷◌, length};
ghost use Rattle.victim_rules.specs.Rules.{RulesMay};

use crate::choosing::choose_by;
use crate::rule::Rule;
use std::marker::Model;
use victim_choice::{Candidate, Choose};

/// How many rules there may be.
pub const RULE_LIMIT: usize = 8;

/// A chooser by up to eight rules. In a clause it is the list of them.
#[derive(Clone, Copy)]
pub struct Ruled {
    rules: [Rule; RULE_LIMIT],
    count: usize,
}

impl Model for Ruled {
    ghost use Rattle.std.specs.Prelude.{List, length, take};
    ghost use Rattle.victim_rules.specs.declared.rule.Rule.{Rule};
    ghost use Rattle.victim_rules.specs.Padding.{IsPadded, padded_rules};

    ghost Value = { List Rule };

    ghost view = { λ r. take r.count r.rules };

    ghost invariant = { λ r. IsPadded r.count r.rules };

    ghost inverse = { λ rules. record { rules = padded_rules rules; count = length rules } };

    ghost inverse_ok = { λ a is. λ i. record { rules = is.filled i; count = is.long i } };
}

impl Ruled {
    /// No rule.
    pub fn none() -> Ruled
        ensures { result ≡ [] }
    {
        Ruled {
            rules: [Rule::Clean; RULE_LIMIT],
            count: 0,
        }
    }

    /// Adds a rule behind the others, which are fewer than eight.
    pub fn push(&mut self, rule: Rule)
        requires { length self.old < 8 }
        ensures { self.new ≡ self.old ++ rule ∷ [] }
    {
        self.rules[self.count] = rule;
        self.count += 1;
    }

    /// The rules, in their order.
    pub fn as_slice(&self) -> &[Rule]
        ensures value { result.now ≡ self.now }
        ensures few { length self.now ≤ 8 }
    {
        &self.rules[..self.count]
    }
}

impl Choose for Ruled {
    ghost may = { RulesMay };

    fn choose(&self, candidates: &[Candidate]) -> usize {
        choose_by(self.as_slice(), candidates)
    }
}
