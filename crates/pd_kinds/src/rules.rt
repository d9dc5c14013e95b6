//! A set of rules.

ghost use Rattle.std.specs.Prelude.{◌≡◌, ◌^◌, ◌<◌, ◌||◌, ◌&&◌, ◌↔◌, false, IsTrue};

use crate::rule::Rule;

/// A set of rules.
#[derive(Clone, Copy, Debug, PartialEq, Eq)]
pub struct Rules {
    /// Bit k stands for the rule with number k.
    bits: u32,
    ghost no_other: { bits < 2 ^ 22 },
}

impl Rules {
    ghost use Rattle.pd_kinds.specs.Rule.{same_rule};
    ghost use Rattle.pd_kinds.specs.Rule.{has_rule};

    /// The empty set.
    pub fn none() -> Rules
        ensures { (rule : Rule) → has_rule result rule ≡ false }
    {
        Rules { bits: 0 }
    }

    /// Whether the rule is in the set.
    pub fn has(&self, rule: Rule) -> bool
        ensures { result ≡ has_rule self.now rule }
    {
        (self.bits >> (rule as u32)) & 1 == 1
    }

    /// The set with this rule besides.
    pub fn with(&self, rule: Rule) -> Rules
        ensures { (other : Rule) → has_rule result other ≡ (has_rule self.now other || same_rule rule other) }
    {
        Rules {
            bits: self.bits | (1 << (rule as u32)),
        }
    }

    /// The set with this rule besides where it fails, and else the set as it is: one line of a table.
    pub fn with_if(&self, rule: Rule, fails: bool) -> Rules
        ensures { (other : Rule) → has_rule result other ≡ ((fails && same_rule rule other) || has_rule self.now other) }
    {
        if fails { self.with(rule) } else { *self }
    }

    /// The rules of both sets.
    pub fn union(&self, other: &Rules) -> Rules
        ensures { (rule : Rule) → has_rule result rule ≡ (has_rule self.now rule || has_rule other.now rule) }
    {
        Rules {
            bits: self.bits | other.bits,
        }
    }

    /// Whether no rule is in the set.
    pub fn is_empty(&self) -> bool
        ensures { IsTrue result ↔ ((rule : Rule) → has_rule self.now rule ≡ false) }
    {
        self.bits == 0
    }
}
