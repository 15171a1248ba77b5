ghost use Rattle.std.specs.Prelude.{◌≡◌};
ghost use Rattle.ks_rule.specs.Trees.{tree_of};

use crate::place::HasName;
use ks_base::Text;
use ks_rule::Rule;
use std::marker::Model;

/// A rule with its name.
pub struct NamedRule {
    name: Text,
    rule: Rule,
}

impl Drop for NamedRule {
    fn drop(self) {
        let NamedRule { name: _, rule: _ } = self;
    }
}

impl Model for NamedRule {
    ghost use Rattle.ks_rule.specs.Trees.{tree_of};
    ghost use Rattle.ks_machine.specs.Openings.{NamedRule};
    ghost use Rattle.ks_policy.specs.Codes.{rule_code};

    ghost Value = { NamedRule };

    ghost coded = { rule_code };

    ghost view = { λ row. record { name = row.name; tree = tree_of row.rule } };
}

impl NamedRule {
    pub fn new(name: Text, rule: Rule) -> NamedRule
        ensures { result ≡ record { name = name; tree = tree_of rule } }
    {
        NamedRule { name, rule }
    }

    /// The tree of the rule.
    pub fn rule(&self) -> &Rule
        ensures { tree_of result.now ≡ self.now.tree }
    {
        &self.rule
    }
}

impl HasName for NamedRule {
    ghost naming = { λ row. row.name };

    fn name(&self) -> &Text {
        &self.name
    }
}
