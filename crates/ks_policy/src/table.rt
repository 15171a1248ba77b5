ghost use Rattle.std.specs.Prelude.{◌≡◌, ◌<◌, ◌≤◌, length, IfSome, Some, option_map, slice_get};
ghost use Rattle.ks_base.specs.Tables.{id_cmp, IsAscending};
ghost use Rattle.ks_base.specs.declared.limits.TheConstants.{POLICY_RULES};
ghost use Rattle.ks_rule.specs.Trees.{tree_of};
ghost use Rattle.ks_machine.specs.Rules.{place_of, place_named, tree_at};

use crate::named::NamedRule;
use crate::place::{HasName, place};
use ks_base::Text;
use ks_rule::Rule;
use std::marker::Model;

/// The name of the rule that stands for those that are not there.
const DEFAULT: &[u8] = b"default";

/// The parsed rules of a policy, each in the place of its name. Contracts see them as a list of named trees.
#[derive(Drop)]
pub struct RuleTable {
    rules: Vec<NamedRule>,
}

impl Model for RuleTable {
    ghost use Rattle.std.specs.Prelude.{◌≤◌, List, length};
    ghost use Rattle.std.specs.Coded.{coded_list};
    ghost use Rattle.ks_machine.specs.Openings.{NamedRule};
    ghost use Rattle.ks_policy.specs.Codes.{rule_code};
    ghost use Rattle.ks_base.specs.Tables.{id_cmp, IsAscending};
    ghost use Rattle.ks_base.specs.declared.limits.TheConstants.{POLICY_RULES};

    ghost Value = { List NamedRule };

    ghost coded = { coded_list rule_code };

    ghost view = { λ r. r.rules.items };

    ghost invariant = { λ r. IsAscending id_cmp (λ rule. rule.name) r.rules.items × (length r.rules.items ≤ POLICY_RULES) };
}

impl RuleTable {
    pub fn of(rules: Vec<NamedRule>) -> RuleTable
        requires ascending { IsAscending id_cmp (λ rule. rule.name) rules.items }
        requires few { length rules.items ≤ POLICY_RULES }
        ensures { result ≡ rules.items }
    {
        RuleTable { rules }
    }

    /// How many rules there are.
    pub fn len(&self) -> usize
        ensures rules { result ≡ length self.now }
        ensures few { result ≤ POLICY_RULES }
    {
        self.rules.len()
    }

    /// The rule at a place.
    pub fn rule_at(&self, at: usize) -> &Rule
        requires { at < length self.now }
        ensures tree { tree_of result.now ≡ tree_at self.now at }
        ensures few { at < POLICY_RULES }
    {
        self.rules[at].rule()
    }

    /// The name of the rule at a place.
    pub fn name_at(&self, at: usize) -> &Text
        requires { at < length self.now }
        ensures { option_map (λ rule. rule.name) (slice_get self.now at) ≡ Some result.now }
    {
        self.rules[at].name()
    }

    /// The place of the rule with this name.
    pub fn place_of(&self, name: &[u8]) -> Option<usize>
        ensures place { result ≡ place_of self.now name.now }
        ensures within { IfSome result (λ at. (at < length self.now) × (at < POLICY_RULES)) }
    {
        match place(self.rules.as_slice(), name) {
            Ok(at) => Some(at),
            Err(_) => None,
        }
    }

    /// The place of the rule that a name means: its own, or that of `default`.
    #[tactic(auto, unfolding(ks_machine::specs::Rules::place_named))]
    pub fn place_named(&self, name: &Text) -> Option<usize>
        ensures place { result ≡ place_named self.now name.now }
        ensures within { IfSome result (λ at. (at < length self.now) × (at < POLICY_RULES)) }
    {
        match self.place_of(name.as_slice()) {
            Some(at) => Some(at),
            None => self.place_of(DEFAULT),
        }
    }
}
