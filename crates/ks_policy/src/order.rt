ghost use Rattle.std.specs.Prelude.{◌≡◌, ◌<◌, ℕ, true, false, length, IfOk, MatchOption};
ghost use Rattle.ks_rule.specs.Trees.{tree_of};
ghost use Rattle.ks_policy.specs.Cycles.{Means, HasNoCycle};
ghost use Rattle.ks_policy.specs.Marks.{mark_at, IsMarked, Grows, LacksOne, IsStuck, IsPlacing};
ghost use Rattle.ks_policy.specs.Needs.{IsWholeOrder};

use crate::cycles::{Marks, mark};
use crate::table::RuleTable;
use ks_base::Memory;
use ks_base::limits::POLICY_RULES;
use ks_rule::Rule;
use std::alloc::Global;

impl RuleTable {
    /// Whether each place that a name in a rule means is marked.
    fn all_meant(&self, rule: &Rule, marks: &Marks) -> bool
        ensures all { result ≡ true → (j : ℕ) → Means self.now (tree_of rule.now) j → IsMarked marks.now j }
        ensures lacks { result ≡ false → LacksOne self.now (tree_of rule.now) marks.now }
    {
        match rule {
            Rule::Always | Rule::Never | Rule::Role(_) | Rule::Compare(_, _) => true,
            Rule::Named(name) => match self.place_named(name) {
                Some(at) => marks[at],
                None => true,
            },
            Rule::Not(a) => self.all_meant(a, marks),
            Rule::And(a, b) | Rule::Or(a, b) => {
                self.all_meant(a, marks) && self.all_meant(b, marks)
            }
        }
    }

    /// Puts a place last in the order, if it is not in it and each is that its rule names, and says whether it
    /// did.
    fn put(&self, at: usize, order: &mut Vec<u16>, placed: &mut Marks) -> Result<bool, Memory>
        requires within { at < length self.now }
        requires placing { IsPlacing self.now order.old.items placed.old }
        ensures placing { IfOk result (λ _. IsPlacing self.now order.new.items placed.new) }
        ensures grows { IfOk result (λ put. Grows put placed.old placed.new) }
        ensures stuck { IfOk result (λ put. put ≡ false → IsStuck self.now placed.new at) }
    {
        let rule = self.rule_at(at);
        if placed[at] {
            return Ok(false);
        }
        if !self.all_meant(rule, placed) {
            return Ok(false);
        }
        order.push(at as u16)?;
        Ok(mark(placed, at))
    }

    /// Tries to put each place, and says whether one was.
    fn put_each(&self, order: &mut Vec<u16>, placed: &mut Marks) -> Result<bool, Memory>
        requires placing { IsPlacing self.now order.old.items placed.old }
        ensures placing { IfOk result (λ _. IsPlacing self.now order.new.items placed.new) }
        ensures grows { IfOk result (λ put. Grows put placed.old placed.new) }
        ensures stuck { IfOk result (λ put. put ≡ false → (i : ℕ) → i < length self.now → IsStuck self.now placed.new i) }
    {
        let mut grown = false;
        for at in 0..self.len() {
            let new = self.put(at, order, placed)?;
            grown = grown || new;
        }
        Ok(grown)
    }

    /// Whether each place is marked.
    fn has_all(&self, marks: &Marks) -> bool
        ensures all { result ≡ true → (i : ℕ) → i < length self.now → IsMarked marks.now i }
        ensures lacks { result ≡ false → (i : ℕ) × (i < length self.now) × (mark_at marks.now i ≡ false) }
    {
        for at in 0..self.len() {
            if !marks[at] {
                return false;
            }
        }
        true
    }

    /// All places, each behind those that its rule names, or none where a rule reaches itself.
    pub fn order(&self, alloc: Global) -> Result<Option<Vec<u16>>, Memory>
        ensures { IfOk result (λ found. MatchOption found (HasNoCycle self.now → ⊥) (λ order. IsWholeOrder self.now order.items)) }
    {
        let mut order = Vec::with_capacity(alloc, self.len())?;
        let mut placed = [false; POLICY_RULES];
        'passes: loop {
            let put = self.put_each(&mut order, &mut placed)?;
            if !put {
                break;
            }
        }
        if self.has_all(&placed) {
            Ok(Some(order))
        } else {
            Ok(None)
        }
    }
}
