ghost use Rattle.std.specs.Prelude.{◌≡◌, ◌<◌, ◌≤◌, ◌⊎◌, ℕ, length, IfOk};
ghost use Rattle.ks_base.specs.declared.limits.TheConstants.{POLICY_RULES};
ghost use Rattle.ks_policy.specs.Cycles.{Leads, Reaches};
ghost use Rattle.ks_policy.specs.Marks.{IsMarked, AllMarked};
ghost use Rattle.ks_policy.specs.Needs.{IsWholeOrder, AreNeeds, AreAllNeeds};

use crate::cycles::Marks;
use crate::table::RuleTable;
use ks_base::limits::POLICY_RULES;
use ks_base::{ListOf, Memory};
use std::alloc::Global;

impl RuleTable {
    /// Marks where the steps from a place lead, if it is marked.
    fn mark_on(&self, at: usize, marks: &mut Marks)
        requires { at < length self.now }
        ensures kept { (i : ℕ) → IsMarked marks.old i → IsMarked marks.new i }
        ensures all { IsMarked marks.old at → AllMarked self.now marks.new at }
        ensures only { (i : ℕ) → IsMarked marks.new i → IsMarked marks.old i ⊎ (IsMarked marks.old at × Leads self.now at i) }
    {
        let rule = self.rule_at(at);
        if marks[at] {
            let _new = self.mark_meant(rule, marks);
        }
    }

    /// The marks of the places that the rule at this one reaches. Each is walked on from when all that lead to it
    /// were, which is why the order is followed from its end.
    fn reached(&self, from: usize, order: &[u16]) -> Marks
        requires within { from < length self.now }
        requires whole { IsWholeOrder self.now order.now }
        ensures long { length result ≡ POLICY_RULES }
        ensures only { (i : ℕ) → IsMarked result i → Reaches self.now from i }
        ensures all { AllMarked self.now result from }
        ensures closed { (i : ℕ) → i < length self.now → IsMarked result i → AllMarked self.now result i }
    {
        let mut marks = [false; POLICY_RULES];
        let _new = self.mark_meant(self.rule_at(from), &mut marks);
        for k in (0..order.len()).rev() {
            self.mark_on(usize::from(order[k]), &mut marks);
        }
        marks
    }

    /// The places that the rule at this one reaches, in this order.
    fn needs_of(&self, alloc: Global, at: usize, order: &[u16]) -> Result<ListOf<u16>, Memory>
        requires within { at < length self.now }
        requires few { length self.now ≤ POLICY_RULES }
        requires whole { IsWholeOrder self.now order.now }
        ensures { IfOk result (λ needs. AreNeeds self.now at needs) }
    {
        let marks = self.reached(at, order);
        let mut needs = ListOf::new(alloc);
        for place in order {
            if marks[usize::from(*place)] {
                needs.push(*place)?;
            }
        }
        Ok(needs)
    }

    /// For each rule the places that it reaches, in this order.
    pub fn needs(&self, alloc: Global, order: &[u16]) -> Result<Vec<ListOf<u16>>, Memory>
        requires { IsWholeOrder self.now order.now }
        ensures { IfOk result (λ needs. AreAllNeeds self.now needs.items) }
    {
        let mut needs = Vec::with_capacity(alloc, self.len())?;
        for at in 0..self.len() {
            needs.push(self.needs_of(alloc, at, order)?)?;
        }
        Ok(needs)
    }
}
