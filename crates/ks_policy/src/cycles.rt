ghost use Rattle.std.specs.Prelude.{◌≡◌, ◌<◌, ◌⊎◌, ◌↔◌, ℕ, true, false, length, MatchOption, IsTrue};
ghost use Rattle.ks_base.specs.declared.limits.TheConstants.{POLICY_RULES};
ghost use Rattle.ks_rule.specs.Trees.{tree_of};
ghost use Rattle.ks_machine.specs.Rules.{tree_at};
ghost use Rattle.ks_policy.specs.Cycles.{Means, Leads, Reaches, HasNoCycle, IsFirstCycle};
ghost use Rattle.ks_policy.specs.Marks.{IsMarked, Grows, AllMarked};

use crate::table::RuleTable;
use ks_base::limits::POLICY_RULES;
use ks_rule::Rule;

/// A mark for the place of each rule.
pub type Marks = [bool; POLICY_RULES];

/// Marks a place and says whether it had no mark.
pub fn mark(marks: &mut Marks, at: usize) -> bool
    requires { at < POLICY_RULES }
    ensures grows { Grows result marks.old marks.new }
    ensures marked { IsMarked marks.new at }
    ensures only { (i : ℕ) → IsMarked marks.new i → IsMarked marks.old i ⊎ (i ≡ at) }
{
    let grown = !marks[at];
    marks[at] = true;
    grown
}

impl RuleTable {
    /// Marks the places of the rules that the names in a rule mean, and says whether a mark is new.
    pub fn mark_meant(&self, rule: &Rule, marks: &mut Marks) -> bool
        ensures grows { Grows result marks.old marks.new }
        ensures all { (j : ℕ) → Means self.now (tree_of rule.now) j → IsMarked marks.new j }
        ensures only { (j : ℕ) → IsMarked marks.new j → IsMarked marks.old j ⊎ Means self.now (tree_of rule.now) j }
    {
        match rule {
            Rule::Always | Rule::Never | Rule::Role(_) | Rule::Compare(_, _) => false,
            Rule::Named(name) => match self.place_named(name) {
                Some(at) => mark(marks, at),
                None => false,
            },
            Rule::Not(a) => self.mark_meant(a, marks),
            Rule::And(a, b) | Rule::Or(a, b) => {
                let left = self.mark_meant(a, marks);
                let right = self.mark_meant(b, marks);
                left || right
            }
        }
    }

    /// Marks the places that one step leads to from this one, if it is marked and was not walked on from
    /// before, and says whether a mark is new.
    fn mark_step(&self, at: usize, marks: &mut Marks, walked: &mut Marks) -> bool
        requires { at < length self.now }
        ensures grows { Grows result marks.old marks.new }
        ensures only { (j : ℕ) → IsMarked marks.new j → IsMarked marks.old j ⊎ (IsMarked marks.old at × Leads self.now at j) }
        ensures here { IsMarked marks.old at → IsMarked walked.new at }
        ensures stays { (i : ℕ) → IsMarked walked.old i → IsMarked walked.new i }
        ensures walked { (i : ℕ) → IsMarked walked.new i → IsMarked walked.old i ⊎ AllMarked self.now marks.new i }
    {
        let rule = self.rule_at(at);
        if !marks[at] {
            return false;
        }
        if !mark(walked, at) {
            return false;
        }
        self.mark_meant(rule, marks)
    }

    /// Marks the places that one step leads to from each marked one, and says whether a mark is new.
    fn mark_steps(&self, from: usize, marks: &mut Marks, walked: &mut Marks) -> bool
        requires only { (i : ℕ) → IsMarked marks.old i → Reaches self.now from i }
        requires walked { (i : ℕ) → IsMarked walked.old i → AllMarked self.now marks.old i }
        ensures grows { Grows result marks.old marks.new }
        ensures only { (i : ℕ) → IsMarked marks.new i → Reaches self.now from i }
        ensures walked { (i : ℕ) → IsMarked walked.new i → AllMarked self.now marks.new i }
        ensures closed { result ≡ false → (i : ℕ) → i < length self.now → IsMarked marks.new i → AllMarked self.now marks.new i }
    {
        let mut grown = false;
        for at in 0..self.len() {
            let new = self.mark_step(at, marks, walked);
            grown = grown || new;
        }
        grown
    }

    /// Whether the rule at a place reaches itself.
    fn reaches_itself(&self, from: usize) -> bool
        requires { from < length self.now }
        ensures { IsTrue result ↔ Reaches self.now from from }
    {
        let mut marks = [false; POLICY_RULES];
        let _new = self.mark_meant(self.rule_at(from), &mut marks);
        let mut walked = [false; POLICY_RULES];
        'walks: while self.mark_steps(from, &mut marks, &mut walked) {}
        marks[from]
    }

    /// The place of the first rule that reaches itself.
    pub fn first_cycle(&self) -> Option<usize>
        ensures { MatchOption result (HasNoCycle self.now) (λ at. (at < length self.now) × IsFirstCycle self.now at) }
    {
        for at in 0..self.len() {
            if self.reaches_itself(at) {
                return Some(at);
            }
        }
        None
    }
}
