ghost use Rattle.std.specs.Prelude.{◌≡◌, ◌<◌, length};
ghost use Rattle.ks_policy.specs.Cycles.{HasNoCycle};
ghost use Rattle.ks_policy.specs.Allowed.{holds_at};
ghost use Rattle.ks_policy.specs.Needs.{AreNeeds};

use crate::cycles::Marks;
use crate::table::RuleTable;
use ks_base::Text;
use ks_base::limits::POLICY_RULES;
use ks_rule::{Attributes, Credentials, NamedRules};

/// Which rules hold, by their places.
#[derive(Drop)]
struct Holding<'a> {
    rules: &'a RuleTable,
    marks: Marks,
}

impl NamedRules for Holding<'_> {
    ghost use Rattle.ks_machine.specs.Rules.{place_named};
    ghost use Rattle.ks_policy.specs.Marks.{mark_of};

    ghost holding = { λ known name. mark_of known.marks (place_named known.rules.now name) };

    fn holds(&self, name: &Text) -> bool {
        match self.rules.place_named(name) {
            Some(at) => self.marks[at],
            None => false,
        }
    }
}

impl RuleTable {
    /// Whether the rule at a place holds, of which these are the places that it needs.
    pub fn holds_at(
        &self,
        at: usize,
        needs: &[u16],
        creds: &Credentials,
        target: &Attributes,
    ) -> bool
        requires within { at < length self.now }
        requires free { HasNoCycle self.now }
        requires needs { AreNeeds self.now at needs.now }
        ensures { result ≡ holds_at self.now at creds.now target.now }
    {
        let mut known = Holding {
            rules: self,
            marks: [false; POLICY_RULES],
        };
        for place in needs {
            let place = usize::from(*place);
            let held = self.rule_at(place).holds(&known, creds, target);
            known.marks[place] = held;
        }
        self.rule_at(at).holds(&known, creds, target)
    }
}
