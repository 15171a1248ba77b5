ghost use Rattle.std.specs.Prelude.{◌≡◌, IfOk, IsOk};
ghost use Rattle.ks_machine.specs.Allowed.{allowed};
ghost use Rattle.ks_policy.specs.Cycles.{HasNoCycle};
ghost use Rattle.ks_policy.specs.Needs.{IsWholeOrder};

use crate::table::RuleTable;
use ks_base::{ListOf, Memory, Text};
use ks_rule::{Attributes, Credentials};
use std::alloc::Global;
use std::marker::Model;

/// The rules of a policy, none of which reaches itself. Contracts see them as a list of named trees, in the order
/// of their names.
pub struct Rules {
    table: RuleTable,
    /// For each rule the places that it reaches, each behind those that its rule names.
    needs: Vec<ListOf<u16>>,
}

impl Drop for Rules {
    fn drop(self) {
        let Rules { table: _, needs: _ } = self;
    }
}

impl Model for Rules {
    ghost use Rattle.std.specs.Prelude.{List};
    ghost use Rattle.std.specs.Coded.{coded_list};
    ghost use Rattle.ks_machine.specs.Openings.{NamedRule};
    ghost use Rattle.ks_policy.specs.Codes.{rule_code};
    ghost use Rattle.ks_policy.specs.Cycles.{HasNoCycle};
    ghost use Rattle.ks_policy.specs.Needs.{AreAllNeeds};

    ghost Value = { List NamedRule };

    ghost coded = { coded_list rule_code };

    ghost view = { λ r. r.table };

    ghost invariant = { λ r. HasNoCycle r.table × AreAllNeeds r.table r.needs.items };
}

impl Rules {
    /// The rules of a table, whose places stand in this order.
    pub fn of(alloc: Global, table: RuleTable, order: &[u16]) -> Result<Rules, Memory>
        requires { IsWholeOrder table order.now }
        ensures { IfOk result (λ rules. (rules ≡ table) × HasNoCycle table) }
    {
        let needs = table.needs(alloc, order)?;
        Ok(Rules { table, needs })
    }

    /// Whether the rule of an action allows it to this caller at this target. The rule is the one of the
    /// action's name, or `default` where there is none; where that is not there either, nothing is
    /// allowed. Only the rules that this one reaches are worked out, each once. It takes no memory.
    pub fn decide(
        &self,
        action: &Text,
        creds: &Credentials,
        target: &Attributes,
    ) -> Result<bool, Memory>
        ensures allowed { IfOk result (λ held. held ≡ allowed self.now action.now creds.now target.now) }
        ensures taken { IsOk result }
    {
        match self.table.place_named(action) {
            Some(at) => Ok(
                self.table
                    .holds_at(at, self.needs[at].as_slice(), creds, target),
            ),
            None => Ok(false),
        }
    }
}
