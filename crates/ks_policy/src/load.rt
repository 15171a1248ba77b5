ghost use Rattle.std.specs.Prelude.{◌≡◌, ◌≤◌, length, IfOk};
ghost use Rattle.serde_json.specs.Data.{object, no_members};
ghost use Rattle.serde_json.specs.View.{view, members_view};
ghost use Rattle.ks_base.specs.Tables.{id_cmp, IsAscending};
ghost use Rattle.ks_base.specs.declared.limits.TheConstants.{POLICY_RULES};
ghost use Rattle.ks_policy.specs.Defaults.{defaults};
ghost use Rattle.ks_policy.specs.Loading.{over, texts_of, AreRules, Merges, Loads};

use crate::defaults::default_rules;
use crate::fault::PolicyFault;
use crate::named::NamedRule;
use crate::rules::Rules;
use crate::table::RuleTable;
use crate::texts::{RuleText, owned, put};
use ks_base::Memory;
use ks_base::limits::POLICY_RULES;
use ks_rule::Rule;
use serde_json::{Map, Value};
use std::alloc::Global;

fn default_texts(alloc: Global) -> Result<Vec<RuleText>, Memory>
    ensures { IfOk result (λ texts. texts.items ≡ defaults) }
{
    let mut texts = Vec::new(alloc);
    for rule in default_rules() {
        texts.push(RuleText::of(alloc, rule.name, rule.text)?)?;
    }
    Ok(texts)
}

/// The default texts with these members over them.
fn merged(alloc: Global, members: &Map<String, Value>) -> Result<Vec<RuleText>, PolicyFault>
    ensures texts { Merges (over defaults (members_view members.now.entries)) result }
    ensures ascending { IfOk result (λ texts. IsAscending id_cmp (λ row. row.name) texts.items) }
{
    let mut texts = default_texts(alloc)?;
    for (name, value) in members {
        let Some(text) = value.as_str() else {
            return Err(PolicyFault::NotText(owned(alloc, name.as_str())?));
        };
        put(&mut texts, RuleText::of(alloc, name.as_str(), text)?)?;
    }
    Ok(texts)
}

/// The texts of a policy's rules.
#[tactic(auto, unfolding(crate::specs::Loading::texts_of))]
fn read_texts(alloc: Global, file: &Value) -> Result<Vec<RuleText>, PolicyFault>
    ensures texts { Merges (texts_of (view file.now)) result }
    ensures ascending { IfOk result (λ texts. IsAscending id_cmp (λ row. row.name) texts.items) }
    ensures few { IfOk result (λ texts. length texts.items ≤ POLICY_RULES) }
{
    let Some(members) = file.as_object() else {
        return Err(PolicyFault::NotObject);
    };
    let texts = merged(alloc, members)?;
    if texts.len() > POLICY_RULES {
        return Err(PolicyFault::TooMany);
    }
    Ok(texts)
}

/// The rules of these texts.
fn read_rules(alloc: Global, texts: &[RuleText]) -> Result<Vec<NamedRule>, Memory>
    ensures { IfOk result (λ rules. AreRules texts.now rules.items) }
{
    let mut rules = Vec::with_capacity(alloc, texts.len())?;
    for row in texts {
        let rule = Rule::read(alloc, row.text.as_slice())?;
        rules.push(NamedRule::new(row.name.copy()?, rule))?;
    }
    Ok(rules)
}

impl Rules {
    /// The default rules with those of a policy file over them. The file is an object of rules' names
    /// and texts; the faults are tested in the order of `PolicyFault`, `TooMany` before `Cycle`.
    pub fn load(alloc: Global, file: &Value) -> Result<Rules, PolicyFault>
        ensures { Loads (view file.now) result }
    {
        let texts = read_texts(alloc, file)?;
        let read = read_rules(alloc, texts.as_slice())?;
        let table = RuleTable::of(read);
        if let Some(order) = table.order(alloc)? {
            return Ok(Rules::of(alloc, table, order.as_slice())?);
        }
        match table.first_cycle() {
            Some(at) => Err(PolicyFault::Cycle(table.name_at(at).copy()?)),
            None => unreachable!(),
        }
    }

    /// The rules of a policy that says nothing.
    pub fn load_default(alloc: Global) -> Result<Rules, PolicyFault>
        ensures { Loads (object no_members) result }
    {
        let policy = Value::Object(Map::new(alloc));
        let loaded = Rules::load(alloc, &policy);
        drop(policy);
        loaded
    }
}
