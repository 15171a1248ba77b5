//! The tables of rules.
ghost use Rattle.std.specs.Prelude.{codes};
ghost use Rattle.std.specs.Str.{bytes_eq};

use crate::people::People;
use anyhow::Result;
use ks_base::Text;
use ks_rule::{NamedRules, Rule};
use ks_tables::{Case, try_table};
use std::alloc::Global;
use std::rt::Files;

/// The rule `yes` holds, and no other.
struct Yes;

impl NamedRules for Yes {
    ghost holding = { λ _ name. bytes_eq name (codes "yes") };

    fn holds(&self, name: &Text) -> bool {
        name.as_slice() == b"yes".as_slice()
    }
}

pub fn try_tables<R: Files + Print + AllocGlobal>(rt: &R, people: &People) -> Result<()> {
    try_table(rt, "rules_written", rule_written)?;
    try_table(rt, "rules_held", |alloc, case| holders(people, alloc, case))
}

/// Of a text: how its rule is written.
fn rule_written(alloc: Global, case: &Case) -> Result<String> {
    let written = Rule::read(alloc, case.bytes(0))?.write(alloc)?;
    Ok(String::from_str(alloc, written.as_str())?)
}

/// Of callers, a target and a rule: for which of the callers it holds.
fn holders(people: &People, alloc: Global, case: &Case) -> Result<String> {
    let target = people.target(case.str(1)?)?;
    let rule = Rule::read(alloc, case.bytes(2))?;
    let mut names = String::new(alloc);
    for name in case.str(0)?.split_whitespace() {
        if rule.holds(&Yes, people.caller(name)?, target) {
            add_name(&mut names, name)?;
        }
    }
    said(alloc, names)
}

/// Adds a name behind a blank, where it is not the first.
pub fn add_name(names: &mut String, name: &str) -> Result<()> {
    if !names.is_empty() {
        names.push(' ')?;
    }
    names.push_str(name)?;
    Ok(())
}

/// The names, or `none`.
pub fn said(alloc: Global, names: String) -> Result<String> {
    if names.is_empty() {
        return Ok(String::from_str(alloc, "none")?);
    }
    Ok(names)
}
