//! The tables of policies.

use crate::case::read_text;
use crate::people::People;
use crate::rules::{add_name, said};
use anyhow::{Context, Result};
use ks_policy::{PolicyFault, Rules};
use ks_tables::{Case, try_table};
use serde_json::Value;
use std::alloc::Global;
use std::fs;
use std::rt::Files;

pub fn try_tables<R: Files + Print + AllocGlobal>(rt: &R, people: &People) -> Result<()> {
    try_table(rt, "policies_loaded", |alloc, case| loaded(rt, alloc, case))?;
    try_table(
        rt,
        "policies_decided",
        |alloc, case| decided(rt, people, alloc, case),
    )
}

/// Of a policy: whether it is loaded.
fn loaded<R: Files + AllocGlobal>(rt: &R, alloc: Global, case: &Case) -> Result<String> {
    let word = match Rules::load(alloc, &read_policy(rt, case.str(0)?)?) {
        Ok(_) => "loaded",
        Err(PolicyFault::NotObject) => "no object",
        Err(PolicyFault::TooMany) => "too many",
        Err(PolicyFault::Memory) => "memory",
        Err(PolicyFault::NotText(name)) => return Ok(format!(in alloc;
            "no text {}",
            name.as_str()
        )?),
        Err(PolicyFault::Cycle(name)) => return Ok(format!(in alloc; "cycle {}", name.as_str())?),
    };
    Ok(String::from_str(alloc, word)?)
}

/// Of a policy, callers, a target and an action: which of the callers it is allowed.
fn decided<R: Files + AllocGlobal>(
    rt: &R,
    people: &People,
    alloc: Global,
    case: &Case,
) -> Result<String> {
    let rules = Rules::load(alloc, &read_policy(rt, case.str(0)?)?)
        .ok()
        .context("no policy")?;
    let target = people.target(case.str(2)?)?;
    let action = read_text(alloc, case.bytes(3))?;
    let mut names = String::new(alloc);
    for name in case.str(1)?.split_whitespace() {
        if rules.decide(&action, people.caller(name)?, target)? {
            add_name(&mut names, name)?;
        }
    }
    said(alloc, names)
}

/// A policy as JSON, or where the cell is the name of a file of JSON beside the tables, what that says.
fn read_policy<R: Files + AllocGlobal>(rt: &R, cell: &str) -> Result<Value> {
    if cell.ends_with(".json") {
        let text = fs::read_to_string(rt, cell)?;
        return Ok(Value::from_slice(rt.alloc(), text.as_str().as_bytes())?);
    }
    Ok(Value::from_slice(rt.alloc(), cell.as_bytes())?)
}
