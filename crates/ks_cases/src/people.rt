//! The callers and targets that the tables of rules and policies name.

use crate::case::read_text;
use anyhow::{Context, Result, bail};
use ks_base::{FieldList, TextList};
use ks_rule::{Attributes, Credentials};
use ks_tables::read_rows;
use std::alloc::Global;
use std::rt::Files;

/// Callers and targets by name.
#[derive(Drop)]
pub struct People {
    callers: Vec<(String, Credentials)>,
    targets: Vec<(String, Attributes)>,
}

impl People {
    /// Those of the tables `callers` and `targets`.
    pub fn read<R: Files + AllocGlobal>(rt: &R) -> Result<People> {
        Ok(People {
            callers: read_callers(rt)?,
            targets: read_targets(rt)?,
        })
    }

    pub fn caller(&self, name: &str) -> Result<&Credentials> {
        for (other, caller) in &self.callers {
            if other.as_str() == name {
                return Ok(caller);
            }
        }
        bail!("no caller {name}")
    }

    pub fn target(&self, name: &str) -> Result<&Attributes> {
        for (other, target) in &self.targets {
            if other.as_str() == name {
                return Ok(target);
            }
        }
        bail!("no target {name}")
    }
}

fn read_callers<R: Files + AllocGlobal>(rt: &R) -> Result<Vec<(String, Credentials)>> {
    let alloc = rt.alloc();
    let mut callers = Vec::new(alloc);
    for row in read_rows(rt, "callers")? {
        let case = row.case();
        let name = String::from_str(alloc, case.str(0)?)?;
        let caller = Credentials {
            roles: read_roles(alloc, case.str(1)?)?,
            named: read_fields(alloc, case.str(2)?)?,
        };
        callers.push((name, caller))?;
    }
    Ok(callers)
}

fn read_targets<R: Files + AllocGlobal>(rt: &R) -> Result<Vec<(String, Attributes)>> {
    let alloc = rt.alloc();
    let mut targets = Vec::new(alloc);
    for row in read_rows(rt, "targets")? {
        let case = row.case();
        let name = String::from_str(alloc, case.str(0)?)?;
        targets.push((name, read_fields(alloc, case.str(1)?)?))?;
    }
    Ok(targets)
}

/// Names with blanks between them.
fn read_roles(alloc: Global, text: &str) -> Result<TextList> {
    let mut roles = TextList::new(alloc);
    for word in text.split_whitespace() {
        roles.push(read_text(alloc, word.as_bytes())?)?;
    }
    Ok(roles)
}

/// Names and values as `NAME=VALUE`, with blanks between them.
fn read_fields(alloc: Global, text: &str) -> Result<FieldList> {
    let mut fields = FieldList::new(alloc);
    for word in text.split_whitespace() {
        let (name, value) = word.split_once('=').context("a name without a value")?;
        let name = read_text(alloc, name.as_bytes())?;
        fields.push((name, read_text(alloc, value.as_bytes())?))?;
    }
    Ok(fields)
}
