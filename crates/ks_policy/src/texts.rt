ghost use Rattle.std.specs.Prelude.{◌≡◌, IfOk, OnOk};
ghost use Rattle.ks_base.specs.Tables.{id_cmp, IsAscending, put_row};

use crate::place::{HasName, place};
use ks_base::{Memory, Text};
use std::alloc::Global;

/// The text of a rule.
pub struct RuleText {
    pub name: Text,
    pub text: Text,
}

impl Drop for RuleText {
    fn drop(self) {
        let RuleText { name: _, text: _ } = self;
    }
}

impl HasName for RuleText {
    ghost naming = { λ row. row.name };

    fn name(&self) -> &Text {
        &self.name
    }
}

/// A copy of this text.
pub fn owned(alloc: Global, text: &str) -> Result<Text, Memory>
    ensures { IfOk result (λ made. made ≡ text.now) }
{
    match Text::read(alloc, text.as_bytes())? {
        Some(made) => Ok(made),
        None => unreachable!(),
    }
}

impl RuleText {
    pub fn of(alloc: Global, name: &str, text: &str) -> Result<RuleText, Memory>
        ensures { IfOk result (λ row. row ≡ record { name = name.now; text = text.now }) }
    {
        Ok(RuleText {
            name: owned(alloc, name)?,
            text: owned(alloc, text)?,
        })
    }
}

/// Puts the row in its place, over the row with its name, if there is one.
pub fn put(rows: &mut Vec<RuleText>, row: RuleText) -> Result<(), Memory>
    requires { IsAscending id_cmp (λ row. row.name) rows.old.items }
    ensures { OnOk result (rows.new.items ≡ put_row id_cmp (λ row. row.name) row rows.old.items) }
{
    match place(rows.as_slice(), row.name.as_slice()) {
        Ok(at) => {
            rows[at] = row;
            Ok(())
        }
        Err(at) => {
            rows.insert(at, row)?;
            Ok(())
        }
    }
}
