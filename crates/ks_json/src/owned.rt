//! Values that own their texts.
ghost use Rattle.std.specs.Prelude.{◌≡◌, IfOk};
ghost use Rattle.serde_json.specs.View as owned;
ghost use Rattle.ks_json.specs.View.{view, items_view, members_view};

use crate::value::Value;
use serde_json::{Map, Value as Owned};
use std::alloc::{AllocError, Global};

impl Value<'_> {
    /// The value as `serde_json` keeps it, with texts of its own and the members in the order of their names.
    pub fn owned(&self, alloc: Global) -> Result<Owned, AllocError>
        ensures { IfOk result (λ copy. owned.view copy ≡ view self.now) }
    {
        copy(alloc, self)
    }
}

#[cycle(copy)]
fn copy(alloc: Global, value: &Value<'_>) -> Result<Owned, AllocError>
    ensures { IfOk result (λ copy. owned.view copy ≡ view value.now) }
{
    match value {
        Value::Null => Ok(Owned::Null),
        Value::Bool(holds) => Ok(Owned::Bool(*holds)),
        Value::Number(number) => Ok(Owned::Number(*number)),
        Value::String(text) => Ok(Owned::String(String::from_str(alloc, *text)?)),
        Value::Array(items) => Ok(Owned::Array(copy_items(alloc, items)?)),
        Value::Object(members) => Ok(Owned::Object(copy_members(alloc, members)?)),
    }
}

#[cycle(copy)]
fn copy_items(alloc: Global, items: &Vec<Value<'_>>) -> Result<Vec<Owned>, AllocError>
    ensures { IfOk result (λ copies. owned.items_view copies.items ≡ items_view items.now.items) }
{
    let mut copies = Vec::with_capacity(alloc, items.len())?;
    for item in items {
        copies.push(copy(alloc, item)?)?;
    }
    Ok(copies)
}

#[cycle(copy)]
fn copy_members(
    alloc: Global,
    members: &Vec<(&str, Value<'_>)>,
) -> Result<Map<String, Owned>, AllocError>
    ensures { IfOk result (λ copies. owned.members_view copies.entries ≡ members_view members.now.items) }
{
    let mut copies = Map::new(alloc);
    for member in members {
        let name = String::from_str(alloc, member.0)?;
        drop(copies.insert(name, copy(alloc, &member.1)?)?);
    }
    Ok(copies)
}
