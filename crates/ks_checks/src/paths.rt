//! The paths of listings.
ghost use Rattle.std.specs.Prelude.{◌≡◌, ◌++◌, IfOk, OnOk, string_bytes};
ghost use Rattle.ks_machine.specs.Members.{actor_path, grants_path, target_path};

use ks_base::{Actor, Id, Memory, Target, Text};
use std::alloc::Global;

fn put(out: &mut String, text: &str) -> Result<(), Memory>
    ensures { OnOk result (string_bytes out.new ≡ string_bytes out.old ++ text.now) }
{
    out.push_str(text)?;
    Ok(())
}

/// The text of three in a row.
pub fn joined(alloc: Global, first: &str, middle: &str, last: &str) -> Result<Text, Memory>
    ensures { IfOk result (λ text. text ≡ first.now ++ (middle.now ++ last.now)) }
{
    let mut out = String::new(alloc);
    put(&mut out, first)?;
    put(&mut out, middle)?;
    put(&mut out, last)?;
    Ok(Text::from_string(out))
}

fn put_target(out: &mut String, at: &Target) -> Result<(), Memory>
    ensures { OnOk result (string_bytes out.new ≡ string_bytes out.old ++ target_path at.now) }
{
    match at {
        Target::Project(id) => {
            put(out, "/projects/")?;
            put(out, id.as_str())
        }
        Target::Domain(id) => {
            put(out, "/domains/")?;
            put(out, id.as_str())
        }
        Target::System => put(out, "/system"),
    }
}

fn put_actor(out: &mut String, who: &Actor) -> Result<(), Memory>
    ensures { OnOk result (string_bytes out.new ≡ string_bytes out.old ++ actor_path who.now) }
{
    match who {
        Actor::User(id) => {
            put(out, "/users/")?;
            put(out, id.as_str())
        }
        Actor::Group(id) => {
            put(out, "/groups/")?;
            put(out, id.as_str())
        }
    }
}

fn grants_between(
    alloc: Global,
    first: &str,
    who: &Actor,
    at: &Target,
    last: &str,
) -> Result<Text, Memory>
    ensures { IfOk result (λ text. text ≡ first.now ++ (target_path at.now ++ (actor_path who.now ++ last.now))) }
{
    let mut out = String::new(alloc);
    put(&mut out, first)?;
    put_target(&mut out, at)?;
    put_actor(&mut out, who)?;
    put(&mut out, last)?;
    Ok(Text::from_string(out))
}

/// The path of the listing of an actor's grants at a target.
pub fn grants_path(alloc: Global, who: &Actor, at: &Target, inherited: bool) -> Result<Text, Memory>
    ensures { IfOk result (λ text. text ≡ grants_path who.now at.now inherited) }
{
    if inherited {
        grants_between(
            alloc,
            "/v3/OS-INHERIT",
            who,
            at,
            "/roles/inherited_to_projects",
        )
    } else {
        grants_between(alloc, "/v3", who, at, "/roles")
    }
}
