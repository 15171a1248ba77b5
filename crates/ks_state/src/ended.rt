//! What a change revokes, in the order in which it is written.
ghost use Rattle.std.specs.Prelude.{◌≡◌, [], ◌∷◌, ◌++◌, map, option_copied, if◌then◌else◌, IfOk, OnOk};
ghost use Rattle.ks_machine.specs.Changes.{domain_ended, project_ended, same_password, user_ended};
ghost use Rattle.ks_state.specs.Ends.{ended_of};

use ks_base::{DomainRow, Id, ListOf, Memory, PasswordRow, ProjectRow, Revoke, UserRow};
use std::alloc::Global;

/// Of what kind are the rows whose tokens end.
#[derive(Clone, Copy)]
pub(crate) enum Ends {
    Project,
    User,
    Trust,
}

fn ended(ends: Ends, id: Id) -> Revoke
    ensures { result ≡ ended_of ends id }
{
    match ends {
        Ends::Project => Revoke::Project(id),
        Ends::User => Revoke::User(id),
        Ends::Trust => Revoke::Trust(id),
    }
}

/// Adds the ends of the rows with these ids.
pub(crate) fn end_each(things: &mut ListOf<Revoke>, ends: Ends, ids: &[Id]) -> Result<(), Memory>
    ensures { OnOk result (things.new ≡ things.old ++ map (ended_of ends) ids.now) }
{
    for id in ids {
        things.push(ended(ends, *id))?;
    }
    Ok(())
}

/// The one thing.
pub(crate) fn one(alloc: Global, thing: Revoke) -> Result<ListOf<Revoke>, Memory>
    ensures { IfOk result (λ things. things ≡ thing ∷ []) }
{
    let mut things = ListOf::new(alloc);
    things.push(thing)?;
    Ok(things)
}

/// The thing, if it ends.
pub(crate) fn one_if(alloc: Global, is_ended: bool, thing: Revoke) -> Result<ListOf<Revoke>, Memory>
    ensures { IfOk result (λ things. things ≡ (if is_ended then thing ∷ [] else [])) }
{
    let mut things = ListOf::new(alloc);
    if is_ended {
        things.push(thing)?;
    }
    Ok(things)
}

/// A domain that is disabled ends.
pub(crate) fn domain_ended(
    alloc: Global,
    standing: Option<&DomainRow>,
    row: &DomainRow,
) -> Result<ListOf<Revoke>, Memory>
    ensures { IfOk result (λ things. things ≡ domain_ended (option_copied standing.entry) row.now) }
{
    match standing {
        Some(old) => one_if(alloc, old.enabled && !row.enabled, Revoke::Domain(row.id)),
        None => Ok(ListOf::new(alloc)),
    }
}

/// A project that is disabled ends.
pub(crate) fn project_ended(
    alloc: Global,
    standing: Option<&ProjectRow>,
    row: &ProjectRow,
) -> Result<ListOf<Revoke>, Memory>
    ensures { IfOk result (λ things. things ≡ project_ended (option_copied standing.entry) row.now) }
{
    match standing {
        Some(old) => one_if(alloc, old.enabled && !row.enabled, Revoke::Project(row.id)),
        None => Ok(ListOf::new(alloc)),
    }
}

/// A user who is disabled, or whose password changes, ends.
pub(crate) fn user_ended(
    alloc: Global,
    standing: Option<&UserRow>,
    row: &UserRow,
) -> Result<ListOf<Revoke>, Memory>
    ensures { IfOk result (λ things. things ≡ user_ended (option_copied standing.entry) row.now) }
{
    match standing {
        Some(old) => {
            let is_ended = !same_password(&old.password, &row.password)
                || (old.enabled && !row.enabled);
            one_if(alloc, is_ended, Revoke::User(row.id))
        }
        None => Ok(ListOf::new(alloc)),
    }
}

fn same_password(old: &Option<PasswordRow>, new: &Option<PasswordRow>) -> bool
    ensures { result ≡ same_password old.now new.now }
{
    match (old, new) {
        (None, None) => true,
        (Some(old), Some(new)) => {
            old.salt == new.salt && (old.digest == new.digest && old.rounds == new.rounds)
        }
        _ => false,
    }
}
