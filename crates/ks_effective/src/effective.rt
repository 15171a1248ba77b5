ghost use Rattle.std.specs.Prelude.{◌≡◌, ◌↔◌, ◌++◌, ℕ, List, IfOk, OnOk};
ghost use Rattle.ks_base.specs.Roles.{Effective};
ghost use Rattle.ks_base.specs.Tables.{id_cmp, Among, IsAscending};
ghost use Rattle.ks_effective.specs.Granted.{roles_granted, roles_to};
ghost use Rattle.ks_effective.specs.State.{rows_of};

use crate::actors::Actors;
use crate::reach::{GrantsOf, Reach};
use ks_assign::Grants;
use ks_base::{Actor, Id, IdList, Memory, Target};
use ks_people::People;
use ks_roles::Roles;
use ks_tree::Tree;
use std::alloc::Global;

/// Which roles are effective for a user on a project or a domain, each once and in the order of their ids: those
/// of the grants that act for the user and reach the target, and all that they imply (Identity API v3, role
/// assignments and implied roles; OS-INHERIT). Whether the user, the target or a role stands is not asked.
pub fn roles_of(
    alloc: Global,
    tree: &Tree,
    people: &People,
    roles: &Roles,
    grants: &Grants,
    user: &Id,
    target: &Target,
) -> Result<IdList, Memory>
    ensures effective { IfOk result (λ ids. (role : List ℕ) → Among ids role ↔ Effective (rows_of tree.now people.now roles.now grants.now) user.now target.now role) }
    ensures ascending { IfOk result (λ ids. IsAscending id_cmp (λ id. id) ids) }
{
    let actors = Actors::of(people, user)?;
    let reach = Reach::of(tree, target)?;
    let granted = granted(alloc, grants, &actors, &reach)?;
    roles.closure(&granted)
}

/// The roles of the grants to these actors that reach the target.
fn granted(alloc: Global, grants: &Grants, actors: &Actors, reach: &Reach) -> Result<IdList, Memory>
    ensures { IfOk result (λ ids. ids ≡ roles_granted grants.now actors.now reach.now) }
{
    let mut roles = IdList::new(alloc);
    add_granted(grants, Actor::User(*actors.user()), reach, &mut roles)?;
    let groups = actors.groups();
    for group in groups {
        add_granted(grants, Actor::Group(*group), reach, &mut roles)?;
    }
    Ok(roles)
}

/// Adds the roles of the grants to this actor that reach the target.
fn add_granted(
    grants: &Grants,
    actor: Actor,
    reach: &Reach,
    roles: &mut IdList,
) -> Result<(), Memory>
    ensures { OnOk result (roles.new ≡ roles.old ++ roles_to grants.now reach.now actor) }
{
    match grants.of_actor(&actor) {
        Some(rows) => GrantsOf { actor, rows }.add_roles(reach, roles),
        None => Ok(()),
    }
}
