//! What grants give one user at all targets (Identity API v3, role assignments).
ghost use Rattle.std.specs.Prelude.{◌≡◌, ◌++◌, false, map, IfOk, OnOk};
ghost use Rattle.std.specs.List.{list_any};
ghost use Rattle.ks_auth.specs.Answers.{rows_told};
ghost use Rattle.ks_base.specs.Ids.{IsId};
ghost use Rattle.ks_base.specs.Rows.{same};
ghost use Rattle.ks_machine.specs.Assignments.{given_to, targets};
ghost use Rattle.ks_base.specs.Grants.{is_of_actor};
ghost use Rattle.ks_base.specs.declared.grants.Actor.TheVariants as actors;

use ks_auth::{Tables, roles_at};
use ks_base::{Actor, GrantList, GrantRow, Id, IdList, MemberRow, Memory, Target, Text};
use ks_effective::targets_of;
use ks_links::RunRows;
use std::alloc::Global;

/// Adds that the user has these roles at the target.
fn add_given(rows: &mut GrantList, user: &Id, at: &Target, roles: &[Id]) -> Result<(), Memory>
    ensures { OnOk result (rows.new ≡ rows.old ++ map (λ role. record { actor = Actor.User user.now; target = at.now; inherited = false; role = role }) roles.now) }
{
    for role in roles {
        let row = GrantRow {
            actor: Actor::User(*user),
            target: *at,
            inherited: false,
            role: *role,
        };
        let _actor = &row.actor;
        rows.push(row)?;
    }
    Ok(())
}

/// What is given to the user at these targets.
#[tactic(auto, unfolding(ks_machine::specs::Assignments::given_to))]
fn given_to(
    alloc: Global,
    tables: &Tables,
    user: &Id,
    targets: &[Target],
) -> Result<GrantList, Memory>
    ensures { IfOk result (λ rows. rows ≡ given_to (rows_told tables.now) user.now targets.now) }
{
    let mut rows = GrantList::new(alloc);
    for at in targets {
        let roles = roles_at(alloc, tables, user, at)?;
        add_given(&mut rows, user, at, roles.as_slice())?;
    }
    Ok(rows)
}

/// What is given to the user at all targets. Only those where it may have roles are looked at.
fn given_at_all(alloc: Global, tables: &Tables, user: &Id) -> Result<GrantList, Memory>
    ensures { IfOk result (λ rows. rows ≡ given_to (rows_told tables.now) user.now (targets (rows_told tables.now))) }
{
    let targets = targets_of(alloc, tables.tree, tables.people, tables.grants, user)?;
    given_to(alloc, tables, user, targets.as_slice())
}

/// No membership names what is no id.
fn none_is_member(members: RunRows<'_, MemberRow>, user: &[u8])
    requires { ¬ IsId user.now }
    ensures { list_any (λ row. same row.user user.now) members.entry ≡ false }
{
    for row in members {
        let _id = row.user.as_slice();
    }
}

/// No grant to a user names what is no id.
fn none_is_granted(grants: RunRows<'_, GrantRow>, user: &[u8])
    requires { ¬ IsId user.now }
    ensures { list_any (is_of_actor (actors.User user.now)) grants.entry ≡ false }
{
    for row in grants {
        let _id = row.actor.id().as_slice();
    }
}

/// What is given to the user at all targets. What is no id has nothing.
#[tactic(auto, using(crate::proofs::NoIds::nothing_given))]
pub fn given_to_text(alloc: Global, tables: &Tables, user: &Text) -> Result<GrantList, Memory>
    ensures { IfOk result (λ rows. rows ≡ given_to (rows_told tables.now) user.now (targets (rows_told tables.now))) }
{
    let bytes = user.as_slice();
    match Id::read(bytes) {
        Ok(user) => given_at_all(alloc, tables, &user),
        Err(_) => {
            none_is_member(tables.people.members(), bytes);
            none_is_granted(tables.grants.iter(), bytes);
            Ok(GrantList::new(alloc))
        }
    }
}
