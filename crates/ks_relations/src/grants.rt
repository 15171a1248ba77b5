//! Grants of roles (Identity API v3; OS-INHERIT). A grant that stands is no change and no refusal.
ghost use Rattle.std.specs.Prelude.{◌≡◌, filter, IfOk};
ghost use Rattle.ks_auth.specs.Answers.{rows_told};
ghost use Rattle.ks_machine.specs.Members.{actor_stands, all_stand, grant, grants_of, has_grant, is_granted, target_stands, ungrant};
ghost use Rattle.ks_checks.specs.Plans.{Passes, Plans};

use crate::members::unless_standing;
use ks_auth::Tables;
use ks_base::{Actor, GrantRow, Memory, RoleList, RoleRow, Target};
use ks_checks::checks::{
    row, standing_domain, standing_group, standing_project, standing_role, standing_user,
};
use ks_checks::paths::grants_path;
use ks_checks::{Halt, Plan};
use ks_machine::{BodyOut, Change};
use std::alloc::Global;

/// Goes on where the target stands.
#[tactic(auto, unfolding(ks_machine::specs::Members::target_stands))]
fn target_stands(tables: &Tables, at: &Target) -> Result<(), Halt>
    ensures { Passes result (target_stands (rows_told tables.now) at.now) }
{
    match at {
        Target::Project(id) => {
            let _project = standing_project(tables, id)?;
            Ok(())
        }
        Target::Domain(id) => {
            let _domain = standing_domain(tables, id)?;
            Ok(())
        }
        Target::System => Ok(()),
    }
}

/// Goes on where the actor stands.
#[tactic(auto, unfolding(ks_machine::specs::Members::actor_stands))]
fn actor_stands(tables: &Tables, who: &Actor) -> Result<(), Halt>
    ensures { Passes result (actor_stands (rows_told tables.now) who.now) }
{
    match who {
        Actor::User(id) => {
            let _user = standing_user(tables, id)?;
            Ok(())
        }
        Actor::Group(id) => {
            let _group = standing_group(tables, id)?;
            Ok(())
        }
    }
}

/// Goes on where all stands that a grant names.
#[tactic(auto, unfolding(ks_machine::specs::Members::all_stand))]
fn all_stand(tables: &Tables, granted: &GrantRow) -> Result<(), Halt>
    ensures { Passes result (all_stand (rows_told tables.now) granted.now) }
{
    target_stands(tables, &granted.target)?;
    actor_stands(tables, &granted.actor)?;
    let _role = standing_role(tables, &granted.role)?;
    Ok(())
}

/// The roles that are granted to the actor at the target.
fn roles_granted(
    alloc: Global,
    tables: &Tables,
    who: &Actor,
    at: &Target,
    inherited: bool,
) -> Result<RoleList, Memory>
    ensures { IfOk result (λ found. found ≡ filter (λ role. has_grant (rows_told tables.now) who.now at.now inherited role.id) tables.now.roles.now.roles) }
{
    let mut found = RoleList::new(alloc);
    for role in tables.roles.roles() {
        if has_grant(tables, who, at, inherited, role) {
            found.push(role.copy()?)?;
        }
    }
    Ok(found)
}

fn has_grant(tables: &Tables, who: &Actor, at: &Target, inherited: bool, role: &RoleRow) -> bool
    ensures { result ≡ has_grant (rows_told tables.now) who.now at.now inherited role.now.id }
{
    tables.grants.has(&GrantRow {
        actor: *who,
        target: *at,
        inherited,
        role: role.id,
    })
}

#[inline(never)]
#[tactic(auto, unfolding(ks_machine::specs::Members::grants_of))]
pub fn grants_of(
    alloc: Global,
    tables: &Tables,
    who: &Actor,
    at: &Target,
    inherited: bool,
) -> Result<Plan, Halt>
    ensures { Plans result (grants_of (rows_told tables.now) who.now at.now inherited) }
{
    target_stands(tables, at)?;
    actor_stands(tables, who)?;
    let found = roles_granted(alloc, tables, who, at, inherited)?;
    let path = grants_path(alloc, who, at, inherited)?;
    Ok(Plan::tells(BodyOut::Grants(found, path)))
}

#[inline(never)]
#[tactic(auto, unfolding(ks_machine::specs::Members::grant))]
pub fn grant(tables: &Tables, granted: &GrantRow) -> Result<Plan, Halt>
    ensures { Plans result (grant (rows_told tables.now) granted.now) }
{
    all_stand(tables, granted)?;
    row(tables.grants.may_grant(granted))?;
    let stands = tables.grants.has(granted);
    Ok(unless_standing(stands, Change::Grant(*granted), BodyOut::Nothing))
}

#[inline(never)]
#[tactic(auto, unfolding(ks_machine::specs::Members::is_granted))]
pub fn is_granted(tables: &Tables, granted: &GrantRow) -> Result<Plan, Halt>
    ensures { Plans result (is_granted (rows_told tables.now) granted.now) }
{
    all_stand(tables, granted)?;
    row(tables.grants.may_ungrant(granted))?;
    Ok(Plan::tells(BodyOut::Nothing))
}

#[inline(never)]
#[tactic(auto, unfolding(ks_machine::specs::Members::ungrant))]
pub fn ungrant(tables: &Tables, granted: &GrantRow) -> Result<Plan, Halt>
    ensures { Plans result (ungrant (rows_told tables.now) granted.now) }
{
    let _told = is_granted(tables, granted)?;
    Ok(Plan::changes(Change::Ungrant(*granted), BodyOut::Nothing))
}
