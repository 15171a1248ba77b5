//! The projects on which a user has roles (Identity API v3, projects of a user).
ghost use Rattle.std.specs.Prelude.{◌≡◌, ◌++◌, map, option_map, IfOk, OnOk};
ghost use Rattle.ks_auth.specs.Answers.{rows_told};
ghost use Rattle.ks_checks.specs.Plans.{Plans};
ghost use Rattle.ks_machine.specs.Members.{has_roles, list_projects_of, projects_of};
ghost use Rattle.ks_relations.specs.UserProjects.{counted, project_at, projects_among};

use ks_auth::{Tables, roles_at};
use ks_base::{Id, Memory, ProjectRow, Target};
use ks_checks::checks::standing_user;
use ks_checks::paths::joined;
use ks_checks::{Halt, Plan};
use ks_effective::targets_of;
use ks_machine::{BodyOut, Row, RowKind, RowList};
use std::alloc::Global;

/// The project that a target is, where it stands.
fn project_at<'a>(tables: &'a Tables, at: &Target) -> Option<&'a ProjectRow>
    ensures { option_map (λ row. row.now) result ≡ project_at (rows_told tables.now) at.now }
{
    match at {
        Target::System | Target::Domain(_) => None,
        Target::Project(id) => tables.tree.project(id),
    }
}

/// Whether the user has a role at the target.
fn has_roles(alloc: Global, tables: &Tables, user: &Id, at: &Target) -> Result<bool, Memory>
    ensures { IfOk result (λ has. has ≡ has_roles (rows_told tables.now) user.now at.now) }
{
    let roles = roles_at(alloc, tables, user, at)?;
    Ok(!roles.as_slice().is_empty())
}

/// Adds the row of the target, if that is a project on which the user has roles.
fn add_project(
    alloc: Global,
    tables: &Tables,
    user: &Id,
    at: &Target,
    rows: &mut RowList,
) -> Result<(), Memory>
    ensures { OnOk result (rows.new ≡ rows.old ++ map (λ found. Row.Project found) (counted (project_at (rows_told tables.now) at.now) (has_roles (rows_told tables.now) user.now at.now))) }
{
    let Some(project) = project_at(tables, at) else {
        return Ok(());
    };
    if has_roles(alloc, tables, user, at)? {
        rows.push(Row::Project(project.copy()?))?;
    }
    Ok(())
}

/// The rows of those of the targets that are projects on which the user has roles.
fn rows_among(
    alloc: Global,
    tables: &Tables,
    user: &Id,
    targets: &[Target],
) -> Result<RowList, Memory>
    ensures { IfOk result (λ rows. rows ≡ map (λ found. Row.Project found) (projects_among (rows_told tables.now) user.now targets.now)) }
{
    let mut rows = RowList::new(alloc);
    for at in targets {
        add_project(alloc, tables, user, at, &mut rows)?;
    }
    Ok(rows)
}

/// The rows of the projects on which the user has roles. Only those where it may have some are looked at.
fn projects_found(alloc: Global, tables: &Tables, user: &Id) -> Result<RowList, Memory>
    ensures { IfOk result (λ rows. rows ≡ map (λ found. Row.Project found) (projects_of (rows_told tables.now) user.now)) }
{
    let _ascending = tables.tree.project(user);
    let targets = targets_of(alloc, tables.tree, tables.people, tables.grants, user)?;
    rows_among(alloc, tables, user, targets.as_slice())
}

/// The projects on which the user has roles.
#[inline(never)]
#[tactic(auto, unfolding(ks_machine::specs::Members::list_projects_of))]
pub fn projects_of(alloc: Global, tables: &Tables, user: &Id) -> Result<Plan, Halt>
    ensures { Plans result (list_projects_of (rows_told tables.now) user.now) }
{
    let _user = standing_user(tables, user)?;
    let rows = projects_found(alloc, tables, user)?;
    let path = joined(alloc, "/v3/users/", user.as_str(), "/projects")?;
    Ok(Plan::tells(BodyOut::Many(RowKind::Project, rows, path)))
}
