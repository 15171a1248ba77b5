//! Listings of the kinds of rows that have routes of their own (Identity API v3): a row is listed where all filters that
//! are given agree.
ghost use Rattle.std.specs.Prelude.{◌≡◌, filter, map, IfOk};
ghost use Rattle.ks_auth.specs.Answers.{rows_told};
ghost use Rattle.ks_machine.specs.Attempts.{Go};
ghost use Rattle.ks_machine.specs.Listings.{is_domain_listed, is_group_listed, is_project_listed, is_role_listed, is_user_listed, list, path_of_kind, rows_listed};
ghost use Rattle.ks_checks.specs.Plans.{Plans};

use crate::by_name::listed_on;
use crate::catalog_listings::{endpoints_listed, regions_listed, services_listed};
use ks_auth::Tables;
use ks_base::{DomainRow, FieldList, Filter, GroupRow, Memory, ProjectRow, RoleRow, Text, UserRow};
use ks_checks::{Halt, Plan};
use ks_machine::{BodyOut, Row, RowKind, RowList};
use ks_people::People;
use ks_roles::Roles;
use ks_tree::Tree;
use std::alloc::Global;

fn domains_listed(alloc: Global, tree: &Tree, fields: &FieldList) -> Result<RowList, Memory>
    ensures { IfOk result (λ listed. listed ≡ map (λ found. Row.Domain found) (filter (is_domain_listed fields.now) tree.now.domains)) }
{
    listed_on::<DomainRow, Tree>(alloc, tree, fields)
}

fn projects_listed(alloc: Global, tree: &Tree, fields: &FieldList) -> Result<RowList, Memory>
    ensures { IfOk result (λ listed. listed ≡ map (λ found. Row.Project found) (filter (is_project_listed fields.now) tree.now.projects)) }
{
    listed_on::<ProjectRow, Tree>(alloc, tree, fields)
}

fn users_listed(alloc: Global, people: &People, fields: &FieldList) -> Result<RowList, Memory>
    ensures { IfOk result (λ listed. listed ≡ map (λ found. Row.User found) (filter (is_user_listed fields.now) people.now.users)) }
{
    listed_on::<UserRow, People>(alloc, people, fields)
}

fn groups_listed(alloc: Global, people: &People, fields: &FieldList) -> Result<RowList, Memory>
    ensures { IfOk result (λ listed. listed ≡ map (λ found. Row.Group found) (filter (is_group_listed fields.now) people.now.groups)) }
{
    listed_on::<GroupRow, People>(alloc, people, fields)
}

fn roles_listed(alloc: Global, roles: &Roles, fields: &FieldList) -> Result<RowList, Memory>
    ensures { IfOk result (λ listed. listed ≡ map (λ found. Row.Role found) (filter (is_role_listed fields.now) roles.now.roles)) }
{
    listed_on::<RoleRow, Roles>(alloc, roles, fields)
}

/// The rows of the kind that the filters list.
#[tactic(auto, unfolding(ks_machine::specs::Listings::rows_listed))]
fn rows_listed(
    alloc: Global,
    tables: &Tables,
    kind: RowKind,
    filters: &Filter,
) -> Result<RowList, Memory>
    ensures { IfOk result (λ listed. listed ≡ rows_listed (rows_told tables.now) kind filters.now.fields) }
{
    let fields = &filters.fields;
    match kind {
        RowKind::Domain => domains_listed(alloc, tables.tree, fields),
        RowKind::Project => projects_listed(alloc, tables.tree, fields),
        RowKind::User => users_listed(alloc, tables.people, fields),
        RowKind::Group => groups_listed(alloc, tables.people, fields),
        RowKind::Role => roles_listed(alloc, tables.roles, fields),
        RowKind::Region => regions_listed(alloc, tables.catalog.regions(), filters),
        RowKind::Service => services_listed(alloc, tables.catalog.services(), filters),
        RowKind::Endpoint => endpoints_listed(alloc, tables.catalog.endpoints(), filters),
    }
}

/// The path of the listing of a kind.
fn path_of_kind(alloc: Global, kind: RowKind) -> Result<Text, Memory>
    ensures { IfOk result (λ path. path ≡ path_of_kind kind) }
{
    let mut path = String::new(alloc);
    path.push_str("/v3/")?;
    path.push_str(kind.words())?;
    Ok(Text::from_string(path))
}

/// The rows of a kind that pass the filters.
#[inline(never)]
#[tactic(auto, unfolding(ks_machine::specs::Listings::list))]
pub fn list(alloc: Global, tables: &Tables, kind: RowKind, filters: &Filter) -> Result<Plan, Halt>
    ensures { Plans result (Go (list (rows_told tables.now) kind filters.now)) }
{
    let listed = rows_listed(alloc, tables, kind, filters)?;
    let path = path_of_kind(alloc, kind)?;
    Ok(Plan::tells(BodyOut::Many(kind, listed, path)))
}
