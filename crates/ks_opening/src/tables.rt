//! Tables that are made of the rows of a file, in any order.
ghost use Rattle.std.specs.Prelude.{◌≡◌, IfOk};
ghost use Rattle.ks_base.specs.Tables.{id_cmp, put_row};
ghost use Rattle.ks_machine.specs.Opened.{put_all};
ghost use Rattle.ks_opening.specs.steps.Indexed.{AreApart};
ghost use Rattle.ks_opening.specs.steps.Tables.{catalog_with, grants_with, people_with, roles_with, tree_with};

use ks_assign::Grants;
use ks_base::{
    DomainList, EndpointList, GrantList, GroupList, IdTable, ImplyList, InRuns, ListOf, MemberList,
    Memory, Named, Ordered, ProjectList, RegionList, RoleList, Row, RowSet, ServiceList, UserList,
};
use ks_catalog::Catalog;
use ks_index::Table;
use ks_links::RunSet;
use ks_people::People;
use ks_roles::Roles;
use ks_tree::Tree;
use std::alloc::Global;

/// The table of rows of which no two have one id, found by their ids alone. They go in by rising ids, so that each comes behind
/// those that stand.
fn id_table_of<R: Row>(alloc: Global, rows: ListOf<R>) -> Result<IdTable<R>, Memory>
    requires { AreApart id_cmp R.key rows }
    ensures { IfOk result (λ table. table ≡ put_all (put_row id_cmp R.key) rows) }
{
    let mut rows = rows.into_vec();
    rows.sort_unstable_by(|a, b| b.id().cmp(a.id()));
    let mut table = IdTable::new(alloc);
    while let Some(row) = rows.pop() {
        table.put(row)?;
    }
    Ok(table)
}

/// The same of rows that are found by their names too, whose index is made once they stand.
fn table_of<R: Named>(alloc: Global, rows: ListOf<R>) -> Result<Table<R>, Memory>
    requires { AreApart id_cmp R.key rows }
    ensures { IfOk result (λ table. table ≡ put_all (put_row id_cmp R.key) rows) }
{
    Table::from_rows(alloc, id_table_of(alloc, rows)?.into_rows())
}

/// The set of these rows, each once. They go in by their order, so that each comes behind those that stand.
fn set_of<R: Ordered>(alloc: Global, rows: ListOf<R>) -> Result<RowSet<R>, Memory>
    ensures { IfOk result (λ set. set ≡ put_all (put_row R.cmp (λ row. row)) rows) }
{
    let mut rows = rows.into_vec();
    rows.sort_unstable_by(|a, b| b.compare(a));
    let mut set = RowSet::new(alloc);
    while let Some(row) = rows.pop() {
        let _new = set.add(row)?;
    }
    Ok(set)
}

/// The same of rows that stand in runs.
fn run_set_of<R: InRuns>(alloc: Global, rows: ListOf<R>) -> Result<RunSet<R>, Memory>
    ensures { IfOk result (λ set. set ≡ put_all (put_row R.cmp (λ row. row)) rows) }
{
    let mut rows = rows.into_vec();
    rows.sort_unstable_by(|a, b| b.compare(a));
    let mut set = RunSet::new(alloc);
    while let Some(row) = rows.pop() {
        let _new = set.add(row)?;
    }
    Ok(set)
}

/// The trees of these domains and projects.
fn tree_of(alloc: Global, domains: DomainList, projects: ProjectList) -> Result<Tree, Memory>
    requires domains { AreApart id_cmp (λ row. row.id) domains }
    requires projects { AreApart id_cmp (λ row. row.id) projects }
    ensures { IfOk result (λ tree. tree ≡ tree_with domains projects) }
{
    let domains = table_of(alloc, domains)?;
    let projects = table_of(alloc, projects)?;
    Ok(Tree::from_tables(alloc, domains, projects))
}

/// These users and groups, and their memberships.
fn people_of(
    alloc: Global,
    users: UserList,
    groups: GroupList,
    members: MemberList,
) -> Result<People, Memory>
    requires users { AreApart id_cmp (λ row. row.id) users }
    requires groups { AreApart id_cmp (λ row. row.id) groups }
    ensures { IfOk result (λ people. people ≡ people_with users groups members) }
{
    let users = table_of(alloc, users)?;
    let groups = table_of(alloc, groups)?;
    let members = run_set_of(alloc, members)?;
    People::from_tables(alloc, users, groups, members)
}

/// These roles, and their implications.
fn roles_of(alloc: Global, roles: RoleList, implications: ImplyList) -> Result<Roles, Memory>
    requires { AreApart id_cmp (λ row. row.id) roles }
    ensures { IfOk result (λ all. all ≡ roles_with roles implications) }
{
    let roles = table_of(alloc, roles)?;
    let implications = set_of(alloc, implications)?;
    Ok(Roles::from_tables(alloc, roles, implications))
}

/// These grants.
fn grants_of(alloc: Global, rows: GrantList) -> Result<Grants, Memory>
    ensures { IfOk result (λ grants. grants ≡ grants_with rows) }
{
    Grants::from_rows(alloc, run_set_of(alloc, rows)?)
}

/// The trees of these domains and projects, and these users and groups with their memberships.
pub(crate) fn parties_of(
    alloc: Global,
    domains: DomainList,
    projects: ProjectList,
    users: UserList,
    groups: GroupList,
    members: MemberList,
) -> Result<(Tree, People), Memory>
    requires domains { AreApart id_cmp (λ row. row.id) domains }
    requires projects { AreApart id_cmp (λ row. row.id) projects }
    requires users { AreApart id_cmp (λ row. row.id) users }
    requires groups { AreApart id_cmp (λ row. row.id) groups }
    ensures tree { IfOk result (λ made. made.0 ≡ tree_with domains projects) }
    ensures people { IfOk result (λ made. made.1 ≡ people_with users groups members) }
{
    let tree = tree_of(alloc, domains, projects)?;
    let people = people_of(alloc, users, groups, members)?;
    Ok((tree, people))
}

/// These roles with their implications, and these grants.
pub(crate) fn rights_of(
    alloc: Global,
    roles: RoleList,
    implications: ImplyList,
    assignments: GrantList,
) -> Result<(Roles, Grants), Memory>
    requires { AreApart id_cmp (λ row. row.id) roles }
    ensures roles { IfOk result (λ made. made.0 ≡ roles_with roles implications) }
    ensures grants { IfOk result (λ made. made.1 ≡ grants_with assignments) }
{
    let roles = roles_of(alloc, roles, implications)?;
    let grants = grants_of(alloc, assignments)?;
    Ok((roles, grants))
}

/// The catalog of these regions, services and endpoints.
pub(crate) fn catalog_of(
    alloc: Global,
    regions: RegionList,
    services: ServiceList,
    endpoints: EndpointList,
) -> Result<Catalog, Memory>
    requires regions { AreApart id_cmp (λ row. row.id) regions }
    requires services { AreApart id_cmp (λ row. row.id) services }
    requires endpoints { AreApart id_cmp (λ row. row.id) endpoints }
    ensures { IfOk result (λ catalog. catalog ≡ catalog_with regions services endpoints) }
{
    let regions = id_table_of(alloc, regions)?;
    let services = id_table_of(alloc, services)?;
    let endpoints = id_table_of(alloc, endpoints)?;
    Ok(Catalog::from_tables(alloc, regions, services, endpoints))
}
