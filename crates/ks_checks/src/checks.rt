//! Refusals of tables as causes, and rows that must stand.
ghost use Rattle.std.specs.Prelude.{Some, Ok, Err};
ghost use Rattle.ks_base.specs.Refusals.{fault_in};
ghost use Rattle.ks_auth.specs.Answers.{rows_told};
ghost use Rattle.ks_machine.specs.Attempts.{need};
ghost use Rattle.ks_machine.specs.Tables.{standing_cred, standing_domain, standing_endpoint, standing_group, standing_project, standing_region, standing_role, standing_secret, standing_service, standing_user, unless_catalog, unless_row, unless_tree};
ghost use Rattle.ks_checks.specs.Plans.{Gives, Passes};

use crate::Halt;
use ks_auth::Tables;
use ks_base::{
    AppCredRow, CatalogFault, DomainRow, EndpointRow, GroupRow, Id, Kind, ProjectRow, RegionRow,
    RoleRow, RowFault, SecretRow, ServiceRow, TreeFault, UserRow,
};
use ks_machine::Cause;

/// Goes on, unless the tree refuses.
pub fn tree(checked: Result<(), TreeFault>) -> Result<(), Halt>
    ensures { Passes result (unless_tree (fault_in checked)) }
{
    match &checked {
        Ok(()) => Ok(()),
        Err(fault) => Err(tree_halt(fault)),
    }
}

fn tree_halt(fault: &TreeFault) -> Halt
    ensures { Passes (Err result) (unless_tree (Some fault.now)) }
{
    match fault {
        TreeFault::Memory => Halt::Memory,
        TreeFault::Absent(kind, id) => Halt::Refused(Cause::Absent(*kind, *id)),
        TreeFault::NameTaken(id) => Halt::Refused(Cause::NameTaken(*id)),
        TreeFault::Full(kind) => Halt::Refused(Cause::Full(*kind)),
        TreeFault::IdTaken(id) => Halt::Refused(Cause::IdTaken(*id)),
        TreeFault::NoParent(id) => Halt::Refused(Cause::Tree(TreeFault::NoParent(*id))),
        TreeFault::TooDeep => Halt::Refused(Cause::Tree(TreeFault::TooDeep)),
        TreeFault::HasChildren(id) => Halt::Refused(Cause::Tree(TreeFault::HasChildren(*id))),
        TreeFault::EnabledBelow(id) => Halt::Refused(Cause::Tree(TreeFault::EnabledBelow(*id))),
        TreeFault::DisabledAbove(id) => Halt::Refused(Cause::Tree(TreeFault::DisabledAbove(*id))),
        TreeFault::DomainEnabled => Halt::Refused(Cause::Tree(TreeFault::DomainEnabled)),
    }
}

/// Goes on, unless a table of rows refuses.
pub fn row(checked: Result<(), RowFault>) -> Result<(), Halt>
    ensures { Passes result (unless_row (fault_in checked)) }
{
    match &checked {
        Ok(()) => Ok(()),
        Err(fault) => Err(row_halt(fault)),
    }
}

fn row_halt(fault: &RowFault) -> Halt
    ensures { Passes (Err result) (unless_row (Some fault.now)) }
{
    match fault {
        RowFault::Memory => Halt::Memory,
        RowFault::Absent(kind, id) => Halt::Refused(Cause::Absent(*kind, *id)),
        RowFault::Prohibited => Halt::Refused(Cause::Prohibited),
        RowFault::NameTaken(id) => Halt::Refused(Cause::NameTaken(*id)),
        RowFault::Full(kind) => Halt::Refused(Cause::Full(*kind)),
        RowFault::IdTaken(id) => Halt::Refused(Cause::IdTaken(*id)),
    }
}

/// Goes on, unless the catalog refuses.
pub fn catalog(checked: Result<(), CatalogFault>) -> Result<(), Halt>
    ensures { Passes result (unless_catalog (fault_in checked)) }
{
    match &checked {
        Ok(()) => Ok(()),
        Err(fault) => Err(catalog_halt(fault)),
    }
}

/// A region with something in it is refused as a project with others below it is.
fn catalog_halt(fault: &CatalogFault) -> Halt
    ensures { Passes (Err result) (unless_catalog (Some fault.now)) }
{
    match fault {
        CatalogFault::Memory => Halt::Memory,
        CatalogFault::Absent(kind, id) => Halt::Refused(Cause::Absent(*kind, *id)),
        CatalogFault::HasChildren(id) => Halt::Refused(Cause::Tree(TreeFault::HasChildren(*id))),
        CatalogFault::Full(kind) => Halt::Refused(Cause::Full(*kind)),
        CatalogFault::IdTaken(id) => Halt::Refused(Cause::IdTaken(*id)),
    }
}

/// Goes on where this holds.
pub fn need(holds: bool, cause: Cause) -> Result<(), Halt>
    ensures { Passes result (need holds cause) }
{
    if holds {
        Ok(())
    } else {
        Err(Halt::Refused(cause))
    }
}

/// The domain with this id, which must stand.
pub fn standing_domain<'a>(tables: &Tables<'a>, id: &Id) -> Result<&'a DomainRow, Halt>
    ensures { Gives (λ row. row.now) result (standing_domain (rows_told tables.now) id.now) }
{
    match tables.tree.domain(id) {
        Some(row) => Ok(row),
        None => Err(Halt::Refused(Cause::Absent(Kind::Domain, *id))),
    }
}

/// The project with this id, which must stand.
pub fn standing_project<'a>(tables: &Tables<'a>, id: &Id) -> Result<&'a ProjectRow, Halt>
    ensures { Gives (λ row. row.now) result (standing_project (rows_told tables.now) id.now) }
{
    match tables.tree.project(id) {
        Some(row) => Ok(row),
        None => Err(Halt::Refused(Cause::Absent(Kind::Project, *id))),
    }
}

/// The user with this id, which must stand.
pub fn standing_user<'a>(tables: &Tables<'a>, id: &Id) -> Result<&'a UserRow, Halt>
    ensures { Gives (λ row. row.now) result (standing_user (rows_told tables.now) id.now) }
{
    match tables.people.user(id) {
        Some(row) => Ok(row),
        None => Err(Halt::Refused(Cause::Absent(Kind::User, *id))),
    }
}

/// The group with this id, which must stand.
pub fn standing_group<'a>(tables: &Tables<'a>, id: &Id) -> Result<&'a GroupRow, Halt>
    ensures { Gives (λ row. row.now) result (standing_group (rows_told tables.now) id.now) }
{
    match tables.people.group(id) {
        Some(row) => Ok(row),
        None => Err(Halt::Refused(Cause::Absent(Kind::Group, *id))),
    }
}

/// The role with this id, which must stand.
pub fn standing_role<'a>(tables: &Tables<'a>, id: &Id) -> Result<&'a RoleRow, Halt>
    ensures { Gives (λ row. row.now) result (standing_role (rows_told tables.now) id.now) }
{
    match tables.roles.role(id) {
        Some(row) => Ok(row),
        None => Err(Halt::Refused(Cause::Absent(Kind::Role, *id))),
    }
}

/// The region with this id, which must stand.
pub fn standing_region<'a>(tables: &Tables<'a>, id: &Id) -> Result<&'a RegionRow, Halt>
    ensures { Gives (λ row. row.now) result (standing_region (rows_told tables.now) id.now) }
{
    match tables.catalog.region(id) {
        Some(row) => Ok(row),
        None => Err(Halt::Refused(Cause::Absent(Kind::Region, *id))),
    }
}

/// The service with this id, which must stand.
pub fn standing_service<'a>(tables: &Tables<'a>, id: &Id) -> Result<&'a ServiceRow, Halt>
    ensures { Gives (λ row. row.now) result (standing_service (rows_told tables.now) id.now) }
{
    match tables.catalog.service(id) {
        Some(row) => Ok(row),
        None => Err(Halt::Refused(Cause::Absent(Kind::Service, *id))),
    }
}

/// The endpoint with this id, which must stand.
pub fn standing_endpoint<'a>(tables: &Tables<'a>, id: &Id) -> Result<&'a EndpointRow, Halt>
    ensures { Gives (λ row. row.now) result (standing_endpoint (rows_told tables.now) id.now) }
{
    match tables.catalog.endpoint(id) {
        Some(row) => Ok(row),
        None => Err(Halt::Refused(Cause::Absent(Kind::Endpoint, *id))),
    }
}

/// The secret of one-time codes with this id, which must stand.
pub fn standing_secret<'a>(tables: &Tables<'a>, id: &Id) -> Result<&'a SecretRow, Halt>
    ensures { Gives (λ row. row.now) result (standing_secret (rows_told tables.now) id.now) }
{
    match tables.factors.secret(id) {
        Some(row) => Ok(row),
        None => Err(Halt::Refused(Cause::Absent(Kind::Secret, *id))),
    }
}

/// The application credential of this user with this id, which must stand; that of another user does not.
pub fn standing_cred<'a>(tables: &Tables<'a>, user: &Id, id: &Id) -> Result<&'a AppCredRow, Halt>
    ensures { Gives (λ row. row.now) result (standing_cred (rows_told tables.now) user.now id.now) }
{
    match tables.app_creds.row(id) {
        Some(row) if row.user == *user => Ok(row),
        Some(_) | None => Err(Halt::Refused(Cause::Absent(Kind::AppCred, *id))),
    }
}
