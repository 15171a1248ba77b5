//! One row, and deletions, of the kinds of rows that have routes of their own (Identity API v3).
ghost use Rattle.std.specs.Prelude.{◌≡◌, Some, Ok};
ghost use Rattle.ks_auth.specs.Answers.{rows_told};
ghost use Rattle.ks_machine.specs.Listings.{delete, get, row_at};
ghost use Rattle.ks_checks.specs.Plans.{Gives, Plans};

use ks_auth::Tables;
use ks_base::Id;
use ks_checks::checks::{
    catalog, standing_domain, standing_endpoint, standing_group, standing_project, standing_region,
    standing_role, standing_service, standing_user,
};
use ks_checks::puts::dropped;
use ks_checks::{Halt, Plan};
use ks_machine::{BodyOut, Change, Row, RowKind};
use std::alloc::Global;

/// The row of the kind with this id, which must stand.
#[tactic(auto, unfolding(ks_machine::specs::Listings::row_at))]
fn row_at(tables: &Tables, kind: RowKind, id: &Id) -> Result<Row, Halt>
    ensures { Gives (λ row. row) result (row_at (rows_told tables.now) kind id.now) }
{
    match kind {
        RowKind::Domain => Ok(Row::Domain(standing_domain(tables, id)?.copy()?)),
        RowKind::Project => Ok(Row::Project(standing_project(tables, id)?.copy()?)),
        RowKind::User => Ok(Row::User(standing_user(tables, id)?.copy()?)),
        RowKind::Group => Ok(Row::Group(standing_group(tables, id)?.copy()?)),
        RowKind::Role => Ok(Row::Role(standing_role(tables, id)?.copy()?)),
        RowKind::Region => Ok(Row::Region(standing_region(tables, id)?.copy()?)),
        RowKind::Service => Ok(Row::Service(standing_service(tables, id)?.copy()?)),
        RowKind::Endpoint => Ok(Row::Endpoint(standing_endpoint(tables, id)?.copy()?)),
    }
}

#[inline(never)]
#[tactic(auto, unfolding(ks_machine::specs::Listings::get))]
pub fn get(alloc: Global, tables: &Tables, kind: RowKind, id: &Id) -> Result<Plan, Halt>
    ensures { Plans result (get (rows_told tables.now) kind id.now) }
{
    let row = row_at(tables, kind, id)?;
    Ok(Plan::tells(BodyOut::one(alloc, row, false)?))
}

/// The row goes, with all that hangs on it.
fn drops(change: Change) -> Result<Plan, Halt>
    ensures { result ≡ Ok (record { told = BodyOut.Nothing; change = Some change }) }
{
    Ok(Plan::changes(change, BodyOut::Nothing))
}

#[inline(never)]
#[tactic(auto, unfolding(ks_machine::specs::Listings::delete))]
pub fn delete(tables: &Tables, kind: RowKind, id: &Id) -> Result<Plan, Halt>
    ensures { Plans result (delete (rows_told tables.now) kind id.now) }
{
    match kind {
        RowKind::Domain => dropped(tables.tree.may_drop_domain(id), Change::DropDomain(*id)),
        RowKind::Project => dropped(tables.tree.may_drop_project(id), Change::DropProject(*id)),
        RowKind::User => {
            let _user = standing_user(tables, id)?;
            drops(Change::DropUser(*id))
        }
        RowKind::Group => {
            let _group = standing_group(tables, id)?;
            drops(Change::DropGroup(*id))
        }
        RowKind::Role => {
            let _role = standing_role(tables, id)?;
            drops(Change::DropRole(*id))
        }
        RowKind::Region => {
            catalog(tables.catalog.may_drop_region(id))?;
            drops(Change::DropRegion(*id))
        }
        RowKind::Service => {
            let _service = standing_service(tables, id)?;
            drops(Change::DropService(*id))
        }
        RowKind::Endpoint => {
            let _endpoint = standing_endpoint(tables, id)?;
            drops(Change::DropEndpoint(*id))
        }
    }
}
