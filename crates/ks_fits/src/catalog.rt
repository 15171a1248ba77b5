//! Changes of the catalog.
ghost use Rattle.ks_fits.specs.Told.{SaysFit};
ghost use Rattle.ks_machine.specs.declared.change.Change.TheVariants as changed;

use crate::ranges::{is_endpoint_in_range, is_region_in_range, is_service_in_range};
use ks_auth::Tables;
use ks_base::{EndpointRow, Id, RegionRow, ServiceRow};

/// Whether the region may be put.
#[tactic(auto, unfolding(ks_machine::specs::Lawful::Fits))]
pub fn may_put_region(tables: &Tables, row: &RegionRow) -> bool
    ensures { SaysFit tables.now result (changed.PutRegion row.now) }
{
    let is_taken = match tables.catalog.region(&row.id) {
        Some(standing) => {
            row.parent == standing.parent && tables.catalog.may_set_region(row).is_ok()
        }
        None => tables.catalog.may_add_region(row).is_ok(),
    };
    is_taken && is_region_in_range(row)
}

/// Whether the service may be put.
#[tactic(auto, unfolding(ks_machine::specs::Lawful::Fits))]
pub fn may_put_service(tables: &Tables, row: &ServiceRow) -> bool
    ensures { SaysFit tables.now result (changed.PutService row.now) }
{
    let taken = match tables.catalog.service(&row.id) {
        Some(_) => tables.catalog.may_set_service(row),
        None => tables.catalog.may_add_service(row),
    };
    taken.is_ok() && is_service_in_range(row)
}

/// Whether the endpoint may be put.
#[tactic(auto, unfolding(ks_machine::specs::Lawful::Fits))]
pub fn may_put_endpoint(tables: &Tables, row: &EndpointRow) -> bool
    ensures { SaysFit tables.now result (changed.PutEndpoint row.now) }
{
    let is_taken = match tables.catalog.endpoint(&row.id) {
        Some(standing) => {
            row.service == standing.service && tables.catalog.may_set_endpoint(row).is_ok()
        }
        None => tables.catalog.may_add_endpoint(row).is_ok(),
    };
    is_taken && is_endpoint_in_range(row)
}

/// Whether the region may be dropped.
#[tactic(auto, unfolding(ks_machine::specs::Lawful::Fits))]
pub fn may_drop_region(tables: &Tables, id: &Id) -> bool
    ensures { SaysFit tables.now result (changed.DropRegion id.now) }
{
    tables.catalog.may_drop_region(id).is_ok()
}

/// Whether the service may be dropped.
#[tactic(auto, unfolding(ks_machine::specs::Lawful::Fits))]
pub fn may_drop_service(tables: &Tables, id: &Id) -> bool
    ensures { SaysFit tables.now result (changed.DropService id.now) }
{
    tables.catalog.service_stands(id).is_ok()
}

/// Whether the endpoint may be dropped.
#[tactic(auto, unfolding(ks_machine::specs::Lawful::Fits))]
pub fn may_drop_endpoint(tables: &Tables, id: &Id) -> bool
    ensures { SaysFit tables.now result (changed.DropEndpoint id.now) }
{
    tables.catalog.endpoint_stands(id).is_ok()
}
