//! Listings of the catalog (Identity API v3, regions, services and endpoints).
ghost use Rattle.std.specs.Prelude.{◌≡◌, filter, map, IfOk};
ghost use Rattle.ks_base.specs.CatalogLists.{is_endpoint_listed, is_region_listed, is_service_listed};

use ks_base::{Boxed, EndpointRow, Filter, Memory, RegionRow, ServiceRow};
use ks_machine::{Row, RowList};
use std::alloc::Global;

fn is_region_listed(filters: &Filter, row: &RegionRow) -> bool
    ensures { result ≡ is_region_listed filters.now.fields row.now }
{
    filters.has_id("parent_region_id", &row.parent)
}

/// The regions that the filters list.
pub fn regions_listed(
    alloc: Global,
    rows: &[Boxed<RegionRow>],
    filters: &Filter,
) -> Result<RowList, Memory>
    ensures { IfOk result (λ listed. listed ≡ map (λ found. Row.Region found) (filter (is_region_listed filters.now.fields) rows.now)) }
{
    let mut listed = RowList::new(alloc);
    for row in rows {
        let row = row.get();
        if is_region_listed(filters, row) {
            listed.push(Row::Region(row.copy()?))?;
        }
    }
    Ok(listed)
}

fn is_service_listed(filters: &Filter, row: &ServiceRow) -> bool
    ensures { result ≡ is_service_listed filters.now.fields row.now }
{
    filters.has_text("type", row.kind.as_slice()) && filters.has_text("name", row.name.as_slice())
}

/// The services that the filters list.
pub fn services_listed(
    alloc: Global,
    rows: &[Boxed<ServiceRow>],
    filters: &Filter,
) -> Result<RowList, Memory>
    ensures { IfOk result (λ listed. listed ≡ map (λ found. Row.Service found) (filter (is_service_listed filters.now.fields) rows.now)) }
{
    let mut listed = RowList::new(alloc);
    for row in rows {
        let row = row.get();
        if is_service_listed(filters, row) {
            listed.push(Row::Service(row.copy()?))?;
        }
    }
    Ok(listed)
}

fn is_endpoint_listed(filters: &Filter, row: &EndpointRow) -> bool
    ensures { result ≡ is_endpoint_listed filters.now.fields row.now }
{
    filters.has_text("service_id", row.service.as_slice())
        && filters.has_id("region_id", &row.region)
        && filters.has_text("interface", row.interface.word().as_bytes())
}

/// The endpoints that the filters list.
pub fn endpoints_listed(
    alloc: Global,
    rows: &[Boxed<EndpointRow>],
    filters: &Filter,
) -> Result<RowList, Memory>
    ensures { IfOk result (λ listed. listed ≡ map (λ found. Row.Endpoint found) (filter (is_endpoint_listed filters.now.fields) rows.now)) }
{
    let mut listed = RowList::new(alloc);
    for row in rows {
        let row = row.get();
        if is_endpoint_listed(filters, row) {
            listed.push(Row::Endpoint(row.copy()?))?;
        }
    }
    Ok(listed)
}
