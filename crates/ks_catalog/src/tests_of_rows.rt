//! The tests by which rows are looked for and kept.
ghost use Rattle.std.specs.Prelude.{◌≡◌, not};
ghost use Rattle.ks_base.specs.Catalog.{is_below, is_in_region, is_of_service, names_id};
ghost use Rattle.ks_base.specs.CatalogLists.{is_endpoint_listed, is_region_listed, is_service_listed};

use ks_base::{EndpointRow, Filter, Id, RegionRow, ServiceRow, Test};

/// Whether an id is given, and is this one.
fn names_id(id: &Id, given: &Option<Id>) -> bool
    ensures { result ≡ names_id id.now given.now }
{
    match given {
        Some(other) => *other == *id,
        None => false,
    }
}

/// Regions right below this one.
#[derive(Drop)]
pub struct Below<'a> {
    pub parent: &'a Id,
}

impl Test<RegionRow> for Below<'_> {
    ghost test = { λ wanted row. is_below wanted.parent.now row };

    fn test(&self, row: &RegionRow) -> bool {
        names_id(self.parent, &row.parent)
    }
}

/// Endpoints in this region.
#[derive(Drop)]
pub struct InRegion<'a> {
    pub region: &'a Id,
}

impl Test<EndpointRow> for InRegion<'_> {
    ghost test = { λ wanted row. is_in_region wanted.region.now row };

    fn test(&self, row: &EndpointRow) -> bool {
        names_id(self.region, &row.region)
    }
}

/// Endpoints of other services than this one.
#[derive(Drop)]
pub struct OfOthers<'a> {
    pub service: &'a Id,
}

impl Test<EndpointRow> for OfOthers<'_> {
    ghost test = { λ wanted row. not (is_of_service wanted.service.now row) };

    fn test(&self, row: &EndpointRow) -> bool {
        row.service != *self.service
    }
}

/// Rows that a filter lists.
#[derive(Drop)]
pub struct Listed<'a> {
    pub filter: &'a Filter,
}

impl Test<RegionRow> for Listed<'_> {
    ghost test = { λ wanted row. is_region_listed wanted.filter.now.fields row };

    fn test(&self, row: &RegionRow) -> bool {
        self.filter.has_id("parent_region_id", &row.parent)
    }
}

impl Test<ServiceRow> for Listed<'_> {
    ghost test = { λ wanted row. is_service_listed wanted.filter.now.fields row };

    fn test(&self, row: &ServiceRow) -> bool {
        self.filter.has_text("type", row.kind.as_slice())
            && self.filter.has_text("name", row.name.as_slice())
    }
}

impl Test<EndpointRow> for Listed<'_> {
    ghost test = { λ wanted row. is_endpoint_listed wanted.filter.now.fields row };

    fn test(&self, row: &EndpointRow) -> bool {
        self.filter.has_text("service_id", row.service.as_slice())
            && self.filter.has_id("region_id", &row.region)
            && self
                .filter
                .has_text("interface", row.interface.word().as_bytes())
    }
}
