ghost use Rattle.std.specs.Prelude.{◌≡◌, [], option_copied};
ghost use Rattle.ks_base.specs.Catalog.{region_of, service_of, endpoint_of};
ghost use Rattle.ks_base.specs.Tables.{id_cmp, IsAscending};

use crate::offers::ServiceOutList;
use crate::shared::Shared;
use ks_base::{Boxed, EndpointRow, Id, IdTable, RegionRow, ServiceRow};
use std::alloc::Global;
use std::marker::Model;

/// Regions, services and endpoints.
pub struct Catalog {
    pub(crate) alloc: Global,
    pub(crate) regions: IdTable<RegionRow>,
    pub(crate) services: IdTable<ServiceRow>,
    pub(crate) endpoints: IdTable<EndpointRow>,
    /// What all projects are offered of these; none, where it was not made since a service or an endpoint changed.
    pub(crate) offers: Option<Shared<ServiceOutList>>,
}

impl Drop for Catalog {
    fn drop(self) {
        let Catalog {
            alloc: _,
            regions: _,
            services: _,
            endpoints: _,
            offers: _,
        } = self;
    }
}

impl Model for Catalog {
    ghost use Rattle.std.specs.Prelude.{◌≡◌, IfSome};
    ghost use Rattle.ks_base.specs.Catalog.{CatalogState};
    ghost use Rattle.ks_catalog.specs.Offers.{offers_of};

    ghost Value = { CatalogState };

    ghost view = { λ all. record { regions = all.regions; services = all.services; endpoints = all.endpoints } };

    ghost invariant = { λ all. IfSome all.offers (λ offers. offers ≡ offers_of all.endpoints all.services) };
}

impl Catalog {
    /// A catalog without rows, which takes no memory yet.
    pub fn new(alloc: Global) -> Catalog
        ensures { result ≡ record { regions = []; services = []; endpoints = [] } }
    {
        Catalog {
            alloc,
            regions: IdTable::new(alloc),
            services: IdTable::new(alloc),
            endpoints: IdTable::new(alloc),
            offers: None,
        }
    }

    /// The catalog of these rows.
    pub fn from_tables(
        alloc: Global,
        regions: IdTable<RegionRow>,
        services: IdTable<ServiceRow>,
        endpoints: IdTable<EndpointRow>,
    ) -> Catalog
        ensures { result ≡ record { regions = regions; services = services; endpoints = endpoints } }
    {
        Catalog {
            alloc,
            regions,
            services,
            endpoints,
            offers: None,
        }
    }

    /// All regions, in the order of their ids.
    pub fn regions(&self) -> &[Boxed<RegionRow>]
        ensures { result.now ≡ self.now.regions }
    {
        self.regions.rows()
    }

    /// All services, in the order of their ids.
    pub fn services(&self) -> &[Boxed<ServiceRow>]
        ensures { result.now ≡ self.now.services }
    {
        self.services.rows()
    }

    /// All endpoints, in the order of their ids.
    pub fn endpoints(&self) -> &[Boxed<EndpointRow>]
        ensures { result.now ≡ self.now.endpoints }
    {
        self.endpoints.rows()
    }

    /// The region with this id.
    pub fn region(&self, id: &Id) -> Option<&RegionRow>
        ensures found { option_copied result ≡ region_of id.now self.now.regions }
        ensures ascending { IsAscending id_cmp (λ row. row.id) self.now.regions }
    {
        self.regions.get(id)
    }

    /// The service with this id.
    pub fn service(&self, id: &Id) -> Option<&ServiceRow>
        ensures found { option_copied result ≡ service_of id.now self.now.services }
        ensures ascending { IsAscending id_cmp (λ row. row.id) self.now.services }
    {
        self.services.get(id)
    }

    /// The endpoint with this id.
    pub fn endpoint(&self, id: &Id) -> Option<&EndpointRow>
        ensures found { option_copied result ≡ endpoint_of id.now self.now.endpoints }
        ensures ascending { IsAscending id_cmp (λ row. row.id) self.now.endpoints }
    {
        self.endpoints.get(id)
    }
}
