ghost use Rattle.std.specs.Prelude.{◌≡◌, ◌≢◌, Err};
ghost use Rattle.ks_base.specs.Catalog.{with_endpoint, with_region, with_row, with_service, without_endpoint, without_region, without_row, without_service, KeepsParent};
ghost use Rattle.ks_base.specs.CatalogFaults.{add_endpoint_fault, add_fault, add_region_fault, add_service_fault, drop_endpoint_fault, drop_fault, drop_region_fault, drop_service_fault, set_endpoint_fault, set_fault, set_region_fault, set_service_fault};
ghost use Rattle.ks_base.specs.Refusals.{Changes, Decides};

use crate::Catalog;
use crate::tests_of_rows::OfOthers;
use ks_base::{CatalogFault, CatalogKind, CatalogRow, EndpointRow, Id, RegionRow, ServiceRow};

impl Catalog {
    /// Adds a row. Refused are a parent, a service or a region that does not stand (`Absent`), the 257th region,
    /// the 1,025th service or the 8,193rd endpoint (`Full`), and an id that a row of the kind has (`IdTaken`).
    /// Whatever is refused changes nothing.
    pub fn add(&mut self, row: CatalogRow) -> Result<(), CatalogFault>
        ensures { Changes CatalogFault.Memory (add_fault self.old row) self.old (with_row row self.old) result self.new }
    {
        match row {
            CatalogRow::Region(region) => self.add_region(region),
            CatalogRow::Service(service) => self.add_service(service),
            CatalogRow::Endpoint(endpoint) => self.add_endpoint(endpoint),
        }
    }

    /// Puts the row in the place of the one of its kind with its id. Refused are an id that no row of the kind has,
    /// and then a parent, a service or a region that does not stand (`Absent`). A region stays below its parent. It
    /// takes no memory.
    pub fn set(&mut self, row: CatalogRow) -> Result<(), CatalogFault>
        requires { KeepsParent self.old row }
        ensures changes { Changes CatalogFault.Memory (set_fault self.old row) self.old (with_row row self.old) result self.new }
        ensures memory { result ≢ Err CatalogFault.Memory }
    {
        match row {
            CatalogRow::Region(region) => self.set_region(region),
            CatalogRow::Service(service) => self.set_service(service),
            CatalogRow::Endpoint(endpoint) => self.set_endpoint(endpoint),
        }
    }

    /// Takes the row of this kind and id out, a service with its endpoints. Refused are an id that no row of the
    /// kind has (`Absent`) and a region in which a region or an endpoint lies (`HasChildren`).
    pub fn drop_row(&mut self, of: CatalogKind, id: &Id) -> Result<(), CatalogFault>
        ensures decides { Decides (drop_fault self.old of id.now) self.old (without_row of id.now self.old) result self.new }
        ensures memory { result ≢ Err CatalogFault.Memory }
    {
        match of {
            CatalogKind::Region => self.drop_region(id),
            CatalogKind::Service => self.drop_service(id),
            CatalogKind::Endpoint => self.drop_endpoint(id),
        }
    }

    /// Adds a region. Refused are a parent that does not stand (`Absent`), the 257th region (`Full`) and an id that
    /// a region has (`IdTaken`).
    #[tactic(auto, using(ks_base::proofs::RefusalLemmas::refused))]
    pub fn add_region(&mut self, row: RegionRow) -> Result<(), CatalogFault>
        ensures { Changes CatalogFault.Memory (add_region_fault self.old row) self.old (with_region row self.old) result self.new }
    {
        self.may_add_region(&row)?;
        self.regions.put(row)?;
        Ok(())
    }

    /// Adds a service. Refused are the 1,025th service (`Full`) and an id that a service has (`IdTaken`). Others may
    /// have its type and its name.
    #[tactic(auto, using(ks_base::proofs::RefusalLemmas::refused))]
    pub fn add_service(&mut self, row: ServiceRow) -> Result<(), CatalogFault>
        ensures { Changes CatalogFault.Memory (add_service_fault self.old row) self.old (with_service row self.old) result self.new }
    {
        self.may_add_service(&row)?;
        self.offers = None;
        self.services.put(row)?;
        Ok(())
    }

    /// Adds an endpoint. Refused are a service, and then a region, that does not stand (`Absent`), the 8,193rd
    /// endpoint (`Full`) and an id that an endpoint has (`IdTaken`).
    #[tactic(auto, using(ks_base::proofs::RefusalLemmas::refused))]
    pub fn add_endpoint(&mut self, row: EndpointRow) -> Result<(), CatalogFault>
        ensures { Changes CatalogFault.Memory (add_endpoint_fault self.old row) self.old (with_endpoint row self.old) result self.new }
    {
        self.may_add_endpoint(&row)?;
        self.offers = None;
        self.endpoints.put(row)?;
        Ok(())
    }

    /// Puts the row in the place of the region with its id, below the same parent. Refused are an id that no region
    /// has, and then a parent that does not stand (`Absent`). It takes no memory.
    #[tactic(auto, using(ks_base::proofs::RefusalLemmas::refused), unfolding(ks_base::specs::CatalogFaults::set_region_fault))]
    pub fn set_region(&mut self, row: RegionRow) -> Result<(), CatalogFault>
        requires { KeepsParent self.old (CatalogRow.Region row) }
        ensures changes { Changes CatalogFault.Memory (set_region_fault self.old row) self.old (with_region row self.old) result self.new }
        ensures memory { result ≢ Err CatalogFault.Memory }
    {
        self.may_set_region(&row)?;
        self.regions.put(row)?;
        Ok(())
    }

    /// Puts the row in the place of the service with its id. Refused is an id that no service has (`Absent`). It
    /// takes no memory.
    #[tactic(auto, using(ks_base::proofs::RefusalLemmas::refused))]
    pub fn set_service(&mut self, row: ServiceRow) -> Result<(), CatalogFault>
        ensures changes { Changes CatalogFault.Memory (set_service_fault self.old row) self.old (with_service row self.old) result self.new }
        ensures memory { result ≢ Err CatalogFault.Memory }
    {
        self.may_set_service(&row)?;
        self.offers = None;
        self.services.put(row)?;
        Ok(())
    }

    /// Puts the row in the place of the endpoint with its id. Refused are an id that no endpoint has, and then a
    /// service or a region that does not stand (`Absent`). It takes no memory.
    #[tactic(auto, using(ks_base::proofs::RefusalLemmas::refused), unfolding(ks_base::specs::CatalogFaults::set_endpoint_fault))]
    pub fn set_endpoint(&mut self, row: EndpointRow) -> Result<(), CatalogFault>
        ensures changes { Changes CatalogFault.Memory (set_endpoint_fault self.old row) self.old (with_endpoint row self.old) result self.new }
        ensures memory { result ≢ Err CatalogFault.Memory }
    {
        self.may_set_endpoint(&row)?;
        self.offers = None;
        self.endpoints.put(row)?;
        Ok(())
    }

    /// Takes a region out. Refused are an id that no region has (`Absent`) and a region with others right below it,
    /// or with an endpoint in it (`HasChildren`, of the lowest region, else of the lowest endpoint).
    #[tactic(auto, unfolding(ks_base::specs::CatalogFaults::drop_region_fault))]
    pub fn drop_region(&mut self, id: &Id) -> Result<(), CatalogFault>
        ensures decides { Decides (drop_region_fault self.old id.now) self.old (without_region id.now self.old) result self.new }
        ensures memory { result ≢ Err CatalogFault.Memory }
    {
        self.may_drop_region(id)?;
        self.regions.remove(id);
        Ok(())
    }

    /// Takes a service out, with all its endpoints. Refused is an id that no service has (`Absent`).
    pub fn drop_service(&mut self, id: &Id) -> Result<(), CatalogFault>
        ensures decides { Decides (drop_service_fault self.old id.now) self.old (without_service id.now self.old) result self.new }
        ensures memory { result ≢ Err CatalogFault.Memory }
    {
        self.service_stands(id)?;
        self.offers = None;
        self.services.remove(id);
        self.endpoints.keep(&OfOthers { service: id });
        Ok(())
    }

    /// Takes an endpoint out. Refused is an id that no endpoint has (`Absent`).
    pub fn drop_endpoint(&mut self, id: &Id) -> Result<(), CatalogFault>
        ensures decides { Decides (drop_endpoint_fault self.old id.now) self.old (without_endpoint id.now self.old) result self.new }
        ensures memory { result ≢ Err CatalogFault.Memory }
    {
        self.endpoint_stands(id)?;
        self.offers = None;
        self.endpoints.remove(id);
        Ok(())
    }
}
