//! The causes for which changes are refused, in the order in which they are tested.
ghost use Rattle.std.specs.Prelude.{◌≡◌};
ghost use Rattle.ks_base.specs.declared.limits.TheConstants.{ENDPOINTS, REGIONS, SERVICES};
ghost use Rattle.ks_base.specs.Refusals.{fault_in};
ghost use Rattle.ks_base.specs.CatalogFaults.{add_endpoint_fault, add_fault, add_region_fault, add_service_fault, drop_endpoint_fault, drop_fault, drop_region_fault, drop_service_fault, endpoint_absent, has_children, named_region_absent, region_absent, service_absent, set_endpoint_fault, set_fault, set_region_fault, set_service_fault};

use crate::Catalog;
use crate::tests_of_rows::{Below, InRegion};
use ks_base::limits::{ENDPOINTS, REGIONS, SERVICES};
use ks_base::{
    CatalogFault, CatalogKind, CatalogRow, EndpointRow, Id, Kind, RegionRow, ServiceRow, refuse_if,
};

impl Catalog {
    /// The first cause for which `add` refuses the row, found without a change.
    pub fn may_add(&self, row: &CatalogRow) -> Result<(), CatalogFault>
        ensures { fault_in result ≡ add_fault self.now row.now }
    {
        match row {
            CatalogRow::Region(region) => self.may_add_region(region),
            CatalogRow::Service(service) => self.may_add_service(service),
            CatalogRow::Endpoint(endpoint) => self.may_add_endpoint(endpoint),
        }
    }

    /// The first cause for which `set` refuses the row, found without a change.
    pub fn may_set(&self, row: &CatalogRow) -> Result<(), CatalogFault>
        ensures { fault_in result ≡ set_fault self.now row.now }
    {
        match row {
            CatalogRow::Region(region) => self.may_set_region(region),
            CatalogRow::Service(service) => self.may_set_service(service),
            CatalogRow::Endpoint(endpoint) => self.may_set_endpoint(endpoint),
        }
    }

    /// The first cause for which `drop_row` refuses the id, found without a change.
    pub fn may_drop_row(&self, of: CatalogKind, id: &Id) -> Result<(), CatalogFault>
        ensures { fault_in result ≡ drop_fault self.now of id.now }
    {
        match of {
            CatalogKind::Region => self.may_drop_region(id),
            CatalogKind::Service => self.service_stands(id),
            CatalogKind::Endpoint => self.endpoint_stands(id),
        }
    }

    /// The first cause for which `add_region` refuses the row, found without a change.
    #[tactic(auto, unfolding(ks_base::specs::CatalogFaults::add_region_fault))]
    pub fn may_add_region(&self, row: &RegionRow) -> Result<(), CatalogFault>
        ensures { fault_in result ≡ add_region_fault self.now row.now }
    {
        self.named_region_stands(&row.parent)?;
        refuse_if(
            self.regions.len() >= REGIONS,
            CatalogFault::Full(Kind::Region),
        )?;
        refuse_if(
            self.regions.contains(&row.id),
            CatalogFault::IdTaken(row.id),
        )
    }

    /// The first cause for which `add_service` refuses the row, found without a change.
    #[tactic(auto, unfolding(ks_base::specs::CatalogFaults::add_service_fault))]
    pub fn may_add_service(&self, row: &ServiceRow) -> Result<(), CatalogFault>
        ensures { fault_in result ≡ add_service_fault self.now row.now }
    {
        refuse_if(
            self.services.len() >= SERVICES,
            CatalogFault::Full(Kind::Service),
        )?;
        refuse_if(
            self.services.contains(&row.id),
            CatalogFault::IdTaken(row.id),
        )
    }

    /// The first cause for which `add_endpoint` refuses the row, found without a change.
    #[tactic(auto, unfolding(ks_base::specs::CatalogFaults::add_endpoint_fault))]
    pub fn may_add_endpoint(&self, row: &EndpointRow) -> Result<(), CatalogFault>
        ensures { fault_in result ≡ add_endpoint_fault self.now row.now }
    {
        self.service_stands(&row.service)?;
        self.named_region_stands(&row.region)?;
        refuse_if(
            self.endpoints.len() >= ENDPOINTS,
            CatalogFault::Full(Kind::Endpoint),
        )?;
        refuse_if(
            self.endpoints.contains(&row.id),
            CatalogFault::IdTaken(row.id),
        )
    }

    /// The first cause for which `set_region` refuses the row, found without a change.
    #[tactic(auto, unfolding(ks_base::specs::CatalogFaults::set_region_fault))]
    pub fn may_set_region(&self, row: &RegionRow) -> Result<(), CatalogFault>
        ensures { fault_in result ≡ set_region_fault self.now row.now }
    {
        self.region_stands(&row.id)?;
        self.named_region_stands(&row.parent)
    }

    /// The first cause for which `set_service` refuses the row, found without a change.
    pub fn may_set_service(&self, row: &ServiceRow) -> Result<(), CatalogFault>
        ensures { fault_in result ≡ set_service_fault self.now row.now }
    {
        self.service_stands(&row.id)
    }

    /// The first cause for which `set_endpoint` refuses the row, found without a change.
    #[tactic(auto, unfolding(ks_base::specs::CatalogFaults::set_endpoint_fault))]
    pub fn may_set_endpoint(&self, row: &EndpointRow) -> Result<(), CatalogFault>
        ensures { fault_in result ≡ set_endpoint_fault self.now row.now }
    {
        self.endpoint_stands(&row.id)?;
        self.service_stands(&row.service)?;
        self.named_region_stands(&row.region)
    }

    /// The first cause for which `drop_region` refuses the id, found without a change.
    #[tactic(auto, unfolding(ks_base::specs::CatalogFaults::drop_region_fault))]
    pub fn may_drop_region(&self, id: &Id) -> Result<(), CatalogFault>
        ensures { fault_in result ≡ drop_region_fault self.now id.now }
    {
        self.region_stands(id)?;
        self.has_no_children(id)
    }

    /// Refuses where no region has the id (`Absent`).
    pub fn region_stands(&self, id: &Id) -> Result<(), CatalogFault>
        ensures { fault_in result ≡ region_absent self.now id.now }
    {
        refuse_if(
            !self.regions.contains(id),
            CatalogFault::Absent(Kind::Region, *id),
        )
    }

    /// Refuses where no service has the id (`Absent`).
    pub fn service_stands(&self, id: &Id) -> Result<(), CatalogFault>
        ensures { fault_in result ≡ service_absent self.now id.now }
    {
        refuse_if(
            !self.services.contains(id),
            CatalogFault::Absent(Kind::Service, *id),
        )
    }

    /// Refuses where no endpoint has the id (`Absent`).
    pub fn endpoint_stands(&self, id: &Id) -> Result<(), CatalogFault>
        ensures { fault_in result ≡ endpoint_absent self.now id.now }
    {
        refuse_if(
            !self.endpoints.contains(id),
            CatalogFault::Absent(Kind::Endpoint, *id),
        )
    }

    fn named_region_stands(&self, id: &Option<Id>) -> Result<(), CatalogFault>
        ensures { fault_in result ≡ named_region_absent self.now id.now }
    {
        match id {
            Some(id) => self.region_stands(id),
            None => Ok(()),
        }
    }

    fn has_no_children(&self, id: &Id) -> Result<(), CatalogFault>
        ensures { fault_in result ≡ has_children self.now id.now }
    {
        if let Some(child) = self.regions.first(&Below { parent: id }) {
            return Err(CatalogFault::HasChildren(child.id));
        }
        match self.endpoints.first(&InRegion { region: id }) {
            Some(endpoint) => Err(CatalogFault::HasChildren(endpoint.id)),
            None => Ok(()),
        }
    }
}
