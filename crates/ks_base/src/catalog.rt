//! The service catalog (Identity API v3): regions, services and the endpoints at which services are called.
ghost use Rattle.std.specs.Prelude.{◌≡◌, IfOk};
ghost use Rattle.ks_base.specs.Catalog.{interface_word};

use crate::{Id, Kind, Memory, Row, Text, TryCopy};
use std::alloc::{AllocError, AllocFailed};

/// What a row of the catalog is.
#[derive(Clone, Copy, Debug)]
pub enum CatalogKind {
    Region,
    Service,
    Endpoint,
}

/// Whom an endpoint serves.
#[derive(Clone, Copy, PartialEq, Eq)]
pub enum Interface {
    /// Whoever reaches the cloud.
    Public,
    /// Services and machines within the cloud.
    Internal,
    /// Operators.
    Admin,
}

/// A region: a part of the cloud, in which endpoints and further regions lie.
#[derive(Drop)]
pub struct RegionRow {
    pub id: Id,
    /// The region right above it.
    pub parent: Option<Id>,
    pub description: Text,
}

/// A service of the cloud, such as compute.
#[derive(Drop)]
pub struct ServiceRow {
    pub id: Id,
    /// Its type, as `compute`: what it does.
    pub kind: Text,
    /// Its name, as `nova`, which others may have too; it may be empty.
    pub name: Text,
    pub description: Text,
    pub enabled: bool,
}

/// Where a service is called.
#[derive(Drop)]
pub struct EndpointRow {
    pub id: Id,
    pub service: Id,
    pub region: Option<Id>,
    pub interface: Interface,
    /// Its URL, with places such as `$(project_id)s` for the id of a project.
    pub url: Text,
    pub enabled: bool,
}

/// A row of the catalog.
#[derive(Drop)]
pub enum CatalogRow {
    Region(RegionRow),
    Service(ServiceRow),
    Endpoint(EndpointRow),
}

/// What a body says of a row of the catalog: the fields of its kind, each where it is given.
#[derive(Drop)]
pub struct CatalogIn {
    pub of: CatalogKind,
    /// The id that a new region is to have.
    pub id: Option<Id>,
    /// The region above a region.
    pub parent: Option<Id>,
    pub service: Option<Id>,
    pub region: Option<Id>,
    /// The type of a service.
    pub kind: Option<Text>,
    pub name: Option<Text>,
    pub description: Option<Text>,
    pub interface: Option<Interface>,
    pub url: Option<Text>,
    pub enabled: Option<bool>,
}

/// Why a change of the catalog is refused, in the order in which the causes are tested.
#[derive(Clone, Copy)]
pub enum CatalogFault {
    /// No row of this kind has this id.
    Absent(Kind, Id),
    /// This region or endpoint lies in the region.
    HasChildren(Id),
    /// The table of this kind is full.
    Full(Kind),
    /// A row of the kind has the id.
    IdTaken(Id),
    /// Memory ended.
    Memory,
}

impl Interface {
    /// The word by which requests and responses name it.
    #[tactic(auto, unfolding(crate::specs::Catalog::interface_word))]
    pub fn word(self) -> &'static str
        ensures { result.now ≡ interface_word self }
    {
        match self {
            Interface::Public => "public",
            Interface::Internal => "internal",
            Interface::Admin => "admin",
        }
    }
}

impl RegionRow {
    /// An equal row.
    pub fn copy(&self) -> Result<RegionRow, Memory>
        ensures { IfOk result (λ made. made ≡ self.now) }
    {
        Ok(RegionRow {
            id: self.id,
            parent: self.parent,
            description: self.description.copy()?,
        })
    }
}

impl ServiceRow {
    /// An equal row.
    pub fn copy(&self) -> Result<ServiceRow, Memory>
        ensures { IfOk result (λ made. made ≡ self.now) }
    {
        Ok(ServiceRow {
            id: self.id,
            kind: self.kind.copy()?,
            name: self.name.copy()?,
            description: self.description.copy()?,
            enabled: self.enabled,
        })
    }
}

impl EndpointRow {
    /// An equal row.
    pub fn copy(&self) -> Result<EndpointRow, Memory>
        ensures { IfOk result (λ made. made ≡ self.now) }
    {
        Ok(EndpointRow {
            id: self.id,
            service: self.service,
            region: self.region,
            interface: self.interface,
            url: self.url.copy()?,
            enabled: self.enabled,
        })
    }
}

impl CatalogRow {
    /// An equal row.
    pub fn copy(&self) -> Result<CatalogRow, Memory>
        ensures { IfOk result (λ made. made ≡ self.now) }
    {
        match self {
            CatalogRow::Region(row) => Ok(CatalogRow::Region(row.copy()?)),
            CatalogRow::Service(row) => Ok(CatalogRow::Service(row.copy()?)),
            CatalogRow::Endpoint(row) => Ok(CatalogRow::Endpoint(row.copy()?)),
        }
    }
}

impl Row for RegionRow {
    ghost key = { λ row. row.id };

    fn id(&self) -> &Id {
        &self.id
    }
}

impl Row for ServiceRow {
    ghost key = { λ row. row.id };

    fn id(&self) -> &Id {
        &self.id
    }
}

impl Row for EndpointRow {
    ghost key = { λ row. row.id };

    fn id(&self) -> &Id {
        &self.id
    }
}

impl TryCopy for RegionRow {
    fn copy(&self) -> Result<RegionRow, Memory> {
        RegionRow::copy(self)
    }
}

impl TryCopy for ServiceRow {
    fn copy(&self) -> Result<ServiceRow, Memory> {
        ServiceRow::copy(self)
    }
}

impl TryCopy for EndpointRow {
    fn copy(&self) -> Result<EndpointRow, Memory> {
        EndpointRow::copy(self)
    }
}

impl TryCopy for CatalogRow {
    fn copy(&self) -> Result<CatalogRow, Memory> {
        CatalogRow::copy(self)
    }
}

impl TryCopy for CatalogKind {
    fn copy(&self) -> Result<CatalogKind, Memory> {
        Ok(*self)
    }
}

impl TryCopy for CatalogFault {
    fn copy(&self) -> Result<CatalogFault, Memory> {
        Ok(*self)
    }
}

impl From<Memory> for CatalogFault {
    ghost use Rattle.ks_base.specs.declared.catalog.CatalogFault.TheVariants as variants;

    ghost from_gives = { λ _ e. e ≡ variants.Memory };

    fn from(_error: Memory) -> CatalogFault {
        CatalogFault::Memory
    }
}

impl From<AllocError> for CatalogFault {
    ghost use Rattle.ks_base.specs.declared.catalog.CatalogFault.TheVariants as variants;

    ghost from_gives = { λ _ e. e ≡ variants.Memory };

    fn from(_error: AllocError) -> CatalogFault {
        CatalogFault::Memory
    }
}

impl<T: Drop> From<AllocFailed<T>> for CatalogFault {
    ghost use Rattle.ks_base.specs.declared.catalog.CatalogFault.TheVariants as variants;

    ghost from_gives = { λ _ e. e ≡ variants.Memory };

    fn from(_error: AllocFailed<T>) -> CatalogFault {
        CatalogFault::Memory
    }
}
