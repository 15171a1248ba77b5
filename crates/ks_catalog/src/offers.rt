//! What all projects are offered, before the id of one stands in the URLs.
ghost use Rattle.std.specs.Prelude.{◌≡◌, ◌∷◌, [], ◌++◌, length, map, IfOk, OnOk};
ghost use Rattle.std.specs.List.Sorted.{IsSearchInRange};
ghost use Rattle.ks_base.specs.Places.{IsPlace};
ghost use Rattle.ks_base.specs.Tables.{id_cmp, IsAscending};
ghost use Rattle.ks_catalog.specs.ProjectCatalog.{endpoint_at};
ghost use Rattle.ks_catalog.specs.Offers.{offers_of};
ghost use Rattle.ks_catalog.specs.steps.Offers.{bare_services, with_endpoint};

use ks_base::{Boxed, EndpointRow, Id, Interface, ListOf, Memory, ServiceRow, Text};
use std::alloc::Global;

/// An endpoint as it is told with a token.
#[derive(Drop)]
pub struct EndpointOut {
    pub id: Id,
    pub interface: Interface,
    pub region: Option<Id>,
    /// Its URL; in an offer to all projects with places for a project's id.
    pub url: Text,
}

/// Endpoints, each in its place.
pub type EndpointOutList = ListOf<EndpointOut>;

/// A service as it is told with a token.
#[derive(Drop)]
pub struct ServiceOut {
    pub id: Id,
    /// Its type.
    pub kind: Text,
    pub name: Text,
    pub endpoints: EndpointOutList,
}

/// Services, each in its place.
pub type ServiceOutList = ListOf<ServiceOut>;

/// The endpoint, with its URL as it stands.
fn endpoint_offered(row: &EndpointRow) -> Result<EndpointOut, Memory>
    ensures { IfOk result (λ made. made ≡ endpoint_at row.now row.now.url) }
{
    Ok(EndpointOut {
        id: row.id,
        interface: row.interface,
        region: row.region,
        url: row.url.copy()?,
    })
}

/// Offers an endpoint behind the others of its service.
fn push_endpoint(made: &mut EndpointOutList, row: &EndpointRow) -> Result<(), Memory>
    ensures { OnOk result (made.new ≡ made.old ++ endpoint_at row.now row.now.url ∷ []) }
{
    let endpoint = endpoint_offered(row)?;
    made.push(endpoint)
}

/// The place of the service with this id, or the one where it belongs.
fn place(services: &[ServiceOut], id: &Id) -> Result<usize, usize>
    requires { IsAscending id_cmp (λ service. service.id) services.now }
    ensures bound { IsSearchInRange result (length services.now) }
    ensures place { IsPlace id_cmp (λ service. service.id) id.now services.now result }
{
    services.binary_search_by(|service| service.id.cmp(id))
}

/// Offers an enabled endpoint behind the others of its service, where that is among these.
fn add_endpoint(services: &mut [ServiceOut], row: &EndpointRow) -> Result<(), Memory>
    requires { IsAscending id_cmp (λ service. service.id) services.old }
    ensures { OnOk result (services.new ≡ map (with_endpoint row.now) services.old) }
{
    if !row.enabled {
        return Ok(());
    }
    match place(services, &row.service) {
        Ok(at) => push_endpoint(&mut services[at].endpoints, row),
        Err(_) => Ok(()),
    }
}

/// The enabled services, in the order of their ids, before any endpoint is offered.
fn bare_services(alloc: Global, rows: &[Boxed<ServiceRow>]) -> Result<Vec<ServiceOut>, Memory>
    ensures { IfOk result (λ made. made.items ≡ bare_services rows.now) }
{
    let mut made = Vec::new(alloc);
    for row in rows {
        let row = row.get();
        if row.enabled {
            made.push(ServiceOut {
                id: row.id,
                kind: row.kind.copy()?,
                name: row.name.copy()?,
                endpoints: EndpointOutList::new(alloc),
            })?;
        }
    }
    Ok(made)
}

/// The enabled services, in the order of their ids, each with its enabled endpoints. Each endpoint is looked at once.
pub(crate) fn offers_of(
    alloc: Global,
    rows: &[Boxed<ServiceRow>],
    endpoints: &[Boxed<EndpointRow>],
) -> Result<ServiceOutList, Memory>
    requires { IsAscending id_cmp (λ row. row.id) rows.now }
    ensures { IfOk result (λ made. made ≡ offers_of endpoints.now rows.now) }
{
    let mut made = bare_services(alloc, rows)?;
    for row in endpoints {
        add_endpoint(made.as_mut_slice(), row.get())?;
    }
    Ok(ServiceOutList::from_vec(made))
}
