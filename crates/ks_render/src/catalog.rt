//! What is told of the service catalog.
ghost use Rattle.std.specs.Prelude.{[], ◌∷◌, codes, map, option_to_list, OnOk};
ghost use Rattle.ks_catalog.specs.Offers.{at_url, filled_endpoint, filled_endpoints, filled_service, filled_services};
ghost use Rattle.ks_render.specs.Catalog.{endpoint_told, endpoint_value, region_value, service_told, service_value, services_told};
ghost use Rattle.ks_render.specs.Listings.{rows_then_links};
ghost use Rattle.ks_render.specs.Values.{array_of};
ghost use Rattle.ks_render.specs.steps.Writing.{Enters, Lists, Tells};

use crate::listings::write_links;
use crate::writing::{write_flag, write_id, write_id_or_null, write_self, write_str, write_text};
use json::Writer;
use ks_base::{EndpointRow, Id, RegionRow, ServiceRow, Text};
use ks_catalog::{EndpointOut, ProjectCatalog, ServiceOut};
use std::alloc::AllocError;

pub fn write_region(
    out: &mut Writer,
    row: &RegionRow,
    url: &Text,
    link: &mut String,
) -> Result<(), AllocError>
    ensures { OnOk result (Tells out.old out.new (region_value url.now row.now)) }
{
    out.begin_object()?;
    write_text(out, "description", &row.description)?;
    write_id(out, "id", &row.id)?;
    write_self(out, url, "/v3/regions/", &row.id, link)?;
    write_id_or_null(out, "parent_region_id", &row.parent)?;
    out.end_object()
}

pub fn write_service(
    out: &mut Writer,
    row: &ServiceRow,
    url: &Text,
    link: &mut String,
) -> Result<(), AllocError>
    ensures { OnOk result (Tells out.old out.new (service_value url.now row.now)) }
{
    out.begin_object()?;
    write_text(out, "description", &row.description)?;
    write_flag(out, "enabled", row.enabled)?;
    write_id(out, "id", &row.id)?;
    write_self(out, url, "/v3/services/", &row.id, link)?;
    write_text(out, "name", &row.name)?;
    write_text(out, "type", &row.kind)?;
    out.end_object()
}

pub fn write_endpoint(
    out: &mut Writer,
    row: &EndpointRow,
    url: &Text,
    link: &mut String,
) -> Result<(), AllocError>
    ensures { OnOk result (Tells out.old out.new (endpoint_value url.now row.now)) }
{
    out.begin_object()?;
    write_flag(out, "enabled", row.enabled)?;
    write_id(out, "id", &row.id)?;
    write_str(out, "interface", row.interface.word())?;
    write_self(out, url, "/v3/endpoints/", &row.id, link)?;
    write_id_or_null(out, "region", &row.region)?;
    write_id_or_null(out, "region_id", &row.region)?;
    write_id(out, "service_id", &row.service)?;
    write_text(out, "url", &row.url)?;
    out.end_object()
}

/// Writes an endpoint of a catalog with this URL.
fn write_endpoint_at(out: &mut Writer, endpoint: &EndpointOut, url: &str) -> Result<(), AllocError>
    ensures { OnOk result (Tells out.old out.new (endpoint_told (at_url endpoint.now url.now))) }
{
    out.begin_object()?;
    write_id(out, "id", &endpoint.id)?;
    write_str(out, "interface", endpoint.interface.word())?;
    write_id_or_null(out, "region", &endpoint.region)?;
    write_id_or_null(out, "region_id", &endpoint.region)?;
    write_str(out, "url", url)?;
    out.end_object()
}

/// Writes an endpoint of a catalog, where its URL fills. `link` is room for that.
fn write_endpoint_told(
    out: &mut Writer,
    endpoint: &EndpointOut,
    project: &Option<Id>,
    link: &mut String,
) -> Result<(), AllocError>
    ensures { OnOk result (Lists out.old out.new (map endpoint_told (option_to_list (filled_endpoint project.now endpoint.now)))) }
{
    if !endpoint.fill(project, link)? {
        return Ok(());
    }
    write_endpoint_at(out, endpoint, link.as_str())
}

/// Writes the endpoints whose URL fills.
fn write_endpoints_told(
    out: &mut Writer,
    endpoints: &[EndpointOut],
    project: &Option<Id>,
    link: &mut String,
) -> Result<(), AllocError>
    ensures { OnOk result (Tells out.old out.new (array_of (map endpoint_told (filled_endpoints project.now endpoints.now)))) }
{
    out.begin_array()?;
    for endpoint in endpoints {
        write_endpoint_told(out, endpoint, project, link)?;
    }
    out.end_array()
}

/// Writes a service of a catalog, with its endpoints.
fn write_service_told(
    out: &mut Writer,
    service: &ServiceOut,
    project: &Option<Id>,
    link: &mut String,
) -> Result<(), AllocError>
    ensures { OnOk result (Tells out.old out.new (service_told (filled_service project.now service.now))) }
{
    out.begin_object()?;
    out.key("endpoints")?;
    write_endpoints_told(out, service.endpoints.as_slice(), project, link)?;
    write_id(out, "id", &service.id)?;
    write_text(out, "name", &service.name)?;
    write_text(out, "type", &service.kind)?;
    out.end_object()
}

/// Writes the services of a catalog.
fn write_services_told(
    out: &mut Writer,
    services: &[ServiceOut],
    project: &Option<Id>,
    link: &mut String,
) -> Result<(), AllocError>
    ensures { OnOk result (Tells out.old out.new (services_told (filled_services project.now services.now))) }
{
    out.begin_array()?;
    for service in services {
        write_service_told(out, service, project, link)?;
    }
    out.end_array()
}

/// Writes the catalog of a scope under its name. `link` is room for texts.
pub fn write_catalog(
    out: &mut Writer,
    catalog: &ProjectCatalog,
    link: &mut String,
) -> Result<(), AllocError>
    ensures { OnOk result (Enters out.old out.new ((codes "catalog", services_told catalog.now) ∷ [])) }
{
    let (services, project) = catalog.parts();
    out.key("catalog")?;
    write_services_told(out, services, project, link)
}

/// Writes the catalog of a scope, and then where it stands.
pub fn write_catalog_then_links(
    out: &mut Writer,
    catalog: &ProjectCatalog,
    url: &Text,
    path: &Text,
    link: &mut String,
) -> Result<(), AllocError>
    ensures { OnOk result (Tells out.old out.new (rows_then_links (codes "catalog") (map service_told catalog.now) url.now path.now)) }
{
    out.begin_object()?;
    write_catalog(out, catalog, link)?;
    write_links(out, url, path, link)?;
    out.end_object()
}

/// How many services and endpoints a catalog has, together.
pub fn catalog_size(catalog: &ProjectCatalog) -> usize {
    let (services, _) = catalog.parts();
    let mut size = services.len();
    for service in services {
        size = size.saturating_add(service.endpoints.as_slice().len());
    }
    size
}
