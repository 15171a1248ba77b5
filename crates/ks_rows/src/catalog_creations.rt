//! New regions, services and endpoints (Identity API v3), each by the rules of the catalog.
ghost use Rattle.std.specs.Prelude.{◌≡◌, true, unwrap_or, IfOk};
ghost use Rattle.ks_auth.specs.Answers.{rows_told};
ghost use Rattle.ks_base.specs.CatalogFaults.{named_region_absent};
ghost use Rattle.ks_machine.specs.CatalogCommands.{create_catalog, create_endpoint, create_region, create_service, given_id_free};
ghost use Rattle.ks_machine.specs.Creations.{text_or_empty};
ghost use Rattle.ks_machine.specs.Tables.{catalogs, unless_catalog};
ghost use Rattle.ks_checks.specs.Plans.{Passes, Plans};

use crate::creations::text_or_empty;
use ks_auth::Tables;
use ks_base::{
    CatalogIn, CatalogKind, EndpointRow, Id, Interface, Memory, RegionRow, ServiceRow, Text,
};
use ks_checks::checks::{catalog, need};
use ks_checks::tokens::missing;
use ks_checks::{Halt, Plan};
use ks_machine::{BodyOut, Cause, Change, Row};
use std::alloc::Global;

/// A region with the id that is given, or else with the one that was drawn.
fn region_row(alloc: Global, drawn: Id, asked: &CatalogIn) -> Result<RegionRow, Memory>
    ensures { IfOk result (λ row. row ≡ record { id = unwrap_or asked.now.id drawn; parent = asked.now.parent; description = text_or_empty asked.now.description }) }
{
    Ok(RegionRow {
        id: asked.id.unwrap_or(drawn),
        parent: asked.parent,
        description: text_or_empty(alloc, &asked.description)?,
    })
}

fn service_row(alloc: Global, id: Id, kind: &Text, asked: &CatalogIn) -> Result<ServiceRow, Memory>
    ensures { IfOk result (λ row. row ≡ record { id = id; kind = kind.now; name = text_or_empty asked.now.name; description = text_or_empty asked.now.description; enabled = unwrap_or asked.now.enabled true }) }
{
    Ok(ServiceRow {
        id,
        kind: kind.copy()?,
        name: text_or_empty(alloc, &asked.name)?,
        description: text_or_empty(alloc, &asked.description)?,
        enabled: asked.enabled.unwrap_or(true),
    })
}

fn endpoint_row(
    id: Id,
    service: Id,
    interface: Interface,
    url: &Text,
    asked: &CatalogIn,
) -> Result<EndpointRow, Memory>
    ensures { IfOk result (λ row. row ≡ record { id = id; service = service; region = asked.now.region; interface = interface; url = url.now; enabled = unwrap_or asked.now.enabled true }) }
{
    Ok(EndpointRow {
        id,
        service,
        region: asked.region,
        interface,
        url: url.copy()?,
        enabled: asked.enabled.unwrap_or(true),
    })
}

/// Goes on where no region is named, or the one that is named stands.
fn named_region_stands(tables: &Tables, named: &Option<Id>) -> Result<(), Halt>
    ensures { Passes result (unless_catalog (named_region_absent (catalogs (rows_told tables.now)) named.now)) }
{
    match named {
        Some(id) => catalog(tables.catalog.region_stands(id)),
        None => Ok(()),
    }
}

/// Goes on where the id that is given is free. It is tested before room, unlike one that is drawn.
#[tactic(auto, unfolding(ks_machine::specs::CatalogCommands::given_id_free))]
fn given_id_free(tables: &Tables, new: &RegionRow, given: &Option<Id>) -> Result<(), Halt>
    ensures { Passes result (given_id_free (rows_told tables.now) new.now given.now) }
{
    let Some(id) = given else {
        return Ok(());
    };
    named_region_stands(tables, &new.parent)?;
    let is_free = tables.catalog.region(id).is_none();
    need(is_free, Cause::NameTaken(*id))
}

#[tactic(auto, unfolding(ks_machine::specs::CatalogCommands::create_region))]
fn create_region(alloc: Global, tables: &Tables, drawn: Id, asked: &CatalogIn) -> Result<Plan, Halt>
    ensures { Plans result (create_region (rows_told tables.now) drawn asked.now) }
{
    let new = region_row(alloc, drawn, asked)?;
    given_id_free(tables, &new, &asked.id)?;
    catalog(tables.catalog.may_add_region(&new))?;
    let told = BodyOut::one(alloc, Row::Region(new.copy()?), true)?;
    Ok(Plan::changes(Change::PutRegion(new), told))
}

#[tactic(auto, unfolding(ks_machine::specs::CatalogCommands::create_service))]
fn create_service(
    alloc: Global,
    tables: &Tables,
    drawn: Id,
    asked: &CatalogIn,
) -> Result<Plan, Halt>
    ensures { Plans result (create_service (rows_told tables.now) drawn asked.now) }
{
    let Some(kind) = &asked.kind else {
        return Err(Halt::Refused(missing(alloc, "service.type")?));
    };
    let new = service_row(alloc, drawn, kind, asked)?;
    catalog(tables.catalog.may_add_service(&new))?;
    let told = BodyOut::one(alloc, Row::Service(new.copy()?), true)?;
    Ok(Plan::changes(Change::PutService(new), told))
}

#[tactic(auto, unfolding(ks_machine::specs::CatalogCommands::create_endpoint))]
fn create_endpoint(
    alloc: Global,
    tables: &Tables,
    drawn: Id,
    asked: &CatalogIn,
) -> Result<Plan, Halt>
    ensures { Plans result (create_endpoint (rows_told tables.now) drawn asked.now) }
{
    let Some(service) = asked.service else {
        return Err(Halt::Refused(missing(alloc, "endpoint.service_id")?));
    };
    let Some(interface) = asked.interface else {
        return Err(Halt::Refused(missing(alloc, "endpoint.interface")?));
    };
    let Some(url) = &asked.url else {
        return Err(Halt::Refused(missing(alloc, "endpoint.url")?));
    };
    let new = endpoint_row(drawn, service, interface, url, asked)?;
    catalog(tables.catalog.may_add_endpoint(&new))?;
    let told = BodyOut::one(alloc, Row::Endpoint(new.copy()?), true)?;
    Ok(Plan::changes(Change::PutEndpoint(new), told))
}

/// A creation of a row of the catalog by what the body says.
#[inline(never)]
#[tactic(auto, unfolding(ks_machine::specs::CatalogCommands::create_catalog))]
pub fn create_catalog(
    alloc: Global,
    tables: &Tables,
    drawn: Id,
    asked: &CatalogIn,
) -> Result<Plan, Halt>
    ensures { Plans result (create_catalog (rows_told tables.now) drawn asked.now.of asked.now) }
{
    match asked.of {
        CatalogKind::Region => create_region(alloc, tables, drawn, asked),
        CatalogKind::Service => create_service(alloc, tables, drawn, asked),
        CatalogKind::Endpoint => create_endpoint(alloc, tables, drawn, asked),
    }
}
