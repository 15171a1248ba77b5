//! Changes of regions, services and endpoints (Identity API v3). A field that is absent stays as it is; the id of a row, the
//! region above a region and the service of an endpoint can't be changed.
ghost use Rattle.std.specs.Prelude.{◌≡◌, unwrap_or, IfOk};
ghost use Rattle.std.specs.Option.{option_or};
ghost use Rattle.ks_auth.specs.Answers.{rows_told};
ghost use Rattle.ks_machine.specs.CatalogCommands.{unchanged_if_any, update_catalog, update_endpoint, update_region, update_service};
ghost use Rattle.ks_checks.specs.Plans.{Passes, Plans};

use crate::updates::{text_or, unchanged};
use ks_auth::Tables;
use ks_base::{CatalogIn, CatalogKind, EndpointRow, Id, Memory, RegionRow, ServiceRow, Text};
use ks_checks::checks::{catalog, standing_endpoint, standing_region, standing_service};
use ks_checks::{Halt, Plan};
use ks_machine::{BodyOut, Cause, Change, Row};
use std::alloc::Global;

/// Goes on where the field is absent, or says what stands, where something stands.
fn unchanged_if_any(
    alloc: Global,
    field: &str,
    given: &Option<Id>,
    standing: &Option<Id>,
) -> Result<(), Halt>
    ensures { Passes result (unchanged_if_any field.now given.now standing.now) }
{
    match (given, standing) {
        (None, _) => Ok(()),
        (Some(_), Some(standing)) => unchanged(alloc, field, given, standing),
        (Some(_), None) => Err(Halt::Refused(Cause::Immutable(Text::of(alloc, field)?))),
    }
}

fn service_with(old: &ServiceRow, asked: &CatalogIn) -> Result<ServiceRow, Memory>
    ensures { IfOk result (λ row. row ≡ record old.now { kind = unwrap_or asked.now.kind old.now.kind; name = unwrap_or asked.now.name old.now.name; description = unwrap_or asked.now.description old.now.description; enabled = unwrap_or asked.now.enabled old.now.enabled }) }
{
    Ok(ServiceRow {
        id: old.id,
        kind: text_or(&asked.kind, &old.kind)?,
        name: text_or(&asked.name, &old.name)?,
        description: text_or(&asked.description, &old.description)?,
        enabled: asked.enabled.unwrap_or(old.enabled),
    })
}

fn endpoint_with(old: &EndpointRow, asked: &CatalogIn) -> Result<EndpointRow, Memory>
    ensures { IfOk result (λ row. row ≡ record old.now { region = option_or asked.now.region old.now.region; interface = unwrap_or asked.now.interface old.now.interface; url = unwrap_or asked.now.url old.now.url; enabled = unwrap_or asked.now.enabled old.now.enabled }) }
{
    Ok(EndpointRow {
        id: old.id,
        service: old.service,
        region: asked.region.or(old.region),
        interface: asked.interface.unwrap_or(old.interface),
        url: text_or(&asked.url, &old.url)?,
        enabled: asked.enabled.unwrap_or(old.enabled),
    })
}

#[tactic(auto, unfolding(ks_machine::specs::CatalogCommands::update_region))]
fn update_region(alloc: Global, tables: &Tables, id: &Id, asked: &CatalogIn) -> Result<Plan, Halt>
    ensures { Plans result (update_region (rows_told tables.now) id.now asked.now) }
{
    let old = standing_region(tables, id)?;
    unchanged(alloc, "id", &asked.id, id)?;
    unchanged_if_any(alloc, "parent_region_id", &asked.parent, &old.parent)?;
    let new = RegionRow {
        id: old.id,
        parent: old.parent,
        description: text_or(&asked.description, &old.description)?,
    };
    catalog(tables.catalog.may_set_region(&new))?;
    let told = BodyOut::one(alloc, Row::Region(new.copy()?), false)?;
    Ok(Plan::changes(Change::PutRegion(new), told))
}

#[tactic(auto, unfolding(ks_machine::specs::CatalogCommands::update_service))]
fn update_service(alloc: Global, tables: &Tables, id: &Id, asked: &CatalogIn) -> Result<Plan, Halt>
    ensures { Plans result (update_service (rows_told tables.now) id.now asked.now) }
{
    let old = standing_service(tables, id)?;
    unchanged(alloc, "id", &asked.id, id)?;
    let new = service_with(old, asked)?;
    let told = BodyOut::one(alloc, Row::Service(new.copy()?), false)?;
    Ok(Plan::changes(Change::PutService(new), told))
}

#[tactic(auto, unfolding(ks_machine::specs::CatalogCommands::update_endpoint))]
fn update_endpoint(alloc: Global, tables: &Tables, id: &Id, asked: &CatalogIn) -> Result<Plan, Halt>
    ensures { Plans result (update_endpoint (rows_told tables.now) id.now asked.now) }
{
    let old = standing_endpoint(tables, id)?;
    unchanged(alloc, "id", &asked.id, id)?;
    unchanged(alloc, "service_id", &asked.service, &old.service)?;
    let new = endpoint_with(old, asked)?;
    catalog(tables.catalog.may_set_endpoint(&new))?;
    let told = BodyOut::one(alloc, Row::Endpoint(new.copy()?), false)?;
    Ok(Plan::changes(Change::PutEndpoint(new), told))
}

/// A change of the row of the catalog with this id by what the body says.
#[inline(never)]
#[tactic(auto, unfolding(ks_machine::specs::CatalogCommands::update_catalog))]
pub fn update_catalog(
    alloc: Global,
    tables: &Tables,
    id: &Id,
    asked: &CatalogIn,
) -> Result<Plan, Halt>
    ensures { Plans result (update_catalog (rows_told tables.now) id.now asked.now.of asked.now) }
{
    match asked.of {
        CatalogKind::Region => update_region(alloc, tables, id, asked),
        CatalogKind::Service => update_service(alloc, tables, id, asked),
        CatalogKind::Endpoint => update_endpoint(alloc, tables, id, asked),
    }
}
