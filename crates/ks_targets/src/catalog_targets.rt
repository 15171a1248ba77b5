//! What rules see of rows of the catalog.
ghost use Rattle.std.specs.Prelude.{◌≡◌, ◌++◌, OnOk};
ghost use Rattle.ks_auth.specs.Answers.{rows_told};
ghost use Rattle.ks_machine.specs.declared.row_kind.RowKind.TheVariants as kinds;
ghost use Rattle.ks_machine.specs.Targets.{object, of_catalog_body};

use crate::fields::Fields;
use crate::seen::Seen;
use ks_auth::Tables;
use ks_base::{CatalogIn, CatalogKind, Id, Memory};

/// What a creation of a row of the catalog gives, without the id.
#[tactic(auto, unfolding(ks_machine::specs::Targets::of_catalog_body))]
pub fn put_catalog_body(fields: &mut Fields, asked: &CatalogIn) -> Result<(), Memory>
    ensures { OnOk result (fields.new ≡ fields.old ++ of_catalog_body asked.now.of asked.now) }
{
    match asked.of {
        CatalogKind::Region => fields.put_region(&Seen {
            id: None,
            name: None,
            domain: None,
            enabled: None,
        }),
        CatalogKind::Service => fields.put_service(&Seen {
            id: None,
            name: asked.name.as_ref(),
            domain: None,
            enabled: asked.enabled,
        }),
        CatalogKind::Endpoint => fields.put_endpoint(&Seen {
            id: None,
            name: None,
            domain: None,
            enabled: asked.enabled,
        }),
    }
}

#[tactic(auto, unfolding(ks_machine::specs::Targets::object))]
pub fn put_region(fields: &mut Fields, tables: &Tables, id: &Id) -> Result<(), Memory>
    ensures { OnOk result (fields.new ≡ fields.old ++ object (rows_told tables.now) kinds.Region id.now) }
{
    match tables.catalog.region(id) {
        Some(row) => fields.put_region(&Seen {
            id: Some(&row.id),
            name: None,
            domain: None,
            enabled: None,
        }),
        None => Ok(()),
    }
}

#[tactic(auto, unfolding(ks_machine::specs::Targets::object))]
pub fn put_service(fields: &mut Fields, tables: &Tables, id: &Id) -> Result<(), Memory>
    ensures { OnOk result (fields.new ≡ fields.old ++ object (rows_told tables.now) kinds.Service id.now) }
{
    match tables.catalog.service(id) {
        Some(row) => fields.put_service(&Seen {
            id: Some(&row.id),
            name: Some(&row.name),
            domain: None,
            enabled: Some(row.enabled),
        }),
        None => Ok(()),
    }
}

#[tactic(auto, unfolding(ks_machine::specs::Targets::object))]
pub fn put_endpoint(fields: &mut Fields, tables: &Tables, id: &Id) -> Result<(), Memory>
    ensures { OnOk result (fields.new ≡ fields.old ++ object (rows_told tables.now) kinds.Endpoint id.now) }
{
    match tables.catalog.endpoint(id) {
        Some(row) => fields.put_endpoint(&Seen {
            id: Some(&row.id),
            name: None,
            domain: None,
            enabled: Some(row.enabled),
        }),
        None => Ok(()),
    }
}
