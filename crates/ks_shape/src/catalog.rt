//! The bodies that make and change rows of the service catalog.
ghost use Rattle.std.specs.Prelude.{◌≡◌};
ghost use Rattle.ks_shape.specs.Catalog.{catalog_row_of, endpoint_of, region_at, region_of, service_of, unsaid};
ghost use Rattle.ks_shape.specs.Places.{place_of};
ghost use Rattle.ks_shape.specs.Readings.{Reads};
ghost use Rattle.ks_shape.specs.Types.{interface_named, interface_text};

use crate::fields::FieldType;
use crate::misfit::{Misfit, Unread};
use crate::node::Node;
use crate::rows::{DESCRIPTION, id_at};
use crate::types::{IdText, TextOf, Truth, any_text};
use ks_base::limits::{ENDPOINT_URL_BYTES, NAME_BYTES};
use ks_base::{CatalogIn, CatalogKind, Id, Interface, ShapeRefusal};
use ks_json::Value;
use std::alloc::Global;

/// The type or the name of a service: at most 255 bytes.
pub const SERVICE_TEXT: TextOf = TextOf {
    least: 0,
    most: NAME_BYTES,
};

/// The URL of an endpoint: 1 to 2,048 bytes.
pub const ENDPOINT_URL: TextOf = TextOf {
    least: 1,
    most: ENDPOINT_URL_BYTES,
};

/// The word of an interface.
#[derive(Clone, Copy)]
pub struct InterfaceWord;

fn interface_named(text: &str) -> Option<Interface>
    ensures { result ≡ interface_named text.now }
{
    if text == Interface::Public.word() {
        return Some(Interface::Public);
    }
    if text == Interface::Internal.word() {
        return Some(Interface::Internal);
    }
    if text == Interface::Admin.word() {
        return Some(Interface::Admin);
    }
    None
}

impl FieldType for InterfaceWord {
    type Field = Interface;

    ghost reads = { λ _. interface_text };

    #[tactic(auto, unfolding(crate::specs::Types::interface_text))]
    fn read(&self, _alloc: Global, value: &Value<'_>) -> Result<Interface, Unread> {
        let text = any_text(value)?;
        match interface_named(text) {
            Some(interface) => Ok(interface),
            None => Err(Unread::Misfit(Misfit::Range)),
        }
    }
}

/// A row of which nothing is said but its kind.
fn unsaid(of: CatalogKind) -> CatalogIn
    ensures { result ≡ unsaid of }
{
    CatalogIn {
        of,
        id: None,
        parent: None,
        service: None,
        region: None,
        kind: None,
        name: None,
        description: None,
        interface: None,
        url: None,
        enabled: None,
    }
}

#[tactic(auto, unfolding(crate::specs::Catalog::region_of))]
fn region(body: &Node) -> Result<CatalogIn, ShapeRefusal>
    ensures { Reads result (region_of (place_of body.now)) }
{
    let id = body.optional(&["region", "id"], &IdText)?;
    let description = body.optional(&["region", "description"], &DESCRIPTION)?;
    let parent = body.optional(&["region", "parent_region_id"], &IdText)?;
    Ok(CatalogIn {
        id,
        description,
        parent,
        ..unsaid(CatalogKind::Region)
    })
}

#[tactic(auto, unfolding(crate::specs::Catalog::service_of))]
fn service(new: bool, body: &Node) -> Result<CatalogIn, ShapeRefusal>
    ensures { Reads result (service_of new (place_of body.now)) }
{
    let kind = body.needed_if(new, &["service", "type"], &SERVICE_TEXT)?;
    let name = body.optional(&["service", "name"], &SERVICE_TEXT)?;
    let description = body.optional(&["service", "description"], &DESCRIPTION)?;
    let enabled = body.optional(&["service", "enabled"], &Truth)?;
    let id = id_at(new, &["service", "id"], body)?;
    Ok(CatalogIn {
        kind,
        name,
        description,
        enabled,
        id,
        ..unsaid(CatalogKind::Service)
    })
}

/// The region of an endpoint: clients name it by either member.
#[tactic(auto, unfolding(crate::specs::Catalog::region_at))]
fn region_at(body: &Node) -> Result<Option<Id>, ShapeRefusal>
    ensures { Reads result (region_at (place_of body.now)) }
{
    match body.optional(&["endpoint", "region_id"], &IdText)? {
        Some(id) => Ok(Some(id)),
        None => body.optional(&["endpoint", "region"], &IdText),
    }
}

#[tactic(auto, unfolding(crate::specs::Catalog::endpoint_of))]
fn endpoint(new: bool, body: &Node) -> Result<CatalogIn, ShapeRefusal>
    ensures { Reads result (endpoint_of new (place_of body.now)) }
{
    let service = body.needed_if(new, &["endpoint", "service_id"], &IdText)?;
    let interface = body.needed_if(new, &["endpoint", "interface"], &InterfaceWord)?;
    let url = body.needed_if(new, &["endpoint", "url"], &ENDPOINT_URL)?;
    let region = region_at(body)?;
    let enabled = body.optional(&["endpoint", "enabled"], &Truth)?;
    let id = id_at(new, &["endpoint", "id"], body)?;
    Ok(CatalogIn {
        service,
        interface,
        url,
        region,
        enabled,
        id,
        ..unsaid(CatalogKind::Endpoint)
    })
}

/// The body that makes or changes a row of the catalog.
pub fn catalog_row(kind: CatalogKind, new: bool, body: &Node) -> Result<CatalogIn, ShapeRefusal>
    ensures { Reads result (catalog_row_of kind new (place_of body.now)) }
{
    match kind {
        CatalogKind::Region => region(body),
        CatalogKind::Service => service(new, body),
        CatalogKind::Endpoint => endpoint(new, body),
    }
}
