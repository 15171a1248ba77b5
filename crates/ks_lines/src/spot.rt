//! Places in an opening file, and the texts that lines are made of.
ghost use Rattle.std.specs.Prelude.{◌≡◌, IfOk, string_bytes};
ghost use Rattle.std.specs.List.{flat_map};
ghost use Rattle.ks_lines.specs.Spots.{field_name, list_name, located, quoted, row_name, row_path, spot_at, spot_path};

use itoa::Buffer;
use ks_base::{Id, Kind, Memory};
use ks_written::joined;
use serde_json::Value;
use std::alloc::Global;

/// A field of a row.
#[derive(Clone, Copy)]
pub(crate) enum Field {
    Id,
    DomainId,
    ParentId,
    Name,
    Group,
    User,
    Prior,
    Implied,
    Project,
    Domain,
    Role,
    ParentRegionId,
    ServiceId,
    RegionId,
}

/// A field of a row of the list of this kind, the rows counted from 0.
#[derive(Clone, Copy)]
pub(crate) struct Spot {
    pub list: Kind,
    pub row: usize,
    pub field: Field,
}

/// The field of the row at this place, where there is one.
pub(crate) fn spot_at(list: Kind, field: Field, place: Option<usize>) -> Option<Spot>
    ensures { result ≡ spot_at list field place }
{
    match place {
        Some(row) => Some(Spot { list, row, field }),
        None => None,
    }
}

impl Field {
    #[tactic(auto, unfolding(crate::specs::Spots::field_name))]
    fn name(self) -> &'static str
        ensures { result.now ≡ field_name self }
    {
        match self {
            Field::Id => "id",
            Field::DomainId => "domain_id",
            Field::ParentId => "parent_id",
            Field::Name => "name",
            Field::Group => "group",
            Field::User => "user",
            Field::Prior => "prior",
            Field::Implied => "implied",
            Field::Project => "project",
            Field::Domain => "domain",
            Field::Role => "role",
            Field::ParentRegionId => "parent_region_id",
            Field::ServiceId => "service_id",
            Field::RegionId => "region_id",
        }
    }
}

/// The list of the rows of a kind.
#[tactic(auto, unfolding(crate::specs::Spots::list_name))]
pub(crate) fn list_name(kind: Kind) -> &'static str
    ensures { result.now ≡ list_name kind }
{
    match kind {
        Kind::Domain => "domains",
        Kind::Project => "projects",
        Kind::User => "users",
        Kind::Group => "groups",
        Kind::Role => "roles",
        Kind::Implication => "implications",
        Kind::Grant => "assignments",
        Kind::Member => "members",
        Kind::Trust => "trusts",
        Kind::Event => "events",
        Kind::Region => "regions",
        Kind::Service => "services",
        Kind::Endpoint => "endpoints",
        Kind::AppCred => "application_credentials",
        Kind::Secret => "credentials",
    }
}

/// One row of a kind.
#[tactic(auto, unfolding(crate::specs::Spots::row_name))]
pub(crate) fn row_name(kind: Kind) -> &'static str
    ensures { result.now ≡ row_name kind }
{
    match kind {
        Kind::Domain => "domain",
        Kind::Project => "project",
        Kind::User => "user",
        Kind::Group => "group",
        Kind::Role => "role",
        Kind::Implication => "implication",
        Kind::Grant => "assignment",
        Kind::Member => "member",
        Kind::Trust => "trust",
        Kind::Event => "event",
        Kind::Region => "region",
        Kind::Service => "service",
        Kind::Endpoint => "endpoint",
        Kind::AppCred => "application credential",
        Kind::Secret => "credential",
    }
}

/// The text as JSON writes it.
pub(crate) fn quoted(alloc: Global, text: &str) -> Result<String, Memory>
    ensures { IfOk result (λ made. string_bytes made ≡ quoted text.now) }
{
    let value = Value::String(String::from_str(alloc, text)?);
    let made = value.to_string(alloc)?;
    Ok(made)
}

pub(crate) fn id_quoted(alloc: Global, id: &Id) -> Result<String, Memory>
    ensures { IfOk result (λ made. string_bytes made ≡ quoted id.now) }
{
    quoted(alloc, id.as_str())
}

/// The path of a row.
pub(crate) fn row_path(alloc: Global, list: Kind, row: usize) -> Result<String, Memory>
    ensures { IfOk result (λ made. string_bytes made ≡ row_path list row) }
{
    joined(
        alloc,
        &[list_name(list), "[", Buffer::new().format(row), "]"],
    )
}

impl Spot {
    /// The path of the field.
    fn path(self, alloc: Global) -> Result<String, Memory>
        ensures { IfOk result (λ made. string_bytes made ≡ spot_path self) }
    {
        let row = row_path(alloc, self.list, self.row)?;
        joined(alloc, &[row.as_str(), ".", self.field.name()])
    }
}

/// What is said, behind the path of the place that it is said of.
pub(crate) fn located(alloc: Global, spot: Option<Spot>, said: &str) -> Result<String, Memory>
    ensures { IfOk result (λ made. string_bytes made ≡ located spot said.now) }
{
    match spot {
        Some(spot) => {
            let path = spot.path(alloc)?;
            joined(alloc, &[path.as_str(), ": ", said])
        }
        None => joined(alloc, &[said]),
    }
}
