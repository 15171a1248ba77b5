//! The kinds of rows that have routes of their own, and which of them a body says.
ghost use Rattle.std.specs.Prelude.{◌≡◌, map};
ghost use Rattle.ks_machine.specs.Actions.{row_words};
ghost use Rattle.ks_machine.specs.Targets.{catalog_kind, filter_names};

use ks_base::CatalogKind;

/// The kinds of rows that have routes of their own.
#[derive(Clone, Copy)]
pub enum RowKind {
    Domain,
    Project,
    User,
    Group,
    Role,
    Region,
    Service,
    Endpoint,
}

/// Those that are not of the catalog: `Made` says a row of each.
#[derive(Clone, Copy)]
pub enum MadeKind {
    Domain,
    Project,
    User,
    Group,
    Role,
}

impl RowKind {
    /// The kind of a row of the catalog.
    pub fn of_catalog(kind: CatalogKind) -> RowKind
        ensures { result ≡ catalog_kind kind }
    {
        match kind {
            CatalogKind::Region => RowKind::Region,
            CatalogKind::Service => RowKind::Service,
            CatalogKind::Endpoint => RowKind::Endpoint,
        }
    }

    /// The word for its rows in paths and bodies.
    pub fn words(self) -> &'static str
        ensures { result.now ≡ row_words self }
    {
        match self {
            RowKind::Domain => "domains",
            RowKind::Project => "projects",
            RowKind::User => "users",
            RowKind::Group => "groups",
            RowKind::Role => "roles",
            RowKind::Region => "regions",
            RowKind::Service => "services",
            RowKind::Endpoint => "endpoints",
        }
    }

    /// The names by which a listing is filtered, each where the rows have the field.
    pub fn filter_names(self) -> &'static [&'static str]
        ensures { map (λ name. name.now) result.now ≡ filter_names self }
    {
        match self {
            RowKind::Domain => &["name", "enabled"],
            RowKind::Project => &["name", "domain_id", "parent_id", "enabled"],
            RowKind::User => &["name", "domain_id", "enabled"],
            RowKind::Group => &["name", "domain_id"],
            RowKind::Role => &["name"],
            RowKind::Region => &["parent_region_id"],
            RowKind::Service => &["type", "name"],
            RowKind::Endpoint => &["service_id", "region_id", "interface"],
        }
    }
}
