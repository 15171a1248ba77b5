//! What answers that grant a command tell (Identity API v3).
ghost use Rattle.std.specs.Prelude.{◌≡◌, IfOk};

use crate::RowKind;
use ks_base::{
    AppCredRow, Boxed, DomainRow, EndpointRow, EventList, GrantList, GroupRow, Id, IndexList,
    ListOf, Memory, ProjectRow, RegionRow, RoleList, RoleRow, SecretRow, ServiceRow, Text,
    TrustRow, TryCopy, UserRow,
};
use ks_catalog::ProjectCatalog;
use std::alloc::Global;

/// An id and the name that goes with it.
#[derive(Drop)]
pub struct Titled {
    pub id: Id,
    pub name: Text,
}

/// Ids with their names, in the order of the ids.
pub type TitledList = ListOf<Titled>;

/// An id and a name within a domain.
pub struct Homed {
    pub id: Id,
    pub name: Text,
    pub domain: Titled,
}

impl Drop for Homed {
    fn drop(self) {
        let Homed {
            id: _,
            name: _,
            domain: _,
        } = self;
    }
}

/// The trust that a token is of.
#[derive(Drop)]
pub struct TrustUse {
    pub id: Id,
    pub impersonation: bool,
    pub trustee: Id,
    pub trustor: Id,
}

/// What is told of a token. Moments are in whole seconds since 1970-01-01T00:00:00Z.
pub struct TokenOut {
    pub text: Text,
    /// Whether this answer made the token.
    pub made: bool,
    pub audit: [u8; 16],
    /// The audit id of the token with which its chain began, if that is another one.
    pub chain: Option<[u8; 16]>,
    /// A set of bits: 1 for a password, 2 for a token, 4 for a one-time password, 8 for an
    /// application credential.
    pub methods: u8,
    pub issued: u64,
    pub expires: u64,
    pub user: Homed,
    pub project: Option<Homed>,
    pub domain: Option<Titled>,
    pub trust: Option<TrustUse>,
    /// None exactly where the token has no scope.
    pub roles: Option<TitledList>,
    /// Whether it is for the whole system.
    pub system: bool,
    /// The services of its scope. None exactly where the token has no scope.
    pub catalog: Option<ProjectCatalog>,
}

impl Drop for TokenOut {
    fn drop(self) {
        let TokenOut {
            text: _,
            made: _,
            audit: _,
            chain: _,
            methods: _,
            issued: _,
            expires: _,
            user: _,
            project: _,
            domain: _,
            trust: _,
            roles: _,
            system: _,
            catalog: _,
        } = self;
    }
}

/// A row of any kind that is told by itself or in a listing.
pub enum Row {
    Domain(DomainRow),
    Project(ProjectRow),
    User(UserRow),
    Group(GroupRow),
    Role(RoleRow),
    /// A trust, and its roles with their names.
    Trust(TrustRow, TitledList),
    Region(RegionRow),
    Service(ServiceRow),
    Endpoint(EndpointRow),
    /// An application credential, and its roles with their names.
    AppCred(AppCredRow, TitledList),
    Secret(SecretRow),
}

impl Drop for Row {
    fn drop(self) {
        match self {
            Row::Domain(_)
            | Row::Project(_)
            | Row::User(_)
            | Row::Group(_)
            | Row::Role(_)
            | Row::Trust(_, _)
            | Row::Region(_)
            | Row::Service(_)
            | Row::Endpoint(_)
            | Row::AppCred(_, _)
            | Row::Secret(_) => {}
        }
    }
}

/// Rows in the order of their ids.
pub type RowList = ListOf<Row>;

/// What an answer that grants a command tells. A truth value says whether the command made what is told;
/// the text at the end is the path of the listing. Rows and tokens stand behind pointers, so that an answer is
/// small to hand on.
pub enum BodyOut {
    /// Nothing.
    Nothing,
    /// The version document of the Identity API.
    Version,
    /// The versions of the Identity API that there are.
    Versions,
    Token(Boxed<TokenOut>),
    One(Boxed<Row>, bool),
    Many(RowKind, RowList, Text),
    /// One implication: the prior role, and the one that it implies.
    Inference(Boxed<Titled>, Boxed<Titled>, bool),
    /// The prior role, and all that it implies directly.
    Inferences(Titled, TitledList),
    /// The roles of a grant.
    Grants(RoleList, Text),
    Assignments(GrantList, Text),
    Trusts(RowList, Text),
    TrustRoles(RoleList, Text),
    Events(EventList, Text),
    /// The indices of the keys that are held, rising, and the one that seals.
    Keys(IndexList, u32),
    /// The services of the caller's scope.
    Catalog(ProjectCatalog, Text),
    /// A new application credential, its roles with their names, and its secret, which is told this once.
    AppCredMade(Boxed<AppCredRow>, TitledList, Text),
    AppCreds(RowList, Text),
    Secrets(RowList, Text),
}

impl Drop for BodyOut {
    fn drop(self) {
        match self {
            BodyOut::Nothing
            | BodyOut::Version
            | BodyOut::Versions
            | BodyOut::Token(_)
            | BodyOut::One(_, _)
            | BodyOut::Many(_, _, _)
            | BodyOut::Inference(_, _, _)
            | BodyOut::Inferences(_, _)
            | BodyOut::Grants(_, _)
            | BodyOut::Assignments(_, _)
            | BodyOut::Trusts(_, _)
            | BodyOut::TrustRoles(_, _)
            | BodyOut::Events(_, _)
            | BodyOut::Keys(_, _)
            | BodyOut::Catalog(_, _)
            | BodyOut::AppCredMade(_, _, _)
            | BodyOut::AppCreds(_, _)
            | BodyOut::Secrets(_, _) => {}
        }
    }
}

impl BodyOut {
    /// One row; the truth value as above.
    pub fn one(alloc: Global, row: Row, made: bool) -> Result<BodyOut, Memory>
        ensures { IfOk result (λ told. told ≡ BodyOut.One row made) }
    {
        Ok(BodyOut::One(Boxed::new(alloc, row)?, made))
    }
}

impl Titled {
    /// An equal value.
    pub fn copy(&self) -> Result<Titled, Memory>
        ensures { IfOk result (λ made. made ≡ self.now) }
    {
        Ok(Titled {
            id: self.id,
            name: self.name.copy()?,
        })
    }
}

impl TryCopy for Titled {
    fn copy(&self) -> Result<Titled, Memory> {
        Titled::copy(self)
    }
}

impl Row {
    /// An equal row.
    pub fn copy(&self) -> Result<Row, Memory>
        ensures { IfOk result (λ made. made ≡ self.now) }
    {
        match self {
            Row::Domain(row) => Ok(Row::Domain(row.copy()?)),
            Row::Project(row) => Ok(Row::Project(row.copy()?)),
            Row::User(row) => Ok(Row::User(row.copy()?)),
            Row::Group(row) => Ok(Row::Group(row.copy()?)),
            Row::Role(row) => Ok(Row::Role(row.copy()?)),
            Row::Trust(row, roles) => Ok(Row::Trust(row.copy()?, roles.copy()?)),
            Row::Region(row) => Ok(Row::Region(row.copy()?)),
            Row::Service(row) => Ok(Row::Service(row.copy()?)),
            Row::Endpoint(row) => Ok(Row::Endpoint(row.copy()?)),
            Row::AppCred(row, roles) => Ok(Row::AppCred(row.copy()?, roles.copy()?)),
            Row::Secret(row) => Ok(Row::Secret(row.copy()?)),
        }
    }
}

impl TryCopy for Row {
    fn copy(&self) -> Result<Row, Memory> {
        Row::copy(self)
    }
}
