use crate::{Id, Memory, TryCopy};

/// Which tokens a revocation ends.
#[derive(Clone, Copy, PartialEq, Eq)]
pub enum Revoke {
    /// The tokens of this audit id.
    Audit([u8; 16]),
    /// Those that a user holds, or that name the user as trustor or trustee.
    User(Id),
    /// Those that name a project.
    Project(Id),
    /// Those of a user of a domain, or that name it.
    Domain(Id),
    /// Those that a trust gave.
    Trust(Id),
}

/// A revocation: it ends those of its tokens that were issued at or before its moment.
#[derive(Clone, Copy, PartialEq, Eq)]
pub struct EventRow {
    pub what: Revoke,
    /// In whole seconds since 1970-01-01T00:00:00Z.
    pub moment: u64,
}

/// What revocations look at in a token.
#[derive(Clone, Copy)]
pub struct Holder {
    pub audit: [u8; 16],
    pub user: Id,
    pub trustor: Option<Id>,
    pub trustee: Option<Id>,
    pub project: Option<Id>,
    pub trust: Option<Id>,
    pub user_domain: Option<Id>,
    pub scope_domain: Option<Id>,
}

impl TryCopy for Revoke {
    fn copy(&self) -> Result<Revoke, Memory> {
        Ok(*self)
    }
}

impl TryCopy for EventRow {
    fn copy(&self) -> Result<EventRow, Memory> {
        Ok(*self)
    }
}

impl TryCopy for Holder {
    fn copy(&self) -> Result<Holder, Memory> {
        Ok(*self)
    }
}
