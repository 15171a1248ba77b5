use crate::{Memory, TryCopy};

/// What a row, a table or a count is of.
#[derive(Clone, Copy, Debug)]
pub enum Kind {
    Domain,
    Project,
    User,
    Group,
    Role,
    Implication,
    Grant,
    Member,
    Trust,
    /// A revocation.
    Event,
    Region,
    Service,
    Endpoint,
    /// An application credential.
    AppCred,
    /// A secret of one-time passwords.
    Secret,
}

impl TryCopy for Kind {
    fn copy(&self) -> Result<Kind, Memory> {
        Ok(*self)
    }
}
