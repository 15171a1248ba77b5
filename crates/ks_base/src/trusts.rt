ghost use Rattle.std.specs.Prelude.{◌≡◌, IfOk};

use crate::{Id, IdList, Memory, Row, TryCopy};

/// That `trustee` may act for `trustor`, with these roles, in this project.
#[derive(Drop)]
pub struct TrustRow {
    pub id: Id,
    pub trustor: Id,
    pub trustee: Id,
    pub project: Id,
    pub roles: IdList,
    /// Tokens are of the trustor, and not of the trustee.
    pub impersonation: bool,
    /// The moment from which it serves no more, in whole seconds since 1970-01-01T00:00:00Z.
    pub expires: Option<u64>,
    /// How often it serves yet, where that is limited.
    pub remaining: Option<u64>,
    /// How many trusts may follow below it.
    pub count: u32,
    /// The trust that it passes on.
    pub parent: Option<Id>,
}

impl TrustRow {
    /// An equal row.
    pub fn copy(&self) -> Result<TrustRow, Memory>
        ensures { IfOk result (λ made. made ≡ self.now) }
    {
        Ok(TrustRow {
            id: self.id,
            trustor: self.trustor,
            trustee: self.trustee,
            project: self.project,
            roles: self.roles.copy()?,
            impersonation: self.impersonation,
            expires: self.expires,
            remaining: self.remaining,
            count: self.count,
            parent: self.parent,
        })
    }
}

impl Row for TrustRow {
    ghost key = { λ row. row.id };

    fn id(&self) -> &Id {
        &self.id
    }
}

impl TryCopy for TrustRow {
    fn copy(&self) -> Result<TrustRow, Memory> {
        TrustRow::copy(self)
    }
}
