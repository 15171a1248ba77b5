ghost use Rattle.std.specs.Prelude.{◌≡◌, IfOk};

use crate::{Id, IdList, Memory, Named, PasswordRow, Row, Text, TryCopy};

/// An application credential (Identity API v3, application credentials): a secret by which a user logs in on one
/// project, with these roles.
#[derive(Drop)]
pub struct AppCredRow {
    pub id: Id,
    pub user: Id,
    pub project: Id,
    /// Unique among the credentials of the user.
    pub name: Text,
    pub description: Text,
    /// The ids of the roles that it gives.
    pub roles: IdList,
    /// What is kept of its secret.
    pub secret: PasswordRow,
    /// The moment from which it serves no more, in whole seconds since 1970-01-01T00:00:00Z.
    pub expires: Option<u64>,
    /// A token of it may make trusts and further credentials.
    pub unrestricted: bool,
}

impl AppCredRow {
    /// An equal row.
    pub fn copy(&self) -> Result<AppCredRow, Memory>
        ensures { IfOk result (λ made. made ≡ self.now) }
    {
        Ok(AppCredRow {
            id: self.id,
            user: self.user,
            project: self.project,
            name: self.name.copy()?,
            description: self.description.copy()?,
            roles: self.roles.copy()?,
            secret: self.secret,
            expires: self.expires,
            unrestricted: self.unrestricted,
        })
    }
}

impl Row for AppCredRow {
    ghost key = { λ row. row.id };

    fn id(&self) -> &Id {
        &self.id
    }
}

/// Names are told apart by the user.
impl Named for AppCredRow {
    ghost naming = { λ row. row.name };

    ghost within = { λ row. row.user };

    fn name(&self) -> &Text {
        &self.name
    }

    fn home(&self) -> &[u8] {
        self.user.as_slice()
    }
}

impl TryCopy for AppCredRow {
    fn copy(&self) -> Result<AppCredRow, Memory> {
        AppCredRow::copy(self)
    }
}
