ghost use Rattle.std.specs.Prelude.{◌≡◌, IfOk};

use crate::{Bytes, Id, Memory, Row, TryCopy};

/// A secret that a user shares with a device, from which both make the same codes (RFC 6238).
#[derive(Drop)]
pub struct SecretRow {
    pub id: Id,
    pub user: Id,
    /// The key of the codes, of any number of bytes.
    pub secret: Bytes,
}

/// The methods that a user has to log in by.
#[derive(Drop)]
pub struct MfaRow {
    pub user: Id,
    /// Rules that are not enabled ask for nothing.
    pub enabled: bool,
    /// Each byte is one rule, the set of the methods that it asks for: bit 0 password, bit 2 totp.
    pub rules: Bytes,
}

impl SecretRow {
    /// An equal row.
    pub fn copy(&self) -> Result<SecretRow, Memory>
        ensures { IfOk result (λ made. made ≡ self.now) }
    {
        Ok(SecretRow {
            id: self.id,
            user: self.user,
            secret: self.secret.copy()?,
        })
    }
}

impl MfaRow {
    /// An equal row.
    pub fn copy(&self) -> Result<MfaRow, Memory>
        ensures { IfOk result (λ made. made ≡ self.now) }
    {
        Ok(MfaRow {
            user: self.user,
            enabled: self.enabled,
            rules: self.rules.copy()?,
        })
    }
}

impl Row for SecretRow {
    ghost key = { λ row. row.id };

    fn id(&self) -> &Id {
        &self.id
    }
}

impl Row for MfaRow {
    ghost key = { λ row. row.user };

    fn id(&self) -> &Id {
        &self.user
    }
}

impl TryCopy for SecretRow {
    fn copy(&self) -> Result<SecretRow, Memory> {
        SecretRow::copy(self)
    }
}

impl TryCopy for MfaRow {
    fn copy(&self) -> Result<MfaRow, Memory> {
        MfaRow::copy(self)
    }
}
