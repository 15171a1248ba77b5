//! Application credentials and second factors.
ghost use Rattle.ks_spelling.specs.Rows.{app_cred_code, mfa_code, secret_code};

use crate::{Cursor, Spelled, Unread};
use ks_base::{AppCredRow, Bytes, Id, IdList, Memory, MfaRow, PasswordRow, SecretRow, Text};
use std::alloc::Global;

impl Spelled for AppCredRow {
    ghost code = { app_cred_code };

    #[tactic(auto, unfolding(crate::specs::Rows::app_cred_code))]
    fn write_to(&self, into: &mut Vec<u8>) -> Result<(), Memory> {
        self.id.write_to(into)?;
        self.user.write_to(into)?;
        self.project.write_to(into)?;
        self.name.write_to(into)?;
        self.description.write_to(into)?;
        self.roles.write_to(into)?;
        self.secret.write_to(into)?;
        self.expires.write_to(into)?;
        self.unrestricted.write_to(into)
    }

    #[tactic(auto, unfolding(crate::specs::Rows::app_cred_code))]
    fn read_from(alloc: Global, from: &mut Cursor<'_>) -> Result<AppCredRow, Unread> {
        let id = Id::read_from(alloc, from)?;
        let user = Id::read_from(alloc, from)?;
        let project = Id::read_from(alloc, from)?;
        let name = Text::read_from(alloc, from)?;
        let description = Text::read_from(alloc, from)?;
        let roles = IdList::read_from(alloc, from)?;
        let secret = PasswordRow::read_from(alloc, from)?;
        let expires = Option::<u64>::read_from(alloc, from)?;
        let unrestricted = bool::read_from(alloc, from)?;
        Ok(AppCredRow {
            id,
            user,
            project,
            name,
            description,
            roles,
            secret,
            expires,
            unrestricted,
        })
    }
}

impl Spelled for SecretRow {
    ghost code = { secret_code };

    #[tactic(auto, unfolding(crate::specs::Rows::secret_code))]
    fn write_to(&self, into: &mut Vec<u8>) -> Result<(), Memory> {
        self.id.write_to(into)?;
        self.user.write_to(into)?;
        self.secret.write_to(into)
    }

    #[tactic(auto, unfolding(crate::specs::Rows::secret_code))]
    fn read_from(alloc: Global, from: &mut Cursor<'_>) -> Result<SecretRow, Unread> {
        let id = Id::read_from(alloc, from)?;
        let user = Id::read_from(alloc, from)?;
        let secret = Bytes::read_from(alloc, from)?;
        Ok(SecretRow { id, user, secret })
    }
}

impl Spelled for MfaRow {
    ghost code = { mfa_code };

    #[tactic(auto, unfolding(crate::specs::Rows::mfa_code))]
    fn write_to(&self, into: &mut Vec<u8>) -> Result<(), Memory> {
        self.user.write_to(into)?;
        self.enabled.write_to(into)?;
        self.rules.write_to(into)
    }

    #[tactic(auto, unfolding(crate::specs::Rows::mfa_code))]
    fn read_from(alloc: Global, from: &mut Cursor<'_>) -> Result<MfaRow, Unread> {
        let user = Id::read_from(alloc, from)?;
        let enabled = bool::read_from(alloc, from)?;
        let rules = Bytes::read_from(alloc, from)?;
        Ok(MfaRow {
            user,
            enabled,
            rules,
        })
    }
}
