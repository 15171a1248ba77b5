//! The rows of a state, and what hangs on them.
ghost use Rattle.ks_spelling.specs.Rows.{domain_code, project_code, group_code, role_code, password_code, user_code, trust_code, member_code, imply_code, key_code};

use crate::{Cursor, Spelled, Unread};
use ks_base::{
    DomainRow, GroupRow, Id, IdList, ImplyRow, Key, MemberRow, Memory, PasswordRow, ProjectRow,
    RoleRow, Text, TrustRow, UserRow,
};
use std::alloc::Global;

impl Spelled for DomainRow {
    ghost code = { domain_code };

    #[tactic(auto, unfolding(crate::specs::Rows::domain_code))]
    fn write_to(&self, into: &mut Vec<u8>) -> Result<(), Memory> {
        self.id.write_to(into)?;
        self.name.write_to(into)?;
        self.description.write_to(into)?;
        self.enabled.write_to(into)
    }

    #[tactic(auto, unfolding(crate::specs::Rows::domain_code))]
    fn read_from(alloc: Global, from: &mut Cursor<'_>) -> Result<DomainRow, Unread> {
        let id = Id::read_from(alloc, from)?;
        let name = Text::read_from(alloc, from)?;
        let description = Text::read_from(alloc, from)?;
        let enabled = bool::read_from(alloc, from)?;
        Ok(DomainRow {
            id,
            name,
            description,
            enabled,
        })
    }
}

impl Spelled for ProjectRow {
    ghost code = { project_code };

    #[tactic(auto, unfolding(crate::specs::Rows::project_code))]
    fn write_to(&self, into: &mut Vec<u8>) -> Result<(), Memory> {
        self.id.write_to(into)?;
        self.domain.write_to(into)?;
        self.parent.write_to(into)?;
        self.name.write_to(into)?;
        self.description.write_to(into)?;
        self.enabled.write_to(into)
    }

    #[tactic(auto, unfolding(crate::specs::Rows::project_code))]
    fn read_from(alloc: Global, from: &mut Cursor<'_>) -> Result<ProjectRow, Unread> {
        let id = Id::read_from(alloc, from)?;
        let domain = Id::read_from(alloc, from)?;
        let parent = Id::read_from(alloc, from)?;
        let name = Text::read_from(alloc, from)?;
        let description = Text::read_from(alloc, from)?;
        let enabled = bool::read_from(alloc, from)?;
        Ok(ProjectRow {
            id,
            domain,
            parent,
            name,
            description,
            enabled,
        })
    }
}

impl Spelled for GroupRow {
    ghost code = { group_code };

    #[tactic(auto, unfolding(crate::specs::Rows::group_code))]
    fn write_to(&self, into: &mut Vec<u8>) -> Result<(), Memory> {
        self.id.write_to(into)?;
        self.domain.write_to(into)?;
        self.name.write_to(into)?;
        self.description.write_to(into)
    }

    #[tactic(auto, unfolding(crate::specs::Rows::group_code))]
    fn read_from(alloc: Global, from: &mut Cursor<'_>) -> Result<GroupRow, Unread> {
        let id = Id::read_from(alloc, from)?;
        let domain = Id::read_from(alloc, from)?;
        let name = Text::read_from(alloc, from)?;
        let description = Text::read_from(alloc, from)?;
        Ok(GroupRow {
            id,
            domain,
            name,
            description,
        })
    }
}

impl Spelled for RoleRow {
    ghost code = { role_code };

    #[tactic(auto, unfolding(crate::specs::Rows::role_code))]
    fn write_to(&self, into: &mut Vec<u8>) -> Result<(), Memory> {
        self.id.write_to(into)?;
        self.name.write_to(into)?;
        self.description.write_to(into)
    }

    #[tactic(auto, unfolding(crate::specs::Rows::role_code))]
    fn read_from(alloc: Global, from: &mut Cursor<'_>) -> Result<RoleRow, Unread> {
        let id = Id::read_from(alloc, from)?;
        let name = Text::read_from(alloc, from)?;
        let description = Text::read_from(alloc, from)?;
        Ok(RoleRow {
            id,
            name,
            description,
        })
    }
}

impl Spelled for PasswordRow {
    ghost code = { password_code };

    #[tactic(auto, unfolding(crate::specs::Rows::password_code))]
    fn write_to(&self, into: &mut Vec<u8>) -> Result<(), Memory> {
        self.salt.write_to(into)?;
        self.rounds.write_to(into)?;
        self.digest.write_to(into)
    }

    #[tactic(auto, unfolding(crate::specs::Rows::password_code))]
    fn read_from(alloc: Global, from: &mut Cursor<'_>) -> Result<PasswordRow, Unread> {
        let salt = <[u8; 16]>::read_from(alloc, from)?;
        let rounds = u32::read_from(alloc, from)?;
        let digest = <[u8; 32]>::read_from(alloc, from)?;
        Ok(PasswordRow {
            salt,
            rounds,
            digest,
        })
    }
}

impl Spelled for UserRow {
    ghost code = { user_code };

    #[tactic(auto, unfolding(crate::specs::Rows::user_code))]
    fn write_to(&self, into: &mut Vec<u8>) -> Result<(), Memory> {
        self.id.write_to(into)?;
        self.domain.write_to(into)?;
        self.name.write_to(into)?;
        self.enabled.write_to(into)?;
        self.password.write_to(into)
    }

    #[tactic(auto, unfolding(crate::specs::Rows::user_code))]
    fn read_from(alloc: Global, from: &mut Cursor<'_>) -> Result<UserRow, Unread> {
        let id = Id::read_from(alloc, from)?;
        let domain = Id::read_from(alloc, from)?;
        let name = Text::read_from(alloc, from)?;
        let enabled = bool::read_from(alloc, from)?;
        let password = Option::<PasswordRow>::read_from(alloc, from)?;
        Ok(UserRow {
            id,
            domain,
            name,
            enabled,
            password,
        })
    }
}

impl Spelled for TrustRow {
    ghost code = { trust_code };

    #[tactic(auto, unfolding(crate::specs::Rows::trust_code))]
    fn write_to(&self, into: &mut Vec<u8>) -> Result<(), Memory> {
        self.id.write_to(into)?;
        self.trustor.write_to(into)?;
        self.trustee.write_to(into)?;
        self.project.write_to(into)?;
        self.roles.write_to(into)?;
        self.impersonation.write_to(into)?;
        self.expires.write_to(into)?;
        self.remaining.write_to(into)?;
        self.count.write_to(into)?;
        self.parent.write_to(into)
    }

    #[tactic(auto, unfolding(crate::specs::Rows::trust_code))]
    fn read_from(alloc: Global, from: &mut Cursor<'_>) -> Result<TrustRow, Unread> {
        let id = Id::read_from(alloc, from)?;
        let trustor = Id::read_from(alloc, from)?;
        let trustee = Id::read_from(alloc, from)?;
        let project = Id::read_from(alloc, from)?;
        let roles = IdList::read_from(alloc, from)?;
        let impersonation = bool::read_from(alloc, from)?;
        let expires = Option::<u64>::read_from(alloc, from)?;
        let remaining = Option::<u64>::read_from(alloc, from)?;
        let count = u32::read_from(alloc, from)?;
        let parent = Option::<Id>::read_from(alloc, from)?;
        Ok(TrustRow {
            id,
            trustor,
            trustee,
            project,
            roles,
            impersonation,
            expires,
            remaining,
            count,
            parent,
        })
    }
}

impl Spelled for MemberRow {
    ghost code = { member_code };

    #[tactic(auto, unfolding(crate::specs::Rows::member_code))]
    fn write_to(&self, into: &mut Vec<u8>) -> Result<(), Memory> {
        self.group.write_to(into)?;
        self.user.write_to(into)
    }

    #[tactic(auto, unfolding(crate::specs::Rows::member_code))]
    fn read_from(alloc: Global, from: &mut Cursor<'_>) -> Result<MemberRow, Unread> {
        let group = Id::read_from(alloc, from)?;
        let user = Id::read_from(alloc, from)?;
        Ok(MemberRow { group, user })
    }
}

impl Spelled for ImplyRow {
    ghost code = { imply_code };

    #[tactic(auto, unfolding(crate::specs::Rows::imply_code))]
    fn write_to(&self, into: &mut Vec<u8>) -> Result<(), Memory> {
        self.prior.write_to(into)?;
        self.implied.write_to(into)
    }

    #[tactic(auto, unfolding(crate::specs::Rows::imply_code))]
    fn read_from(alloc: Global, from: &mut Cursor<'_>) -> Result<ImplyRow, Unread> {
        let prior = Id::read_from(alloc, from)?;
        let implied = Id::read_from(alloc, from)?;
        Ok(ImplyRow { prior, implied })
    }
}

impl Spelled for Key {
    ghost code = { key_code };

    #[tactic(auto, unfolding(crate::specs::Rows::key_code))]
    fn write_to(&self, into: &mut Vec<u8>) -> Result<(), Memory> {
        self.signing.write_to(into)?;
        self.encryption.write_to(into)
    }

    #[tactic(auto, unfolding(crate::specs::Rows::key_code))]
    fn read_from(alloc: Global, from: &mut Cursor<'_>) -> Result<Key, Unread> {
        let signing = <[u8; 16]>::read_from(alloc, from)?;
        let encryption = <[u8; 16]>::read_from(alloc, from)?;
        Ok(Key {
            signing,
            encryption,
        })
    }
}
