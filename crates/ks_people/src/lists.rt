//! The lists of ids that are shown.
ghost use Rattle.std.specs.Prelude.{◌≡◌, filter, map, IfOk};
ghost use Rattle.ks_base.specs.Rows.{same};
ghost use Rattle.ks_base.specs.Tables.{id_cmp, IsAscending};
ghost use Rattle.ks_base.specs.People.{users_of, group_ids, groups_of, members_of};

use crate::People;
use ks_base::{Boxed, ByUser, Id, IdList, InDomain, InGroup, MemberRow, Memory, OfUser, Text};
use std::alloc::{AllocError, Global};

/// The groups of these memberships.
fn groups_in(alloc: Global, memberships: &[Boxed<ByUser>]) -> Result<Vec<Id>, AllocError>
    ensures { IfOk result (λ groups. groups.items ≡ map (λ side. side.row.group) memberships.now) }
{
    memberships
        .iter()
        .map(|side| side.get().row.group)
        .collect(alloc)
}

/// The users of these memberships.
fn users_in(alloc: Global, memberships: &[Boxed<MemberRow>]) -> Result<Vec<Id>, AllocError>
    ensures { IfOk result (λ users. users.items ≡ map (λ row. row.user) memberships.now) }
{
    memberships.iter().map(|row| row.get().user).collect(alloc)
}

impl People {
    /// The ids of the domain's users, in their order.
    pub fn users_of(&self, domain: &Id) -> Result<IdList, Memory>
        ensures { IfOk result (λ ids. ids ≡ users_of domain.now self.now) }
    {
        self.users.ids_where(&InDomain { domain })
    }

    /// The ids of the domain's groups, in their order.
    pub fn group_ids(&self, domain: &Id) -> Result<IdList, Memory>
        ensures { IfOk result (λ ids. ids ≡ group_ids domain.now self.now) }
    {
        self.groups.ids_where(&InDomain { domain })
    }

    /// The ids of the users of this name in all domains, in their order. No other users are gone through.
    pub fn users_named(&self, name: &Text) -> Result<IdList, Memory>
        ensures { IfOk result (λ ids. ids ≡ map (λ row. row.id) (filter (λ row. same row.name name.now) self.now.users)) }
    {
        self.users.ids_named(name)
    }

    /// The ids of the groups of this name in all domains, in their order. No other groups are gone through.
    pub fn groups_named(&self, name: &Text) -> Result<IdList, Memory>
        ensures { IfOk result (λ ids. ids ≡ map (λ row. row.id) (filter (λ row. same row.name name.now) self.now.groups)) }
    {
        self.groups.ids_named(name)
    }

    /// The ids of the groups that the user is in, in their order.
    pub fn groups_of(&self, user: &Id) -> Result<IdList, Memory>
        ensures ids { IfOk result (λ ids. ids ≡ groups_of user.now self.now) }
        ensures ascending { IfOk result (λ ids. IsAscending id_cmp (λ id. id) ids) }
    {
        let _ascending = self.members.rows();
        let groups = groups_in(self.alloc, self.members.at(&OfUser { user: *user }))?;
        Ok(IdList::from_vec(groups))
    }

    /// The ids of the users in the group, in their order.
    pub fn members_of(&self, group: &Id) -> Result<IdList, Memory>
        ensures ids { IfOk result (λ ids. ids ≡ members_of group.now self.now) }
        ensures ascending { IfOk result (λ ids. IsAscending id_cmp (λ id. id) ids) }
    {
        let _ascending = self.members.rows();
        let users = users_in(self.alloc, self.members.of(&InGroup { group: *group }))?;
        Ok(IdList::from_vec(users))
    }
}
