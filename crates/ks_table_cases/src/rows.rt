//! Rows of each kind, made of two words.
ghost use Rattle.std.specs.Prelude.{◌≡◌, IfOk};
ghost use Rattle.ks_base.specs.Tables.{id_cmp, IsAscending};

use anyhow::{Result, bail};
use ks_base::{
    Actor, CatalogRow, DomainRow, EndpointRow, GrantRow, GroupRow, Id, IdList, ImplyRow, Interface,
    MemberRow, RegionRow, RoleRow, ServiceRow, Target, Text, TrustRow, UserRow,
};
use std::alloc::Global;

/// How many members a group has, implications a role, and grants a user, of those that are made by number.
pub const EACH: u64 = 512;

/// The two words of a row. A domain, a user, a group, a role and a service has an id and a name; a membership a group and a
/// user; an implication the prior role and the implied one; a grant a user and a role; a trust an id and a role; an endpoint
/// an id and its service; and a region an id and a revocation a user, their second word being of no account.
#[derive(Clone, Copy)]
pub struct Pair {
    pub first: Id,
    pub second: Id,
}

impl Pair {
    pub fn read(first: &str, second: &str) -> Result<Pair> {
        Ok(Pair {
            first: id(first)?,
            second: id(second)?,
        })
    }

    /// The row that has this number among those with an id.
    pub fn numbered(alloc: Global, number: u64) -> Result<Pair> {
        let id = digits(alloc, number)?;
        Ok(Pair {
            first: id,
            second: id,
        })
    }

    /// The row that has this number among those that relate two ids.
    pub fn related(alloc: Global, number: u64) -> Result<Pair> {
        Ok(Pair {
            first: digits(alloc, number / EACH)?,
            second: digits(alloc, number % EACH)?,
        })
    }

    /// The endpoint that has this number, of a service.
    pub fn served(alloc: Global, number: u64) -> Result<Pair> {
        Ok(Pair {
            first: digits(alloc, number)?,
            second: digits(alloc, number % EACH)?,
        })
    }

    fn name(&self, alloc: Global) -> Result<Text> {
        let name = std::str::from_utf8(self.second.as_slice())?;
        Ok(Text::of(alloc, name)?)
    }

    /// A disabled domain, which may be dropped.
    pub fn domain(&self, alloc: Global) -> Result<DomainRow> {
        Ok(DomainRow {
            id: self.first,
            name: self.name(alloc)?,
            description: Text::of(alloc, "")?,
            enabled: false,
        })
    }

    pub fn user(&self, alloc: Global) -> Result<UserRow> {
        Ok(UserRow {
            id: self.first,
            domain: id("d")?,
            name: self.name(alloc)?,
            enabled: true,
            password: None,
        })
    }

    pub fn group(&self, alloc: Global) -> Result<GroupRow> {
        Ok(GroupRow {
            id: self.first,
            domain: id("d")?,
            name: self.name(alloc)?,
            description: Text::of(alloc, "")?,
        })
    }

    pub fn role(&self, alloc: Global) -> Result<RoleRow> {
        Ok(RoleRow {
            id: self.first,
            name: self.name(alloc)?,
            description: Text::of(alloc, "")?,
        })
    }

    /// A region below no other.
    pub fn region(&self, alloc: Global) -> Result<CatalogRow> {
        Ok(CatalogRow::Region(RegionRow {
            id: self.first,
            parent: None,
            description: Text::of(alloc, "")?,
        }))
    }

    pub fn service(&self, alloc: Global) -> Result<CatalogRow> {
        Ok(CatalogRow::Service(ServiceRow {
            id: self.first,
            kind: Text::of(alloc, "compute")?,
            name: self.name(alloc)?,
            description: Text::of(alloc, "")?,
            enabled: true,
        }))
    }

    pub fn endpoint(&self, alloc: Global) -> Result<CatalogRow> {
        Ok(CatalogRow::Endpoint(EndpointRow {
            id: self.first,
            service: self.second,
            region: None,
            interface: Interface::Public,
            url: Text::of(alloc, "http://cloud")?,
            enabled: true,
        }))
    }

    pub fn member(&self) -> MemberRow {
        MemberRow {
            group: self.first,
            user: self.second,
        }
    }

    pub fn implication(&self) -> ImplyRow {
        ImplyRow {
            prior: self.first,
            implied: self.second,
        }
    }

    pub fn grant(&self) -> GrantRow {
        GrantRow {
            actor: Actor::User(self.first),
            target: Target::System,
            inherited: false,
            role: self.second,
        }
    }

    pub fn trust(&self, alloc: Global) -> Result<TrustRow>
        ensures { IfOk result (λ row. row.parent ≡ None) }
    {
        Ok(TrustRow {
            id: self.first,
            trustor: id("ann")?,
            trustee: id("bob")?,
            project: id("p")?,
            roles: listed(alloc, &self.second)?,
            impersonation: false,
            expires: None,
            remaining: None,
            count: 0,
            parent: None,
        })
    }
}

/// The list of this one id.
pub fn listed(alloc: Global, id: &Id) -> Result<IdList>
    ensures { IfOk result (λ ids. IsAscending id_cmp (λ other. other) ids) }
{
    let mut ids = IdList::new(alloc);
    ids.push(*id)?;
    Ok(ids)
}

pub fn id(word: &str) -> Result<Id> {
    match Id::read(word.as_bytes()) {
        Ok(id) => Ok(id),
        Err(_) => bail!("`{word}` is no id"),
    }
}

/// The number in six digits.
fn digits(alloc: Global, number: u64) -> Result<Id> {
    id(format!(in alloc; "{number:06}")?.as_str())
}
