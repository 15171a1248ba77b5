//! All tables, and the rows that come and go.

use crate::answers::{Answer, of_catalog, of_event, of_new, of_row, of_tree, of_trust};
use crate::events::Events;
use crate::rows::{EACH, Pair, listed};
use anyhow::{Result, bail};
use ks_assign::Grants;
use ks_base::{CatalogKind, Kind, MemberRow, Revoke};
use ks_catalog::Catalog;
use ks_index::Table;
use ks_links::RunSet;
use ks_people::People;
use ks_roles::Roles;
use ks_tree::Tree;
use ks_trust::Trusts;
use std::alloc::Global;

/// How long tokens live, in seconds.
const LIFE: u64 = 3_600;

/// The tables that are filled.
pub struct Tables {
    alloc: Global,
    tree: Tree,
    people: People,
    roles: Roles,
    grants: Grants,
    trusts: Trusts,
    catalog: Catalog,
    events: Events,
}

impl Drop for Tables {
    fn drop(self) {
        let Tables {
            alloc: _,
            tree: _,
            people: _,
            roles: _,
            grants: _,
            trusts: _,
            catalog: _,
            events: _,
        } = self;
    }
}

impl Tables {
    /// Empty tables.
    pub fn new(alloc: Global) -> Tables {
        Tables {
            alloc,
            tree: Tree::new(alloc),
            people: People::new(alloc),
            roles: Roles::new(alloc),
            grants: Grants::new(alloc),
            trusts: Trusts::new(alloc),
            catalog: Catalog::new(alloc),
            events: Events::new(alloc, LIFE),
        }
    }

    /// Adds a row of this kind.
    pub fn add(&mut self, kind: Kind, pair: &Pair) -> Result<Answer> {
        let alloc = self.alloc;
        match kind {
            Kind::Domain => Ok(of_tree(self.tree.add_domain(pair.domain(alloc)?))),
            Kind::User => Ok(of_row(self.people.add_user(pair.user(alloc)?))),
            Kind::Group => Ok(of_row(self.people.add_group(pair.group(alloc)?))),
            Kind::Member => Ok(of_new(self.people.join_group(pair.member()))),
            Kind::Role => Ok(of_row(self.roles.add(pair.role(alloc)?))),
            Kind::Implication => Ok(of_new(self.roles.imply(pair.implication()))),
            Kind::Grant => Ok(of_new(self.grants.grant(pair.grant()))),
            Kind::Trust => self.trust(pair),
            Kind::Event => Ok(of_event(self.events.add(&Revoke::User(pair.first)))),
            Kind::Region => Ok(of_catalog(self.catalog.add(pair.region(alloc)?))),
            Kind::Service => Ok(of_catalog(self.catalog.add(pair.service(alloc)?))),
            Kind::Endpoint => Ok(of_catalog(self.catalog.add(pair.endpoint(alloc)?))),
            Kind::Project | Kind::AppCred | Kind::Secret => bail!("none of these is made"),
        }
    }

    /// Makes people anew, with so many memberships by their numbers from 0, as an opening makes them.
    pub fn gather(&mut self, count: u64) -> Result<()> {
        let mut users = Table::new(self.alloc);
        let mut groups = Table::new(self.alloc);
        for number in 0..=EACH {
            let pair = Pair::numbered(self.alloc, number)?;
            users.put(pair.user(self.alloc)?)?;
            groups.put(pair.group(self.alloc)?)?;
        }
        let members = memberships(self.alloc, count)?;
        self.people = People::from_tables(self.alloc, users, groups, members)?;
        Ok(())
    }

    /// A trust of somebody who has all roles.
    fn trust(&mut self, pair: &Pair) -> Result<Answer> {
        let row = pair.trust(self.alloc)?;
        let held = listed(self.alloc, &pair.second)?;
        Ok(of_trust(self.trusts.create(row, &held, 0)))
    }

    /// Takes a row of this kind out.
    pub fn remove(&mut self, kind: Kind, pair: &Pair) -> Result<Answer> {
        match kind {
            Kind::Domain => Ok(of_tree(self.tree.drop_domain(&pair.first))),
            Kind::Group => Ok(of_row(self.people.drop_group(&pair.first))),
            Kind::Member => Ok(of_row(self.people.leave_group(&pair.member()))),
            Kind::Role => Ok(of_row(self.roles.drop_role(&pair.first))),
            Kind::Implication => Ok(of_row(self.roles.unimply(&pair.implication()))),
            Kind::Grant => Ok(of_row(self.grants.ungrant(&pair.grant()))),
            Kind::Trust => self.end_trust(pair),
            Kind::Region => Ok(self.drop_listed(CatalogKind::Region, pair)),
            Kind::Service => Ok(self.drop_listed(CatalogKind::Service, pair)),
            Kind::Endpoint => Ok(self.drop_listed(CatalogKind::Endpoint, pair)),
            Kind::Project | Kind::User | Kind::Event | Kind::AppCred | Kind::Secret => {
                bail!("none of these is taken out")
            }
        }
    }

    fn drop_listed(&mut self, of: CatalogKind, pair: &Pair) -> Answer {
        of_catalog(self.catalog.drop_row(of, &pair.first))
    }

    fn end_trust(&mut self, pair: &Pair) -> Result<Answer> {
        let ended = listed(self.alloc, &pair.first)?;
        let Ok(gone) = self.trusts.with_children(&ended) else {
            bail!("out of memory");
        };
        self.trusts.drop_all(&gone);
        Ok(Answer::Done)
    }

    /// Lists the ids of all domains or endpoints, or of the trusts that are the first or have the second as role.
    pub fn list(&self, kind: Kind, pair: &Pair) -> Result<Answer> {
        let listed = match kind {
            Kind::Endpoint => return Ok(Answer::Listed(self.catalog.endpoints().len())),
            Kind::Domain => self.tree.domain_ids(),
            Kind::Trust => {
                let named = Revoke::Trust(pair.first);
                self.trusts.touching(&named, Some(&pair.second))
            }
            _ => bail!("none of these is listed"),
        };
        match listed {
            Ok(ids) => Ok(Answer::Listed(ids.as_slice().len())),
            Err(_) => bail!("out of memory"),
        }
    }

    /// Moves the greatest moment on.
    pub fn advance(&mut self, moment: u64) {
        self.events.advance(moment);
    }
}

/// So many memberships, by their numbers from 0.
fn memberships(alloc: Global, count: u64) -> Result<RunSet<MemberRow>> {
    let mut members = RunSet::new(alloc);
    for number in 0..count {
        members.add(Pair::related(alloc, number)?.member())?;
    }
    Ok(members)
}
