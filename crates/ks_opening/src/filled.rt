//! An opening whose rows stand in tables.
ghost use Rattle.std.specs.Prelude.{◌≡◌, [], IfOk, None};
ghost use Rattle.ks_base.specs.Refusals.{fault_in};
ghost use Rattle.ks_machine.specs.Opened.{full_fault, ids_fault};
ghost use Rattle.ks_opening.specs.steps.Filled.{IsFilled, keys_fault, rows_of, with_ring};
ghost use Rattle.ks_policy.specs.Openings.{plain};
ghost use Rattle.ks_ring.specs.Rings.{loaded_unless, new_of, refusal_of};

use crate::OpenedTables;
use crate::limits::check_full;
use crate::tables::{catalog_of, parties_of, rights_of};
use ks_assign::Grants;
use ks_base::{KeyList, Memory};
use ks_catalog::Catalog;
use ks_machine::{OpenFault, Settings};
use ks_people::People;
use ks_policy::{Opening, Rules};
use ks_ring::Ring;
use ks_roles::Roles;
use ks_tree::Tree;
use std::alloc::Global;

/// What a server opens with, its rows in tables and its keys in a list.
pub(crate) struct Filled {
    pub(crate) settings: Settings,
    pub(crate) rules: Rules,
    pub(crate) keys: KeyList,
    pub(crate) tree: Tree,
    pub(crate) people: People,
    pub(crate) roles: Roles,
    pub(crate) grants: Grants,
    pub(crate) catalog: Catalog,
}

impl Drop for Filled {
    fn drop(self) {
        let Filled {
            settings: _,
            rules: _,
            keys: _,
            tree: _,
            people: _,
            roles: _,
            grants: _,
            catalog: _,
        } = self;
    }
}

impl Filled {
    /// Puts the rows of an opening, in which no id is repeated, into their tables.
    pub(crate) fn of(alloc: Global, opening: Opening) -> Result<Filled, Memory>
        requires { ids_fault (plain opening) ≡ None }
        ensures { IfOk result (λ filled. IsFilled filled (plain opening)) }
    {
        let Opening {
            settings,
            rules,
            ring: keys,
            domains,
            projects,
            users,
            groups,
            members,
            roles,
            implications,
            regions,
            services,
            endpoints,
            assignments,
        } = opening;
        let (tree, people) = parties_of(alloc, domains, projects, users, groups, members)?;
        let (roles, grants) = rights_of(alloc, roles, implications, assignments)?;
        let catalog = catalog_of(alloc, regions, services, endpoints)?;
        Ok(Filled {
            settings,
            rules,
            keys,
            tree,
            people,
            roles,
            grants,
            catalog,
        })
    }

    /// Refuses the first kind of which there are too many rows.
    pub(crate) fn check_full(&self) -> Result<(), OpenFault>
        ensures { fault_in result ≡ full_fault (rows_of self.now) }
    {
        check_full(
            &self.tree,
            &self.people,
            &self.roles,
            &self.grants,
            &self.catalog,
        )
    }

    /// The ring of the keys, or why they are none.
    pub(crate) fn ring(&self) -> Result<Ring, OpenFault>
        ensures ring { IfOk result (λ ring. ring ≡ new_of self.now.keys) }
        ensures fault { fault_in result ≡ keys_fault self.now.keys }
    {
        match Ring::new(self.keys.as_slice()) {
            Ok(ring) => Ok(ring),
            Err(fault) => Err(OpenFault::Ring(fault)),
        }
    }

    /// What it opens with, under this ring of its keys.
    pub(crate) fn with_ring(self, ring: Ring) -> OpenedTables
        ensures { result ≡ with_ring self ring }
    {
        let Filled {
            settings,
            rules,
            keys: _,
            tree,
            people,
            roles,
            grants,
            catalog,
        } = self;
        OpenedTables {
            settings,
            rules,
            ring,
            tree,
            people,
            roles,
            grants,
            catalog,
        }
    }
}
