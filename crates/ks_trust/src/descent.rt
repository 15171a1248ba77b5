//! From trusts down their chains.
ghost use Rattle.std.specs.Prelude.{◌≡◌, filter, is_some, IfOk, IfSome};
ghost use Rattle.ks_base.specs.Rows.{trust_of};
ghost use Rattle.ks_base.specs.Tables.{id_cmp, IsAscending};
ghost use Rattle.ks_base.specs.Trusts.{trusts_gone};
ghost use Rattle.ks_trust.specs.State.{ids_of, is_listed};

use crate::Trusts;
use crate::sides::Reference;
use ks_base::{Id, Memory, Row};
use ks_index::in_order;
use ks_links::FEW;
use std::alloc::AllocError;

impl Trusts {
    /// The ids of the trusts that these ids name, and of all that descend from one of them, in their order.
    pub(crate) fn hanging_on(&self, ids: &[Id]) -> Result<Vec<Id>, Memory>
        requires ascending { IsAscending id_cmp (λ id. id) ids.now }
        ensures { IfOk result (λ all. all.items ≡ ids_of (trusts_gone self.now (is_listed ids.now))) }
    {
        match self.few_hanging_on(ids)? {
            Some(few) => Ok(few),
            None => Ok(self.ids_hanging_on(ids)?),
        }
    }

    /// The same, where they are few: no other trust is looked at. `None` says that they are not.
    fn few_hanging_on(&self, ids: &[Id]) -> Result<Option<Vec<Id>>, Memory>
        ensures { IfOk result (λ few. IfSome few (λ all. all.items ≡ ids_of (trusts_gone self.now (is_listed ids.now)))) }
    {
        let _rows = self.rows();
        let mut found = self.standing(ids)?;
        for at in 0..FEW {
            if at >= found.len() {
                return Ok(Some(in_order(found)?));
            }
            let children = self.along(&Reference::Parent(found[at]))?;
            found.extend_from_slice(children.as_slice())?;
        }
        Ok(None)
    }

    /// Those of the ids that trusts have.
    fn standing(&self, ids: &[Id]) -> Result<Vec<Id>, AllocError>
        ensures { IfOk result (λ standing. standing.items ≡ filter (λ id. is_some (trust_of id self.now)) ids.now) }
    {
        ids.iter()
            .filter(|id| self.trust(id).is_some())
            .copied()
            .collect(*self.rows.allocator())
    }

    /// By a look at all trusts.
    fn ids_hanging_on(&self, ids: &[Id]) -> Result<Vec<Id>, AllocError>
        requires ascending { IsAscending id_cmp (λ id. id) ids.now }
        ensures { IfOk result (λ all. all.items ≡ ids_of (trusts_gone self.now (is_listed ids.now))) }
    {
        self.rows
            .iter()
            .filter(|row| self.hangs_on(ids, row.get()))
            .map(|row| *row.id())
            .collect(*self.rows.allocator())
    }
}
