ghost use Rattle.std.specs.Prelude.{◌≡◌, ◌++◌, ◌↔◌, ℕ, List, IfOk, IsSome, None, OnOk};
ghost use Rattle.ks_base.specs.Roles.{IsImplied};
ghost use Rattle.ks_base.specs.Tables.{id_cmp, Among, IsAscending, find_row, put_row};
ghost use Rattle.ks_base.specs.RoleLists.{implied_ids};

use crate::Roles;
use ks_base::{Boxed, Id, IdList, Memory, Ordered, RowSet};
use std::alloc::{AllocError, Global};
use std::cmp::Ordering;
use std::marker::Model;

/// The id of a role that walks from the given ones have come to.
#[derive(Drop)]
struct Reached {
    id: Id,
}

impl Model for Reached {
    ghost use Rattle.std.specs.Prelude.{ℕ, List};

    ghost Value = { List ℕ };

    ghost view = { λ reached. reached.id };
}

impl Ordered for Reached {
    ghost use Rattle.std.proofs.lemmas.Cmp.{nat_list_cmp_total};
    ghost use Rattle.ks_base.specs.Tables.{id_cmp};
    ghost use Rattle.ks_base.specs.OrderLaws.{id_exact};

    ghost cmp = { id_cmp };

    ghost total = { nat_list_cmp_total };

    ghost exact = { id_exact };

    fn compare(&self, other: &Reached) -> Ordering {
        self.id.cmp(&other.id)
    }
}

/// The ids, in their order.
fn ids_of(alloc: Global, reached: &[Boxed<Reached>]) -> Result<Vec<Id>, AllocError>
    ensures { IfOk result (λ ids. ids.items ≡ reached.now) }
{
    reached.iter().map(|role| role.get().id).collect(alloc)
}

impl Roles {
    /// The roles that these imply, themselves included, each once and in the order of their ids: the end points
    /// of walks of zero or more implications from these.
    pub fn closure(&self, roles: &IdList) -> Result<IdList, Memory>
        ensures implied { IfOk result (λ ids. (role : List ℕ) → Among ids role ↔ IsImplied self.now.implications roles.now role) }
        ensures ascending { IfOk result (λ ids. IsAscending id_cmp (λ id. id) ids) }
    {
        let mut reached = RowSet::new(self.alloc);
        let mut next = Vec::from_slice(self.alloc, roles.as_slice())?;
        'walk: while let Some(id) = next.pop() {
            self.come_to(id, &mut reached, &mut next)?;
        }
        let ids = ids_of(self.alloc, reached.rows())?;
        Ok(IdList::from_vec(ids))
    }

    /// Passes a role that was reached before; a new one is reached then, and what it implies directly comes next.
    fn come_to(
        &self,
        id: Id,
        reached: &mut RowSet<Reached>,
        next: &mut Vec<Id>,
    ) -> Result<(), Memory>
        ensures passed { IsSome (find_row id_cmp (λ other. other) id reached.old) → OnOk result ((reached.new ≡ reached.old) × (next.new.items ≡ next.old.items)) }
        ensures followed { find_row id_cmp (λ other. other) id reached.old ≡ None → OnOk result ((reached.new ≡ put_row id_cmp (λ other. other) id reached.old) × (next.new.items ≡ next.old.items ++ implied_ids id self.now.implications)) }
    {
        if !reached.add(Reached { id })? {
            return Ok(());
        }
        let implied = self.implied_by(&id)?;
        next.extend_from_slice(implied.as_slice())?;
        Ok(())
    }
}
