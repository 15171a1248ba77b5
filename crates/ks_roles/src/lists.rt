ghost use Rattle.std.specs.Prelude.{◌≡◌, filter, map, IfOk};
ghost use Rattle.ks_base.specs.Tables.{id_cmp, IsAscending};
ghost use Rattle.ks_base.specs.RoleLists.{implied_ids, is_named};

use crate::Roles;
use crate::named::OfPrior;
use ks_base::{Boxed, Id, IdList, ImplyRow, Memory, Text};
use std::alloc::{AllocError, Global};

/// The roles that these implications let follow.
fn implied_in(alloc: Global, implications: &[Boxed<ImplyRow>]) -> Result<Vec<Id>, AllocError>
    ensures { IfOk result (λ ids. ids.items ≡ map (λ row. row.implied) implications.now) }
{
    implications
        .iter()
        .map(|row| row.get().implied)
        .collect(alloc)
}

impl Roles {
    /// The ids of all roles, in their order.
    pub fn ids(&self) -> Result<IdList, Memory>
        ensures { IfOk result (λ ids. ids ≡ map (λ row. row.id) self.now.roles) }
    {
        self.roles.ids()
    }

    /// The ids of the roles of this name, of which there is one at most. No other roles are gone through.
    pub fn roles_named(&self, name: &Text) -> Result<IdList, Memory>
        ensures { IfOk result (λ ids. ids ≡ map (λ row. row.id) (filter (is_named name.now) self.now.roles)) }
    {
        self.roles.ids_named(name)
    }

    /// The ids of the roles that this one implies directly, in their order. No other implications are gone through.
    pub fn implied_by(&self, prior: &Id) -> Result<IdList, Memory>
        ensures ids { IfOk result (λ ids. ids ≡ implied_ids prior.now self.now.implications) }
        ensures ascending { IfOk result (λ ids. IsAscending id_cmp (λ id. id) ids) }
    {
        let _ascending = self.implications.rows();
        let implied = implied_in(self.alloc, self.implications.of(&OfPrior { prior: *prior }))?;
        Ok(IdList::from_vec(implied))
    }
}
