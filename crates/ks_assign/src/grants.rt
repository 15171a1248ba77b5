ghost use Rattle.std.specs.Prelude.{◌≡◌, ◌≢◌, [], not, filter, map, Ok, Err, false, is_none, IsNone, IsSome, IfOk, IfSome, IsTrue, ◌↔◌};
ghost use Rattle.ks_base.specs.declared.limits.TheConstants.{GRANTS};
ghost use Rattle.ks_base.specs.Orders.{grant_cmp};
ghost use Rattle.ks_base.specs.Refusals.{Changes, Decides, fault_in};
ghost use Rattle.ks_base.specs.Tables.{IsAscending, find_row};
ghost use Rattle.ks_base.specs.Grants.{stands, with_grant, without_grant, grant_fault, ungrant_fault, is_of_actor, is_at_target, is_of_role};

use crate::by_target::{AtTarget, ByTarget};
use crate::named::OfOtherRoles;
use ks_base::limits::GRANTS;
use ks_base::{
    Actor, Boxed, GrantList, GrantRow, Id, Kind, Memory, RowFault, Target, Test, refuse_if,
};
use ks_links::{Links, RunRows, RunSet};
use std::alloc::{AllocError, Global};
use std::marker::Model;

/// Grants, each once: by actor (users first), target (the system first, then domains), whether they are inherited (those that
/// are not first) and role. Beside this order they stand by target, so that those at one are found without the others.
#[derive(Drop)]
pub struct Grants {
    alloc: Global,
    rows: Links<GrantRow, ByTarget>,
}

impl Model for Grants {
    ghost use Rattle.std.specs.Prelude.{List};
    ghost use Rattle.ks_base.specs.declared.grants.GrantRow.{GrantRow};

    ghost Value = { List GrantRow };

    ghost view = { λ grants. grants.rows };
}

/// Copies of these grants.
fn copies(alloc: Global, rows: RunRows<'_, GrantRow>) -> Result<Vec<GrantRow>, AllocError>
    ensures { IfOk result (λ copies. copies.items ≡ rows.entry) }
{
    rows.copied().collect(alloc)
}

impl Grants {
    /// No grants, which take no memory yet.
    pub fn new(alloc: Global) -> Grants
        ensures { result ≡ [] }
    {
        Grants {
            alloc,
            rows: Links::new(alloc),
        }
    }

    /// These grants, with their order by target made beside their own.
    pub fn from_rows(alloc: Global, rows: RunSet<GrantRow>) -> Result<Grants, Memory>
        ensures { IfOk result (λ grants. grants ≡ rows) }
    {
        Ok(Grants {
            alloc,
            rows: Links::from_rows(alloc, rows)?,
        })
    }

    /// Grants, and says whether the grant is new; one that stands is no change and takes no memory. Refused is
    /// the 262,145th grant (`Full`). Whatever is refused changes nothing.
    pub fn grant(&mut self, row: GrantRow) -> Result<bool, RowFault>
        ensures changes { Changes RowFault.Memory (grant_fault self.old row) self.old (with_grant row self.old) result self.new }
        ensures new { IfOk result (λ new. new ≡ not (stands self.old row)) }
        ensures standing { IsTrue (stands self.old row) → (result ≡ Ok false) × (self.new ≡ self.old) }
    {
        let _actor = &row.actor;
        self.may_grant(&row)?;
        Ok(self.rows.add(row)?)
    }

    /// The cause for which `grant` refuses the row, found without a change.
    pub fn may_grant(&self, row: &GrantRow) -> Result<(), RowFault>
        ensures { fault_in result ≡ grant_fault self.now row.now }
    {
        refuse_if(
            !self.rows.has(row) && self.rows.len() >= GRANTS,
            RowFault::Full(Kind::Grant),
        )
    }

    /// Takes a grant back. Refused is one that does not stand (`Absent`, with its role).
    pub fn ungrant(&mut self, row: &GrantRow) -> Result<(), RowFault>
        ensures decides { Decides (ungrant_fault self.old row.now) self.old (without_grant row.now self.old) result self.new }
        ensures memory { result ≢ Err RowFault.Memory }
    {
        self.may_ungrant(row)?;
        let _stood = self.rows.remove(row);
        Ok(())
    }

    /// The cause for which `ungrant` refuses the row, found without a change.
    pub fn may_ungrant(&self, row: &GrantRow) -> Result<(), RowFault>
        ensures { fault_in result ≡ ungrant_fault self.now row.now }
    {
        refuse_if(!self.rows.has(row), RowFault::Absent(Kind::Grant, row.role))
    }

    /// The grants of this user or group, by target, whether they are inherited, and role. It takes no memory, and
    /// looks at no other grants than a binary search for the first and one for the last of them.
    pub fn of_actor(&self, actor: &Actor) -> Option<&[Boxed<GrantRow>]>
        ensures rows { IfSome result (λ rows. rows.now ≡ filter (is_of_actor actor.now) self.now) }
        ensures none { IsNone result ↔ (filter (is_of_actor actor.now) self.now ≡ []) }
        ensures ascending { IfSome result (λ rows. IsAscending grant_cmp (λ row. row) rows.now) }
    {
        let rows = self.rows.of(actor);
        if rows.is_empty() { None } else { Some(rows) }
    }

    /// The grants at this target, seen from there: by actor, whether they are inherited, and role. It takes no memory, and
    /// looks at no other grants than a binary search for the first and one for the last of them.
    pub fn at_target(&self, target: &Target) -> &[Boxed<ByTarget>]
        ensures { map (λ side. side.row) result.now ≡ filter (is_at_target target.now) self.now }
    {
        self.rows.at(&AtTarget { target: *target })
    }

    /// Whether the grant stands.
    pub fn has(&self, row: &GrantRow) -> bool
        ensures { result ≡ stands self.now row.now }
    {
        self.rows.has(row)
    }

    /// Takes all grants to the user or group back: where they are few, no other is looked at. It takes no memory.
    pub fn drop_actor(&mut self, actor: &Actor)
        ensures { self.new ≡ filter (λ row. not (is_of_actor actor.now row)) self.old }
    {
        self.rows.drop_of(actor);
    }

    /// Takes all grants at the target back: where they are few, no other is looked at. It takes no memory.
    pub fn drop_target(&mut self, target: &Target)
        ensures { self.new ≡ filter (λ row. not (is_at_target target.now row)) self.old }
    {
        self.rows.drop_at(&AtTarget { target: *target });
    }

    /// Takes all grants of the role back.
    pub fn drop_role(&mut self, role: &Id)
        ensures { self.new ≡ filter (λ row. not (is_of_role role.now row)) self.old }
    {
        self.rows.keep(&OfOtherRoles { role });
    }

    /// Keeps the grants that pass. It takes no memory.
    pub fn keep<T: Test<GrantRow>>(&mut self, test: &T)
        ensures { self.new ≡ filter (T.test test.now) self.old }
    {
        self.rows.keep(test);
    }

    /// A copy of all grants, in their order.
    pub fn rows(&self) -> Result<GrantList, Memory>
        ensures { IfOk result (λ rows. rows ≡ self.now) }
    {
        let rows = copies(self.alloc, self.rows.rows())?;
        Ok(GrantList::from_vec(rows))
    }

    /// All grants, in their order.
    pub fn iter(&self) -> RunRows<'_, GrantRow>
        ensures rows { result ≡ self.now }
        ensures ascending { IsAscending grant_cmp (λ row. row) self.now }
    {
        self.rows.rows()
    }
}
