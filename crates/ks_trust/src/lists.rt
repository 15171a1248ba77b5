//! The lists of ids of trusts.
ghost use Rattle.std.specs.Prelude.{◌≡◌, filter, map, option_copied, IfOk, Some};
ghost use Rattle.ks_base.specs.Tables.{id_cmp, IsAscending};
ghost use Rattle.ks_base.specs.Rows.{same};
ghost use Rattle.ks_base.specs.Trusts.{names_trust, trusts_gone};
ghost use Rattle.ks_trust.specs.State.{ids_of, is_listed, is_touched, IsClosed};
ghost use Rattle.ks_trust.specs.Sides.{names};

use crate::Trusts;
use crate::sides::{Reference, TrustSide};
use crate::trusts::lists_role;
use ks_base::by_id::{ids_of, ids_passing};
use ks_base::{Boxed, Id, IdList, Memory, Revoke, Row, Test, TrustRow};
use std::alloc::{AllocError, Global};

/// Whether the trust is one that ends with what the revocation names.
fn is_of(what: &Revoke, trust: &TrustRow) -> bool
    ensures { result ≡ names_trust what.now trust.now }
{
    match what {
        Revoke::User(id) => trust.trustor == *id || trust.trustee == *id,
        Revoke::Project(id) => trust.project == *id,
        Revoke::Trust(id) => trust.id == *id,
        Revoke::Audit(_) | Revoke::Domain(_) => false,
    }
}

fn ids_touched(
    alloc: Global,
    rows: &[Boxed<TrustRow>],
    what: &Revoke,
    role: &Id,
) -> Result<Vec<Id>, AllocError>
    ensures { IfOk result (λ ids. ids.items ≡ ids_of (filter (is_touched what.now (Some role.now)) rows.now)) }
{
    rows.iter()
        .filter(|row| is_of(what, row.get()) || lists_role(&row.get().roles, role))
        .map(|row| *row.id())
        .collect(alloc)
}

/// The ids of the trusts of these sides.
fn trusts_of(alloc: Global, sides: &[Boxed<TrustSide>]) -> Result<Vec<Id>, AllocError>
    ensures { IfOk result (λ ids. ids.items ≡ map (λ side. side.trust) sides.now) }
{
    sides.iter().map(|side| side.get().trust).collect(alloc)
}

impl Trusts {
    /// The ids of all trusts, in their order.
    pub fn ids(&self) -> Result<IdList, Memory>
        ensures ids { IfOk result (λ ids. ids ≡ ids_of self.now) }
        ensures ascending { IfOk result (λ ids. IsAscending id_cmp (λ id. id) ids) }
    {
        let ids = ids_of(*self.rows.allocator(), self.rows.as_slice())?;
        Ok(IdList::from_vec(ids))
    }

    /// The ids of the trusts that pass, in their order, each once.
    pub fn ids_where<T: Test<TrustRow>>(&self, test: &T) -> Result<IdList, Memory>
        ensures ids { IfOk result (λ ids. ids ≡ ids_of (filter (T.test test.now) self.now)) }
        ensures ascending { IfOk result (λ ids. IsAscending id_cmp (λ id. id) ids) }
    {
        let ids = ids_passing(*self.rows.allocator(), self.rows.as_slice(), test)?;
        Ok(IdList::from_vec(ids))
    }

    /// The ids of the trusts whose trustor or trustee, project, or own id the revocation names (`Audit` and
    /// `Domain` name none), and of those with the role, if one is given; in their order, each once.
    pub fn touching(&self, what: &Revoke, role: Option<&Id>) -> Result<IdList, Memory>
        ensures ids { IfOk result (λ ids. ids ≡ ids_of (filter (is_touched what.now (option_copied role.entry)) self.now)) }
        ensures ascending { IfOk result (λ ids. IsAscending id_cmp (λ id. id) ids) }
    {
        let Some(role) = role else {
            return self.ids_naming(what);
        };
        let ids = ids_touched(*self.rows.allocator(), self.rows.as_slice(), what, role)?;
        Ok(IdList::from_vec(ids))
    }

    /// The ids of the trusts whose trustor or trustee, project, or own id the revocation names (`Audit` and
    /// `Domain` name none), in their order, each once. No other trusts are gone through.
    pub fn ids_naming(&self, what: &Revoke) -> Result<IdList, Memory>
        ensures ids { IfOk result (λ ids. ids ≡ ids_of (filter (names_trust what.now) self.now)) }
        ensures ascending { IfOk result (λ ids. IsAscending id_cmp (λ id. id) ids) }
    {
        let _ascending = self.rows();
        let ids = self.naming(what)?;
        Ok(IdList::from_vec(ids))
    }

    fn naming(&self, what: &Revoke) -> Result<Vec<Id>, Memory>
        ensures { IfOk result (λ ids. ids.items ≡ ids_of (filter (names_trust what.now) self.now)) }
    {
        match what {
            Revoke::User(id) => self.along(&Reference::User(*id)),
            Revoke::Project(id) => self.along(&Reference::Project(*id)),
            Revoke::Trust(id) => self.with_id(id),
            Revoke::Audit(_) | Revoke::Domain(_) => Ok(Vec::new(*self.rows.allocator())),
        }
    }

    /// The ids of the trusts that name this, in their order.
    pub(crate) fn along(&self, what: &Reference) -> Result<Vec<Id>, Memory>
        ensures { IfOk result (λ ids. ids.items ≡ ids_of (filter (names what.now) self.now)) }
    {
        let _ascending = self.sides.rows();
        Ok(trusts_of(*self.rows.allocator(), self.sides.of(what))?)
    }

    /// The id, if a trust has it.
    fn with_id(&self, id: &Id) -> Result<Vec<Id>, Memory>
        ensures { IfOk result (λ ids. ids.items ≡ ids_of (filter (λ trust. same trust.id id.now) self.now)) }
    {
        let mut ids = Vec::new(*self.rows.allocator());
        let Some(trust) = self.trust(id) else {
            return Ok(ids);
        };
        ids.push(trust.id)?;
        Ok(ids)
    }

    /// The ids of the trusts that these ids name, and of all that descend from one of them, in their order, each
    /// once.
    pub fn with_children(&self, ids: &IdList) -> Result<IdList, Memory>
        requires ascending { IsAscending id_cmp (λ id. id) ids.now }
        ensures ids { IfOk result (λ all. all ≡ ids_of (trusts_gone self.now (is_listed ids.now))) }
        ensures ascending { IfOk result (λ all. IsAscending id_cmp (λ id. id) all) }
        ensures closed { IfOk result (λ all. IsClosed self.now all) }
    {
        let _rows = &self.rows;
        let all = self.hanging_on(ids.as_slice())?;
        Ok(IdList::from_vec(all))
    }
}
