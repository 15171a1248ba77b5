//! The trusts that go with a change.
ghost use Rattle.std.specs.Prelude.{◌≡◌, ◌++◌, Bool, filter, map, IfOk};
ghost use Rattle.ks_base.specs.declared.events.Revoke.{Revoke};
ghost use Rattle.ks_base.specs.declared.trusts.TrustRow.{TrustRow};
ghost use Rattle.ks_base.specs.Tables.{id_cmp, IsAscending};
ghost use Rattle.ks_base.specs.Trusts.{has_role, names_trust, trusts_gone, trusts_left};
ghost use Rattle.ks_trust.specs.State.{ids_of, without_trusts, IsClosed};

use crate::ended::{Ends, end_each};
use ks_base::{Id, IdList, ListOf, Memory, Revoke, Test, TrustRow};
use ks_trust::{Trusts, gone_by_their_ids, left_without_their_ids, named_by_their_ids};

/// What a change touches of the trusts.
pub(crate) trait Touches {
    ghost touches: { Self → TrustRow → Bool };

    /// The ids of the trusts that are touched, in their order.
    fn ids(&self, trusts: &Trusts) -> Result<IdList, Memory>
        ensures ids { IfOk result (λ ids. ids ≡ ids_of (filter (touches self.now) trusts.now)) }
        ensures ascending { IfOk result (λ ids. IsAscending id_cmp (λ id. id) ids) };
}

/// Trusts of what a revocation names.
#[derive(Drop)]
pub(crate) struct Naming<'a> {
    pub(crate) what: &'a Revoke,
}

impl Touches for Naming<'_> {
    ghost touches = { λ wanted trust. names_trust wanted.what.now trust };

    fn ids(&self, trusts: &Trusts) -> Result<IdList, Memory> {
        trusts.ids_naming(self.what)
    }
}

/// Trusts with this role.
#[derive(Drop)]
pub(crate) struct WithRole<'a> {
    pub(crate) role: &'a Id,
}

impl Test<TrustRow> for WithRole<'_> {
    ghost test = { λ wanted trust. has_role wanted.role.now trust };

    fn test(&self, trust: &TrustRow) -> bool {
        trust.roles.as_slice().iter().any(|role| role == self.role)
    }
}

impl Touches for WithRole<'_> {
    ghost touches = { λ wanted trust. has_role wanted.role.now trust };

    fn ids(&self, trusts: &Trusts) -> Result<IdList, Memory> {
        trusts.ids_where(self)
    }
}

/// The ids of the trusts that are touched, and of all that descend from one of them.
fn gone_with<T: Touches>(trusts: &Trusts, change: &T) -> Result<IdList, Memory>
    ensures ids { IfOk result (λ ids. ids ≡ ids_of (trusts_gone trusts.now (T.touches change.now))) }
    ensures ascending { IfOk result (λ ids. IsAscending id_cmp (λ id. id) ids) }
    ensures closed { IfOk result (λ ids. IsClosed trusts.now ids) }
    ensures left { IfOk result (λ ids. without_trusts ids trusts.now ≡ trusts_left trusts.now (T.touches change.now)) }
{
    named_by_their_ids();
    gone_by_their_ids();
    left_without_their_ids();
    let _in_order = trusts.rows();
    let touched = change.ids(trusts)?;
    trusts.with_children(&touched)
}

/// The trusts that go with a change, and what ends with them.
pub(crate) struct TrustsGone {
    pub(crate) ids: IdList,
    pub(crate) things: ListOf<Revoke>,
}

impl Drop for TrustsGone {
    fn drop(self) {
        let TrustsGone { ids: _, things: _ } = self;
    }
}

/// The trusts that are touched, and all that descend from one of them, and their ends behind those that come first.
pub(crate) fn trusts_gone<T: Touches>(
    trusts: &Trusts,
    change: &T,
    first: ListOf<Revoke>,
) -> Result<TrustsGone, Memory>
    ensures things { IfOk result (λ gone. gone.things ≡ first ++ map (λ trust. Revoke.Trust trust.id) (trusts_gone trusts.now (T.touches change.now))) }
    ensures ascending { IfOk result (λ gone. IsAscending id_cmp (λ id. id) gone.ids) }
    ensures closed { IfOk result (λ gone. IsClosed trusts.now gone.ids) }
    ensures left { IfOk result (λ gone. without_trusts gone.ids trusts.now ≡ trusts_left trusts.now (T.touches change.now)) }
{
    let ids = gone_with(trusts, change)?;
    let things = end_trusts(first, &ids)?;
    Ok(TrustsGone { ids, things })
}

/// The things, and then the ends of the trusts with these ids.
fn end_trusts(first: ListOf<Revoke>, ids: &IdList) -> Result<ListOf<Revoke>, Memory>
    ensures { IfOk result (λ things. things ≡ first ++ map Revoke.Trust ids.now) }
{
    let mut things = first;
    end_each(&mut things, Ends::Trust, ids.as_slice())?;
    Ok(things)
}
