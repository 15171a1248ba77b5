//! The causes for which a trust is not made or used, in the order in which they are tested.
ghost use Rattle.std.specs.Prelude.{◌≡◌, ◌≢◌, ◌<◌, length, Err, IfOk, Some, option_copied, option_map};
ghost use Rattle.ks_base.specs.declared.limits.TheConstants.{TRUSTS};
ghost use Rattle.ks_base.specs.Places.{IsFoundAt};
ghost use Rattle.ks_base.specs.Refusals.{fault_in};
ghost use Rattle.ks_base.specs.Tables.{id_cmp, IsAscending};
ghost use Rattle.ks_base.specs.Trusts.{creation_fault, first_missing, found_use_fault, is_expired, is_later, is_spent, parent_fault, parent_trust, under_fault, use_fault};

use crate::Trusts;
use crate::trusts::lists_role;
use ks_base::by_id::place;
use ks_base::limits::TRUSTS;
use ks_base::{Boxed, Id, IdList, Kind, TrustFault, TrustRow, refuse_if};

/// The first role that the list has not.
fn first_missing<'a>(roles: &'a IdList, held: &IdList) -> Option<&'a Id>
    ensures { option_copied result ≡ first_missing roles.now held.now }
{
    roles.as_slice().iter().find(|role| !lists_role(held, role))
}

fn is_expired(expires: Option<u64>, moment: u64) -> bool
    ensures { result ≡ is_expired expires moment }
{
    match expires {
        Some(expires) => expires <= moment,
        None => false,
    }
}

/// Whether the one expires later than the other.
fn is_later(expires: Option<u64>, limit: Option<u64>) -> bool
    ensures { result ≡ is_later expires limit }
{
    match (expires, limit) {
        (_, None) => false,
        (None, Some(_)) => true,
        (Some(expires), Some(limit)) => limit < expires,
    }
}

fn is_spent(remaining: Option<u64>) -> bool
    ensures { result ≡ is_spent remaining }
{
    match remaining {
        Some(left) => left == 0,
        None => false,
    }
}

fn parent_has_roles(parent: &TrustRow, row: &TrustRow) -> Result<(), TrustFault>
    ensures { fault_in result ≡ option_map (λ role. TrustFault.RoleNotInParent role) (first_missing row.now.roles parent.now.roles) }
{
    match first_missing(&row.roles, &parent.roles) {
        Some(role) => Err(TrustFault::RoleNotInParent(*role)),
        None => Ok(()),
    }
}

fn roles_are_held(row: &TrustRow, held: &IdList) -> Result<(), TrustFault>
    ensures { fault_in result ≡ option_map (λ role. TrustFault.RoleLost role) (first_missing row.now.roles held.now) }
{
    match first_missing(&row.roles, held) {
        Some(role) => Err(TrustFault::RoleLost(*role)),
        None => Ok(()),
    }
}

#[tactic(auto, unfolding(ks_base::specs::Trusts::under_fault))]
fn may_follow(parent: &TrustRow, row: &TrustRow) -> Result<(), TrustFault>
    ensures { fault_in result ≡ under_fault parent.now row.now }
{
    refuse_if(parent.count == 0, TrustFault::DepthOut)?;
    parent_has_roles(parent, row)?;
    refuse_if(
        row.impersonation && !parent.impersonation,
        TrustFault::Impersonation,
    )?;
    refuse_if(row.remaining.is_some(), TrustFault::UsesSet)?;
    refuse_if(
        is_later(row.expires, parent.expires),
        TrustFault::LaterThanParent,
    )
}

#[tactic(auto, unfolding(ks_base::specs::Trusts::found_use_fault))]
fn may_use(row: &TrustRow, trustee: &Id, moment: u64) -> Result<(), TrustFault>
    ensures { fault_in result ≡ found_use_fault row.now.id trustee.now moment (Some row.now) }
{
    refuse_if(row.trustee != *trustee, TrustFault::NotTrustee)?;
    refuse_if(is_expired(row.expires, moment), TrustFault::Expired)?;
    refuse_if(is_spent(row.remaining), TrustFault::Spent)
}

/// The place of the trust with this id, which the trustee may use.
pub(crate) fn usable(
    rows: &[Boxed<TrustRow>],
    id: &Id,
    trustee: &Id,
    moment: u64,
) -> Result<usize, TrustFault>
    requires { IsAscending id_cmp (λ row. row.id) rows.now }
    ensures refusal { fault_in result ≡ use_fault rows.now id.now trustee.now moment }
    ensures found { IfOk result (λ at. (at < length rows.now) × IsFoundAt id_cmp (λ row. row.id) id.now rows.now at) }
    ensures memory { result ≢ Err TrustFault.Memory }
{
    let Ok(at) = place(rows, id) else {
        return Err(TrustFault::Absent(*id));
    };
    may_use(rows[at].get(), trustee, moment)?;
    Ok(at)
}

impl Trusts {
    /// The first cause for which `create` refuses the trust, found without a change.
    #[tactic(auto, unfolding(ks_base::specs::Trusts::creation_fault))]
    pub fn may_create(&self, row: &TrustRow, held: &IdList, moment: u64) -> Result<(), TrustFault>
        ensures { fault_in result ≡ creation_fault self.now held.now moment row.now }
    {
        self.parent_allows(row)?;
        roles_are_held(row, held)?;
        refuse_if(is_expired(row.expires, moment), TrustFault::Expired)?;
        refuse_if(self.rows.len() >= TRUSTS, TrustFault::Full(Kind::Trust))?;
        match self.trust(&row.id) {
            Some(standing) => Err(TrustFault::IdTaken(standing.id)),
            None => Ok(()),
        }
    }

    /// The first cause for which `use_one` refuses the use, found without a change.
    pub fn may_use(&self, id: &Id, trustee: &Id, moment: u64) -> Result<(), TrustFault>
        ensures refusal { fault_in result ≡ use_fault self.now id.now trustee.now moment }
        ensures memory { result ≢ Err TrustFault.Memory }
    {
        let _at = usable(self.rows.as_slice(), id, trustee, moment)?;
        Ok(())
    }

    fn parent_allows(&self, row: &TrustRow) -> Result<(), TrustFault>
        ensures { fault_in result ≡ parent_fault row.now (parent_trust self.now row.now.parent) }
    {
        match self.parent(row) {
            Some(parent) => may_follow(parent, row),
            None => Ok(()),
        }
    }
}
