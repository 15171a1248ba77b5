//! Trusts that are made, used and ended (OS-TRUST).
ghost use Rattle.std.specs.Prelude.{◌≡◌, ◌↔◌, IfOk, IsTrue};
ghost use Rattle.std.specs.List.{AllByRecursion};
ghost use Rattle.ks_auth.specs.Answers.{rows_told};
ghost use Rattle.ks_base.specs.Rows.{role_of};
ghost use Rattle.ks_base.specs.Trusts.{Follows, FollowsParent};
ghost use Rattle.ks_fits.specs.Told.{PartiesStand, SaysFit, state_told};
ghost use Rattle.ks_machine.specs.declared.change.Change.TheVariants as changed;
ghost use Rattle.ks_machine.specs.Lawful.{Fits, IsStanding};

use crate::ranges::is_trust_in_range;
use ks_auth::{Tables, roles_to_give};
use ks_base::{Id, Memory, TrustRow};
use std::alloc::Global;

/// Whether a trust has the project of its parent, and a count that follows from the parent's.
fn follows(trust: &TrustRow, parent: &TrustRow) -> bool
    ensures { IsTrue result ↔ Follows trust.now parent.now }
{
    trust.project == parent.project
        && (parent.count == 0 || trust.count == 0 || trust.count == parent.count - 1)
}

/// Whether the parent that a trust names stands, and the trust follows from it.
fn follows_parent(tables: &Tables, trust: &TrustRow) -> bool
    ensures { IsTrue result ↔ FollowsParent tables.now.trusts.now trust.now }
{
    let Some(id) = &trust.parent else {
        return true;
    };
    match tables.trusts.trust(id) {
        Some(parent) => follows(trust, parent),
        None => false,
    }
}

/// Whether each of these roles stands.
#[tactic(auto, using(crate::proofs::ToldLemmas::all_stand))]
pub(crate) fn do_stand(tables: &Tables, roles: &[Id]) -> bool
    ensures { IsTrue result ↔ AllByRecursion (λ role. IsStanding (role_of role tables.now.roles.now.roles)) roles.now }
{
    roles.iter().all(|role| tables.roles.role(role).is_some())
}

/// Whether all that a new trust names stands, its parent excepted.
fn parties_stand(tables: &Tables, trust: &TrustRow) -> bool
    ensures { IsTrue result ↔ PartiesStand (rows_told tables.now) trust.now }
{
    tables.people.user(&trust.trustor).is_some()
        && tables.people.user(&trust.trustee).is_some()
        && tables.tree.project(&trust.project).is_some()
        && do_stand(tables, trust.roles.as_slice())
}

/// Whether the trust may be made at this moment.
#[tactic(auto, unfolding(ks_machine::specs::Lawful::Fits))]
pub fn may_put_trust(
    alloc: Global,
    tables: &Tables,
    moment: u64,
    trust: &TrustRow,
) -> Result<bool, Memory>
    ensures { IfOk result (λ answer. IsTrue answer ↔ Fits (state_told tables.now) moment (changed.PutTrust trust.now)) }
{
    let stands = parties_stand(tables, trust) && follows_parent(tables, trust);
    if !stands || !is_trust_in_range(trust) {
        return Ok(false);
    }
    let held = roles_to_give(alloc, tables, trust)?;
    Ok(tables.trusts.may_create(trust, &held, moment).is_ok())
}

/// Whether a use of the trust may be taken at this moment.
#[tactic(auto, unfolding(ks_machine::specs::Lawful::Fits))]
pub fn may_use_trust(tables: &Tables, moment: u64, id: &Id) -> bool
    ensures { IsTrue result ↔ Fits (state_told tables.now) moment (changed.UseTrust id.now) }
{
    match tables.trusts.trust(id) {
        Some(trust) => {
            trust.remaining.is_some() && tables.trusts.may_use(id, &trust.trustee, moment).is_ok()
        }
        None => false,
    }
}

/// Whether the trust may be dropped.
#[tactic(auto, unfolding(ks_machine::specs::Lawful::Fits))]
pub fn may_drop_trust(tables: &Tables, id: &Id) -> bool
    ensures { SaysFit tables.now result (changed.DropTrust id.now) }
{
    tables.trusts.trust(id).is_some()
}
