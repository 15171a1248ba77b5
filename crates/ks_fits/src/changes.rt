ghost use Rattle.std.specs.Prelude.{◌≡◌, ◌↔◌, IfOk, IsErr, IsTrue, Ok, true, false};
ghost use Rattle.ks_base.specs.declared.trusts.TrustRow.{TrustRow};
ghost use Rattle.ks_fits.specs.Told.{IsToldBy, state_told};
ghost use Rattle.ks_machine.specs.declared.change.Change.TheVariants as changed;
ghost use Rattle.ks_machine.specs.Lawful.{Fits, TakesKeys};
ghost use Rattle.ks_machine.specs.States.{State};

use crate::app_creds::{may_drop_app_cred, may_put_app_cred};
use crate::catalog::{
    may_drop_endpoint, may_drop_region, may_drop_service, may_put_endpoint, may_put_region,
    may_put_service,
};
use crate::factors::{may_drop_secret, may_put_secret, may_put_user_with};
use crate::grants::{may_grant, may_ungrant};
use crate::keys::{may_load, may_rotate};
use crate::people::{
    may_drop_group, may_drop_user, may_join, may_leave, may_put_group, may_put_user,
};
use crate::roles::{may_drop_role, may_imply, may_put_role, may_unimply};
use crate::tokens::may_revoke;
use crate::tree::{may_drop_domain, may_drop_project, may_put_domain, may_put_project};
use crate::trusts::{may_drop_trust, may_put_trust, may_use_trust};
use ks_auth::Tables;
use ks_base::Memory;
use ks_machine::Change;
use std::alloc::Global;

/// Whether a change is one that the tables and the ring take at this moment. Nothing changes.
#[tactic(auto, using(crate::proofs::ToldLemmas::fits_told))]
pub fn fits(
    alloc: Global,
    tables: &Tables<'_>,
    moment: u64,
    change: &Change,
) -> Result<bool, Memory>
    requires keys { TakesKeys tables.now.ring.now }
    ensures fits { result ≡ Ok true → (S : State) → IsToldBy tables.now S → Fits S moment change.now }
    ensures unfit { result ≡ Ok false → (S : State) → IsToldBy tables.now S → Fits S moment change.now → ⊥ }
    ensures memory { IsErr result → (trust : TrustRow) × (change.now ≡ changed.PutTrust trust) }
{
    fits_tables(alloc, tables, moment, change)
}

/// The same, of one of the states that the tables tell.
fn fits_tables(
    alloc: Global,
    tables: &Tables<'_>,
    moment: u64,
    change: &Change,
) -> Result<bool, Memory>
    requires { TakesKeys tables.now.ring.now }
    ensures fits { IfOk result (λ answer. IsTrue answer ↔ Fits (state_told tables.now) moment change.now) }
    ensures memory { IsErr result → (trust : TrustRow) × (change.now ≡ changed.PutTrust trust) }
{
    let fits = match change {
        Change::PutDomain(row) => may_put_domain(tables, row),
        Change::PutProject(row) => may_put_project(tables, row),
        Change::PutUser(row) => may_put_user(tables, row),
        Change::PutGroup(row) => may_put_group(tables, row),
        Change::PutRole(row) => may_put_role(tables, row),
        Change::PutTrust(row) => may_put_trust(alloc, tables, moment, row)?,
        Change::DropDomain(id) => may_drop_domain(tables, id),
        Change::DropProject(id) => may_drop_project(tables, id),
        Change::DropUser(id) => may_drop_user(tables, id),
        Change::DropGroup(id) => may_drop_group(tables, id),
        Change::DropRole(id) => may_drop_role(tables, id),
        Change::DropTrust(id) => may_drop_trust(tables, id),
        Change::Join(row) => may_join(tables, row),
        Change::Leave(row) => may_leave(tables, row),
        Change::Imply(row) => may_imply(tables, row),
        Change::Unimply(row) => may_unimply(tables, row),
        Change::Grant(row) => may_grant(tables, row),
        Change::Ungrant(row) => may_ungrant(tables, row),
        Change::UseTrust(id) => may_use_trust(tables, moment, id),
        Change::RevokeToken(audit) => may_revoke(audit),
        Change::Rotate(_) => may_rotate(tables),
        Change::Load(keys) => may_load(tables, keys),
        Change::PutRegion(row) => may_put_region(tables, row),
        Change::PutService(row) => may_put_service(tables, row),
        Change::PutEndpoint(row) => may_put_endpoint(tables, row),
        Change::DropRegion(id) => may_drop_region(tables, id),
        Change::DropService(id) => may_drop_service(tables, id),
        Change::DropEndpoint(id) => may_drop_endpoint(tables, id),
        Change::PutAppCred(row) => may_put_app_cred(tables, row),
        Change::DropAppCred(id) => may_drop_app_cred(tables, id),
        Change::PutSecret(row) => may_put_secret(tables, row),
        Change::DropSecret(id) => may_drop_secret(tables, id),
        Change::PutUserWith(row, rules) => may_put_user_with(tables, row, rules),
    };
    Ok(fits)
}
