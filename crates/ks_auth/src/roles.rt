//! The roles of a token, and the line that it has some.
ghost use Rattle.std.specs.Prelude.{◌≡◌, ◌↔◌, ℕ, List, Some, IfOk};
ghost use Rattle.std.specs.List.{list_all};
ghost use Rattle.ks_base.specs.Roles.{Effective};
ghost use Rattle.ks_base.specs.AppCreds.{cred_of};
ghost use Rattle.ks_base.specs.Rows.{has_id, trust_of};
ghost use Rattle.ks_base.specs.Tables.{Among};
ghost use Rattle.ks_auth.specs.Answers.{rows_told};
ghost use Rattle.ks_machine.specs.Effective.{closure, roles_at};
ghost use Rattle.ks_machine.specs.TrustCommands.{roles_to_give};
ghost use Rattle.ks_machine.specs.Validity.{are_had, are_kept, cred_roles, has_cred_roles, has_roles, is_kept, is_system, roles_of, trust_roles};

use crate::Tables;
use crate::credential::cred_in_payload;
use ks_base::{AppCredRow, Id, IdList, Memory, Target, TrustRow};
use ks_machine::{roles_are_effective, roles_are_implied};
use ks_payload::Payload;
use std::alloc::Global;

/// The kind of payloads that are for the whole system.
const SYSTEM: u8 = 4;

/// The roles of a token: those of its trust or of its application credential and what these imply, those that the user
/// has at its scope, or none where it has no scope.
#[tactic(auto, unfolding(ks_machine::specs::Validity::roles_of))]
pub fn roles_of(alloc: Global, tables: &Tables, payload: &Payload) -> Result<IdList, Memory>
    ensures { IfOk result (λ ids. ids ≡ roles_of (rows_told tables.now) payload.now) }
{
    if let Some(id) = &payload.trust {
        return trust_roles(alloc, tables, id);
    }
    if let Some(id) = &payload.credential {
        return cred_roles(alloc, tables, id);
    }
    match (payload.project, payload.domain) {
        (Some(project), _) => roles_at(alloc, tables, &payload.user, &Target::Project(project)),
        (None, Some(domain)) => roles_at(alloc, tables, &payload.user, &Target::Domain(domain)),
        (None, None) if is_system(payload) => {
            roles_at(alloc, tables, &payload.user, &Target::System)
        }
        (None, None) => Ok(IdList::new(alloc)),
    }
}

/// The roles of a trust and what they imply; none where it does not stand.
fn trust_roles(alloc: Global, tables: &Tables, id: &Id) -> Result<IdList, Memory>
    ensures { IfOk result (λ ids. ids ≡ trust_roles (rows_told tables.now) (trust_of id.now tables.now.trusts.now)) }
{
    match tables.trusts.trust(id) {
        Some(trust) => closure(tables, &trust.roles),
        None => Ok(IdList::new(alloc)),
    }
}

/// The roles of an application credential and what they imply; none where it does not stand.
fn cred_roles(alloc: Global, tables: &Tables, id: &Id) -> Result<IdList, Memory>
    ensures { IfOk result (λ ids. ids ≡ cred_roles (rows_told tables.now) (cred_of id.now tables.now.app_creds.now)) }
{
    match tables.app_creds.row(id) {
        Some(cred) => closure(tables, &cred.roles),
        None => Ok(IdList::new(alloc)),
    }
}

/// The roles that these imply, themselves included.
pub fn closure(tables: &Tables, roles: &IdList) -> Result<IdList, Memory>
    ensures { IfOk result (λ ids. ids ≡ closure (rows_told tables.now) roles.now) }
{
    roles_are_implied();
    tables.roles.closure(roles)
}

/// Whether the token has these roles, which are its own, or needs none, each role of its trust is effective for the
/// trust's first trustor at the trust's project, and each of its application credential for the credential's user at
/// the credential's project.
pub fn has_roles(
    alloc: Global,
    tables: &Tables,
    payload: &Payload,
    roles: &[Id],
) -> Result<bool, Memory>
    requires { roles.now ≡ roles_of (rows_told tables.now) payload.now }
    ensures { IfOk result (λ holds. holds ≡ has_roles (rows_told tables.now) payload.now) }
{
    let is_scoped = payload.domain.is_some() || payload.project.is_some() || is_system(payload);
    if is_scoped && roles.is_empty() {
        return Ok(false);
    }
    if !are_kept(alloc, tables, payload)? {
        return Ok(false);
    }
    are_had(alloc, tables, payload)
}

fn are_kept(alloc: Global, tables: &Tables, payload: &Payload) -> Result<bool, Memory>
    ensures { IfOk result (λ holds. holds ≡ are_kept (rows_told tables.now) payload.now) }
{
    let Some(id) = &payload.trust else {
        return Ok(true);
    };
    match tables.trusts.trust(id) {
        Some(trust) => keeps_roles(alloc, tables, id, trust),
        None => Ok(true),
    }
}

/// Whether the first trustor still has each role of the trust.
fn keeps_roles(alloc: Global, tables: &Tables, id: &Id, trust: &TrustRow) -> Result<bool, Memory>
    requires { trust_of id.now tables.now.trusts.now ≡ Some trust.now }
    ensures { IfOk result (λ holds. holds ≡ list_all (is_kept (rows_told tables.now) trust.now) trust.now.roles) }
{
    let Some(first) = tables.trusts.first_trustor(id) else {
        unreachable!()
    };
    let at = Target::Project(trust.project);
    let held = roles_at(alloc, tables, &first, &at)?;
    Ok(have_all(held.as_slice(), trust.roles.as_slice()))
}

fn are_had(alloc: Global, tables: &Tables, payload: &Payload) -> Result<bool, Memory>
    ensures { IfOk result (λ holds. holds ≡ are_had (rows_told tables.now) payload.now) }
{
    match cred_in_payload(tables, payload) {
        Some(cred) => has_cred_roles(alloc, tables, cred),
        None => Ok(true),
    }
}

/// Whether the user of the application credential has each role that it lists at its project now.
pub fn has_cred_roles(alloc: Global, tables: &Tables, cred: &AppCredRow) -> Result<bool, Memory>
    ensures { IfOk result (λ holds. holds ≡ has_cred_roles (rows_told tables.now) cred.now) }
{
    let held = roles_at(alloc, tables, &cred.user, &Target::Project(cred.project))?;
    Ok(have_all(held.as_slice(), cred.roles.as_slice()))
}

/// Whether the list has all of these.
fn have_all(held: &[Id], roles: &[Id]) -> bool
    ensures { result ≡ list_all (has_id held.now) roles.now }
{
    for role in roles {
        if !held.contains(role) {
            return false;
        }
    }
    true
}

/// Whether the token is for the whole system.
pub fn is_system(payload: &Payload) -> bool
    ensures { result ≡ is_system payload.now }
{
    payload.kind == SYSTEM
}

/// The roles that are effective for the user at the target.
pub fn roles_at(
    alloc: Global,
    tables: &Tables,
    user: &Id,
    target: &Target,
) -> Result<IdList, Memory>
    ensures list { IfOk result (λ ids. ids ≡ roles_at (rows_told tables.now) user.now target.now) }
    ensures members { IfOk result (λ ids. (role : List ℕ) → Among ids role ↔ Effective (rows_told tables.now) user.now target.now role) }
{
    roles_are_effective();
    ks_effective::roles_of(
        alloc,
        tables.tree,
        tables.people,
        tables.roles,
        tables.grants,
        user,
        target,
    )
}

/// The roles that the first trustor of a new trust has at its project, which are those that the trust may give
/// (OS-TRUST).
pub fn roles_to_give(alloc: Global, tables: &Tables, new: &TrustRow) -> Result<IdList, Memory>
    ensures { IfOk result (λ roles. roles ≡ roles_to_give (rows_told tables.now) new.now) }
{
    let first = tables.trusts.first_of_new(new);
    roles_at(alloc, tables, &first, &Target::Project(new.project))
}
