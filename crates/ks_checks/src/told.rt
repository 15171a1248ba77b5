//! What is told of a token (Identity API v3, authentication).
ghost use Rattle.std.specs.Prelude.{◌≡◌, IfOk, IsSome, option_map, if◌then◌else◌, Some, None};
ghost use Rattle.std.specs.Option.{option_and_then};
ghost use Rattle.ks_auth.specs.Answers.{rows_told};
ghost use Rattle.ks_base.specs.Rows.{project_of, trust_of, user_of};
ghost use Rattle.ks_machine.specs.Login.{catalog_with, told_token, trust_use};
ghost use Rattle.ks_machine.specs.Scopes.{homed_project, titled_domain, titled_roles};
ghost use Rattle.ks_machine.specs.Validity.{is_scoped};

use crate::names::{homed_project, homed_user, titled_domain, titled_roles};
use ks_auth::{Tables, is_system};
use ks_base::{Id, IdList, Memory, Text};
use ks_catalog::ProjectCatalog;
use ks_machine::{Homed, Titled, TitledList, TokenOut, TrustUse};
use ks_payload::Payload;
use std::alloc::Global;

/// What is told of a token with this text; `made` says whether this answer makes it.
#[tactic(auto, unfolding(ks_machine::specs::Login::told_token))]
pub fn told_token(
    alloc: Global,
    tables: &Tables,
    text: Text,
    made: bool,
    payload: &Payload,
    issued: u64,
    roles: &IdList,
) -> Result<TokenOut, Memory>
    requires { IsSome (user_of payload.now.user tables.now.people.now.users) }
    ensures { IfOk result (λ told. told ≡ told_token (rows_told tables.now) text made payload.now issued roles.now) }
{
    let Some(user) = tables.people.user(&payload.user) else {
        unreachable!()
    };
    Ok(TokenOut {
        text,
        made,
        audit: payload.audit,
        chain: payload.chain,
        methods: payload.methods,
        issued,
        expires: payload.expires,
        user: homed_user(alloc, tables, user)?,
        project: project_told(alloc, tables, &payload.project)?,
        domain: domain_told(alloc, tables, &payload.domain)?,
        trust: trust_told(tables, &payload.trust),
        roles: roles_told(alloc, tables, payload, roles)?,
        system: is_system(payload),
        catalog: catalog_told(tables, payload)?,
    })
}

/// The project of the scope, where it stands.
fn project_told(
    alloc: Global,
    tables: &Tables,
    project: &Option<Id>,
) -> Result<Option<Homed>, Memory>
    ensures { IfOk result (λ told. told ≡ option_map (homed_project (rows_told tables.now)) (option_and_then (λ id. project_of id tables.now.tree.now.projects) project.now)) }
{
    let Some(id) = project else {
        return Ok(None);
    };
    match tables.tree.project(id) {
        Some(row) => Ok(Some(homed_project(alloc, tables, row)?)),
        None => Ok(None),
    }
}

/// The domain of the scope.
fn domain_told(
    alloc: Global,
    tables: &Tables,
    domain: &Option<Id>,
) -> Result<Option<Titled>, Memory>
    ensures { IfOk result (λ told. told ≡ option_map (titled_domain (rows_told tables.now)) domain.now) }
{
    match domain {
        Some(id) => Ok(Some(titled_domain(alloc, tables, id)?)),
        None => Ok(None),
    }
}

/// The trust, where it stands.
fn trust_told(tables: &Tables, trust: &Option<Id>) -> Option<TrustUse>
    ensures { result ≡ option_map trust_use (option_and_then (λ id. trust_of id tables.now.trusts.now) trust.now) }
{
    let Some(id) = trust else {
        return None;
    };
    let trust = tables.trusts.trust(id)?;
    Some(TrustUse {
        id: trust.id,
        impersonation: trust.impersonation,
        trustee: trust.trustee,
        trustor: trust.trustor,
    })
}

/// The roles with their names, where the token has a scope.
fn roles_told(
    alloc: Global,
    tables: &Tables,
    payload: &Payload,
    roles: &IdList,
) -> Result<Option<TitledList>, Memory>
    ensures { IfOk result (λ told. told ≡ (if is_scoped payload.now then Some (titled_roles (rows_told tables.now) roles.now) else None)) }
{
    if is_scoped(payload) {
        Ok(Some(titled_roles(alloc, tables, roles.as_slice())?))
    } else {
        Ok(None)
    }
}

/// The services of its scope, where the token has one.
pub fn catalog_told(tables: &Tables, payload: &Payload) -> Result<Option<ProjectCatalog>, Memory>
    ensures { IfOk result (λ told. told ≡ catalog_with (rows_told tables.now) payload.now) }
{
    if is_scoped(payload) {
        Ok(Some(tables.catalog.listed(payload.project.as_ref())?))
    } else {
        Ok(None)
    }
}

/// Whether the token has a scope.
fn is_scoped(payload: &Payload) -> bool
    ensures { result ≡ is_scoped payload.now }
{
    payload.domain.is_some() || payload.project.is_some() || is_system(payload)
}
