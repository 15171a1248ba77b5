//! What revocations look at in a token.
ghost use Rattle.std.specs.Prelude.{◌≡◌};
ghost use Rattle.ks_auth.specs.Answers.{rows_told};
ghost use Rattle.ks_machine.specs.Validity.{holder, scope_domain, trust_named};
ghost use Rattle.std.specs.Option.{option_copied};

use crate::Tables;
use ks_base::{Holder, Id, TrustRow};
use ks_payload::Payload;

/// What revocations look at in a token of this payload, by the rows that stand.
#[tactic(auto, unfolding(ks_machine::specs::Validity::holder))]
pub fn holder(tables: &Tables, payload: &Payload) -> Holder
    ensures { result ≡ holder (rows_told tables.now) payload.now }
{
    let trust = trust_named(tables, payload);
    Holder {
        audit: payload.audit,
        user: payload.user,
        trustor: trust.map(|row| row.trustor),
        trustee: trust.map(|row| row.trustee),
        project: payload.project,
        trust: payload.trust,
        user_domain: tables.people.user(&payload.user).map(|row| row.domain),
        scope_domain: scope_domain(tables, payload),
    }
}

/// The trust of the token, where it has one that stands.
pub fn trust_named<'a>(tables: &Tables<'a>, payload: &Payload) -> Option<&'a TrustRow>
    ensures { option_copied result ≡ trust_named (rows_told tables.now) payload.now }
{
    match &payload.trust {
        Some(id) => tables.trusts.trust(id),
        None => None,
    }
}

/// The domain of the token's scope, or that of its scope's project.
pub fn scope_domain(tables: &Tables, payload: &Payload) -> Option<Id>
    ensures { result ≡ scope_domain (rows_told tables.now) payload.now }
{
    match (&payload.domain, &payload.project) {
        (Some(domain), _) => Some(*domain),
        (None, Some(project)) => tables.tree.project(project).map(|row| row.domain),
        (None, None) => None,
    }
}
