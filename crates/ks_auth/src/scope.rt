//! The lines of a token's validity that the rows decide.
ghost use Rattle.std.specs.Prelude.{◌≡◌, Some};
ghost use Rattle.ks_base.specs.Rows.{trust_of};
ghost use Rattle.ks_base.specs.Trusts.{first_trustor, is_expired};
ghost use Rattle.ks_auth.specs.Answers.{rows_told};
ghost use Rattle.ks_machine.specs.States.{is_domain_on, is_project_on, is_user_on};
ghost use Rattle.ks_machine.specs.Validity.{acts_as, is_scope_on, is_trust_line, is_trust_on};

use crate::Tables;
use ks_base::{Id, TrustRow};
use ks_payload::Payload;

/// Whether the user and the user's domain stand and are enabled.
pub fn is_user_on(tables: &Tables, id: &Id) -> bool
    ensures { result ≡ is_user_on (rows_told tables.now) id.now }
{
    match tables.people.user(id) {
        Some(user) => user.enabled && is_domain_on(tables, &user.domain),
        None => false,
    }
}

/// Whether the domain or project that the token is for stands and is enabled, also the project of an application
/// credential. The system always is.
pub fn is_scope_on(tables: &Tables, payload: &Payload) -> bool
    ensures { result ≡ is_scope_on (rows_told tables.now) payload.now }
{
    let is_domain = match &payload.domain {
        Some(id) => is_domain_on(tables, id),
        None => true,
    };
    let is_project = match &payload.project {
        Some(id) => is_project_on(tables, id),
        None => true,
    };
    is_domain && is_project
}

/// Whether the domain stands and is enabled.
pub fn is_domain_on(tables: &Tables, id: &Id) -> bool
    ensures { result ≡ is_domain_on (rows_told tables.now) id.now }
{
    match tables.tree.domain(id) {
        Some(domain) => domain.enabled,
        None => false,
    }
}

/// Whether the project stands and is enabled, in a domain that is enabled.
pub fn is_project_on(tables: &Tables, id: &Id) -> bool
    ensures { result ≡ is_project_on (rows_told tables.now) id.now }
{
    match tables.tree.project(id) {
        Some(project) => project.enabled && is_domain_on(tables, &project.domain),
        None => false,
    }
}

/// Whether the token's trust, if it has one, stands and is the token's: it has not expired at this moment, has the
/// token's project and user, and its trustor, its trustee and its first trustor are enabled in enabled domains.
pub fn is_trust_line(tables: &Tables, moment: u64, payload: &Payload) -> bool
    ensures { result ≡ is_trust_line (rows_told tables.now) moment payload.now }
{
    let Some(id) = &payload.trust else {
        return true;
    };
    match tables.trusts.trust(id) {
        Some(trust) => is_trust_on(tables, moment, payload, id, trust),
        None => false,
    }
}

#[tactic(auto, unfolding(ks_machine::specs::Validity::is_trust_on))]
fn is_trust_on(tables: &Tables, moment: u64, payload: &Payload, id: &Id, trust: &TrustRow) -> bool
    requires { trust_of id.now tables.now.trusts.now ≡ Some trust.now }
    ensures { result ≡ is_trust_on (rows_told tables.now) moment payload.now trust.now }
{
    !is_expired(&trust.expires, moment)
        && payload.project == Some(trust.project)
        && is_user_on(tables, &trust.trustor)
        && is_user_on(tables, &trust.trustee)
        && is_first_on(tables, id, trust)
        && *acts_as(trust) == payload.user
}

/// Whether the moment has come to this expiry, where there is one.
pub fn is_expired(expires: &Option<u64>, moment: u64) -> bool
    ensures { result ≡ is_expired expires.now moment }
{
    match expires {
        Some(expires) => *expires <= moment,
        None => false,
    }
}

/// Whether the first trustor of the chain of this trust is enabled.
fn is_first_on(tables: &Tables, id: &Id, trust: &TrustRow) -> bool
    requires { trust_of id.now tables.now.trusts.now ≡ Some trust.now }
    ensures { result ≡ is_user_on (rows_told tables.now) (first_trustor tables.now.trusts.now trust.now) }
{
    match tables.trusts.first_trustor(id) {
        Some(first) => is_user_on(tables, &first),
        None => unreachable!(),
    }
}

/// Whose a token of the trust is.
pub fn acts_as(trust: &TrustRow) -> &Id
    ensures { result.now ≡ acts_as trust.now }
{
    if trust.impersonation {
        &trust.trustor
    } else {
        &trust.trustee
    }
}
