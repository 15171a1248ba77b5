//! The ranges of the fields of rows (Identity API v3; own limits).
ghost use Rattle.std.specs.Prelude.{◌≤◌, ◌↔◌, length, IfSome, IsTrue};
ghost use Rattle.std.specs.List.{AllByRecursion};
ghost use Rattle.ks_base.specs.declared.limits.TheConstants.{TRUST_ROLES};
ghost use Rattle.ks_machine.specs.Ranges.{AreMfaRules, AreRounds, AreUses, IsAppCredInRange, IsDescription, IsDomainInRange, IsEndpointInRange, IsEndpointUrl, IsExpiry, IsGroupInRange, IsLastOf, IsMfaRule, IsName, IsProjectInRange, IsRegionInRange, IsRoleInRange, IsServiceInRange, IsServiceText, IsTotpSecret, IsTrustInRange, IsUserInRange};

use ks_base::limits::{
    DESCRIPTION_BYTES, ENDPOINT_URL_BYTES, LAST_SECOND, MFA_RULES, NAME_BYTES, REDELEGATIONS,
    ROUNDS, TOTP_SECRET_LEAST, TOTP_SECRET_MOST, TRUST_ROLES, USES,
};
use ks_base::{
    AppCredRow, Bytes, DomainRow, EndpointRow, GroupRow, IdList, ProjectRow, RegionRow, RoleRow,
    ServiceRow, Text, TrustRow, UserRow,
};

fn is_name(name: &Text) -> bool
    ensures { IsTrue result ↔ IsName name.now }
{
    let bytes = name.as_slice().len();
    1 <= bytes && bytes <= NAME_BYTES
}

fn is_description(description: &Text) -> bool
    ensures { IsTrue result ↔ IsDescription description.now }
{
    description.as_slice().len() <= DESCRIPTION_BYTES
}

fn is_service_text(text: &Text) -> bool
    ensures { IsTrue result ↔ IsServiceText text.now }
{
    text.as_slice().len() <= NAME_BYTES
}

fn is_endpoint_url(url: &Text) -> bool
    ensures { IsTrue result ↔ IsEndpointUrl url.now }
{
    let bytes = url.as_slice().len();
    1 <= bytes && bytes <= ENDPOINT_URL_BYTES
}

fn are_rounds(rounds: u32) -> bool
    ensures { IsTrue result ↔ AreRounds rounds }
{
    1 <= rounds && rounds <= ROUNDS
}

/// Whether the domain's fields have their ranges.
pub fn is_domain_in_range(row: &DomainRow) -> bool
    ensures { IsTrue result ↔ IsDomainInRange row.now }
{
    is_name(&row.name) && is_description(&row.description)
}

/// Whether the project's fields have their ranges.
pub fn is_project_in_range(row: &ProjectRow) -> bool
    ensures { IsTrue result ↔ IsProjectInRange row.now }
{
    is_name(&row.name) && is_description(&row.description)
}

/// Whether the user's fields have their ranges.
pub fn is_user_in_range(row: &UserRow) -> bool
    ensures { IsTrue result ↔ IsUserInRange row.now }
{
    let are_rounds = match &row.password {
        Some(password) => are_rounds(password.rounds),
        None => true,
    };
    are_rounds && is_name(&row.name)
}

/// Whether the group's fields have their ranges.
pub fn is_group_in_range(row: &GroupRow) -> bool
    ensures { IsTrue result ↔ IsGroupInRange row.now }
{
    is_name(&row.name) && is_description(&row.description)
}

/// Whether the role's fields have their ranges.
pub fn is_role_in_range(row: &RoleRow) -> bool
    ensures { IsTrue result ↔ IsRoleInRange row.now }
{
    is_name(&row.name) && is_description(&row.description)
}

/// Whether the region's fields have their ranges.
pub fn is_region_in_range(row: &RegionRow) -> bool
    ensures { IsTrue result ↔ IsRegionInRange row.now }
{
    is_description(&row.description)
}

/// Whether the service's fields have their ranges.
pub fn is_service_in_range(row: &ServiceRow) -> bool
    ensures { IsTrue result ↔ IsServiceInRange row.now }
{
    is_service_text(&row.kind) && is_service_text(&row.name) && is_description(&row.description)
}

/// Whether the endpoint's fields have their ranges.
pub fn is_endpoint_in_range(row: &EndpointRow) -> bool
    ensures { IsTrue result ↔ IsEndpointInRange row.now }
{
    is_endpoint_url(&row.url)
}

fn is_expiry(expires: Option<u64>) -> bool
    ensures { IsTrue result ↔ IfSome expires IsExpiry }
{
    match expires {
        Some(expires) => expires <= LAST_SECOND,
        None => true,
    }
}

/// Whether a trust may serve so often, where that is limited, with so many below it.
fn are_uses(remaining: Option<u64>, count: u32) -> bool
    ensures { IsTrue result ↔ (IfSome remaining AreUses × IsLastOf count remaining) }
{
    match remaining {
        Some(uses) => 1 <= uses && uses <= USES && count == 0,
        None => true,
    }
}

fn are_roles(roles: &IdList) -> bool
    ensures { IsTrue result ↔ ((1 ≤ length roles.now) × (length roles.now ≤ TRUST_ROLES)) }
{
    let roles = roles.as_slice().len();
    1 <= roles && roles <= TRUST_ROLES
}

/// Whether the trust's fields have their ranges.
pub fn is_trust_in_range(row: &TrustRow) -> bool
    ensures { IsTrue result ↔ IsTrustInRange row.now }
{
    are_roles(&row.roles)
        && is_expiry(row.expires)
        && are_uses(row.remaining, row.count)
        && row.count <= REDELEGATIONS
}

/// Whether the credential's fields have their ranges.
pub fn is_app_cred_in_range(row: &AppCredRow) -> bool
    ensures { IsTrue result ↔ IsAppCredInRange row.now }
{
    is_name(&row.name)
        && is_description(&row.description)
        && !row.roles.as_slice().is_empty()
        && is_expiry(row.expires)
        && are_rounds(row.secret.rounds)
}

/// Whether the bytes are as many as a secret of one-time codes has.
pub fn is_totp_secret(secret: &Bytes) -> bool
    ensures { IsTrue result ↔ IsTotpSecret secret.now }
{
    let bytes = secret.as_slice().len();
    TOTP_SECRET_LEAST <= bytes && bytes <= TOTP_SECRET_MOST
}

/// Whether each rule is of a password (bit 0), of a code (bit 2), or of both.
#[tactic(auto, using(crate::proofs::RuleLemmas::all_rules))]
fn is_each_mfa_rule(rules: &[u8]) -> bool
    ensures { IsTrue result ↔ AllByRecursion IsMfaRule rules.now }
{
    rules
        .iter()
        .all(|rule| *rule == 1 || *rule == 4 || *rule == 5)
}

/// Whether the rules are as many as one user may have, and each asks for methods that it may.
pub fn are_mfa_rules(rules: &Bytes) -> bool
    ensures { IsTrue result ↔ AreMfaRules rules.now }
{
    is_each_mfa_rule(rules.as_slice()) && rules.as_slice().len() <= MFA_RULES
}
