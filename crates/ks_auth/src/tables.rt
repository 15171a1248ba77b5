use ks_appcred::AppCreds;
use ks_assign::Grants;
use ks_catalog::Catalog;
use ks_machine::Settings;
use ks_people::People;
use ks_revoke::Revoked;
use ks_ring::Ring;
use ks_roles::Roles;
use ks_totp::Factors;
use ks_tree::Tree;
use ks_trust::Trusts;

/// The tables that a decision looks at.
#[derive(Clone, Copy)]
pub struct Tables<'a> {
    pub tree: &'a Tree,
    pub people: &'a People,
    pub roles: &'a Roles,
    pub grants: &'a Grants,
    pub trusts: &'a Trusts,
    pub catalog: &'a Catalog,
    pub app_creds: &'a AppCreds,
    pub factors: &'a Factors,
    pub revoked: &'a Revoked,
    pub ring: &'a Ring,
    pub settings: &'a Settings,
}
