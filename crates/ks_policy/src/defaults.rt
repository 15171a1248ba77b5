ghost use Rattle.std.specs.Prelude.{◌≡◌, map};
ghost use Rattle.ks_policy.specs.Defaults.{defaults, text_of};

/// A rule of the default policy.
pub struct DefaultRule {
    pub name: &'static str,
    pub text: &'static str,
}

/// In the order of the names. A row stands here and in `defaults` of `specs/Defaults.antt`.
static DEFAULTS: [DefaultRule; 28] = [
    DefaultRule {
        name: "admin_or_owner",
        text: "rule:admin_required or rule:owner",
    },
    DefaultRule {
        name: "admin_required",
        text: "role:admin",
    },
    DefaultRule {
        name: "default",
        text: "rule:admin_required",
    },
    DefaultRule {
        name: "identity:check_token",
        text: "rule:admin_required or rule:service_role or rule:token_subject",
    },
    DefaultRule {
        name: "identity:check_user_in_group",
        text: "rule:admin_or_owner",
    },
    DefaultRule {
        name: "identity:create_application_credential",
        text: "rule:owner",
    },
    DefaultRule {
        name: "identity:create_trust",
        text: "@",
    },
    DefaultRule {
        name: "identity:delete_application_credential",
        text: "rule:admin_or_owner",
    },
    DefaultRule {
        name: "identity:delete_trust",
        text: "rule:admin_required or user_id:%(target.trust.trustor_user_id)s",
    },
    DefaultRule {
        name: "identity:get_application_credential",
        text: "rule:admin_or_owner",
    },
    DefaultRule {
        name: "identity:get_domain",
        text: "rule:admin_required or user_domain_id:%(target.domain.id)s",
    },
    DefaultRule {
        name: "identity:get_project",
        text: "rule:admin_required or project_id:%(target.project.id)s",
    },
    DefaultRule {
        name: "identity:get_region",
        text: "@",
    },
    DefaultRule {
        name: "identity:get_trust",
        text: "rule:admin_required or rule:trust_party",
    },
    DefaultRule {
        name: "identity:get_user",
        text: "rule:admin_or_owner",
    },
    DefaultRule {
        name: "identity:list_application_credentials",
        text: "rule:admin_or_owner",
    },
    DefaultRule {
        name: "identity:list_groups_for_user",
        text: "rule:admin_or_owner",
    },
    DefaultRule {
        name: "identity:list_regions",
        text: "@",
    },
    DefaultRule {
        name: "identity:list_revoke_events",
        text: "rule:admin_required or rule:service_role",
    },
    DefaultRule {
        name: "identity:list_roles_for_trust",
        text: "rule:admin_required or rule:trust_party",
    },
    DefaultRule {
        name: "identity:list_trusts",
        text: "rule:admin_required or rule:trust_party",
    },
    DefaultRule {
        name: "identity:list_user_projects",
        text: "rule:admin_or_owner",
    },
    DefaultRule {
        name: "identity:revoke_token",
        text: "rule:admin_required or rule:token_subject",
    },
    DefaultRule {
        name: "identity:validate_token",
        text: "rule:admin_required or rule:service_role or rule:token_subject",
    },
    DefaultRule {
        name: "owner",
        text: "user_id:%(user_id)s",
    },
    DefaultRule {
        name: "service_role",
        text: "role:service",
    },
    DefaultRule {
        name: "token_subject",
        text: "user_id:%(target.token.user_id)s",
    },
    DefaultRule {
        name: "trust_party",
        text: "user_id:%(target.trust.trustor_user_id)s or user_id:%(target.trust.trustee_user_id)s",
    },
];

/// The rules of the default policy.
pub fn default_rules() -> &'static [DefaultRule]
    ensures { map text_of result.now ≡ defaults }
{
    &DEFAULTS
}
