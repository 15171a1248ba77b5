//! The names of the actions that rules allow, for commands that have one for each kind of row or grant.
ghost use Rattle.std.specs.Prelude.{◌≡◌, ◌++◌, codes};
ghost use Rattle.ks_machine.specs.Actions.{grants_word, identity, row_word, row_words};

use ks_base::{Actor, Target};
use ks_machine::RowKind;

/// The action that lists rows of a kind.
pub fn listing_action(kind: RowKind) -> &'static str
    ensures { result.now ≡ identity (codes "list_" ++ row_words kind) }
{
    match kind {
        RowKind::Domain => "identity:list_domains",
        RowKind::Project => "identity:list_projects",
        RowKind::User => "identity:list_users",
        RowKind::Group => "identity:list_groups",
        RowKind::Role => "identity:list_roles",
        RowKind::Region => "identity:list_regions",
        RowKind::Service => "identity:list_services",
        RowKind::Endpoint => "identity:list_endpoints",
    }
}

/// The action that shows a row of a kind.
pub fn get_action(kind: RowKind) -> &'static str
    ensures { result.now ≡ identity (codes "get_" ++ row_word kind) }
{
    match kind {
        RowKind::Domain => "identity:get_domain",
        RowKind::Project => "identity:get_project",
        RowKind::User => "identity:get_user",
        RowKind::Group => "identity:get_group",
        RowKind::Role => "identity:get_role",
        RowKind::Region => "identity:get_region",
        RowKind::Service => "identity:get_service",
        RowKind::Endpoint => "identity:get_endpoint",
    }
}

/// The action that takes a row of a kind away.
pub fn deletion_action(kind: RowKind) -> &'static str
    ensures { result.now ≡ identity (codes "delete_" ++ row_word kind) }
{
    match kind {
        RowKind::Domain => "identity:delete_domain",
        RowKind::Project => "identity:delete_project",
        RowKind::User => "identity:delete_user",
        RowKind::Group => "identity:delete_group",
        RowKind::Role => "identity:delete_role",
        RowKind::Region => "identity:delete_region",
        RowKind::Service => "identity:delete_service",
        RowKind::Endpoint => "identity:delete_endpoint",
    }
}

/// The action that makes a row of a kind.
pub fn creation_action(kind: RowKind) -> &'static str
    ensures { result.now ≡ identity (codes "create_" ++ row_word kind) }
{
    match kind {
        RowKind::Domain => "identity:create_domain",
        RowKind::Project => "identity:create_project",
        RowKind::User => "identity:create_user",
        RowKind::Group => "identity:create_group",
        RowKind::Role => "identity:create_role",
        RowKind::Region => "identity:create_region",
        RowKind::Service => "identity:create_service",
        RowKind::Endpoint => "identity:create_endpoint",
    }
}

/// The action that changes a row of a kind.
pub fn update_action(kind: RowKind) -> &'static str
    ensures { result.now ≡ identity (codes "update_" ++ row_word kind) }
{
    match kind {
        RowKind::Domain => "identity:update_domain",
        RowKind::Project => "identity:update_project",
        RowKind::User => "identity:update_user",
        RowKind::Group => "identity:update_group",
        RowKind::Role => "identity:update_role",
        RowKind::Region => "identity:update_region",
        RowKind::Service => "identity:update_service",
        RowKind::Endpoint => "identity:update_endpoint",
    }
}

/// The action that lists the roles of a grant.
pub fn grants_action(who: &Actor, at: &Target) -> &'static str
    ensures { result.now ≡ identity (grants_word (codes "list_grants") (codes "list_system_grants") who.now at.now) }
{
    match (at, who) {
        (Target::Project(_) | Target::Domain(_), _) => "identity:list_grants",
        (Target::System, Actor::User(_)) => "identity:list_system_grants_for_user",
        (Target::System, Actor::Group(_)) => "identity:list_system_grants_for_group",
    }
}

/// The action that grants a role.
pub fn grant_action(who: &Actor, at: &Target) -> &'static str
    ensures { result.now ≡ identity (grants_word (codes "create_grant") (codes "create_system_grant") who.now at.now) }
{
    match (at, who) {
        (Target::Project(_) | Target::Domain(_), _) => "identity:create_grant",
        (Target::System, Actor::User(_)) => "identity:create_system_grant_for_user",
        (Target::System, Actor::Group(_)) => "identity:create_system_grant_for_group",
    }
}

/// The action that tests a grant.
pub fn grant_check_action(who: &Actor, at: &Target) -> &'static str
    ensures { result.now ≡ identity (grants_word (codes "check_grant") (codes "check_system_grant") who.now at.now) }
{
    match (at, who) {
        (Target::Project(_) | Target::Domain(_), _) => "identity:check_grant",
        (Target::System, Actor::User(_)) => "identity:check_system_grant_for_user",
        (Target::System, Actor::Group(_)) => "identity:check_system_grant_for_group",
    }
}

/// The action that takes a grant back.
pub fn revocation_action(who: &Actor, at: &Target) -> &'static str
    ensures { result.now ≡ identity (grants_word (codes "revoke_grant") (codes "revoke_system_grant") who.now at.now) }
{
    match (at, who) {
        (Target::Project(_) | Target::Domain(_), _) => "identity:revoke_grant",
        (Target::System, Actor::User(_)) => "identity:revoke_system_grant_for_user",
        (Target::System, Actor::Group(_)) => "identity:revoke_system_grant_for_group",
    }
}
