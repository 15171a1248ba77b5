//! The rows that a body names by id, or by name and domain or user.
ghost use Rattle.std.specs.Prelude.{◌≡◌};
ghost use Rattle.std.specs.Option.{option_copied};
ghost use Rattle.ks_auth.specs.Answers.{rows_told};
ghost use Rattle.ks_machine.specs.Scopes.{cred_in, domain_in, project_in, role_in, user_in};

use ks_auth::Tables;
use ks_base::{AppCredRow, DomainRow, ProjectRow, RoleRow, UserRow};
use ks_machine::{CredNamed, Named, ProjectNamed, UserNamed};

pub fn domain_in<'a>(tables: &Tables<'a>, named: &Named) -> Option<&'a DomainRow>
    ensures { option_copied result ≡ domain_in (rows_told tables.now) named.now }
{
    match named {
        Named::Id(id) => tables.tree.domain(id),
        Named::Name(name) => tables.tree.domain_named(name),
    }
}

pub fn role_in<'a>(tables: &Tables<'a>, named: &Named) -> Option<&'a RoleRow>
    ensures { option_copied result ≡ role_in (rows_told tables.now) named.now }
{
    match named {
        Named::Id(id) => tables.roles.role(id),
        Named::Name(name) => tables.roles.named(name),
    }
}

pub fn user_in<'a>(tables: &Tables<'a>, named: &UserNamed) -> Option<&'a UserRow>
    ensures { option_copied result ≡ user_in (rows_told tables.now) named.now }
{
    match named {
        UserNamed::Id(id) => tables.people.user(id),
        UserNamed::Name(name, domain) => match domain_in(tables, domain) {
            Some(domain) => tables.people.user_named(&domain.id, name),
            None => None,
        },
    }
}

pub fn project_in<'a>(tables: &Tables<'a>, named: &ProjectNamed) -> Option<&'a ProjectRow>
    ensures { option_copied result ≡ project_in (rows_told tables.now) named.now }
{
    match named {
        ProjectNamed::Id(id) => tables.tree.project(id),
        ProjectNamed::Name(name, domain) => match domain_in(tables, domain) {
            Some(domain) => tables.tree.project_named(&domain.id, name),
            None => None,
        },
    }
}

pub fn cred_in<'a>(tables: &Tables<'a>, named: &CredNamed) -> Option<&'a AppCredRow>
    ensures { option_copied result ≡ cred_in (rows_told tables.now) named.now }
{
    match named {
        CredNamed::Id(id) => tables.app_creds.row(id),
        CredNamed::Name(name, user) => match user_in(tables, user) {
            Some(user) => tables.app_creds.named(&user.id, name),
            None => None,
        },
    }
}
