//! What rules see of a caller.
ghost use Rattle.std.specs.Prelude.{◌≡◌, ◌++◌, IfOk, OnOk, Some, None, map, codes, if◌then◌else◌};
ghost use Rattle.std.specs.Option.{option_copied};
ghost use Rattle.ks_auth.specs.Answers.{rows_told};
ghost use Rattle.ks_machine.specs.Scopes.{titled_role};
ghost use Rattle.ks_machine.specs.Targets.{credentials, given};
ghost use Rattle.ks_machine.specs.Validity.{is_system, project_domain};
ghost use Rattle.ks_checks.specs.Plans.{valid_of};

use crate::fields::Fields;
use ks_auth::{Tables, is_system};
use ks_base::{FieldList, Id, Memory, Text, TextList};
use ks_checks::Caller;
use ks_payload::Payload;
use ks_rule::Credentials;
use std::alloc::Global;

/// What rules see of a caller: the names of the roles, the user, the scope and the trust.
#[tactic(auto, unfolding(ks_machine::specs::Targets::credentials))]
pub fn credentials(alloc: Global, tables: &Tables, caller: &Caller) -> Result<Credentials, Memory>
    ensures { IfOk result (λ seen. seen ≡ credentials (rows_told tables.now) (valid_of caller.now)) }
{
    Ok(Credentials {
        roles: role_names(alloc, tables, caller.roles.as_slice())?,
        named: named(alloc, tables, caller)?,
    })
}

/// The names of these roles, each empty where the role does not stand.
fn role_names(alloc: Global, tables: &Tables, roles: &[Id]) -> Result<TextList, Memory>
    ensures { IfOk result (λ names. names ≡ map (λ id. (titled_role (rows_told tables.now) id).name) roles.now) }
{
    let mut names = TextList::new(alloc);
    for id in roles {
        names.push(role_name(alloc, tables, id)?)?;
    }
    Ok(names)
}

fn role_name(alloc: Global, tables: &Tables, id: &Id) -> Result<Text, Memory>
    ensures { IfOk result (λ name. name ≡ (titled_role (rows_told tables.now) id.now).name) }
{
    match tables.roles.role(id) {
        Some(role) => role.name.copy(),
        None => Text::of(alloc, ""),
    }
}

/// What is known of the caller by name.
#[tactic(auto, unfolding(ks_machine::specs::Targets::credentials))]
fn named(alloc: Global, tables: &Tables, caller: &Caller) -> Result<FieldList, Memory>
    ensures { IfOk result (λ named. named ≡ (credentials (rows_told tables.now) (valid_of caller.now)).named) }
{
    let payload = &caller.payload;
    let user_domain = tables.people.user(&payload.user).map(|user| &user.domain);
    let mut fields = Fields::new(alloc);
    fields.put_id("user_id", &payload.user)?;
    fields.put_given_id("user_domain_id", user_domain)?;
    fields.put_given_id("project_id", payload.project.as_ref())?;
    fields.put_given_id(
        "project_domain_id",
        project_domain(tables, &payload.project),
    )?;
    fields.put_given_id("domain_id", payload.domain.as_ref())?;
    fields.put_given_id("trust_id", payload.trust.as_ref())?;
    put_system(&mut fields, payload)?;
    Ok(fields.into_list())
}

/// The domain of a project that stands.
fn project_domain<'a>(tables: &Tables<'a>, project: &Option<Id>) -> Option<&'a Id>
    ensures { option_copied result ≡ project_domain (rows_told tables.now) project.now }
{
    match project {
        Some(id) => tables.tree.project(id).map(|row| &row.domain),
        None => None,
    }
}

/// Puts what says that the token is for the whole system, where it is.
fn put_system(fields: &mut Fields, payload: &Payload) -> Result<(), Memory>
    ensures { OnOk result (fields.new ≡ fields.old ++ given (codes "system_scope") (if is_system payload.now then Some (codes "all") else None)) }
{
    if is_system(payload) {
        fields.put_word("system_scope", "all")
    } else {
        Ok(())
    }
}
