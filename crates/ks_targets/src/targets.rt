//! What rules see of what a command asks for.
ghost use Rattle.std.specs.Prelude.{◌≡◌, ◌++◌, Some, None, map, IfOk, OnOk, codes, option_map};
ghost use Rattle.std.specs.Option.{option_copied};
ghost use Rattle.ks_auth.specs.Answers.{rows_told};
ghost use Rattle.ks_machine.specs.declared.row_kind.RowKind.TheVariants as kinds;
ghost use Rattle.ks_machine.specs.Targets.{field, kind_of, made_kind, object, object_of_path, of_actor, of_body, of_filter, of_grant, of_implication, of_member, of_subject, of_target, of_trust, parties, path_user, target_of};
ghost use Rattle.ks_checks.specs.Plans.{valid_of};
ghost use Rattle.ks_rule.specs.Kinds.{value_in};

use crate::catalog_targets::{put_catalog_body, put_endpoint, put_region, put_service};
use crate::fields::Fields;
use crate::seen::Seen;
use ks_auth::Tables;
use ks_base::{Actor, FieldList, GrantRow, Id, ImplyRow, MemberRow, Memory, Target, Text};
use ks_checks::Caller;
use ks_checks::filters::value_in;
use ks_machine::{Command, Made, RowKind};
use ks_rule::Attributes;
use std::alloc::Global;

/// What rules see of what the command asks for; the subject is the token that it is about.
pub fn target_of(
    alloc: Global,
    tables: &Tables,
    subject: Option<&Caller>,
    command: &Command,
) -> Result<Attributes, Memory>
    ensures { IfOk result (λ fields. fields ≡ target_of (rows_told tables.now) (option_map valid_of (option_copied subject.entry)) command.now) }
{
    let mut fields = Fields::new(alloc);
    put_target_of(&mut fields, tables, subject, command)?;
    Ok(fields.into_list())
}

#[tactic(auto, unfolding(ks_machine::specs::Targets::target_of))]
fn put_target_of(
    fields: &mut Fields,
    tables: &Tables,
    subject: Option<&Caller>,
    command: &Command,
) -> Result<(), Memory>
    ensures { OnOk result (fields.new ≡ fields.old ++ target_of (rows_told tables.now) (option_map valid_of (option_copied subject.entry)) command.now) }
{
    match command {
        Command::Validate(_) | Command::Check(_) | Command::RevokeToken => {
            put_subject(fields, subject)
        }
        Command::Create(made) => put_body(fields, made.get()),
        Command::List(kind, filter) => put_filter(fields, kind.filter_names(), &filter.fields),
        Command::Get(kind, id) | Command::Delete(kind, id) => put_path(fields, tables, *kind, id),
        Command::Update(id, made) => put_path(fields, tables, kind_of(made.get()), id),
        Command::GroupsOf(id) => put_path(fields, tables, RowKind::User, id),
        Command::ProjectsOf(id) => put_path(fields, tables, RowKind::User, id),
        Command::CreateAppCred(user, _) | Command::ListAppCreds(user) => {
            put_path(fields, tables, RowKind::User, user)
        }
        Command::GetAppCred(user, _) | Command::DeleteAppCred(user, _) => put_user_id(fields, user),
        Command::MembersOf(id) => put_object(fields, tables, RowKind::Group, id),
        Command::Implied(id) => put_object(fields, tables, RowKind::Role, id),
        Command::CreateCatalog(asked) => put_catalog_body(fields, asked.get()),
        Command::ListCatalog(of, filter) => {
            let names = RowKind::of_catalog(*of).filter_names();
            put_filter(fields, names, &filter.fields)
        }
        Command::GetCatalog(of, id) | Command::DeleteCatalog(of, id) => {
            put_object(fields, tables, RowKind::of_catalog(*of), id)
        }
        Command::UpdateCatalog(id, asked) => {
            put_object(fields, tables, RowKind::of_catalog(asked.get().of), id)
        }
        Command::Join(row) | Command::IsIn(row) | Command::Leave(row) => put_member(fields, row),
        Command::Imply(row)
        | Command::Implication(row)
        | Command::IsImplied(row)
        | Command::Unimply(row) => put_implication(fields, row),
        Command::GrantsOf(who, at, _) => put_actor_at(fields, who, at),
        Command::Grant(row) | Command::IsGranted(row) | Command::Ungrant(row) => {
            put_grant(fields, row)
        }
        Command::CreateTrust(body) => {
            let body = body.get();
            put_parties(fields, &body.trustor, &body.trustee)
        }
        Command::Trusts(filter) => put_parties_asked(fields, &filter.fields),
        Command::Trust(id) | Command::DeleteTrust(id) | Command::TrustRoles(id) => {
            put_trust(fields, tables, id)
        }
        Command::Version
        | Command::Versions
        | Command::Login(_)
        | Command::ChangePassword(_, _, _)
        | Command::Assignments(_)
        | Command::Events
        | Command::RotateKeys
        | Command::LoadKeys
        | Command::ShowCatalog
        | Command::CreateSecret(_)
        | Command::ListSecrets
        | Command::GetSecret(_)
        | Command::DeleteSecret(_) => Ok(()),
    }
}

fn put_subject(fields: &mut Fields, subject: Option<&Caller>) -> Result<(), Memory>
    ensures { OnOk result (fields.new ≡ fields.old ++ of_subject (option_map valid_of (option_copied subject.entry))) }
{
    match subject {
        Some(token) => fields.put_id("target.token.user_id", &token.payload.user),
        None => Ok(()),
    }
}

/// The kind of what a body makes.
pub(crate) fn kind_of(made: &Made) -> RowKind
    ensures { result ≡ made_kind (kind_of made.now) }
{
    match made {
        Made::Domain { .. } => RowKind::Domain,
        Made::Project { .. } => RowKind::Project,
        Made::User { .. } => RowKind::User,
        Made::Group { .. } => RowKind::Group,
        Made::Role { .. } => RowKind::Role,
    }
}

/// What a creation gives, without the id.
#[tactic(auto, unfolding(ks_machine::specs::Targets::of_body))]
fn put_body(fields: &mut Fields, made: &Made) -> Result<(), Memory>
    ensures { OnOk result (fields.new ≡ fields.old ++ of_body made.now) }
{
    match made {
        Made::Domain { name, enabled, .. } => fields.put_domain(&Seen {
            id: None,
            name: name.as_ref(),
            domain: None,
            enabled: *enabled,
        }),
        Made::Project {
            name,
            domain,
            enabled,
            ..
        } => fields.put_project(&Seen {
            id: None,
            name: name.as_ref(),
            domain: domain.as_ref(),
            enabled: *enabled,
        }),
        Made::User {
            name,
            domain,
            enabled,
            ..
        } => fields.put_user(&Seen {
            id: None,
            name: name.as_ref(),
            domain: domain.as_ref(),
            enabled: *enabled,
        }),
        Made::Group { name, domain, .. } => fields.put_group(&Seen {
            id: None,
            name: name.as_ref(),
            domain: domain.as_ref(),
            enabled: None,
        }),
        Made::Role { name, .. } => fields.put_role(&Seen {
            id: None,
            name: name.as_ref(),
            domain: None,
            enabled: None,
        }),
    }
}

/// The filters of these names, each under its own.
fn put_filter(
    fields: &mut Fields,
    names: &[&'static str],
    filters: &FieldList,
) -> Result<(), Memory>
    ensures { OnOk result (fields.new ≡ fields.old ++ of_filter (map (λ name. name.now) names.now) filters.now) }
{
    for name in names {
        fields.put_given(name, value_in(filters, name))?;
    }
    Ok(())
}

/// The object that a path names; where it is a user, its id too.
fn put_path(fields: &mut Fields, tables: &Tables, kind: RowKind, id: &Id) -> Result<(), Memory>
    ensures { OnOk result (fields.new ≡ fields.old ++ object_of_path (rows_told tables.now) kind id.now) }
{
    if matches!(kind, RowKind::User) {
        put_path_user(fields, id)?;
    }
    put_object(fields, tables, kind, id)
}

/// The user of a path.
fn put_path_user(fields: &mut Fields, id: &Id) -> Result<(), Memory>
    ensures { OnOk result (fields.new ≡ fields.old ++ path_user id.now) }
{
    fields.put_id("user_id", id)
}

/// The object that a path names, where it stands.
#[tactic(auto, unfolding(ks_machine::specs::Targets::object))]
fn put_object(fields: &mut Fields, tables: &Tables, kind: RowKind, id: &Id) -> Result<(), Memory>
    ensures { OnOk result (fields.new ≡ fields.old ++ object (rows_told tables.now) kind id.now) }
{
    match kind {
        RowKind::Domain => put_domain(fields, tables, id),
        RowKind::Project => put_project(fields, tables, id),
        RowKind::User => put_user(fields, tables, id),
        RowKind::Group => put_group(fields, tables, id),
        RowKind::Role => put_role(fields, tables, id),
        RowKind::Region => put_region(fields, tables, id),
        RowKind::Service => put_service(fields, tables, id),
        RowKind::Endpoint => put_endpoint(fields, tables, id),
    }
}

#[tactic(auto, unfolding(ks_machine::specs::Targets::object))]
fn put_domain(fields: &mut Fields, tables: &Tables, id: &Id) -> Result<(), Memory>
    ensures { OnOk result (fields.new ≡ fields.old ++ object (rows_told tables.now) kinds.Domain id.now) }
{
    match tables.tree.domain(id) {
        Some(row) => fields.put_domain(&Seen {
            id: Some(&row.id),
            name: Some(&row.name),
            domain: None,
            enabled: Some(row.enabled),
        }),
        None => Ok(()),
    }
}

#[tactic(auto, unfolding(ks_machine::specs::Targets::object))]
fn put_project(fields: &mut Fields, tables: &Tables, id: &Id) -> Result<(), Memory>
    ensures { OnOk result (fields.new ≡ fields.old ++ object (rows_told tables.now) kinds.Project id.now) }
{
    match tables.tree.project(id) {
        Some(row) => fields.put_project(&Seen {
            id: Some(&row.id),
            name: Some(&row.name),
            domain: Some(&row.domain),
            enabled: Some(row.enabled),
        }),
        None => Ok(()),
    }
}

#[tactic(auto, unfolding(ks_machine::specs::Targets::object))]
fn put_user(fields: &mut Fields, tables: &Tables, id: &Id) -> Result<(), Memory>
    ensures { OnOk result (fields.new ≡ fields.old ++ object (rows_told tables.now) kinds.User id.now) }
{
    match tables.people.user(id) {
        Some(row) => fields.put_user(&Seen {
            id: Some(&row.id),
            name: Some(&row.name),
            domain: Some(&row.domain),
            enabled: Some(row.enabled),
        }),
        None => Ok(()),
    }
}

#[tactic(auto, unfolding(ks_machine::specs::Targets::object))]
fn put_group(fields: &mut Fields, tables: &Tables, id: &Id) -> Result<(), Memory>
    ensures { OnOk result (fields.new ≡ fields.old ++ object (rows_told tables.now) kinds.Group id.now) }
{
    match tables.people.group(id) {
        Some(row) => fields.put_group(&Seen {
            id: Some(&row.id),
            name: Some(&row.name),
            domain: Some(&row.domain),
            enabled: None,
        }),
        None => Ok(()),
    }
}

#[tactic(auto, unfolding(ks_machine::specs::Targets::object))]
fn put_role(fields: &mut Fields, tables: &Tables, id: &Id) -> Result<(), Memory>
    ensures { OnOk result (fields.new ≡ fields.old ++ object (rows_told tables.now) kinds.Role id.now) }
{
    match tables.roles.role(id) {
        Some(row) => fields.put_role(&Seen {
            id: Some(&row.id),
            name: Some(&row.name),
            domain: None,
            enabled: None,
        }),
        None => Ok(()),
    }
}

fn put_member(fields: &mut Fields, row: &MemberRow) -> Result<(), Memory>
    ensures { OnOk result (fields.new ≡ fields.old ++ of_member row.now) }
{
    put_path_user(fields, &row.user)?;
    put_membership(fields, row)
}

fn put_membership(fields: &mut Fields, row: &MemberRow) -> Result<(), Memory>
    ensures { OnOk result (fields.new ≡ fields.old ++ (field (codes "target.group.id") row.now.group ++ field (codes "target.user.id") row.now.user)) }
{
    fields.put_id("target.group.id", &row.group)?;
    fields.put_id("target.user.id", &row.user)
}

fn put_actor(fields: &mut Fields, actor: &Actor) -> Result<(), Memory>
    ensures { OnOk result (fields.new ≡ fields.old ++ of_actor actor.now) }
{
    match actor {
        Actor::User(id) => put_user_id(fields, id),
        Actor::Group(id) => fields.put_id("target.group.id", id),
    }
}

fn put_user_id(fields: &mut Fields, id: &Id) -> Result<(), Memory>
    ensures { OnOk result (fields.new ≡ fields.old ++ (path_user id.now ++ field (codes "target.user.id") id.now)) }
{
    put_path_user(fields, id)?;
    fields.put_id("target.user.id", id)
}

fn put_place(fields: &mut Fields, target: &Target) -> Result<(), Memory>
    ensures { OnOk result (fields.new ≡ fields.old ++ of_target target.now) }
{
    match target {
        Target::Project(id) => fields.put_id("target.project.id", id),
        Target::Domain(id) => fields.put_id("target.domain.id", id),
        Target::System => Ok(()),
    }
}

fn put_actor_at(fields: &mut Fields, who: &Actor, at: &Target) -> Result<(), Memory>
    ensures { OnOk result (fields.new ≡ fields.old ++ (of_actor who.now ++ of_target at.now)) }
{
    put_actor(fields, who)?;
    put_place(fields, at)
}

fn put_grant(fields: &mut Fields, row: &GrantRow) -> Result<(), Memory>
    ensures { OnOk result (fields.new ≡ fields.old ++ of_grant row.now) }
{
    put_actor_at(fields, &row.actor, &row.target)?;
    fields.put_id("target.role.id", &row.role)
}

/// An implication is seen by its prior role.
fn put_implication(fields: &mut Fields, row: &ImplyRow) -> Result<(), Memory>
    ensures { OnOk result (fields.new ≡ fields.old ++ of_implication row.now) }
{
    fields.put_id("target.role.id", &row.prior)
}

fn put_parties(fields: &mut Fields, trustor: &Id, trustee: &Id) -> Result<(), Memory>
    ensures { OnOk result (fields.new ≡ fields.old ++ parties (Some trustor.now) (Some trustee.now)) }
{
    fields.put_id("target.trust.trustor_user_id", trustor)?;
    fields.put_id("target.trust.trustee_user_id", trustee)
}

fn put_parties_asked(fields: &mut Fields, filters: &FieldList) -> Result<(), Memory>
    ensures { OnOk result (fields.new ≡ fields.old ++ parties (value_in filters.now (codes "trustor_user_id")) (value_in filters.now (codes "trustee_user_id"))) }
{
    let trustor = value_in(filters, "trustor_user_id");
    let trustee = value_in(filters, "trustee_user_id");
    put_parties_given(fields, trustor, trustee)
}

/// The parties of a trust, as far as they are given.
fn put_parties_given(
    fields: &mut Fields,
    trustor: Option<&Text>,
    trustee: Option<&Text>,
) -> Result<(), Memory>
    ensures { OnOk result (fields.new ≡ fields.old ++ parties (option_copied trustor.entry) (option_copied trustee.entry)) }
{
    fields.put_given("target.trust.trustor_user_id", trustor)?;
    fields.put_given("target.trust.trustee_user_id", trustee)
}

fn put_trust(fields: &mut Fields, tables: &Tables, id: &Id) -> Result<(), Memory>
    ensures { OnOk result (fields.new ≡ fields.old ++ of_trust (rows_told tables.now) id.now) }
{
    match tables.trusts.trust(id) {
        Some(row) => put_parties(fields, &row.trustor, &row.trustee),
        None => Ok(()),
    }
}
