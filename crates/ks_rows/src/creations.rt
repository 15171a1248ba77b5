//! New domains, projects, users, groups and roles (Identity API v3), each by the rules of its table.
ghost use Rattle.std.specs.Prelude.{◌≡◌, true, Some, None, unwrap_or, IfOk, IsSome};
ghost use Rattle.ks_auth.specs.Answers.{Tells, rows_told};
ghost use Rattle.ks_auth.specs.Facts.{told};
ghost use Rattle.ks_base.specs.declared.receipt.Drawn.{Drawn};
ghost use Rattle.ks_base.specs.Rows.{user_of};
ghost use Rattle.ks_machine.specs.Creations.{create, create_domain, create_group, create_project, create_role, create_user, domain_for, domain_of_caller, text_or_empty};
ghost use Rattle.ks_machine.specs.States.{State};
ghost use Rattle.ks_machine.specs.Validity.{project_domain};
ghost use Rattle.ks_checks.specs.Plans.{Plans, valid_of};

use crate::factors::put_told;
use ks_auth::{Facts, Tables, scope_domain};
use ks_base::{DomainRow, GroupRow, Id, Memory, ProjectRow, RoleRow, Text, UserRow};
use ks_checks::checks::{row, standing_domain};
use ks_checks::draws::made_id;
use ks_checks::passwords::derived_or;
use ks_checks::puts::{put_domain, put_project};
use ks_checks::{Caller, Halt, Plan};
use ks_machine::{BodyOut, Change, Made, MfaIn, Row};
use std::alloc::Global;

/// An equal text, or the empty one.
pub fn text_or_empty(alloc: Global, given: &Option<Text>) -> Result<Text, Memory>
    ensures { IfOk result (λ text. text ≡ text_or_empty given.now) }
{
    match given {
        Some(text) => text.copy(),
        None => Text::of(alloc, ""),
    }
}

/// The domain of the caller: that of its scope, else that of its user.
fn domain_of_caller(tables: &Tables, caller: &Caller) -> Id
    requires { IsSome (user_of caller.now.payload.user tables.now.people.now.users) }
    ensures { result ≡ domain_of_caller (rows_told tables.now) (valid_of caller.now) }
{
    if let Some(domain) = scope_domain(tables, &caller.payload) {
        return domain;
    }
    match tables.people.user(&caller.payload.user) {
        Some(user) => user.domain,
        None => unreachable!(),
    }
}

/// A domain that is given, else that of the parent where this stands, else that of the caller.
pub fn domain_for(tables: &Tables, caller: &Caller, given: &Option<Id>, parent: &Option<Id>) -> Id
    requires { IsSome (user_of caller.now.payload.user tables.now.people.now.users) }
    ensures { result ≡ domain_for (rows_told tables.now) (valid_of caller.now) given.now parent.now }
{
    if let Some(domain) = given {
        return *domain;
    }
    match domain_of_parent(tables, parent) {
        Some(domain) => domain,
        None => domain_of_caller(tables, caller),
    }
}

/// The domain of the parent, where this is given and stands.
fn domain_of_parent(tables: &Tables, parent: &Option<Id>) -> Option<Id>
    ensures { result ≡ project_domain (rows_told tables.now) parent.now }
{
    match parent {
        Some(id) => tables.tree.project(id).map(|row| row.domain),
        None => None,
    }
}

#[tactic(auto, unfolding(ks_machine::specs::Creations::create_domain))]
pub fn create_domain(
    alloc: Global,
    tables: &Tables,
    id: Id,
    name: &Option<Text>,
    description: &Option<Text>,
    enabled: Option<bool>,
) -> Result<Plan, Halt>
    ensures { Plans result (create_domain (rows_told tables.now) id name.now description.now enabled) }
{
    let new = domain_row(alloc, id, name, description, enabled)?;
    let checked = tables.tree.may_add_domain(&new);
    put_domain(alloc, checked, new, true)
}

#[tactic(auto, unfolding(ks_machine::specs::Creations::create_project))]
pub fn create_project(alloc: Global, tables: &Tables, new: ProjectRow) -> Result<Plan, Halt>
    ensures { Plans result (create_project (rows_told tables.now) new) }
{
    let checked = tables.tree.may_add_project(&new);
    put_project(alloc, checked, new, true)
}

/// A user, whose password is still to be derived: the fact of it is asked for before room is tested.
#[tactic(auto, unfolding(ks_machine::specs::Creations::create_user))]
pub fn create_user(
    alloc: Global,
    tables: &Tables,
    drawn: &[u8; 64],
    facts: &Facts,
    new: UserRow,
    password: &Option<Text>,
    factors: &Option<MfaIn>,
) -> Result<Plan, Halt>
    ensures { (S : State) → Tells tables.now S → Plans result (create_user (told facts.now) S (Drawn.Bytes drawn.now) new password.now factors.now) }
{
    let _domain = standing_domain(tables, &new.domain)?;
    row(tables.people.user_name_is_free(&new))?;
    let kept = derived_or(alloc, tables, drawn, facts, &None, password)?;
    row(tables.people.may_add_user(&new))?;
    let new = UserRow {
        password: kept,
        ..new
    };
    put_told(alloc, new, factors, true)
}

#[tactic(auto, unfolding(ks_machine::specs::Creations::create_group))]
pub fn create_group(alloc: Global, tables: &Tables, new: GroupRow) -> Result<Plan, Halt>
    ensures { Plans result (create_group (rows_told tables.now) new) }
{
    let _domain = standing_domain(tables, &new.domain)?;
    row(tables.people.may_add_group(&new))?;
    let told = BodyOut::one(alloc, Row::Group(new.copy()?), true)?;
    Ok(Plan::changes(Change::PutGroup(new), told))
}

#[tactic(auto, unfolding(ks_machine::specs::Creations::create_role))]
pub fn create_role(
    alloc: Global,
    tables: &Tables,
    id: Id,
    name: &Option<Text>,
    description: &Option<Text>,
) -> Result<Plan, Halt>
    ensures { Plans result (create_role (rows_told tables.now) id name.now description.now) }
{
    let new = RoleRow {
        id,
        name: text_or_empty(alloc, name)?,
        description: text_or_empty(alloc, description)?,
    };
    row(tables.roles.may_add(&new))?;
    let told = BodyOut::one(alloc, Row::Role(new.copy()?), true)?;
    Ok(Plan::changes(Change::PutRole(new), told))
}

fn domain_row(
    alloc: Global,
    id: Id,
    name: &Option<Text>,
    description: &Option<Text>,
    enabled: Option<bool>,
) -> Result<DomainRow, Memory>
    ensures { IfOk result (λ row. row ≡ record { id = id; name = text_or_empty name.now; description = text_or_empty description.now; enabled = unwrap_or enabled true }) }
{
    Ok(DomainRow {
        id,
        name: text_or_empty(alloc, name)?,
        description: text_or_empty(alloc, description)?,
        enabled: enabled.unwrap_or(true),
    })
}

/// A project of the domain, right below it where no parent is given.
fn project_row(
    alloc: Global,
    id: Id,
    home: Id,
    parent: &Option<Id>,
    name: &Option<Text>,
    description: &Option<Text>,
    enabled: Option<bool>,
) -> Result<ProjectRow, Memory>
    ensures { IfOk result (λ row. row ≡ record { id = id; domain = home; parent = unwrap_or parent.now home; name = text_or_empty name.now; description = text_or_empty description.now; enabled = unwrap_or enabled true }) }
{
    Ok(ProjectRow {
        id,
        domain: home,
        parent: parent.unwrap_or(home),
        name: text_or_empty(alloc, name)?,
        description: text_or_empty(alloc, description)?,
        enabled: enabled.unwrap_or(true),
    })
}

/// A user of the domain, without a password yet.
fn user_row(
    alloc: Global,
    id: Id,
    home: Id,
    name: &Option<Text>,
    enabled: Option<bool>,
) -> Result<UserRow, Memory>
    ensures { IfOk result (λ row. row ≡ record { id = id; domain = home; name = text_or_empty name.now; enabled = unwrap_or enabled true; password = None }) }
{
    Ok(UserRow {
        id,
        domain: home,
        name: text_or_empty(alloc, name)?,
        enabled: enabled.unwrap_or(true),
        password: None,
    })
}

/// A group of the domain.
fn group_row(
    alloc: Global,
    id: Id,
    home: Id,
    name: &Option<Text>,
    description: &Option<Text>,
) -> Result<GroupRow, Memory>
    ensures { IfOk result (λ row. row ≡ record { id = id; domain = home; name = text_or_empty name.now; description = text_or_empty description.now }) }
{
    Ok(GroupRow {
        id,
        domain: home,
        name: text_or_empty(alloc, name)?,
        description: text_or_empty(alloc, description)?,
    })
}

/// A creation of a row by what the body says; its id is drawn.
#[inline(never)]
#[tactic(auto, unfolding(ks_machine::specs::Creations::create))]
pub fn create(
    alloc: Global,
    tables: &Tables,
    drawn: &[u8; 64],
    facts: &Facts,
    caller: &Caller,
    made: &Made,
) -> Result<Plan, Halt>
    requires { IsSome (user_of caller.now.payload.user tables.now.people.now.users) }
    ensures { (S : State) → Tells tables.now S → Plans result (create (told facts.now) S (Drawn.Bytes drawn.now) (valid_of caller.now) made.now) }
{
    let id = made_id(drawn);
    match made {
        Made::Domain {
            name,
            description,
            enabled,
            ..
        } => create_domain(alloc, tables, id, name, description, *enabled),
        Made::Project {
            name,
            domain,
            parent,
            description,
            enabled,
            ..
        } => {
            let home = domain_for(tables, caller, domain, parent);
            let new = project_row(alloc, id, home, parent, name, description, *enabled)?;
            create_project(alloc, tables, new)
        }
        Made::User {
            name,
            domain,
            password,
            enabled,
            factors,
            ..
        } => {
            let home = domain_for(tables, caller, domain, &None);
            let new = user_row(alloc, id, home, name, *enabled)?;
            create_user(alloc, tables, drawn, facts, new, password, factors)
        }
        Made::Group {
            name,
            domain,
            description,
            ..
        } => {
            let home = domain_for(tables, caller, domain, &None);
            let new = group_row(alloc, id, home, name, description)?;
            create_group(alloc, tables, new)
        }
        Made::Role {
            name,
            description,
            ..
        } => create_role(alloc, tables, id, name, description),
    }
}
