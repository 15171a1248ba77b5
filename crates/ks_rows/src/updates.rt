//! Changes of domains, projects, users, groups and roles (Identity API v3). A field that is absent stays as it is; the id,
//! the domain and the parent of a row can't be changed.
ghost use Rattle.std.specs.Prelude.{◌≡◌, unwrap_or, IfOk};
ghost use Rattle.ks_auth.specs.Answers.{Tells, rows_told};
ghost use Rattle.ks_auth.specs.Facts.{told};
ghost use Rattle.ks_machine.specs.Actions.{draws_for};
ghost use Rattle.ks_machine.specs.States.{State};
ghost use Rattle.ks_machine.specs.Updates.{unchanged, update, update_domain, update_group, update_project, update_role, update_user};
ghost use Rattle.ks_checks.specs.Plans.{HasBytes, Passes, Plans};

use crate::factors::put_told;
use ks_auth::{Facts, Tables};
use ks_base::{DomainRow, Drawn, GroupRow, Id, Memory, ProjectRow, RoleRow, Text, UserRow};
use ks_checks::checks::{
    row, standing_domain, standing_group, standing_project, standing_role, standing_user,
};
use ks_checks::passwords::derived_or;
use ks_checks::puts::{put_domain, put_project};
use ks_checks::{Halt, Plan};
use ks_machine::{BodyOut, Cause, Change, Made, MfaIn, Row};
use std::alloc::Global;

/// The text that is given, or else what stands.
pub fn text_or(given: &Option<Text>, standing: &Text) -> Result<Text, Memory>
    ensures { IfOk result (λ text. text ≡ unwrap_or given.now standing.now) }
{
    match given {
        Some(text) => text.copy(),
        None => standing.copy(),
    }
}

/// Goes on where the field is absent, or says what stands.
pub fn unchanged(alloc: Global, field: &str, given: &Option<Id>, standing: &Id) -> Result<(), Halt>
    ensures { Passes result (unchanged field.now given.now standing.now) }
{
    match given {
        Some(id) => {
            if *standing == *id {
                return Ok(());
            }
            Err(Halt::Refused(Cause::Immutable(Text::of(alloc, field)?)))
        }
        None => Ok(()),
    }
}

#[tactic(auto, unfolding(ks_machine::specs::Updates::update_domain))]
pub fn update_domain(
    alloc: Global,
    tables: &Tables,
    id: &Id,
    given: &Option<Id>,
    name: &Option<Text>,
    description: &Option<Text>,
    enabled: Option<bool>,
) -> Result<Plan, Halt>
    ensures { Plans result (update_domain (rows_told tables.now) id.now given.now name.now description.now enabled) }
{
    let old = standing_domain(tables, id)?;
    unchanged(alloc, "id", given, id)?;
    let new = DomainRow {
        id: old.id,
        name: text_or(name, &old.name)?,
        description: text_or(description, &old.description)?,
        enabled: enabled.unwrap_or(old.enabled),
    };
    let checked = tables.tree.may_set_domain(&new);
    put_domain(alloc, checked, new, false)
}

#[tactic(auto, unfolding(ks_machine::specs::Updates::update_project))]
pub fn update_project(
    alloc: Global,
    tables: &Tables,
    id: &Id,
    given: &Option<Id>,
    name: &Option<Text>,
    domain: &Option<Id>,
    parent: &Option<Id>,
    description: &Option<Text>,
    enabled: Option<bool>,
) -> Result<Plan, Halt>
    ensures { Plans result (update_project (rows_told tables.now) id.now given.now name.now domain.now parent.now description.now enabled) }
{
    let old = standing_project(tables, id)?;
    unchanged(alloc, "id", given, id)?;
    unchanged(alloc, "domain_id", domain, &old.domain)?;
    unchanged(alloc, "parent_id", parent, &old.parent)?;
    let new = ProjectRow {
        id: old.id,
        domain: old.domain,
        parent: old.parent,
        name: text_or(name, &old.name)?,
        description: text_or(description, &old.description)?,
        enabled: enabled.unwrap_or(old.enabled),
    };
    let checked = tables.tree.may_set_project(&new);
    put_project(alloc, checked, new, false)
}

#[tactic(auto, unfolding(ks_machine::specs::Updates::update_user))]
pub fn update_user(
    alloc: Global,
    tables: &Tables,
    drawn: &[u8; 64],
    facts: &Facts,
    id: &Id,
    given: &Option<Id>,
    name: &Option<Text>,
    domain: &Option<Id>,
    password: &Option<Text>,
    enabled: Option<bool>,
    factors: &Option<MfaIn>,
) -> Result<Plan, Halt>
    ensures { (S : State) → Tells tables.now S → Plans result (update_user (told facts.now) S (Drawn.Bytes drawn.now) id.now given.now name.now domain.now password.now enabled factors.now) }
{
    let old = standing_user(tables, id)?;
    unchanged(alloc, "id", given, id)?;
    unchanged(alloc, "domain_id", domain, &old.domain)?;
    let named = UserRow {
        id: old.id,
        domain: old.domain,
        name: text_or(name, &old.name)?,
        enabled: enabled.unwrap_or(old.enabled),
        password: old.password,
    };
    row(tables.people.may_set_user(&named))?;
    let kept = derived_or(alloc, tables, drawn, facts, &old.password, password)?;
    let new = UserRow {
        password: kept,
        ..named
    };
    put_told(alloc, new, factors, false)
}

#[tactic(auto, unfolding(ks_machine::specs::Updates::update_group))]
pub fn update_group(
    alloc: Global,
    tables: &Tables,
    id: &Id,
    given: &Option<Id>,
    name: &Option<Text>,
    domain: &Option<Id>,
    description: &Option<Text>,
) -> Result<Plan, Halt>
    ensures { Plans result (update_group (rows_told tables.now) id.now given.now name.now domain.now description.now) }
{
    let old = standing_group(tables, id)?;
    unchanged(alloc, "id", given, id)?;
    unchanged(alloc, "domain_id", domain, &old.domain)?;
    let new = GroupRow {
        id: old.id,
        domain: old.domain,
        name: text_or(name, &old.name)?,
        description: text_or(description, &old.description)?,
    };
    row(tables.people.may_set_group(&new))?;
    let told = BodyOut::one(alloc, Row::Group(new.copy()?), false)?;
    Ok(Plan::changes(Change::PutGroup(new), told))
}

#[tactic(auto, unfolding(ks_machine::specs::Updates::update_role))]
pub fn update_role(
    alloc: Global,
    tables: &Tables,
    id: &Id,
    given: &Option<Id>,
    name: &Option<Text>,
    description: &Option<Text>,
) -> Result<Plan, Halt>
    ensures { Plans result (update_role (rows_told tables.now) id.now given.now name.now description.now) }
{
    let old = standing_role(tables, id)?;
    unchanged(alloc, "id", given, id)?;
    let new = RoleRow {
        id: old.id,
        name: text_or(name, &old.name)?,
        description: text_or(description, &old.description)?,
    };
    row(tables.roles.may_set(&new))?;
    let told = BodyOut::one(alloc, Row::Role(new.copy()?), false)?;
    Ok(Plan::changes(Change::PutRole(new), told))
}

/// A change of the row with this id by what the body says.
#[inline(never)]
#[tactic(auto, unfolding(ks_machine::specs::Updates::update))]
pub fn update(
    alloc: Global,
    tables: &Tables,
    drawn: &Drawn,
    facts: &Facts,
    row_id: &Id,
    made: &Made,
) -> Result<Plan, Halt>
    requires { HasBytes (draws_for made.now) drawn.now }
    ensures { (S : State) → Tells tables.now S → Plans result (update (told facts.now) S drawn.now row_id.now made.now) }
{
    match made {
        Made::Domain {
            id,
            name,
            description,
            enabled,
        } => update_domain(alloc, tables, row_id, id, name, description, *enabled),
        Made::Project {
            id,
            name,
            domain,
            parent,
            description,
            enabled,
        } => update_project(
            alloc,
            tables,
            row_id,
            id,
            name,
            domain,
            parent,
            description,
            *enabled,
        ),
        Made::User {
            id,
            name,
            domain,
            password,
            enabled,
            factors,
        } => match drawn {
            Drawn::Bytes(drawn) => update_user(
                alloc, tables, drawn, facts, row_id, id, name, domain, password, *enabled, factors,
            ),
            Drawn::Unused | Drawn::Failed => unreachable!(),
        },
        Made::Group {
            id,
            name,
            domain,
            description,
        } => update_group(alloc, tables, row_id, id, name, domain, description),
        Made::Role {
            id,
            name,
            description,
        } => update_role(alloc, tables, row_id, id, name, description),
    }
}
