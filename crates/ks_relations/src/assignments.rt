//! Who has which role where (Identity API v3, role assignments): the grants, or what they give one user.
ghost use Rattle.std.specs.Prelude.{◌≡◌, ◌&&◌, codes, filter, option_copied, IfOk};
ghost use Rattle.ks_auth.specs.Answers.{rows_told};
ghost use Rattle.ks_machine.specs.Assignments.{agrees, assignments, domain_of_target, effective_of, group_of_actor, is_listed, project_of_target, rows_asked, system_of_target, user_of_actor};
ghost use Rattle.ks_machine.specs.Attempts.{Go};
ghost use Rattle.ks_checks.specs.Plans.{Plans};

use crate::asked::grants_listed;
use crate::effective::given_to_text;
use ks_auth::Tables;
use ks_base::{Actor, FieldList, Filter, GrantList, GrantRow, Memory, Target, Text};
use ks_checks::filters::value_in;
use ks_checks::{Halt, Plan};
use ks_machine::{BodyOut, asks_for_effective};
use std::alloc::Global;

/// Whether a filter is not given, or is this id.
fn agrees(fields: &FieldList, name: &str, id: Option<&[u8]>) -> bool
    ensures { result ≡ agrees fields.now name.now (option_copied id.entry) }
{
    match value_in(fields, name) {
        Some(wanted) => match id {
            Some(id) => wanted.as_slice() == id,
            None => false,
        },
        None => true,
    }
}

fn user_of_actor(actor: &Actor) -> Option<&[u8]>
    ensures { option_copied result ≡ user_of_actor actor.now }
{
    match actor {
        Actor::User(id) => Some(id.as_slice()),
        Actor::Group(_) => None,
    }
}

fn group_of_actor(actor: &Actor) -> Option<&[u8]>
    ensures { option_copied result ≡ group_of_actor actor.now }
{
    match actor {
        Actor::User(_) => None,
        Actor::Group(id) => Some(id.as_slice()),
    }
}

fn project_of_target(target: &Target) -> Option<&[u8]>
    ensures { option_copied result ≡ project_of_target target.now }
{
    match target {
        Target::Project(id) => Some(id.as_slice()),
        Target::Domain(_) => None,
        Target::System => None,
    }
}

fn domain_of_target(target: &Target) -> Option<&[u8]>
    ensures { option_copied result ≡ domain_of_target target.now }
{
    match target {
        Target::Project(_) => None,
        Target::Domain(id) => Some(id.as_slice()),
        Target::System => None,
    }
}

/// What the filter of the system compares.
fn system_of_target(target: &Target) -> Option<&'static [u8]>
    ensures { option_copied result ≡ system_of_target target.now }
{
    match target {
        Target::Project(_) => None,
        Target::Domain(_) => None,
        Target::System => Some(b"all".as_slice()),
    }
}

/// Whether a row passes all given filters.
pub(crate) fn is_listed(fields: &FieldList, row: &GrantRow) -> bool
    ensures { result ≡ is_listed fields.now row.now }
{
    agrees(fields, "user.id", user_of_actor(&row.actor))
        && agrees(fields, "group.id", group_of_actor(&row.actor))
        && agrees(fields, "role.id", Some(row.role.as_slice()))
        && is_scope_listed(fields, &row.target)
}

/// Whether the filters of the three kinds of scope agree.
fn is_scope_listed(fields: &FieldList, target: &Target) -> bool
    ensures { result ≡ (agrees fields.now (codes "scope.project.id") (project_of_target target.now) && (agrees fields.now (codes "scope.domain.id") (domain_of_target target.now) && agrees fields.now (codes "scope.system") (system_of_target target.now))) }
{
    are_all(
        agrees(fields, "scope.project.id", project_of_target(target)),
        agrees(fields, "scope.domain.id", domain_of_target(target)),
        agrees(fields, "scope.system", system_of_target(target)),
    )
}

fn are_all(first: bool, second: bool, third: bool) -> bool
    ensures { result ≡ (first && (second && third)) }
{
    first && second && third
}

/// All that is given to the user whom the listing names.
#[tactic(auto, unfolding(ks_machine::specs::Assignments::effective_of))]
fn effective_of(alloc: Global, tables: &Tables, fields: &FieldList) -> Result<GrantList, Memory>
    ensures { IfOk result (λ rows. rows ≡ effective_of (rows_told tables.now) fields.now) }
{
    match value_in(fields, "user.id") {
        Some(user) => given_to_text(alloc, tables, user),
        None => Ok(GrantList::new(alloc)),
    }
}

/// The rows that the filters list.
fn listed(alloc: Global, fields: &FieldList, rows: &[GrantRow]) -> Result<GrantList, Memory>
    ensures { IfOk result (λ found. found ≡ filter (is_listed fields.now) rows.now) }
{
    let mut found = GrantList::new(alloc);
    for row in rows {
        if is_listed(fields, row) {
            let _actor = &row.actor;
            found.push(*row)?;
        }
    }
    Ok(found)
}

/// The rows that are asked for, and that the filters list.
fn rows_asked(alloc: Global, tables: &Tables, fields: &FieldList) -> Result<GrantList, Memory>
    ensures { IfOk result (λ found. found ≡ filter (is_listed fields.now) (rows_asked (rows_told tables.now) fields.now)) }
{
    if asks_for_effective(fields) {
        let given = effective_of(alloc, tables, fields)?;
        listed(alloc, fields, given.as_slice())
    } else {
        grants_listed(alloc, fields, tables.grants)
    }
}

#[inline(never)]
#[tactic(auto, unfolding(ks_machine::specs::Assignments::assignments))]
pub fn assignments(alloc: Global, tables: &Tables, filters: &Filter) -> Result<Plan, Halt>
    ensures { Plans result (Go (assignments (rows_told tables.now) filters.now)) }
{
    let found = rows_asked(alloc, tables, &filters.fields)?;
    let path = Text::of(alloc, "/v3/role_assignments")?;
    Ok(Plan::tells(BodyOut::Assignments(found, path)))
}
