//! The grants that filters list. Where the filters name an actor or a target, no others than its grants are looked at.
ghost use Rattle.std.specs.Prelude.{◌≡◌, filter, map, IfOk, IfSome};
ghost use Rattle.ks_machine.specs.Assignments.{is_listed};
ghost use Rattle.ks_relations.specs.Asked.{AreAt, AreOf, IsAsked};

use crate::assignments::is_listed;
use ks_assign::{ByTarget, Grants};
use ks_base::{Actor, Boxed, FieldList, GrantList, GrantRow, Id, Memory, Target, Test};
use ks_checks::filters::value_in;
use std::alloc::{AllocError, Global};

/// The id that a filter gives, if it gives one.
fn id_asked(fields: &FieldList, name: &str) -> Option<Id>
    ensures { IfSome result (IsAsked fields.now name.now) }
{
    Id::read(value_in(fields, name)?.as_slice()).ok()
}

/// The actor whose are all grants that the filters list, if they name one.
fn actor_asked(fields: &FieldList) -> Option<Actor>
    ensures { IfSome result (AreOf fields.now) }
{
    match id_asked(fields, "user.id") {
        Some(user) => Some(Actor::User(user)),
        None => Some(Actor::Group(id_asked(fields, "group.id")?)),
    }
}

/// The target at which are all grants that the filters list, if they name one.
fn target_asked(fields: &FieldList) -> Option<Target>
    ensures { IfSome result (AreAt fields.now) }
{
    if value_in(fields, "scope.system").is_some() {
        return Some(Target::System);
    }
    match id_asked(fields, "scope.project.id") {
        Some(project) => Some(Target::Project(project)),
        None => Some(Target::Domain(id_asked(fields, "scope.domain.id")?)),
    }
}

/// The grants that these filters list.
#[derive(Drop)]
struct ByFilters<'a> {
    fields: &'a FieldList,
}

impl Test<GrantRow> for ByFilters<'_> {
    ghost test = { λ wanted row. is_listed wanted.fields.now row };

    fn test(&self, row: &GrantRow) -> bool {
        is_listed(self.fields, row)
    }
}

/// Copies of the grants that pass the test.
fn passing<T: Test<GrantRow>>(
    alloc: Global,
    grants: &[Boxed<GrantRow>],
    test: &T,
) -> Result<Vec<GrantRow>, AllocError>
    ensures { IfOk result (λ found. found.items ≡ filter (T.test test.now) grants.now) }
{
    grants
        .iter()
        .filter(|grant| test.test(grant.get()))
        .map(|grant| *grant.get())
        .collect(alloc)
}

/// The grants that are seen from these sides.
fn seen(alloc: Global, sides: &[Boxed<ByTarget>]) -> Result<Vec<GrantRow>, AllocError>
    ensures { IfOk result (λ grants. grants.items ≡ map (λ side. side.row) sides.now) }
{
    sides.iter().map(|side| side.get().row).collect(alloc)
}

/// Leaves the grants that the filters list.
fn keep_listed(fields: &FieldList, grants: &mut Vec<GrantRow>)
    ensures { grants.new.items ≡ filter (is_listed fields.now) grants.old.items }
{
    grants.retain(|grant| is_listed(fields, grant));
}

/// Those of an actor's grants that the filters list.
fn listed_of(
    alloc: Global,
    fields: &FieldList,
    grants: &Grants,
    actor: &Actor,
) -> Result<Vec<GrantRow>, AllocError>
    requires { AreOf fields.now actor.now }
    ensures { IfOk result (λ found. found.items ≡ filter (is_listed fields.now) grants.now) }
{
    match grants.of_actor(actor) {
        Some(own) => passing(alloc, own, &ByFilters { fields }),
        None => Ok(Vec::new(alloc)),
    }
}

/// Those of the grants at a target that the filters list.
fn listed_at(
    alloc: Global,
    fields: &FieldList,
    grants: &Grants,
    target: &Target,
) -> Result<Vec<GrantRow>, AllocError>
    requires { AreAt fields.now target.now }
    ensures { IfOk result (λ found. found.items ≡ filter (is_listed fields.now) grants.now) }
{
    let mut found = seen(alloc, grants.at_target(target))?;
    keep_listed(fields, &mut found);
    Ok(found)
}

/// Those of all grants that the filters list. Each is looked at.
fn listed_in_all(
    alloc: Global,
    fields: &FieldList,
    grants: &Grants,
) -> Result<Vec<GrantRow>, AllocError>
    ensures { IfOk result (λ found. found.items ≡ filter (is_listed fields.now) grants.now) }
{
    grants
        .iter()
        .filter(|grant| is_listed(fields, grant))
        .copied()
        .collect(alloc)
}

/// Those of all grants that the filters list.
fn found_listed(
    alloc: Global,
    fields: &FieldList,
    grants: &Grants,
) -> Result<Vec<GrantRow>, AllocError>
    ensures { IfOk result (λ found. found.items ≡ filter (is_listed fields.now) grants.now) }
{
    if let Some(actor) = actor_asked(fields) {
        return listed_of(alloc, fields, grants, &actor);
    }
    match target_asked(fields) {
        Some(target) => listed_at(alloc, fields, grants, &target),
        None => listed_in_all(alloc, fields, grants),
    }
}

/// Those of all grants that the filters list.
pub(crate) fn grants_listed(
    alloc: Global,
    fields: &FieldList,
    grants: &Grants,
) -> Result<GrantList, Memory>
    ensures { IfOk result (λ found. found ≡ filter (is_listed fields.now) grants.now) }
{
    Ok(GrantList::from_vec(found_listed(alloc, fields, grants)?))
}
