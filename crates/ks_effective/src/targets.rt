ghost use Rattle.std.specs.Prelude.{◌≡◌, [], filter, IfOk, OnOk};
ghost use Rattle.std.specs.List.{list_any};
ghost use Rattle.ks_base.specs.declared.grants.Actor.TheVariants as actors;
ghost use Rattle.ks_base.specs.Tables.{id_cmp, IsAscending};
ghost use Rattle.ks_effective.specs.Actors.{actors_in};
ghost use Rattle.ks_effective.specs.Targets.{targets, AreReached, is_standing, has_inherited, with_targets, with_actor, with_actors};

use crate::actors::Actors;
use ks_assign::Grants;
use ks_base::{Actor, Boxed, GrantRow, Id, Memory, Ordered, RowSet, Target};
use ks_people::People;
use ks_tree::Tree;
use std::alloc::Global;
use std::cmp::Ordering;
use std::marker::Model;

/// A target of a set.
#[derive(Drop)]
struct TargetRow {
    target: Target,
}

impl Model for TargetRow {
    ghost use Rattle.ks_base.specs.declared.grants.Target.{Target};

    ghost Value = { Target };

    ghost view = { λ place. place.target };
}

impl Ordered for TargetRow {
    ghost use Rattle.ks_base.specs.Orders.{target_cmp};
    ghost use Rattle.ks_base.specs.OrderLaws.{target_total, target_exact};

    ghost cmp = { target_cmp };

    ghost total = { target_total };

    ghost exact = { target_exact };

    fn compare(&self, other: &TargetRow) -> Ordering {
        self.target.compare(&other.target)
    }
}

/// The targets where the user may have roles, in the order of all targets: the system, then domains, then
/// projects, each by id. Where no grant that acts for the user is inherited, they are those of these grants that
/// stand, and no other target is looked at; else they are all.
pub fn targets_of(
    alloc: Global,
    tree: &Tree,
    people: &People,
    grants: &Grants,
    user: &Id,
) -> Result<Vec<Target>, Memory>
    ensures { IfOk result (λ found. AreReached tree.now people.now grants.now user.now found.items) }
{
    let actors = Actors::of(people, user)?;
    if inherit(grants, &actors) {
        return all_targets(alloc, tree);
    }
    rows_ascend(tree, user);
    let places = places_of(alloc, grants, &actors)?;
    standing(alloc, tree, places.rows())
}

/// All targets.
fn all_targets(alloc: Global, tree: &Tree) -> Result<Vec<Target>, Memory>
    ensures { IfOk result (λ all. all.items ≡ targets tree.now) }
{
    let mut all = Vec::new(alloc);
    all.push(Target::System)?;
    for domain in tree.domains() {
        all.push(Target::Domain(domain.id))?;
    }
    for project in tree.projects() {
        all.push(Target::Project(project.id))?;
    }
    Ok(all)
}

/// Whether a grant to the actor is inherited.
fn has_inherited(grants: &Grants, actor: &Actor) -> bool
    ensures { result ≡ has_inherited grants.now actor.now }
{
    match grants.of_actor(actor) {
        Some(rows) => rows.iter().any(|row| row.get().inherited),
        None => false,
    }
}

/// Whether a grant to one of the actors is inherited.
fn inherit(grants: &Grants, actors: &Actors) -> bool
    ensures { result ≡ list_any (has_inherited grants.now) (actors_in actors.now) }
{
    has_inherited(grants, &Actor::User(*actors.user())) || groups_inherit(grants, actors.groups())
}

/// Whether a grant to one of the groups is inherited.
fn groups_inherit(grants: &Grants, groups: &[Id]) -> bool
    ensures { result ≡ list_any (λ group. has_inherited grants.now (actors.Group group)) groups.now }
{
    groups
        .iter()
        .any(|group| has_inherited(grants, &Actor::Group(*group)))
}

/// The rows of a tree ascend, as each search of them says.
fn rows_ascend(tree: &Tree, id: &Id)
    ensures domains { IsAscending id_cmp (λ row. row.id) tree.now.domains }
    ensures projects { IsAscending id_cmp (λ row. row.id) tree.now.projects }
{
    let _domain = tree.domain(id);
    let _project = tree.project(id);
}

/// The targets of the grants to these actors.
#[tactic(auto, unfolding(crate::specs::Targets::with_actors))]
fn places_of(alloc: Global, grants: &Grants, actors: &Actors) -> Result<RowSet<TargetRow>, Memory>
    ensures { IfOk result (λ places. places ≡ with_actors grants.now (actors_in actors.now) []) }
{
    let mut places = RowSet::new(alloc);
    add_places(grants, &Actor::User(*actors.user()), &mut places)?;
    let groups = actors.groups();
    for group in groups {
        add_places(grants, &Actor::Group(*group), &mut places)?;
    }
    Ok(places)
}

/// Adds the targets of the grants to the actor.
fn add_places(grants: &Grants, actor: &Actor, places: &mut RowSet<TargetRow>) -> Result<(), Memory>
    ensures { OnOk result (places.new ≡ with_actor grants.now actor.now places.old) }
{
    match grants.of_actor(actor) {
        Some(rows) => add_targets(rows, places),
        None => Ok(()),
    }
}

/// Adds the targets of these grants.
#[tactic(auto, unfolding(crate::specs::Targets::with_targets))]
fn add_targets(rows: &[Boxed<GrantRow>], places: &mut RowSet<TargetRow>) -> Result<(), Memory>
    ensures { OnOk result (places.new ≡ with_targets rows.now places.old) }
{
    for row in rows {
        let _new = places.add(TargetRow {
            target: row.get().target,
        })?;
    }
    Ok(())
}

/// Those of the places that stand.
fn standing(alloc: Global, tree: &Tree, places: &[Boxed<TargetRow>]) -> Result<Vec<Target>, Memory>
    ensures { IfOk result (λ found. found.items ≡ filter (is_standing tree.now) places.now) }
{
    let mut found = Vec::new(alloc);
    for place in places {
        let target = place.get().target;
        if is_standing(tree, &target) {
            found.push(target)?;
        }
    }
    Ok(found)
}

fn is_standing(tree: &Tree, target: &Target) -> bool
    ensures { result ≡ is_standing tree.now target.now }
{
    match target {
        Target::System => true,
        Target::Domain(id) => tree.domain(id).is_some(),
        Target::Project(id) => tree.project(id).is_some(),
    }
}
