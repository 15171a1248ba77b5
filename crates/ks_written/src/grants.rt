ghost use Rattle.std.specs.Prelude.{codes};
ghost use Rattle.ks_shape.specs.Places.{names, names_in, place_of};
ghost use Rattle.ks_shape.specs.Readings.{Reads};
ghost use Rattle.ks_written.specs.Written.{absent, actor_in, grant_in, inherited_at, target_in};

use crate::entries::Entry;
use ks_base::{Actor, GrantRow, ShapeRefusal, Target};
use ks_shape::{Affirmation, Falsehood, IdText, Misfit, Node, Truth};
use std::alloc::Global;

/// Refuses what stands beside the field that is given.
#[tactic(auto, using(ks_shape::proofs::RefusalLemmas::refused), unfolding(crate::specs::Written::absent, ks_shape::specs::Fields::optional))]
pub(crate) fn absent(entry: &Node, names: &[&str]) -> Result<(), ShapeRefusal>
    ensures { Reads result (absent (names_in names.now) (place_of entry.now)) }
{
    match entry.optional_value(names)? {
        Some(_) => entry.refuse(names, Misfit::Range),
        None => Ok(()),
    }
}

/// The user or the group that has the role.
#[tactic(auto, unfolding(crate::specs::Written::actor_in))]
fn actor(entry: &Node) -> Result<Actor, ShapeRefusal>
    ensures { Reads result (actor_in (place_of entry.now)) }
{
    if let Some(id) = entry.optional(&["user"], &IdText)? {
        absent(entry, &["group"])?;
        return Ok(Actor::User(id));
    }
    if let Some(id) = entry.optional(&["group"], &IdText)? {
        return Ok(Actor::Group(id));
    }
    let id = entry.needed(&["user"], &IdText)?;
    Ok(Actor::User(id))
}

/// The project, the domain or the system on which it has the role.
#[tactic(auto, unfolding(crate::specs::Written::target_in))]
fn target(entry: &Node) -> Result<Target, ShapeRefusal>
    ensures { Reads result (target_in (place_of entry.now)) }
{
    if let Some(id) = entry.optional(&["project"], &IdText)? {
        absent(entry, &["domain"])?;
        absent(entry, &["system"])?;
        return Ok(Target::Project(id));
    }
    if let Some(id) = entry.optional(&["domain"], &IdText)? {
        absent(entry, &["system"])?;
        return Ok(Target::Domain(id));
    }
    if entry.optional(&["system"], &Affirmation)?.is_some() {
        return Ok(Target::System);
    }
    let id = entry.needed(&["project"], &IdText)?;
    Ok(Target::Project(id))
}

/// Whether the grant is inherited, where it says so.
fn inherited(entry: &Node, target: &Target) -> Result<Option<bool>, ShapeRefusal>
    ensures { Reads result (inherited_at target.now (place_of entry.now)) }
{
    match target {
        Target::Project(_) | Target::Domain(_) => entry.optional(&["inherited"], &Truth),
        Target::System => entry.optional(&["inherited"], &Falsehood),
    }
}

impl Entry for GrantRow {
    ghost reads = { grant_in };

    #[tactic(auto, unfolding(crate::specs::Written::grant_in))]
    fn read(_alloc: Global, entry: &Node) -> Result<GrantRow, ShapeRefusal> {
        let actor = actor(entry)?;
        let target = target(entry)?;
        let role = entry.needed(&["role"], &IdText)?;
        let inherited = inherited(entry, &target)?;
        Ok(GrantRow {
            actor,
            target,
            inherited: inherited.unwrap_or(false),
            role,
        })
    }
}
