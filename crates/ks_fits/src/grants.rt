//! Grants that are made and taken back.
ghost use Rattle.std.specs.Prelude.{◌↔◌, IsTrue};
ghost use Rattle.ks_auth.specs.Answers.{rows_told};
ghost use Rattle.ks_fits.specs.Told.{SaysFit};
ghost use Rattle.ks_machine.specs.declared.change.Change.TheVariants as changed;
ghost use Rattle.ks_machine.specs.Fit.{IsGrant};
ghost use Rattle.ks_machine.specs.Lawful.{ActorStands, GrantStands, TargetStands};

use ks_auth::Tables;
use ks_base::{Actor, GrantRow, Target};

fn actor_stands(tables: &Tables, actor: &Actor) -> bool
    ensures { IsTrue result ↔ ActorStands (rows_told tables.now) actor.now }
{
    match actor {
        Actor::User(id) => tables.people.user(id).is_some(),
        Actor::Group(id) => tables.people.group(id).is_some(),
    }
}

fn target_stands(tables: &Tables, target: &Target) -> bool
    ensures { IsTrue result ↔ TargetStands (rows_told tables.now) target.now }
{
    match target {
        Target::Project(id) => tables.tree.project(id).is_some(),
        Target::Domain(id) => tables.tree.domain(id).is_some(),
        Target::System => true,
    }
}

/// Nothing lies below the system that could inherit a grant there.
fn is_grant(row: &GrantRow) -> bool
    ensures { IsTrue result ↔ IsGrant row.now }
{
    match row.target {
        Target::Project(_) | Target::Domain(_) => true,
        Target::System => !row.inherited,
    }
}

/// Whether all that the grant names stands.
fn grant_stands(tables: &Tables, row: &GrantRow) -> bool
    ensures { IsTrue result ↔ GrantStands (rows_told tables.now) row.now }
{
    is_grant(row)
        && target_stands(tables, &row.target)
        && actor_stands(tables, &row.actor)
        && tables.roles.role(&row.role).is_some()
}

/// Whether the role may be granted.
#[tactic(auto, unfolding(ks_machine::specs::Lawful::Fits))]
pub fn may_grant(tables: &Tables, row: &GrantRow) -> bool
    ensures { SaysFit tables.now result (changed.Grant row.now) }
{
    grant_stands(tables, row) && tables.grants.may_grant(row).is_ok()
}

/// Whether the grant may be taken back.
#[tactic(auto, unfolding(ks_machine::specs::Lawful::Fits))]
pub fn may_ungrant(tables: &Tables, row: &GrantRow) -> bool
    ensures { SaysFit tables.now result (changed.Ungrant row.now) }
{
    grant_stands(tables, row) && tables.grants.may_ungrant(row).is_ok()
}
