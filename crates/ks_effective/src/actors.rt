ghost use Rattle.std.specs.Prelude.{◌≡◌, ◌↔◌, IfOk};
ghost use Rattle.ks_base.specs.declared.grants.Actor.{Actor};
ghost use Rattle.ks_base.specs.Roles.{Acts};
ghost use Rattle.ks_base.specs.Tables.{Among};
ghost use Rattle.ks_effective.specs.Actors.{actors_in};

use ks_base::{Id, IdList, Memory};
use ks_people::People;
use std::marker::Model;

/// The actors whose grants act for a user: the user and the groups that the user is in.
#[derive(Drop)]
pub struct Actors {
    user: Id,
    groups: IdList,
}

impl Model for Actors {
    ghost use Rattle.ks_effective.specs.Actors.{ActorsOf};

    ghost Value = { ActorsOf };

    ghost view = { λ actors. record { user = actors.user; groups = actors.groups } };
}

impl Actors {
    /// The actors that act for this user.
    pub fn of(people: &People, user: &Id) -> Result<Actors, Memory>
        ensures { IfOk result (λ actors. (actor : Actor) → Among (actors_in actors) actor ↔ Acts people.now.members user.now actor) }
    {
        Ok(Actors {
            user: *user,
            groups: people.groups_of(user)?,
        })
    }

    /// The user.
    pub fn user(&self) -> &Id
        ensures { result.now ≡ self.now.user }
    {
        &self.user
    }

    /// The groups that the user is in.
    pub fn groups(&self) -> &[Id]
        ensures { result.now ≡ self.now.groups }
    {
        self.groups.as_slice()
    }
}
