//! Grants: to whom, where, and of which role.
ghost use Rattle.ks_spelling.specs.Rows.{actor_code, target_code, grant_code};

use crate::{Cursor, Spelled, Unread, write_at, write_place};
use ks_base::{Actor, GrantRow, Id, Memory, Target};
use std::alloc::Global;

impl Spelled for Actor {
    ghost code = { actor_code };

    #[tactic(auto, unfolding(crate::specs::Rows::actor_code))]
    fn write_to(&self, into: &mut Vec<u8>) -> Result<(), Memory> {
        match self {
            Actor::User(held) => write_at(0, held, into),
            Actor::Group(held) => write_at(1, held, into),
        }
    }

    #[tactic(auto, unfolding(crate::specs::Rows::actor_code))]
    fn read_from(alloc: Global, from: &mut Cursor<'_>) -> Result<Actor, Unread> {
        match u8::read_from(alloc, from)? {
            0 => Ok(Actor::User(Id::read_from(alloc, from)?)),
            1 => Ok(Actor::Group(Id::read_from(alloc, from)?)),
            _ => Err(Unread::NoSpelling),
        }
    }
}

impl Spelled for Target {
    ghost code = { target_code };

    #[tactic(auto, unfolding(crate::specs::Rows::target_code))]
    fn write_to(&self, into: &mut Vec<u8>) -> Result<(), Memory> {
        match self {
            Target::Project(held) => write_at(0, held, into),
            Target::Domain(held) => write_at(1, held, into),
            Target::System => write_place(2, into),
        }
    }

    #[tactic(auto, unfolding(crate::specs::Rows::target_code))]
    fn read_from(alloc: Global, from: &mut Cursor<'_>) -> Result<Target, Unread> {
        match u8::read_from(alloc, from)? {
            0 => Ok(Target::Project(Id::read_from(alloc, from)?)),
            1 => Ok(Target::Domain(Id::read_from(alloc, from)?)),
            2 => Ok(Target::System),
            _ => Err(Unread::NoSpelling),
        }
    }
}

impl Spelled for GrantRow {
    ghost code = { grant_code };

    #[tactic(auto, unfolding(crate::specs::Rows::grant_code))]
    fn write_to(&self, into: &mut Vec<u8>) -> Result<(), Memory> {
        self.actor.write_to(into)?;
        self.target.write_to(into)?;
        self.inherited.write_to(into)?;
        self.role.write_to(into)
    }

    #[tactic(auto, unfolding(crate::specs::Rows::grant_code))]
    fn read_from(alloc: Global, from: &mut Cursor<'_>) -> Result<GrantRow, Unread> {
        let actor = Actor::read_from(alloc, from)?;
        let target = Target::read_from(alloc, from)?;
        let inherited = bool::read_from(alloc, from)?;
        let role = Id::read_from(alloc, from)?;
        Ok(GrantRow {
            actor,
            target,
            inherited,
            role,
        })
    }
}
