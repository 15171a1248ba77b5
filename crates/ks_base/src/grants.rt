ghost use Rattle.std.specs.Prelude.{◌≡◌};
ghost use Rattle.std.specs.Option.{option_copied};
ghost use Rattle.ks_base.specs.Grants.{is_at_target, is_of_actor};
ghost use Rattle.ks_base.specs.Orders.{actor_rank, actor_id, actor_cmp, target_rank, target_id, target_cmp};

use crate::{Id, InRuns, Memory, Near, OfRun, Ordered, TryCopy};
use std::cmp::Ordering;

/// Whom a role is granted to.
#[derive(Clone, Copy)]
pub enum Actor {
    User(Id),
    Group(Id),
}

/// Where a role is granted.
#[derive(Clone, Copy, PartialEq, Eq)]
pub enum Target {
    Project(Id),
    Domain(Id),
    /// The whole system, and no project or domain of it.
    System,
}

/// That an actor has a role at a target; `inherited`: at all projects below the target instead.
#[derive(Clone, Copy)]
pub struct GrantRow {
    pub actor: Actor,
    pub target: Target,
    pub inherited: bool,
    pub role: Id,
}

/// Where grants stand side by side that differ in their role alone.
#[derive(Clone, Copy)]
pub struct GrantSite {
    pub actor: Actor,
    pub target: Target,
    pub inherited: bool,
}

/// That who has the role `prior` has `implied` too.
#[derive(Clone, Copy)]
pub struct ImplyRow {
    pub prior: Id,
    pub implied: Id,
}

impl Actor {
    /// The id of the user or group.
    pub fn id(&self) -> &Id
        ensures { result.now ≡ actor_id self.now }
    {
        match self {
            Actor::User(id) => id,
            Actor::Group(id) => id,
        }
    }

    fn rank(&self) -> u8
        ensures { result ≡ actor_rank self.now }
    {
        match self {
            Actor::User(_) => 0,
            Actor::Group(_) => 1,
        }
    }

    /// Users come before groups, and each by their ids.
    pub fn compare(&self, other: &Actor) -> Ordering
        ensures { result ≡ actor_cmp self.now other.now }
    {
        self.rank()
            .cmp(&other.rank())
            .then(self.id().cmp(other.id()))
    }
}

impl Target {
    /// The id of the project or domain; the system has none.
    pub fn id(&self) -> Option<&Id>
        ensures { option_copied result ≡ target_id self.now }
    {
        match self {
            Target::Project(id) => Some(id),
            Target::Domain(id) => Some(id),
            Target::System => None,
        }
    }

    fn rank(&self) -> u8
        ensures { result ≡ target_rank self.now }
    {
        match self {
            Target::System => 0,
            Target::Domain(_) => 1,
            Target::Project(_) => 2,
        }
    }

    /// The system comes before domains, and these before projects, each by their ids.
    pub fn compare(&self, other: &Target) -> Ordering
        ensures { result ≡ target_cmp self.now other.now }
    {
        match (self, other) {
            (Target::Project(id), Target::Project(other_id)) => id.cmp(other_id),
            (Target::Domain(id), Target::Domain(other_id)) => id.cmp(other_id),
            (_, _) => self.rank().cmp(&other.rank()),
        }
    }
}

impl GrantRow {
    /// Whether this actor has the grant.
    pub fn is_of(&self, who: &Actor) -> bool
        ensures { result ≡ is_of_actor who.now self.now }
    {
        match (&self.actor, who) {
            (Actor::User(id), Actor::User(wanted)) => id == wanted,
            (Actor::Group(id), Actor::Group(wanted)) => id == wanted,
            (Actor::User(_), Actor::Group(_)) | (Actor::Group(_), Actor::User(_)) => false,
        }
    }

    /// Whether it is granted at this target.
    pub fn is_at(&self, place: &Target) -> bool
        ensures { result ≡ is_at_target place.now self.now }
    {
        match (&self.target, place) {
            (Target::Project(id), Target::Project(wanted)) => id == wanted,
            (Target::Domain(id), Target::Domain(wanted)) => id == wanted,
            (Target::System, Target::System) => true,
            (_, _) => false,
        }
    }
}

impl Ordered for GrantRow {
    ghost use Rattle.ks_base.specs.Orders.{grant_cmp};
    ghost use Rattle.ks_base.specs.OrderLaws.{grant_total, grant_exact};

    ghost cmp = { grant_cmp };

    ghost total = { grant_total };

    ghost exact = { grant_exact };

    fn compare(&self, other: &GrantRow) -> Ordering {
        self.actor
            .compare(&other.actor)
            .then(self.target.compare(&other.target))
            .then(self.inherited.cmp(&other.inherited))
            .then(self.role.cmp(&other.role))
    }
}

impl InRuns for GrantRow {
    ghost use Rattle.ks_base.specs.Orders.{actor_cmp};
    ghost use Rattle.ks_base.specs.OrderLaws.{of_actors_total, actor_first};

    ghost runs = { λ a b. actor_cmp a.actor b.actor };

    ghost runs_total = { of_actors_total };

    ghost runs_first = { actor_first };

    fn compare_runs(&self, other: &GrantRow) -> Ordering {
        self.actor.compare(&other.actor)
    }
}

impl Near<GrantRow> for Actor {
    ghost use Rattle.ks_base.specs.Orders.{actor_cmp};
    ghost use Rattle.ks_base.specs.OrderLaws.{actor_run};

    ghost side = { λ actor row. actor_cmp row.actor actor };

    ghost run = { actor_run };

    fn side(&self, row: &GrantRow) -> Ordering {
        row.actor.compare(self)
    }
}

impl OfRun<GrantRow> for Actor {
    ghost use Rattle.ks_base.specs.OrderLaws.{actor_whole, actor_alone};

    ghost whole = { actor_whole };

    ghost alone = { actor_alone };
}

impl Near<GrantRow> for GrantSite {
    ghost use Rattle.ks_base.specs.Orders.{site_of, site_cmp};
    ghost use Rattle.ks_base.specs.OrderLaws.{site_run};

    ghost side = { λ site row. site_cmp (site_of row) site };

    ghost run = { site_run };

    fn side(&self, row: &GrantRow) -> Ordering {
        row.actor
            .compare(&self.actor)
            .then(row.target.compare(&self.target))
            .then(row.inherited.cmp(&self.inherited))
    }
}

impl Ordered for ImplyRow {
    ghost use Rattle.ks_base.specs.Orders.{imply_cmp};
    ghost use Rattle.ks_base.specs.OrderLaws.{imply_total, imply_exact};

    ghost cmp = { imply_cmp };

    ghost total = { imply_total };

    ghost exact = { imply_exact };

    fn compare(&self, other: &ImplyRow) -> Ordering {
        self.prior
            .cmp(&other.prior)
            .then(self.implied.cmp(&other.implied))
    }
}

impl TryCopy for Actor {
    fn copy(&self) -> Result<Actor, Memory> {
        Ok(*self)
    }
}

impl TryCopy for Target {
    fn copy(&self) -> Result<Target, Memory> {
        Ok(*self)
    }
}

impl TryCopy for GrantRow {
    fn copy(&self) -> Result<GrantRow, Memory> {
        Ok(*self)
    }
}

impl TryCopy for ImplyRow {
    fn copy(&self) -> Result<ImplyRow, Memory> {
        Ok(*self)
    }
}
