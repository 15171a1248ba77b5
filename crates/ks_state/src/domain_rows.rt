//! What goes with a domain.
ghost use Rattle.std.specs.Prelude.{◌≡◌, ◌∷◌, ◌++◌, ◌||◌, ◌&&◌, not, map, IfOk};
ghost use Rattle.ks_base.specs.declared.events.Revoke.{Revoke};
ghost use Rattle.ks_base.specs.People.{group_ids, is_group_in, is_user_in, users_of};
ghost use Rattle.ks_base.specs.Trees.{projects_of};
ghost use Rattle.ks_base.specs.Rows.{has_id};
ghost use Rattle.ks_state.specs.DomainRows.{AreOf};
ghost use Rattle.ks_machine.specs.Changes.{is_actor_gone, is_left, is_target_gone};

use crate::ended::{Ends, end_each, one};
use crate::ids::IdSet;
use crate::trusts_gone::Touches;
use ks_base::{
    Actor, AppCredRow, GrantRow, GroupRow, Id, IdList, ListOf, MemberRow, Memory, Revoke, Target,
    Test, TrustRow, UserRow,
};
use ks_people::People;
use ks_tree::Tree;
use ks_trust::Trusts;
use std::alloc::Global;

/// A domain, and its projects, users and groups.
pub(crate) struct DomainRows {
    pub(crate) domain: Id,
    pub(crate) projects: IdSet,
    pub(crate) users: IdSet,
    pub(crate) groups: IdSet,
}

impl Drop for DomainRows {
    fn drop(self) {
        let DomainRows {
            domain: _,
            projects: _,
            users: _,
            groups: _,
        } = self;
    }
}

impl DomainRows {
    /// Those of this domain.
    pub(crate) fn of(tree: &Tree, people: &People, domain: &Id) -> Result<DomainRows, Memory>
        ensures domain { IfOk result (λ rows. rows.domain ≡ domain.now) }
        ensures rows { IfOk result (λ rows. AreOf rows tree.now people.now) }
    {
        Ok(DomainRows {
            domain: *domain,
            projects: projects_of(tree, domain)?,
            users: users_of(people, domain)?,
            groups: groups_of(people, domain)?,
        })
    }

    /// The ends of the domain, and of its projects and users.
    pub(crate) fn ended(&self, alloc: Global) -> Result<ListOf<Revoke>, Memory>
        ensures { IfOk result (λ things. things ≡ Revoke.Domain self.now.domain ∷ (map Revoke.Project self.now.projects ++ map Revoke.User self.now.users)) }
    {
        let mut things = one(alloc, Revoke::Domain(self.domain))?;
        end_each(&mut things, Ends::Project, self.projects.as_slice())?;
        end_each(&mut things, Ends::User, self.users.as_slice())?;
        Ok(things)
    }

    fn has_actor(&self, actor: &Actor) -> bool
        ensures { result ≡ is_actor_gone (has_id self.now.users) (has_id self.now.groups) actor.now }
    {
        match actor {
            Actor::User(id) => self.users.has(id),
            Actor::Group(id) => self.groups.has(id),
        }
    }

    fn has_target(&self, target: &Target) -> bool
        ensures { result ≡ is_target_gone (has_id self.now.projects) self.now.domain target.now }
    {
        match target {
            Target::Project(id) => self.projects.has(id),
            Target::Domain(id) => self.domain == *id,
            Target::System => false,
        }
    }
}

#[tactic(auto, using(ks_base::proofs::TableLemmas::some_ids_ascend))]
fn projects_of(tree: &Tree, domain: &Id) -> Result<IdSet, Memory>
    ensures { IfOk result (λ ids. ids ≡ projects_of domain.now tree.now) }
{
    let _in_order = tree.project(domain);
    Ok(IdSet::of(tree.projects_of(domain)?))
}

#[tactic(auto, using(ks_base::proofs::TableLemmas::some_ids_ascend))]
fn users_of(people: &People, domain: &Id) -> Result<IdSet, Memory>
    ensures { IfOk result (λ ids. ids ≡ users_of domain.now people.now) }
{
    let _in_order = people.user(domain);
    Ok(IdSet::of(people.users_of(domain)?))
}

#[tactic(auto, using(ks_base::proofs::TableLemmas::some_ids_ascend))]
fn groups_of(people: &People, domain: &Id) -> Result<IdSet, Memory>
    ensures { IfOk result (λ ids. ids ≡ group_ids domain.now people.now) }
{
    let _in_order = people.group(domain);
    Ok(IdSet::of(people.group_ids(domain)?))
}

/// The trusts that are touched.
impl Test<TrustRow> for DomainRows {
    ghost test = { λ gone trust. has_id gone.users trust.trustor || (has_id gone.users trust.trustee || has_id gone.projects trust.project) };

    fn test(&self, trust: &TrustRow) -> bool {
        self.users.has(&trust.trustor)
            || (self.users.has(&trust.trustee) || self.projects.has(&trust.project))
    }
}

impl Touches for DomainRows {
    ghost touches = { λ gone trust. has_id gone.users trust.trustor || (has_id gone.users trust.trustee || has_id gone.projects trust.project) };

    fn ids(&self, trusts: &Trusts) -> Result<IdList, Memory> {
        trusts.ids_where(self)
    }
}

/// The grants that are left.
impl Test<GrantRow> for DomainRows {
    ghost test = { λ gone row. not (is_actor_gone (has_id gone.users) (has_id gone.groups) row.actor) && not (is_target_gone (has_id gone.projects) gone.domain row.target) };

    fn test(&self, row: &GrantRow) -> bool {
        !self.has_actor(&row.actor) && !self.has_target(&row.target)
    }
}

/// The memberships that are left.
impl Test<MemberRow> for DomainRows {
    ghost test = { λ gone row. is_left (has_id gone.users) (has_id gone.groups) row };

    fn test(&self, row: &MemberRow) -> bool {
        !self.users.has(&row.user) && !self.groups.has(&row.group)
    }
}

/// The users that are left.
impl Test<UserRow> for DomainRows {
    ghost test = { λ gone row. not (is_user_in gone.domain row) };

    fn test(&self, row: &UserRow) -> bool {
        row.domain != self.domain
    }
}

/// The groups that are left.
impl Test<GroupRow> for DomainRows {
    ghost test = { λ gone row. not (is_group_in gone.domain row) };

    fn test(&self, row: &GroupRow) -> bool {
        row.domain != self.domain
    }
}

/// The application credentials that are left.
impl Test<AppCredRow> for DomainRows {
    ghost test = { λ gone row. not (has_id gone.users row.user) && not (has_id gone.projects row.project) };

    fn test(&self, row: &AppCredRow) -> bool {
        !self.users.has(&row.user) && !self.projects.has(&row.project)
    }
}

/// Users that are not of these.
#[derive(Drop)]
pub(crate) struct OtherUsers<'a> {
    pub(crate) users: &'a IdSet,
}

impl Test<Id> for OtherUsers<'_> {
    ghost test = { λ others user. not (has_id others.users.now user) };

    fn test(&self, user: &Id) -> bool {
        !self.users.has(user)
    }
}
