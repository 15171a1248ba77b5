//! Rows that come, or stand in the place of those with their ids.
ghost use Rattle.std.specs.Prelude.{◌≡◌, OnOk, OnErr, IsSome, IsSomeAnd};
ghost use Rattle.ks_base.specs.People.{with_group, with_user};
ghost use Rattle.ks_base.specs.Rows.{group_of, project_of};
ghost use Rattle.ks_base.specs.RoleLists.{with_role};
ghost use Rattle.ks_base.specs.Trees.{with_domain, with_project};
ghost use Rattle.ks_machine.specs.declared.change.Change.{Change};
ghost use Rattle.ks_state.specs.Shown.{FitsWithRoom, KeepsHome, Makes};

use crate::Identity;
use crate::ended::{domain_ended, project_ended, user_ended};
use crate::unmade::Unmade;
use ks_base::{DomainRow, GroupRow, Memory, ProjectRow, RoleRow, TrustRow, UserRow};
use ks_machine::Change;
use ks_people::People;
use ks_roles::Roles;
use ks_tree::Tree;

impl Identity {
    #[tactic(auto, unfolding(ks_machine::specs::Changes::apply, ks_machine::specs::Changes::effect))]
    pub(crate) fn put_domain(&mut self, row: DomainRow, most: usize) -> Result<(), Unmade>
        ensures { Makes most self.old (Change.PutDomain row) result self.new }
    {
        let things = domain_ended(self.alloc, self.tree.domain(&row.id), &row)?;
        let standing = row.copy()?;
        self.log.ready(most, things.as_slice().len())?;
        put_domain(&mut self.tree, standing)?;
        self.log.write(things.as_slice(), Change::PutDomain(row));
        Ok(())
    }

    #[tactic(auto, unfolding(ks_machine::specs::Lawful::Fits, ks_machine::specs::Changes::apply, ks_machine::specs::Changes::effect))]
    pub(crate) fn put_project(&mut self, row: ProjectRow, most: usize) -> Result<(), Unmade>
        requires { FitsWithRoom most self.old (Change.PutProject row) }
        ensures { Makes most self.old (Change.PutProject row) result self.new }
    {
        let things = project_ended(self.alloc, self.tree.project(&row.id), &row)?;
        let standing = row.copy()?;
        self.log.ready(most, things.as_slice().len())?;
        put_project(&mut self.tree, standing)?;
        self.log.write(things.as_slice(), Change::PutProject(row));
        Ok(())
    }

    #[tactic(auto, unfolding(ks_machine::specs::Changes::apply, ks_machine::specs::Changes::effect))]
    pub(crate) fn put_user(&mut self, row: UserRow, most: usize) -> Result<(), Unmade>
        ensures { Makes most self.old (Change.PutUser row) result self.new }
    {
        let things = user_ended(self.alloc, self.people.user(&row.id), &row)?;
        let standing = row.copy()?;
        self.log.ready(most, things.as_slice().len())?;
        put_user(&mut self.people, standing)?;
        self.log.write(things.as_slice(), Change::PutUser(row));
        Ok(())
    }

    #[tactic(auto, unfolding(ks_machine::specs::Changes::apply, ks_machine::specs::Changes::effect))]
    pub(crate) fn put_group(&mut self, row: GroupRow, most: usize) -> Result<(), Unmade>
        ensures { Makes most self.old (Change.PutGroup row) result self.new }
    {
        let standing = row.copy()?;
        self.log.ready(most, 0)?;
        put_group(&mut self.people, standing)?;
        self.log.write(&[], Change::PutGroup(row));
        Ok(())
    }

    #[tactic(auto, unfolding(ks_machine::specs::Changes::apply, ks_machine::specs::Changes::effect))]
    pub(crate) fn put_role(&mut self, row: RoleRow, most: usize) -> Result<(), Unmade>
        ensures { Makes most self.old (Change.PutRole row) result self.new }
    {
        let standing = row.copy()?;
        self.log.ready(most, 0)?;
        put_role(&mut self.roles, standing)?;
        self.log.write(&[], Change::PutRole(row));
        Ok(())
    }

    /// A trust comes. That its first trustor has its roles was seen when it was planned.
    #[tactic(auto, unfolding(ks_machine::specs::Lawful::Fits, ks_machine::specs::Changes::apply, ks_machine::specs::Changes::effect))]
    pub(crate) fn put_trust(&mut self, row: TrustRow, most: usize) -> Result<(), Unmade>
        requires { FitsWithRoom most self.old (Change.PutTrust row) }
        ensures { Makes most self.old (Change.PutTrust row) result self.new }
    {
        let held = row.roles.copy()?;
        let standing = row.copy()?;
        self.log.ready(most, 0)?;
        let moment = self.log.high();
        match self.trusts.create(standing, &held, moment) {
            Ok(()) => {}
            Err(_) => return Err(Unmade::Memory),
        }
        self.log.write(&[], Change::PutTrust(row));
        Ok(())
    }
}

fn put_domain(tree: &mut Tree, row: DomainRow) -> Result<(), Memory>
    ensures ok { OnOk result (tree.new ≡ with_domain row tree.old) }
    ensures err { OnErr result (tree.new ≡ tree.old) }
{
    if tree.domain(&row.id).is_some() {
        return match tree.set_domain(row) {
            Ok(()) => Ok(()),
            Err(_) => Err(Memory),
        };
    }
    match tree.add_domain(row) {
        Ok(()) => Ok(()),
        Err(_) => Err(Memory),
    }
}

fn put_project(tree: &mut Tree, row: ProjectRow) -> Result<(), Memory>
    requires { KeepsHome row (project_of row.id tree.old.projects) }
    ensures ok { OnOk result (tree.new ≡ with_project row tree.old) }
    ensures err { OnErr result (tree.new ≡ tree.old) }
{
    if tree.project(&row.id).is_some() {
        return match tree.set_project(row) {
            Ok(()) => Ok(()),
            Err(_) => Err(Memory),
        };
    }
    match tree.add_project(row) {
        Ok(()) => Ok(()),
        Err(_) => Err(Memory),
    }
}

/// Puts a user, new or in the place of the one with its id.
pub(crate) fn put_user(people: &mut People, row: UserRow) -> Result<(), Memory>
    ensures ok { OnOk result (people.new ≡ with_user row people.old) }
    ensures err { OnErr result (people.new ≡ people.old) }
{
    if people.user(&row.id).is_some() {
        return match people.set_user(row) {
            Ok(()) => Ok(()),
            Err(_) => Err(Memory),
        };
    }
    match people.add_user(row) {
        Ok(()) => Ok(()),
        Err(_) => Err(Memory),
    }
}

fn put_group(people: &mut People, row: GroupRow) -> Result<(), Memory>
    ensures ok { OnOk result (people.new ≡ with_group row people.old) }
    ensures err { OnErr result (people.new ≡ people.old) }
{
    if people.group(&row.id).is_some() {
        return match people.set_group(row) {
            Ok(()) => Ok(()),
            Err(_) => Err(Memory),
        };
    }
    match people.add_group(row) {
        Ok(()) => Ok(()),
        Err(_) => Err(Memory),
    }
}

fn put_role(roles: &mut Roles, row: RoleRow) -> Result<(), Memory>
    ensures ok { OnOk result (roles.new ≡ with_role row roles.old) }
    ensures err { OnErr result (roles.new ≡ roles.old) }
{
    if roles.role(&row.id).is_some() {
        return match roles.set(row) {
            Ok(()) => Ok(()),
            Err(_) => Err(Memory),
        };
    }
    match roles.add(row) {
        Ok(()) => Ok(()),
        Err(_) => Err(Memory),
    }
}
