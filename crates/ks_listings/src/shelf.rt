//! The tables in which rows of the five kinds are found by their ids and by their names.
ghost use Rattle.std.specs.Prelude.{◌≡◌, List, filter, map, option_copied, IfOk};
ghost use Rattle.ks_base.specs.Rows.{same};
ghost use Rattle.ks_base.specs.Tables.{id_cmp, IsAscending, find_row};

use ks_base::{DomainRow, GroupRow, Id, IdList, Memory, Named, ProjectRow, RoleRow, Text, UserRow};
use ks_index::Rows;
use ks_people::People;
use ks_roles::Roles;
use ks_tree::Tree;

/// Rows of a kind, in the order of their ids.
pub(crate) trait Shelf<R: Named> {
    ghost rows: { Self → List R };

    /// All rows, in their order.
    fn all(&self) -> Rows<'_, R>
        ensures { result ≡ rows self.now };

    /// The row with this id.
    fn of_id(&self, id: &Id) -> Option<&R>
        ensures found { option_copied result ≡ find_row id_cmp R.key id.now (rows self.now) }
        ensures ascending { IsAscending id_cmp R.key (rows self.now) };

    /// The ids of the rows of this name, in their order. No other rows are gone through.
    fn of_name(&self, name: &Text) -> Result<IdList, Memory>
        ensures { IfOk result (λ ids. ids ≡ map R.key (filter (λ row. same (R.naming row) name.now) (rows self.now))) };
}

impl Shelf<DomainRow> for Tree {
    ghost rows = { λ tree. tree.domains };

    fn all(&self) -> Rows<'_, DomainRow> {
        self.domains()
    }

    fn of_id(&self, id: &Id) -> Option<&DomainRow> {
        self.domain(id)
    }

    fn of_name(&self, name: &Text) -> Result<IdList, Memory> {
        self.domains_named(name)
    }
}

impl Shelf<ProjectRow> for Tree {
    ghost rows = { λ tree. tree.projects };

    fn all(&self) -> Rows<'_, ProjectRow> {
        self.projects()
    }

    fn of_id(&self, id: &Id) -> Option<&ProjectRow> {
        self.project(id)
    }

    fn of_name(&self, name: &Text) -> Result<IdList, Memory> {
        self.projects_named(name)
    }
}

impl Shelf<UserRow> for People {
    ghost rows = { λ people. people.users };

    fn all(&self) -> Rows<'_, UserRow> {
        self.users()
    }

    fn of_id(&self, id: &Id) -> Option<&UserRow> {
        self.user(id)
    }

    fn of_name(&self, name: &Text) -> Result<IdList, Memory> {
        self.users_named(name)
    }
}

impl Shelf<GroupRow> for People {
    ghost rows = { λ people. people.groups };

    fn all(&self) -> Rows<'_, GroupRow> {
        self.groups()
    }

    fn of_id(&self, id: &Id) -> Option<&GroupRow> {
        self.group(id)
    }

    fn of_name(&self, name: &Text) -> Result<IdList, Memory> {
        self.groups_named(name)
    }
}

impl Shelf<RoleRow> for Roles {
    ghost rows = { λ all. all.roles };

    fn all(&self) -> Rows<'_, RoleRow> {
        self.roles()
    }

    fn of_id(&self, id: &Id) -> Option<&RoleRow> {
        self.role(id)
    }

    fn of_name(&self, name: &Text) -> Result<IdList, Memory> {
        self.roles_named(name)
    }
}
