ghost use Rattle.std.specs.Prelude.{◌≡◌, [], find, option_copied};
ghost use Rattle.ks_base.specs.Rows.{role_of};
ghost use Rattle.ks_base.specs.Tables.{id_cmp, IsAscending};
ghost use Rattle.ks_base.specs.RoleLists.{is_named};

use ks_base::{Boxed, Id, ImplyRow, RoleRow, RowSet, Text};
use ks_index::{Rows, Table};
use std::alloc::Global;
use std::marker::Model;

/// Roles, and which of them imply which others.
pub struct Roles {
    pub(crate) alloc: Global,
    pub(crate) roles: Table<RoleRow>,
    pub(crate) implications: RowSet<ImplyRow>,
}

impl Drop for Roles {
    fn drop(self) {
        let Roles {
            alloc: _,
            roles: _,
            implications: _,
        } = self;
    }
}

impl Model for Roles {
    ghost use Rattle.ks_base.specs.RoleLists.{RolesState};

    ghost Value = { RolesState };

    ghost view = { λ all. record { roles = all.roles; implications = all.implications } };
}

impl Roles {
    /// No roles, which take no memory yet.
    pub fn new(alloc: Global) -> Roles
        ensures { result ≡ record { roles = []; implications = [] } }
    {
        Roles {
            alloc,
            roles: Table::new(alloc),
            implications: RowSet::new(alloc),
        }
    }

    /// These roles and implications.
    pub fn from_tables(
        alloc: Global,
        roles: Table<RoleRow>,
        implications: RowSet<ImplyRow>,
    ) -> Roles
        ensures { result ≡ record { roles = roles; implications = implications } }
    {
        Roles {
            alloc,
            roles,
            implications,
        }
    }

    /// All roles, in the order of their ids.
    pub fn roles(&self) -> Rows<'_, RoleRow>
        ensures { result ≡ self.now.roles }
    {
        self.roles.rows()
    }

    /// All implications, by prior role and then by implied role.
    pub fn implications(&self) -> &[Boxed<ImplyRow>]
        ensures { result.now ≡ self.now.implications }
    {
        self.implications.rows()
    }

    /// The role with this id.
    pub fn role(&self, id: &Id) -> Option<&RoleRow>
        ensures found { option_copied result ≡ role_of id.now self.now.roles }
        ensures ascending { IsAscending id_cmp (λ row. row.id) self.now.roles }
    {
        self.roles.get(id)
    }

    /// The role with this name, compared by bytes.
    pub fn named(&self, name: &Text) -> Option<&RoleRow>
        ensures { option_copied result ≡ find (is_named name.now) self.now.roles }
    {
        self.roles.named(&[], name)
    }
}
