ghost use Rattle.std.specs.Prelude.{◌≡◌, [], filter, IfOk};

use ks_base::{ByUser, GroupRow, MemberRow, Memory, Test, UserRow};
use ks_index::{Rows, Table};
use ks_links::{Links, RunRows, RunSet};
use std::alloc::Global;
use std::marker::Model;

/// Users, groups, and which users are in which groups.
pub struct People {
    pub(crate) alloc: Global,
    pub(crate) users: Table<UserRow>,
    pub(crate) groups: Table<GroupRow>,
    pub(crate) members: Links<MemberRow, ByUser>,
}

impl Drop for People {
    fn drop(self) {
        let People {
            alloc: _,
            users: _,
            groups: _,
            members: _,
        } = self;
    }
}

impl Model for People {
    ghost use Rattle.ks_base.specs.People.{PeopleState};

    ghost Value = { PeopleState };

    ghost view = { λ people. record { users = people.users; groups = people.groups; members = people.members } };
}

impl People {
    /// A state without users and groups, which takes no memory yet.
    pub fn new(alloc: Global) -> People
        ensures { result ≡ record { users = []; groups = []; members = [] } }
    {
        People {
            alloc,
            users: Table::new(alloc),
            groups: Table::new(alloc),
            members: Links::new(alloc),
        }
    }

    /// The state of these users, groups and memberships, which are put into their order by user too.
    pub fn from_tables(
        alloc: Global,
        users: Table<UserRow>,
        groups: Table<GroupRow>,
        members: RunSet<MemberRow>,
    ) -> Result<People, Memory>
        ensures { IfOk result (λ people. people ≡ record { users = users; groups = groups; members = members }) }
    {
        Ok(People {
            alloc,
            users,
            groups,
            members: Links::from_rows(alloc, members)?,
        })
    }

    /// All users, in the order of their ids.
    pub fn users(&self) -> Rows<'_, UserRow>
        ensures { result ≡ self.now.users }
    {
        self.users.rows()
    }

    /// All groups, in the order of their ids.
    pub fn groups(&self) -> Rows<'_, GroupRow>
        ensures { result ≡ self.now.groups }
    {
        self.groups.rows()
    }

    /// All memberships, by group and then by user.
    pub fn members(&self) -> RunRows<'_, MemberRow>
        ensures { result ≡ self.now.members }
    {
        self.members.rows()
    }

    /// Keeps the users that pass; memberships stay as they are. It takes no memory.
    pub fn keep_users<T: Test<UserRow>>(&mut self, test: &T)
        ensures { self.new ≡ record self.old { users = filter (T.test test.now) self.old.users } }
    {
        self.users.keep(test);
    }

    /// Keeps the groups that pass; memberships stay as they are. It takes no memory.
    pub fn keep_groups<T: Test<GroupRow>>(&mut self, test: &T)
        ensures { self.new ≡ record self.old { groups = filter (T.test test.now) self.old.groups } }
    {
        self.groups.keep(test);
    }

    /// Keeps the memberships that pass. It takes no memory.
    pub fn keep_members<T: Test<MemberRow>>(&mut self, test: &T)
        ensures { self.new ≡ record self.old { members = filter (T.test test.now) self.old.members } }
    {
        self.members.keep(test);
    }
}
