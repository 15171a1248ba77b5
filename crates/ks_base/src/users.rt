ghost use Rattle.std.specs.Prelude.{◌≡◌, IfOk};

use crate::{
    Far, Homed, Id, InRuns, Memory, Named, Near, OfRun, Ordered, Row, Side, Text, TryCopy,
};
use std::cmp::Ordering;

/// What is kept of a password: PBKDF2-HMAC-SHA-256 of it (RFC 8018, section 5.2).
#[derive(Clone, Copy)]
pub struct PasswordRow {
    pub salt: [u8; 16],
    /// The iteration count.
    pub rounds: u32,
    pub digest: [u8; 32],
}

/// A user of a domain.
#[derive(Drop)]
pub struct UserRow {
    pub id: Id,
    pub domain: Id,
    /// Unique among the users of the domain.
    pub name: Text,
    pub enabled: bool,
    /// No password opens an account that has none.
    pub password: Option<PasswordRow>,
}

/// That a user is in a group.
#[derive(Clone, Copy)]
pub struct MemberRow {
    pub group: Id,
    pub user: Id,
}

/// A membership as it is seen from its user.
#[derive(Clone, Copy)]
pub struct ByUser {
    pub row: MemberRow,
}

/// The memberships in a group.
#[derive(Clone, Copy)]
pub struct InGroup {
    pub group: Id,
}

/// The memberships of a user.
#[derive(Clone, Copy)]
pub struct OfUser {
    pub user: Id,
}

impl UserRow {
    /// An equal row.
    pub fn copy(&self) -> Result<UserRow, Memory>
        ensures { IfOk result (λ made. made ≡ self.now) }
    {
        Ok(UserRow {
            id: self.id,
            domain: self.domain,
            name: self.name.copy()?,
            enabled: self.enabled,
            password: self.password,
        })
    }
}

impl TryCopy for PasswordRow {
    fn copy(&self) -> Result<PasswordRow, Memory> {
        Ok(*self)
    }
}

impl Row for UserRow {
    ghost key = { λ row. row.id };

    fn id(&self) -> &Id {
        &self.id
    }
}

impl Named for UserRow {
    ghost naming = { λ row. row.name };

    ghost within = { λ row. row.domain };

    fn name(&self) -> &Text {
        &self.name
    }

    fn home(&self) -> &[u8] {
        self.domain.as_slice()
    }
}

impl Homed for UserRow {
    ghost home = { λ row. row.domain };

    fn domain(&self) -> &Id {
        &self.domain
    }
}

impl TryCopy for UserRow {
    fn copy(&self) -> Result<UserRow, Memory> {
        UserRow::copy(self)
    }
}

impl Ordered for MemberRow {
    ghost use Rattle.ks_base.specs.Orders.{member_cmp};
    ghost use Rattle.ks_base.specs.OrderLaws.{member_total, member_exact};

    ghost cmp = { member_cmp };

    ghost total = { member_total };

    ghost exact = { member_exact };

    fn compare(&self, other: &MemberRow) -> Ordering {
        self.group
            .cmp(&other.group)
            .then(self.user.cmp(&other.user))
    }
}

impl Ordered for ByUser {
    ghost use Rattle.ks_base.specs.Orders.{by_user_cmp};
    ghost use Rattle.ks_base.specs.OrderLaws.{by_user_total, by_user_exact};

    ghost cmp = { by_user_cmp };

    ghost total = { by_user_total };

    ghost exact = { by_user_exact };

    fn compare(&self, other: &ByUser) -> Ordering {
        self.row
            .user
            .cmp(&other.row.user)
            .then(self.row.group.cmp(&other.row.group))
    }
}

impl Side<MemberRow> for ByUser {
    ghost use Rattle.std.specs.Prelude.{refl};

    ghost seen = { λ row. record { row = row } };

    ghost row_of = { λ side. side.row };

    ghost returns = { λ row. refl };

    ghost again = { λ side. refl };

    fn of(row: &MemberRow) -> ByUser {
        ByUser { row: *row }
    }

    fn row(&self) -> &MemberRow {
        &self.row
    }
}

impl InRuns for MemberRow {
    ghost use Rattle.ks_base.specs.Tables.{id_cmp};
    ghost use Rattle.ks_base.specs.OrderLaws.{of_groups_total, group_first};

    ghost runs = { λ a b. id_cmp a.group b.group };

    ghost runs_total = { of_groups_total };

    ghost runs_first = { group_first };

    fn compare_runs(&self, other: &MemberRow) -> Ordering {
        self.group.cmp(&other.group)
    }
}

impl Near<MemberRow> for InGroup {
    ghost use Rattle.ks_base.specs.Tables.{id_cmp};
    ghost use Rattle.ks_base.specs.OrderLaws.{group_run};

    ghost side = { λ wanted row. id_cmp row.group wanted.group };

    ghost run = { λ wanted. group_run wanted.group };

    fn side(&self, row: &MemberRow) -> Ordering {
        row.group.cmp(&self.group)
    }
}

impl OfRun<MemberRow> for InGroup {
    ghost use Rattle.ks_base.specs.OrderLaws.{group_whole, group_alone};

    ghost whole = { λ near. group_whole near.group };

    ghost alone = { λ near. group_alone near.group };
}

impl InRuns for ByUser {
    ghost use Rattle.ks_base.specs.Tables.{id_cmp};
    ghost use Rattle.ks_base.specs.OrderLaws.{of_users_total, user_first};

    ghost runs = { λ a b. id_cmp a.row.user b.row.user };

    ghost runs_total = { of_users_total };

    ghost runs_first = { user_first };

    fn compare_runs(&self, other: &ByUser) -> Ordering {
        self.row.user.cmp(&other.row.user)
    }
}

impl Near<ByUser> for OfUser {
    ghost use Rattle.ks_base.specs.Tables.{id_cmp};
    ghost use Rattle.ks_base.specs.OrderLaws.{user_run};

    ghost side = { λ wanted side. id_cmp side.row.user wanted.user };

    ghost run = { λ wanted. user_run wanted.user };

    fn side(&self, side: &ByUser) -> Ordering {
        side.row.user.cmp(&self.user)
    }
}

impl OfRun<ByUser> for OfUser {
    ghost use Rattle.ks_base.specs.OrderLaws.{user_whole, user_alone};

    ghost whole = { λ near. user_whole near.user };

    ghost alone = { λ near. user_alone near.user };
}

impl Far<MemberRow, ByUser> for OfUser {
    ghost use Rattle.ks_base.specs.OrderLaws.{user_within};

    ghost within = { λ wanted. user_within wanted.user };
}

impl TryCopy for MemberRow {
    fn copy(&self) -> Result<MemberRow, Memory> {
        Ok(*self)
    }
}
