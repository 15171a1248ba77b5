//! Which secrets are whose, so that those of a user are found without a look at all others.
ghost use Rattle.std.specs.Prelude.{◌≡◌, not};
ghost use Rattle.ks_base.specs.Rows.{same};
ghost use Rattle.ks_totp.specs.Owners.{owner_of};

use ks_base::{Id, Near, Ordered, SecretRow, Test};
use std::cmp::Ordering;

/// That a user has a secret.
#[derive(Clone, Copy)]
pub(crate) struct OwnerRow {
    pub(crate) user: Id,
    pub(crate) secret: Id,
}

/// The secrets of this user.
#[derive(Drop)]
pub(crate) struct OfOwner<'a> {
    pub(crate) user: &'a Id,
}

/// Other users than this one.
#[derive(Drop)]
pub(crate) struct Others<'a> {
    pub(crate) user: &'a Id,
}

/// What is of users that pass a test.
#[derive(Drop)]
pub(crate) struct OfUsers<'a, T> {
    pub(crate) users: &'a T,
}

/// Whose the secret is.
pub(crate) fn owner_of(row: &SecretRow) -> OwnerRow
    ensures { result ≡ owner_of row.now }
{
    OwnerRow {
        user: row.user,
        secret: row.id,
    }
}

impl Ordered for OwnerRow {
    ghost use Rattle.ks_totp.specs.Owners.{owner_cmp, owner_total, owner_exact};

    ghost cmp = { owner_cmp };

    ghost total = { owner_total };

    ghost exact = { owner_exact };

    fn compare(&self, other: &OwnerRow) -> Ordering {
        self.user
            .cmp(&other.user)
            .then(self.secret.cmp(&other.secret))
    }
}

impl Near<OwnerRow> for OfOwner<'_> {
    ghost use Rattle.ks_base.specs.Tables.{id_cmp};
    ghost use Rattle.ks_totp.specs.Owners.{owner_run};

    ghost side = { λ wanted row. id_cmp row.user wanted.user.now };

    ghost run = { λ wanted. owner_run wanted.user.now };

    fn side(&self, row: &OwnerRow) -> Ordering {
        row.user.cmp(self.user)
    }
}

impl Test<Id> for Others<'_> {
    ghost test = { λ wanted id. not (same id wanted.user.now) };

    fn test(&self, id: &Id) -> bool {
        id != self.user
    }
}

impl<T: Test<Id>> Test<SecretRow> for OfUsers<'_, T> {
    ghost test = { λ wanted row. T.test wanted.users.now row.user };

    fn test(&self, row: &SecretRow) -> bool {
        self.users.test(&row.user)
    }
}

impl<T: Test<Id>> Test<OwnerRow> for OfUsers<'_, T> {
    ghost test = { λ wanted row. T.test wanted.users.now row.user };

    fn test(&self, row: &OwnerRow) -> bool {
        self.users.test(&row.user)
    }
}
