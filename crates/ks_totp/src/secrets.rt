//! Secrets and their owners: the changes that keep both the same, and whose codes fit.
ghost use Rattle.std.specs.Prelude.{◌≡◌, ◌&&◌, false, filter, IsSome, None, OnErr, OnOk};
ghost use Rattle.std.specs.List.{list_any};
ghost use Rattle.std.specs.Option.{option_map_or};
ghost use Rattle.ks_base.specs.Factors.{is_secret_of, secret_of};
ghost use Rattle.ks_base.specs.Tables.{id_cmp, put_row, drop_row};
ghost use Rattle.ks_totp.specs.Hotp.{fits_at};
ghost use Rattle.ks_totp.specs.Owners.{AreOwners};

use crate::hotp::fits_at;
use crate::owners::{OfOwner, OfUsers, OwnerRow, owner_of};
use ks_base::{Id, IdTable, Memory, RowSet, SecretRow, Test};

/// Puts a new secret into its place, and whose it is. One that found no memory is dropped.
pub(crate) fn add(
    secrets: &mut IdTable<SecretRow>,
    owners: &mut RowSet<OwnerRow>,
    row: SecretRow,
) -> Result<(), Memory>
    requires new { secret_of row.id secrets.old ≡ None }
    requires owners { AreOwners secrets.old owners.old }
    ensures ok { OnOk result (secrets.new ≡ put_row id_cmp (λ r. r.id) row secrets.old) }
    ensures err { OnErr result (secrets.new ≡ secrets.old) }
    ensures owners { AreOwners secrets.new owners.new }
{
    let owner = owner_of(&row);
    let _new = owners.add(owner_of(&row))?;
    match secrets.put(row) {
        Ok(()) => Ok(()),
        Err(memory) => {
            owners.remove(&owner);
            Err(memory)
        }
    }
}

/// Takes a secret out. It takes no memory.
pub(crate) fn remove(secrets: &mut IdTable<SecretRow>, owners: &mut RowSet<OwnerRow>, id: &Id)
    requires stands { IsSome (secret_of id.now secrets.old) }
    requires owners { AreOwners secrets.old owners.old }
    ensures secrets { secrets.new ≡ drop_row id_cmp (λ r. r.id) id.now secrets.old }
    ensures owners { AreOwners secrets.new owners.new }
{
    let Some(row) = secrets.get(id) else {
        unreachable!()
    };
    let owner = owner_of(row);
    owners.remove(&owner);
    secrets.remove(id);
}

/// Leaves the secrets of users that pass the test. It takes no memory.
pub(crate) fn keep_of<T: Test<Id>>(
    secrets: &mut IdTable<SecretRow>,
    owners: &mut RowSet<OwnerRow>,
    users: &T,
)
    requires { AreOwners secrets.old owners.old }
    ensures secrets { secrets.new ≡ filter (λ row. T.test users.now row.user) secrets.old }
    ensures owners { AreOwners secrets.new owners.new }
{
    secrets.keep(&OfUsers { users });
    owners.keep(&OfUsers { users });
}

/// Whether the secret with this id, if it stands, gives the code at the moment, or 30 seconds before.
fn secret_fits(secrets: &IdTable<SecretRow>, id: &Id, code: u32, moment: u64) -> bool
    ensures { result ≡ option_map_or (λ row. fits_at row.secret code moment) (secret_of id.now secrets.now) false }
{
    match secrets.get(id) {
        Some(row) => fits_at(row.secret.as_slice(), code, moment),
        None => false,
    }
}

/// Whether a secret of the user gives the code at the moment, or 30 seconds before. All of them are tried in any case.
pub(crate) fn any_fits(
    secrets: &IdTable<SecretRow>,
    owners: &RowSet<OwnerRow>,
    user: &Id,
    code: u32,
    moment: u64,
) -> bool
    requires { AreOwners secrets.now owners.now }
    ensures { result ≡ list_any (λ row. is_secret_of user.now row && fits_at row.secret code moment) secrets.now }
{
    let _ascending = secrets.rows();
    let mut found = false;
    for owner in owners.of(&OfOwner { user }) {
        found |= secret_fits(secrets, &owner.get().secret, code, moment);
    }
    found
}
