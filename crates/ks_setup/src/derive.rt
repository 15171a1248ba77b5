ghost use Rattle.std.specs.Prelude.{◌≡◌, ◌≤◌, ◌<◌, ◌*◌, true, length, take, IfOk};
ghost use Rattle.std.specs.List.{concat};
ghost use Rattle.ks_base.specs.declared.limits.TheConstants.{ROUNDS};
ghost use Rattle.ks_setup.specs.Openings.{derived_row, is_plain, password_row, passwords, user_row, users_from};
ghost use Rattle.ks_setup.specs.Steps.{Draws, DrawsSalts, Leaves};
ghost use Rattle.ks_setup.specs.declared.derive.DrawFault.TheVariants.{Random, Memory};

use ks_base::{ListOf, Memory, PasswordRow, Text, UserList, UserRow};
use ks_machine::Derived;
use ks_outside::{Desk, Failed};
use ks_written::{WrittenPassword, WrittenUser};
use std::alloc::{AllocError, AllocFailed, Global};
use std::slice::Iter;

/// Why salts are not drawn.
#[derive(Clone, Copy)]
pub(crate) enum DrawFault {
    /// The desk gave no random bytes.
    Random,
    /// There was no memory.
    Memory,
}

impl From<Failed> for DrawFault {
    ghost from_gives = { λ _ fault. fault ≡ Random };

    fn from(_failed: Failed) -> DrawFault {
        DrawFault::Random
    }
}

impl From<AllocError> for DrawFault {
    ghost from_gives = { λ _ fault. fault ≡ Memory };

    fn from(_error: AllocError) -> DrawFault {
        DrawFault::Memory
    }
}

impl<T: Drop> From<AllocFailed<T>> for DrawFault {
    ghost from_gives = { λ _ fault. fault ≡ Memory };

    fn from(_failed: AllocFailed<T>) -> DrawFault {
        DrawFault::Memory
    }
}

/// So many salts, each of 16 random bytes of the desk, by a `fill` of its own.
pub(crate) fn draw_salts<P: Desk>(
    alloc: Global,
    count: usize,
    desk: &mut P,
) -> Result<ListOf<[u8; 16]>, DrawFault>
    ensures { DrawsSalts count (P.desk desk.old) (P.desk desk.new) result }
{
    let mut salts = Vec::with_capacity(alloc, count)?;
    for _ in 0..count {
        let salt = draw_salt(desk)?;
        salts.push(salt)?;
    }
    Ok(ListOf::from_vec(salts))
}

fn draw_salt<P: Desk>(desk: &mut P) -> Result<[u8; 16], Failed>
    ensures { Draws 16 (λ salt. salt) (P.desk desk.old) (P.desk desk.new) result }
{
    let mut salt = [0u8; 16];
    desk.fill(&mut salt)?;
    Ok(salt)
}

/// How many users have a plain password.
pub(crate) fn passwords(users: &[WrittenUser]) -> usize
    ensures { result ≡ passwords users.now }
{
    users.iter().filter(|user| is_plain(&user.password)).count()
}

fn is_plain(password: &Option<WrittenPassword>) -> bool
    ensures { result ≡ is_plain password.now }
{
    matches!(password, Some(WrittenPassword::Plain(_)))
}

/// The rows of users, each plain password derived with the next of the salts, of which there are as many.
pub(crate) fn derive_users(
    alloc: Global,
    rounds: u32,
    users: ListOf<WrittenUser>,
    salts: &[[u8; 16]],
) -> Result<UserList, Memory>
    requires at_least_one { 1 ≤ rounds }
    requires limited { rounds ≤ ROUNDS }
    requires as_many { length salts.now ≡ passwords users }
    ensures rows { IfOk result (λ rows. rows ≡ users_from rounds users (concat salts.now)) }
    ensures whole { IfOk result (λ _. length (concat salts.now) ≡ 16 * passwords users) }
{
    let mut left = salts.iter();
    let mut rows = Vec::with_capacity(alloc, users.as_slice().len())?;
    for user in users.into_vec() {
        rows.push(derive_user(rounds, user, &mut left))?;
    }
    Ok(ListOf::from_vec(rows))
}

fn derive_user(rounds: u32, user: WrittenUser, salts: &mut Iter<'_, [u8; 16]>) -> UserRow
    requires at_least_one { 1 ≤ rounds }
    requires limited { rounds ≤ ROUNDS }
    requires given { is_plain user.password ≡ true → 0 < length salts.old.rest.now }
    ensures row { result ≡ user_row user (password_row rounds user.password (take 16 (concat salts.old.rest.now))) }
    ensures left { Leaves user.password salts.old.rest.now salts.new.rest.now }
{
    let WrittenUser {
        id,
        domain,
        name,
        enabled,
        password,
    } = user;
    UserRow {
        id,
        domain,
        name,
        enabled,
        password: derive_if_plain(rounds, password, salts),
    }
}

/// A user without a plain password takes no salt.
fn derive_if_plain(
    rounds: u32,
    password: Option<WrittenPassword>,
    salts: &mut Iter<'_, [u8; 16]>,
) -> Option<PasswordRow>
    requires at_least_one { 1 ≤ rounds }
    requires limited { rounds ≤ ROUNDS }
    requires given { is_plain password ≡ true → 0 < length salts.old.rest.now }
    ensures row { result ≡ password_row rounds password (take 16 (concat salts.old.rest.now)) }
    ensures left { Leaves password salts.old.rest.now salts.new.rest.now }
{
    match password {
        Some(WrittenPassword::Plain(password)) => {
            let Some(salt) = salts.next() else {
                unreachable!()
            };
            Some(derived(rounds, password, *salt))
        }
        Some(WrittenPassword::Record(row)) => Some(row),
        None => None,
    }
}

/// What is kept of a password with this salt.
fn derived(rounds: u32, password: Text, salt: [u8; 16]) -> PasswordRow
    requires at_least_one { 1 ≤ rounds }
    requires limited { rounds ≤ ROUNDS }
    ensures { result ≡ derived_row rounds password salt }
{
    let derived = Derived::of(password, salt, rounds);
    PasswordRow {
        salt,
        rounds,
        digest: *derived.digest(),
    }
}

/// What is kept of a password, with 16 random bytes of the desk as its salt. The password itself is not.
pub fn derive_password<P: Desk>(
    rounds: u32,
    password: Text,
    desk: &mut P,
) -> Result<PasswordRow, Failed>
    requires at_least_one { 1 ≤ rounds }
    requires limited { rounds ≤ ROUNDS }
    ensures { Draws 16 (λ salt. derived_row rounds password salt) (P.desk desk.old) (P.desk desk.new) result }
{
    let salt = draw_salt(desk)?;
    Ok(derived(rounds, password, salt))
}
