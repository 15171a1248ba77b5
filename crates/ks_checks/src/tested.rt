//! What a login shows is tested: a password, the secret of an application credential, a one-time code.
ghost use Rattle.std.specs.Prelude.{IfOk, IsSome};
ghost use Rattle.std.specs.Option.{option_copied};
ghost use Rattle.ks_auth.specs.Answers.{rows_told};
ghost use Rattle.ks_auth.specs.Facts.{told};
ghost use Rattle.ks_base.specs.Rows.{user_of};
ghost use Rattle.ks_machine.specs.Login.{by_code, by_password, by_secret, is_password, meets};
ghost use Rattle.ks_checks.specs.Plans.{Gives, Passes};

use crate::checks::need;
use crate::{Halt, Needs};
use ks_auth::{Facts, Tables, is_expired, is_user_on};
use ks_base::{AppCredRow, Id, ListOf, PasswordRow, Text, UserRow};
use ks_machine::Cause;
use std::alloc::Global;

/// Whether the password of a user is this one.
#[tactic(auto, unfolding(ks_machine::specs::Login::is_password))]
fn is_password(
    alloc: Global,
    facts: &Facts,
    row: &PasswordRow,
    password: &Text,
) -> Result<bool, Halt>
    ensures { Gives (λ is. is) result (is_password (told facts.now) row.now password.now) }
{
    match facts.derived(password, &row.salt, row.rounds) {
        Some(digest) => Ok(digest == row.digest),
        None => Err(Halt::Needs(Needs {
            keys: ListOf::new(alloc),
            stored: Some((row.salt, row.rounds)),
            fresh: None,
        })),
    }
}

/// A user that stands, has this password, and is enabled in an enabled domain.
#[tactic(auto, unfolding(ks_machine::specs::Login::by_password))]
pub fn by_password<'a>(
    alloc: Global,
    tables: &Tables,
    facts: &Facts,
    named: Option<&'a UserRow>,
    password: &Text,
) -> Result<&'a UserRow, Halt>
    ensures user { Gives (λ user. user.now) result (by_password (told facts.now) (rows_told tables.now) (option_copied named.entry) password.now) }
    ensures stands { IfOk result (λ user. IsSome (user_of user.now.id tables.now.people.now.users)) }
{
    let Some(user) = named else {
        return Err(Halt::Refused(Cause::Credentials));
    };
    let Some(row) = &user.password else {
        return Err(Halt::Refused(Cause::Credentials));
    };
    let is = is_password(alloc, facts, row, password)?;
    need(is, Cause::Credentials)?;
    need(is_user_on(tables, &user.id), Cause::Credentials)?;
    Ok(user)
}

/// An application credential that stands, has not expired, has this secret, and whose user is enabled in an enabled
/// domain.
#[tactic(auto, unfolding(ks_machine::specs::Login::by_secret))]
pub fn by_secret<'a>(
    alloc: Global,
    tables: &Tables,
    moment: u64,
    facts: &Facts,
    named: Option<&'a AppCredRow>,
    secret: &Text,
) -> Result<&'a AppCredRow, Halt>
    ensures cred { Gives (λ cred. cred.now) result (by_secret (told facts.now) (rows_told tables.now) moment (option_copied named.entry) secret.now) }
    ensures stands { IfOk result (λ cred. IsSome (user_of cred.now.user tables.now.people.now.users)) }
{
    let Some(cred) = named else {
        return Err(Halt::Refused(Cause::Credentials));
    };
    need(!is_expired(&cred.expires, moment), Cause::Credentials)?;
    let is = is_password(alloc, facts, &cred.secret, secret)?;
    need(is, Cause::Credentials)?;
    need(is_user_on(tables, &cred.user), Cause::Credentials)?;
    Ok(cred)
}

/// A user that stands, is enabled in an enabled domain, and has a secret whose code this is at the moment.
#[tactic(auto, unfolding(ks_machine::specs::Login::by_code))]
pub fn by_code<'a>(
    tables: &Tables,
    moment: u64,
    named: Option<&'a UserRow>,
    code: u32,
) -> Result<&'a UserRow, Halt>
    ensures user { Gives (λ user. user.now) result (by_code (rows_told tables.now) moment (option_copied named.entry) code) }
    ensures stands { IfOk result (λ user. IsSome (user_of user.now.id tables.now.people.now.users)) }
{
    let Some(user) = named else {
        return Err(Halt::Refused(Cause::Credentials));
    };
    need(is_user_on(tables, &user.id), Cause::Credentials)?;
    need(
        tables.factors.fits(&user.id, code, moment),
        Cause::Credentials,
    )?;
    Ok(user)
}

/// Goes on where the rules of the user ask for no more than these methods.
pub fn meets(tables: &Tables, user: &Id, methods: u8) -> Result<(), Halt>
    ensures { Passes result (meets (rows_told tables.now) user.now methods) }
{
    need(tables.factors.met(user, methods), Cause::Credentials)
}
