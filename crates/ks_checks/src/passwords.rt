//! What is kept of new passwords, and the change of one's own.
ghost use Rattle.ks_auth.specs.Answers.{Tells};
ghost use Rattle.ks_auth.specs.Facts.{told};
ghost use Rattle.ks_base.specs.declared.receipt.Drawn.{Drawn};
ghost use Rattle.ks_machine.specs.Passwords.{change_password, derived, derived_or};
ghost use Rattle.ks_machine.specs.States.{State};
ghost use Rattle.ks_checks.specs.Plans.{Gives, Plans};

use crate::draws::salt;
use crate::tested::by_password;
use crate::{Halt, Needs, Plan};
use ks_auth::{Facts, Tables};
use ks_base::{Id, ListOf, PasswordRow, Text, UserRow};
use ks_machine::{BodyOut, Change};
use std::alloc::Global;

/// What is kept of a new password: it is derived with the drawn salt, by the rounds of the settings.
#[tactic(auto, unfolding(ks_machine::specs::Passwords::derived))]
pub fn derived(
    alloc: Global,
    tables: &Tables,
    drawn: &[u8; 64],
    facts: &Facts,
    password: &Text,
) -> Result<PasswordRow, Halt>
    ensures { (S : State) → Tells tables.now S → Gives (λ row. row) result (derived (told facts.now) S (Drawn.Bytes drawn.now) password.now) }
{
    let salt = salt(drawn);
    let rounds = tables.settings.rounds;
    match facts.derived(password, &salt, rounds) {
        Some(digest) => Ok(PasswordRow {
            salt,
            rounds,
            digest,
        }),
        None => Err(Halt::Needs(Needs {
            keys: ListOf::new(alloc),
            stored: None,
            fresh: Some((salt, rounds)),
        })),
    }
}

/// The new password, or what was kept where none is given.
#[tactic(auto, unfolding(ks_machine::specs::Passwords::derived_or))]
pub fn derived_or(
    alloc: Global,
    tables: &Tables,
    drawn: &[u8; 64],
    facts: &Facts,
    kept: &Option<PasswordRow>,
    password: &Option<Text>,
) -> Result<Option<PasswordRow>, Halt>
    ensures { (S : State) → Tells tables.now S → Gives (λ row. row) result (derived_or (told facts.now) S (Drawn.Bytes drawn.now) kept.now password.now) }
{
    match password {
        Some(password) => Ok(Some(derived(alloc, tables, drawn, facts, password)?)),
        None => Ok(*kept),
    }
}

/// The change of one's own password.
#[inline(never)]
#[tactic(auto, unfolding(ks_machine::specs::Passwords::change_password))]
pub fn change_password(
    alloc: Global,
    tables: &Tables,
    drawn: &[u8; 64],
    facts: &Facts,
    id: &Id,
    original: &Text,
    password: &Text,
) -> Result<Plan, Halt>
    ensures { (S : State) → Tells tables.now S → Plans result (change_password (told facts.now) S (Drawn.Bytes drawn.now) id.now original.now password.now) }
{
    let user = by_password(alloc, tables, facts, tables.people.user(id), original)?;
    let row = derived(alloc, tables, drawn, facts, password)?;
    let new = UserRow {
        password: Some(row),
        ..user.copy()?
    };
    Ok(Plan::changes(Change::PutUser(new), BodyOut::Nothing))
}
