//! Second factors: secrets of one-time codes (Identity API v3, credentials of type `totp`), and the methods that a user has
//! to log in by.
ghost use Rattle.std.specs.Prelude.{◌≡◌, IfOk};
ghost use Rattle.ks_auth.specs.Answers.{rows_told};
ghost use Rattle.ks_base.specs.declared.receipt.Drawn.TheVariants as drawns;
ghost use Rattle.ks_machine.specs.Attempts.{Go};
ghost use Rattle.ks_machine.specs.Creations.{put_user};
ghost use Rattle.ks_machine.specs.FactorCommands.{create_secret, delete_secret};
ghost use Rattle.ks_machine.specs.Outcomes.{changes};
ghost use Rattle.ks_checks.specs.Plans.{Plans};

use ks_auth::Tables;
use ks_base::{Id, Memory, MfaRow, SecretRow, UserRow};
use ks_checks::checks::{row, standing_secret, standing_user};
use ks_checks::draws::made_id;
use ks_checks::{Halt, Plan};
use ks_machine::{BodyOut, Change, MfaIn, Row, SecretBody};
use std::alloc::Global;

/// The change that puts a user. What a body says of the methods that the user has to log in by is the whole of it.
fn put_user(row: UserRow, said: &Option<MfaIn>) -> Result<Change, Memory>
    ensures { IfOk result (λ change. change ≡ put_user row said.now) }
{
    match said {
        Some(said) => {
            let rules = MfaRow {
                user: row.id,
                enabled: said.enabled,
                rules: said.rules.copy()?,
            };
            Ok(Change::PutUserWith(row, rules))
        }
        None => Ok(Change::PutUser(row)),
    }
}

/// Puts a user, and tells of it.
pub fn put_told(
    alloc: Global,
    row: UserRow,
    said: &Option<MfaIn>,
    is_new: bool,
) -> Result<Plan, Halt>
    ensures { Plans result (Go (changes (put_user row said.now) (BodyOut.One (Row.User row) is_new))) }
{
    let told = BodyOut::one(alloc, Row::User(row.copy()?), is_new)?;
    Ok(Plan::changes(put_user(row, said)?, told))
}

fn secret_row(id: Id, asked: &SecretBody) -> Result<SecretRow, Memory>
    ensures { IfOk result (λ row. row ≡ record { id = id; user = asked.now.user; secret = asked.now.secret }) }
{
    Ok(SecretRow {
        id,
        user: asked.user,
        secret: asked.secret.copy()?,
    })
}

/// A new secret of a user that stands.
#[inline(never)]
#[tactic(auto, unfolding(ks_machine::specs::FactorCommands::create_secret))]
pub fn create_secret(
    alloc: Global,
    tables: &Tables,
    drawn: &[u8; 64],
    asked: &SecretBody,
) -> Result<Plan, Halt>
    ensures { Plans result (create_secret (rows_told tables.now) (drawns.Bytes drawn.now) asked.now) }
{
    let _user = standing_user(tables, &asked.user)?;
    let new = secret_row(made_id(drawn), asked)?;
    row(tables.factors.may_add_secret(&new))?;
    let told = BodyOut::one(alloc, Row::Secret(new.copy()?), true)?;
    Ok(Plan::changes(Change::PutSecret(new), told))
}

#[inline(never)]
#[tactic(auto, unfolding(ks_machine::specs::FactorCommands::delete_secret))]
pub fn delete_secret(tables: &Tables, id: &Id) -> Result<Plan, Halt>
    ensures { Plans result (delete_secret (rows_told tables.now) id.now) }
{
    let _secret = standing_secret(tables, id)?;
    Ok(Plan::changes(Change::DropSecret(*id), BodyOut::Nothing))
}
