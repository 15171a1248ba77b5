//! Secrets of one-time codes, as they are told (Identity API v3, credentials of type `totp`).
ghost use Rattle.std.specs.Prelude.{◌≡◌, map, IfOk};
ghost use Rattle.ks_auth.specs.Answers.{rows_told};
ghost use Rattle.ks_machine.specs.Attempts.{Go};
ghost use Rattle.ks_machine.specs.FactorCommands.{get_secret, list_secrets};
ghost use Rattle.ks_checks.specs.Plans.{Plans};

use ks_auth::Tables;
use ks_base::{Id, Memory, Text};
use ks_checks::checks::standing_secret;
use ks_checks::{Halt, Plan};
use ks_machine::{BodyOut, Row, RowList};
use ks_totp::Factors;
use std::alloc::Global;

/// The secrets of these ids, which are those of all of them.
fn secrets_of(alloc: Global, factors: &Factors, ids: &[Id]) -> Result<RowList, Memory>
    requires { ids.now ≡ map (λ row. row.id) factors.now.state.secrets }
    ensures { IfOk result (λ rows. rows ≡ map (λ found. Row.Secret found) factors.now.state.secrets) }
{
    let mut rows = RowList::new(alloc);
    for id in ids {
        match factors.secret(id) {
            Some(secret) => rows.push(Row::Secret(secret.copy()?))?,
            None => unreachable!(),
        }
    }
    Ok(rows)
}

/// All secrets.
fn all_secrets(alloc: Global, factors: &Factors) -> Result<RowList, Memory>
    ensures { IfOk result (λ rows. rows ≡ map (λ found. Row.Secret found) factors.now.state.secrets) }
{
    let ids = factors.secret_ids()?;
    secrets_of(alloc, factors, ids.as_slice())
}

#[inline(never)]
#[tactic(auto, unfolding(ks_machine::specs::FactorCommands::list_secrets))]
pub fn list_secrets(alloc: Global, tables: &Tables) -> Result<Plan, Halt>
    ensures { Plans result (Go (list_secrets (rows_told tables.now))) }
{
    let rows = all_secrets(alloc, tables.factors)?;
    let path = Text::of(alloc, "/v3/credentials")?;
    Ok(Plan::tells(BodyOut::Secrets(rows, path)))
}

#[inline(never)]
#[tactic(auto, unfolding(ks_machine::specs::FactorCommands::get_secret))]
pub fn get_secret(alloc: Global, tables: &Tables, id: &Id) -> Result<Plan, Halt>
    ensures { Plans result (get_secret (rows_told tables.now) id.now) }
{
    let secret = standing_secret(tables, id)?;
    let told = BodyOut::one(alloc, Row::Secret(secret.copy()?), false)?;
    Ok(Plan::tells(told))
}
