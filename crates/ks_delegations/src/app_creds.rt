//! What is told of application credentials, and their end (Identity API v3, application credentials).
ghost use Rattle.std.specs.Prelude.{◌≡◌, filter, map, IfOk};
ghost use Rattle.ks_auth.specs.Answers.{rows_told};
ghost use Rattle.ks_base.specs.AppCreds.{creds_of, is_of_user};
ghost use Rattle.ks_machine.specs.AppCredCommands.{delete_app_cred, get_app_cred, list_app_creds, told_cred};
ghost use Rattle.ks_checks.specs.Plans.{Plans, valid_of};

use crate::trusts::unrestricted;
use ks_auth::Tables;
use ks_base::{AppCredRow, Id, Memory};
use ks_checks::checks::{standing_cred, standing_user};
use ks_checks::names::titled_roles;
use ks_checks::paths::joined;
use ks_checks::{Caller, Halt, Plan};
use ks_machine::{BodyOut, Change, Row, RowList};
use std::alloc::Global;

/// What is told of an application credential.
fn told_cred(alloc: Global, tables: &Tables, cred: &AppCredRow) -> Result<Row, Memory>
    ensures { IfOk result (λ row. row ≡ told_cred (rows_told tables.now) cred.now) }
{
    let roles = titled_roles(alloc, tables, cred.roles.as_slice())?;
    Ok(Row::AppCred(cred.copy()?, roles))
}

/// What is told of the credentials of these ids, which are those of a user.
fn creds_told(alloc: Global, tables: &Tables, user: &Id, ids: &[Id]) -> Result<RowList, Memory>
    requires { ids.now ≡ creds_of user.now tables.now.app_creds.now }
    ensures { IfOk result (λ rows. rows ≡ map (told_cred (rows_told tables.now)) (filter (is_of_user user.now) tables.now.app_creds.now)) }
{
    let mut rows = RowList::new(alloc);
    for id in ids {
        match tables.app_creds.row(id) {
            Some(cred) => rows.push(told_cred(alloc, tables, cred)?)?,
            None => unreachable!(),
        }
    }
    Ok(rows)
}

/// What is told of the user's credentials.
fn creds_of(alloc: Global, tables: &Tables, user: &Id) -> Result<RowList, Memory>
    ensures { IfOk result (λ rows. rows ≡ map (told_cred (rows_told tables.now)) (filter (is_of_user user.now) tables.now.app_creds.now)) }
{
    let ids = tables.app_creds.of_user(user)?;
    creds_told(alloc, tables, user, ids.as_slice())
}

/// The user's credentials, of which alone there is a walk.
#[inline(never)]
#[tactic(auto, unfolding(ks_machine::specs::AppCredCommands::list_app_creds))]
pub fn list_app_creds(alloc: Global, tables: &Tables, user: &Id) -> Result<Plan, Halt>
    ensures { Plans result (list_app_creds (rows_told tables.now) user.now) }
{
    let _user = standing_user(tables, user)?;
    let rows = creds_of(alloc, tables, user)?;
    let path = joined(
        alloc,
        "/v3/users/",
        user.as_str(),
        "/application_credentials",
    )?;
    Ok(Plan::tells(BodyOut::AppCreds(rows, path)))
}

#[inline(never)]
#[tactic(auto, unfolding(ks_machine::specs::AppCredCommands::get_app_cred))]
pub fn get_app_cred(alloc: Global, tables: &Tables, user: &Id, id: &Id) -> Result<Plan, Halt>
    ensures { Plans result (get_app_cred (rows_told tables.now) user.now id.now) }
{
    let _user = standing_user(tables, user)?;
    let cred = standing_cred(tables, user, id)?;
    let told = told_cred(alloc, tables, cred)?;
    Ok(Plan::tells(BodyOut::one(alloc, told, false)?))
}

#[inline(never)]
#[tactic(auto, unfolding(ks_machine::specs::AppCredCommands::delete_app_cred))]
pub fn delete_app_cred(tables: &Tables, caller: &Caller, user: &Id, id: &Id) -> Result<Plan, Halt>
    ensures { Plans result (delete_app_cred (rows_told tables.now) (valid_of caller.now) user.now id.now) }
{
    unrestricted(tables, caller)?;
    let _user = standing_user(tables, user)?;
    let cred = standing_cred(tables, user, id)?;
    Ok(Plan::changes(Change::DropAppCred(cred.id), BodyOut::Nothing))
}
