//! New application credentials (Identity API v3, application credentials).
ghost use Rattle.std.specs.Prelude.{◌≡◌, IfOk};
ghost use Rattle.ks_auth.specs.Answers.{Tells, rows_told};
ghost use Rattle.ks_auth.specs.Facts.{told};
ghost use Rattle.ks_base.specs.declared.receipt.Drawn.TheVariants as drawns;
ghost use Rattle.ks_machine.specs.AppCredCommands.{create_app_cred, new_cred, own_project, role_held, roles_given};
ghost use Rattle.ks_machine.specs.Attempts.{each};
ghost use Rattle.ks_machine.specs.States.{State};
ghost use Rattle.ks_machine.specs.Tables.{unless_row};
ghost use Rattle.ks_delegations.specs.Creds.{add_cred, create_in_parts, name_taken, put_cred, roles_listed};
ghost use Rattle.ks_checks.specs.Plans.{Gives, Passes, Plans, valid_of};

use crate::trusts::{needs, roles_asked, unrestricted};
use ks_auth::{Facts, Tables, is_expired, roles_at, secret_of_draw};
use ks_base::{
    AppCredRow, Boxed, Drawn, Id, IdList, Memory, PasswordRow, Target, Text, TrustFault,
};
use ks_checks::checks::{row, standing_user};
use ks_checks::draws::made_id;
use ks_checks::in_order::in_order;
use ks_checks::names::titled_roles;
use ks_checks::passwords::derived;
use ks_checks::{Caller, Halt, Plan};
use ks_logins::scopes::roles_held;
use ks_machine::{AppCredBody, BodyOut, Cause, Change, NamedList, ScopeWhy};
use ks_payload::Payload;
use std::alloc::Global;

/// The kind of payloads that are for a project as its user.
const PROJECT: u8 = 2;
/// The kind of those of an application credential.
const APP_CRED: u8 = 5;

/// The project of a token that is its user's own there; a trust's is another's.
fn own_project(payload: &Payload) -> Option<Id>
    ensures { result ≡ own_project payload.now }
{
    if payload.kind == PROJECT || payload.kind == APP_CRED {
        payload.project
    } else {
        None
    }
}

/// The roles that a body names, else all those of the caller's token.
fn roles_given(
    alloc: Global,
    tables: &Tables,
    caller: &Caller,
    asked: &Option<NamedList>,
) -> Result<IdList, Halt>
    ensures { Gives (λ ids. ids) result (roles_given (rows_told tables.now) (valid_of caller.now) asked.now) }
{
    match asked {
        Some(names) => roles_asked(
            alloc,
            tables,
            "application_credential.roles",
            names.as_slice(),
        ),
        None => Ok(caller.roles.copy()?),
    }
}

/// Goes on where the user has each role at the project.
fn are_held(
    alloc: Global,
    tables: &Tables,
    user: &Id,
    project: &Id,
    roles: &[Id],
) -> Result<(), Halt>
    ensures { Passes result (each (role_held (rows_told tables.now) user.now project.now) roles.now) }
{
    let held = roles_at(alloc, tables, user, &Target::Project(*project))?;
    roles_held(held.as_slice(), roles)
}

/// The roles of a new credential, in their order, of which there are some and each of which the user has at the project.
#[tactic(auto, unfolding(crate::specs::Creds::roles_listed))]
fn roles_listed(
    alloc: Global,
    tables: &Tables,
    caller: &Caller,
    user: &Id,
    project: &Id,
    asked: &Option<NamedList>,
) -> Result<IdList, Halt>
    ensures { Gives (λ ids. ids) result (roles_listed (rows_told tables.now) (valid_of caller.now) user.now project.now asked.now) }
{
    let given = roles_given(alloc, tables, caller, asked)?;
    let roles = in_order(alloc, given.as_slice())?;
    let has_some = !roles.as_slice().is_empty();
    needs(has_some, TrustFault::NoRoles)?;
    are_held(alloc, tables, user, project, roles.as_slice())?;
    Ok(roles)
}

/// The row.
fn new_cred(
    id: Id,
    user: &Id,
    project: &Id,
    asked: &AppCredBody,
    roles: &IdList,
    secret: PasswordRow,
) -> Result<AppCredRow, Memory>
    ensures { IfOk result (λ row. row ≡ new_cred id user.now project.now asked.now roles.now secret) }
{
    Ok(AppCredRow {
        id,
        user: *user,
        project: *project,
        name: asked.name.copy()?,
        description: asked.description.copy()?,
        roles: roles.copy()?,
        secret,
        expires: asked.expires,
        unrestricted: asked.unrestricted,
    })
}

/// Goes on where no credential of the user has this name.
fn name_is_free(tables: &Tables, user: &Id, name: &Text) -> Result<(), Halt>
    ensures { Passes result (unless_row (name_taken tables.now.app_creds.now user.now name.now)) }
{
    match tables.app_creds.named(user, name) {
        Some(holder) => Err(Halt::Refused(Cause::NameTaken(holder.id))),
        None => Ok(()),
    }
}

/// The row is added, unless the table refuses, and told with its secret.
#[tactic(auto, unfolding(crate::specs::Creds::add_cred))]
fn add_cred(alloc: Global, tables: &Tables, new: AppCredRow, secret: Text) -> Result<Plan, Halt>
    ensures { Plans result (add_cred (rows_told tables.now) new secret) }
{
    row(tables.app_creds.may_add(&new))?;
    let roles = titled_roles(alloc, tables, new.roles.as_slice())?;
    let told = BodyOut::AppCredMade(Boxed::new(alloc, new.copy()?)?, roles, secret);
    Ok(Plan::changes(Change::PutAppCred(new), told))
}

/// The credential, whose name is tested before the fact of its secret is asked for.
#[tactic(auto, unfolding(crate::specs::Creds::put_cred))]
fn put_cred(
    alloc: Global,
    tables: &Tables,
    drawn: &[u8; 64],
    facts: &Facts,
    user: &Id,
    project: &Id,
    asked: &AppCredBody,
    roles: &IdList,
) -> Result<Plan, Halt>
    ensures { (S : State) → Tells tables.now S → Plans result (put_cred (told facts.now) S (drawns.Bytes drawn.now) user.now project.now asked.now roles.now) }
{
    name_is_free(tables, user, &asked.name)?;
    let secret = secret_of_draw(alloc, &Drawn::Bytes(*drawn), &asked.secret)?;
    let kept = derived(alloc, tables, drawn, facts, &secret)?;
    let new = new_cred(made_id(drawn), user, project, asked, roles, kept)?;
    add_cred(alloc, tables, new, secret)
}

#[tactic(auto, unfolding(crate::specs::Creds::create_in_parts))]
fn create_in_parts(
    alloc: Global,
    tables: &Tables,
    moment: u64,
    drawn: &[u8; 64],
    facts: &Facts,
    caller: &Caller,
    user: &Id,
    asked: &AppCredBody,
) -> Result<Plan, Halt>
    ensures { (S : State) → Tells tables.now S → Plans result (create_in_parts (told facts.now) S moment (drawns.Bytes drawn.now) (valid_of caller.now) user.now asked.now) }
{
    unrestricted(tables, caller)?;
    let _user = standing_user(tables, user)?;
    let Some(project) = own_project(&caller.payload) else {
        return Err(Halt::Refused(Cause::ScopeRefused(ScopeWhy::Absent)));
    };
    let roles = roles_listed(alloc, tables, caller, user, &project, &asked.roles)?;
    needs(!is_expired(&asked.expires, moment), TrustFault::Expired)?;
    put_cred(alloc, tables, drawn, facts, user, &project, asked, &roles)
}

/// A credential of the user on the project of the caller's token. Its secret is told this once.
#[inline(never)]
pub fn create_app_cred(
    alloc: Global,
    tables: &Tables,
    moment: u64,
    drawn: &[u8; 64],
    facts: &Facts,
    caller: &Caller,
    user: &Id,
    asked: &AppCredBody,
) -> Result<Plan, Halt>
    ensures { (S : State) → Tells tables.now S → Plans result (create_app_cred (told facts.now) S moment (drawns.Bytes drawn.now) (valid_of caller.now) user.now asked.now) }
{
    create_in_parts(alloc, tables, moment, drawn, facts, caller, user, asked)
}
