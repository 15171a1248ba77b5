//! Commands that take what came with their call: its caller, or random bytes.
ghost use Rattle.std.specs.Prelude.{◌≡◌, ◌≤◌, IfOk, IsSome};
ghost use Rattle.ks_auth.specs.Answers.{Tells, rows_told};
ghost use Rattle.ks_auth.specs.Facts.{told};
ghost use Rattle.ks_base.specs.declared.receipt.Drawn.TheVariants as drawns;
ghost use Rattle.ks_base.specs.Rows.{user_of};
ghost use Rattle.ks_checks.specs.Plans.{Gives, Plans, valid_of};
ghost use Rattle.ks_machine.specs.Admission.{caller_of};
ghost use Rattle.ks_machine.specs.AppCredCommands.{create_app_cred, delete_app_cred};
ghost use Rattle.ks_machine.specs.Attempts.{Go, found};
ghost use Rattle.ks_machine.specs.CatalogCommands.{create_catalog, show_catalog};
ghost use Rattle.ks_machine.specs.Creations.{create};
ghost use Rattle.ks_machine.specs.declared.cause.Cause.TheVariants as causes;
ghost use Rattle.ks_machine.specs.FactorCommands.{create_secret};
ghost use Rattle.ks_machine.specs.Keys.{rotate_keys};
ghost use Rattle.ks_machine.specs.Login.{login};
ghost use Rattle.ks_machine.specs.Moment.{last_moment};
ghost use Rattle.ks_machine.specs.Outcomes.{made_id};
ghost use Rattle.ks_machine.specs.Passwords.{change_password};
ghost use Rattle.ks_machine.specs.Ranges.{IsSettings};
ghost use Rattle.ks_machine.specs.States.{State};
ghost use Rattle.ks_machine.specs.Steps.{bytes_drawn};
ghost use Rattle.ks_machine.specs.TrustCommands.{create_trust};
ghost use Rattle.ks_plan.specs.Given.{after};
ghost use Rattle.ks_plan.specs.Parties.{AreUsable, parties_of};

use crate::allowed::Parties;
use crate::keys;
use ks_auth::{Facts, Tables};
use ks_base::{CatalogIn, Drawn, Id, Text};
use ks_checks::draws::made_id;
use ks_checks::tokens::caller_of;
use ks_checks::{Caller, Halt, Plan, passwords};
use ks_delegations::{app_cred_creations, app_creds, trusts};
use ks_listings::catalog_shown;
use ks_machine::{AppCredBody, Call, Cause, LoginBody, Made, SecretBody, TrustBody};
use ks_rows::{catalog_creations, creations, factors};
use std::alloc::Global;

/// The random bytes that came.
fn bytes_drawn(draw: &Drawn) -> Result<&[u8; 64], Halt>
    ensures { Gives (λ bytes. drawns.Bytes bytes.now) result (bytes_drawn draw.now) }
{
    match draw {
        Drawn::Bytes(bytes) => Ok(bytes),
        Drawn::Unused | Drawn::Failed => Err(Halt::Refused(Cause::Random)),
    }
}

/// The caller who was admitted.
fn caller_in<'a>(tables: &Tables, who: &'a Parties) -> Result<&'a Caller, Halt>
    requires { AreUsable tables.now.people.now.users who.now }
    ensures caller { Gives (λ caller. valid_of caller.now) result (found (parties_of who.now).caller causes.NoToken) }
    ensures stands { IfOk result (λ caller. IsSome (user_of caller.now.payload.user tables.now.people.now.users)) }
{
    match &who.caller {
        Some(caller) => Ok(caller.get()),
        None => Err(Halt::Refused(Cause::NoToken)),
    }
}

/// A login.
#[inline(never)]
pub(crate) fn login(
    alloc: Global,
    tables: &Tables,
    moment: u64,
    call: &Call,
    asked: &LoginBody,
    facts: &Facts,
) -> Result<Plan, Halt>
    requires moment { tables.now.revoked.now.high ≤ moment }
    requires last { moment ≤ last_moment }
    requires life { tables.now.revoked.now.life ≡ tables.now.settings.now.life }
    requires settings { IsSettings tables.now.settings.now }
    ensures { (S : State) → Tells tables.now S → Plans result (after (bytes_drawn call.now.draw) (λ draw. login (told facts.now) S moment draw asked.now)) }
{
    let drawn = bytes_drawn(&call.draw)?;
    ks_logins::login::login(alloc, tables, moment, drawn, asked, facts)
}

/// The change of one's own password.
#[inline(never)]
pub(crate) fn change_password(
    alloc: Global,
    tables: &Tables,
    call: &Call,
    facts: &Facts,
    id: &Id,
    original: &Text,
    password: &Text,
) -> Result<Plan, Halt>
    ensures { (S : State) → Tells tables.now S → Plans result (after (bytes_drawn call.now.draw) (λ draw. change_password (told facts.now) S draw id.now original.now password.now)) }
{
    let drawn = bytes_drawn(&call.draw)?;
    passwords::change_password(alloc, tables, drawn, facts, id, original, password)
}

/// A creation of a row by what the body says.
#[inline(never)]
pub(crate) fn create(
    alloc: Global,
    tables: &Tables,
    call: &Call,
    who: &Parties,
    facts: &Facts,
    made: &Made,
) -> Result<Plan, Halt>
    requires { AreUsable tables.now.people.now.users who.now }
    ensures { (S : State) → Tells tables.now S → Plans result (after (found (parties_of who.now).caller causes.NoToken) (λ caller. after (bytes_drawn call.now.draw) (λ draw. create (told facts.now) S draw caller made.now))) }
{
    let caller = caller_in(tables, who)?;
    let drawn = bytes_drawn(&call.draw)?;
    creations::create(alloc, tables, drawn, facts, caller, made)
}

/// A trust that the caller gives.
#[inline(never)]
pub(crate) fn create_trust(
    alloc: Global,
    tables: &Tables,
    moment: u64,
    call: &Call,
    who: &Parties,
    asked: &TrustBody,
) -> Result<Plan, Halt>
    requires { AreUsable tables.now.people.now.users who.now }
    ensures { Plans result (after (found (parties_of who.now).caller causes.NoToken) (λ caller. after (bytes_drawn call.now.draw) (λ draw. create_trust (rows_told tables.now) moment draw caller asked.now))) }
{
    let caller = caller_in(tables, who)?;
    let drawn = bytes_drawn(&call.draw)?;
    trusts::create_trust(alloc, tables, moment, drawn, caller, asked)
}

/// A rotation of the keys that are held.
#[inline(never)]
pub(crate) fn rotate_keys(alloc: Global, tables: &Tables, call: &Call) -> Result<Plan, Halt>
    ensures { (S : State) → Tells tables.now S → Plans result (after (bytes_drawn call.now.draw) (λ draw. rotate_keys S draw)) }
{
    let drawn = bytes_drawn(&call.draw)?;
    keys::rotate_keys(alloc, tables, drawn)
}

/// A creation of a row of the catalog by what the body says.
#[inline(never)]
pub(crate) fn create_catalog(
    alloc: Global,
    tables: &Tables,
    call: &Call,
    asked: &CatalogIn,
) -> Result<Plan, Halt>
    ensures { Plans result (after (bytes_drawn call.now.draw) (λ draw. create_catalog (rows_told tables.now) (made_id draw) asked.now.of asked.now)) }
{
    let drawn = bytes_drawn(&call.draw)?;
    catalog_creations::create_catalog(alloc, tables, made_id(drawn), asked)
}

/// What the caller's own token tells of services. No rule is asked for, so that nobody was admitted before.
#[inline(never)]
pub(crate) fn show_catalog(
    alloc: Global,
    tables: &Tables,
    moment: u64,
    call: &Call,
    facts: &Facts,
) -> Result<Plan, Halt>
    requires moment { tables.now.revoked.now.high ≤ moment }
    requires life { tables.now.revoked.now.life ≡ tables.now.settings.now.life }
    ensures { (S : State) → Tells tables.now S → Plans result (after (caller_of (told facts.now) S moment call.now.caller) (λ caller. Go (show_catalog (rows_told tables.now) caller))) }
{
    let caller = caller_of(alloc, tables, moment, &call.caller, facts)?;
    catalog_shown::show_catalog(alloc, tables, &caller)
}

/// A credential of the user on the project of the caller's token.
#[inline(never)]
pub(crate) fn create_app_cred(
    alloc: Global,
    tables: &Tables,
    moment: u64,
    call: &Call,
    who: &Parties,
    facts: &Facts,
    user: &Id,
    asked: &AppCredBody,
) -> Result<Plan, Halt>
    requires { AreUsable tables.now.people.now.users who.now }
    ensures { (S : State) → Tells tables.now S → Plans result (after (found (parties_of who.now).caller causes.NoToken) (λ caller. after (bytes_drawn call.now.draw) (λ draw. create_app_cred (told facts.now) S moment draw caller user.now asked.now))) }
{
    let caller = caller_in(tables, who)?;
    let drawn = bytes_drawn(&call.draw)?;
    app_cred_creations::create_app_cred(alloc, tables, moment, drawn, facts, caller, user, asked)
}

/// Ends a credential.
#[inline(never)]
pub(crate) fn delete_app_cred(
    tables: &Tables,
    who: &Parties,
    user: &Id,
    id: &Id,
) -> Result<Plan, Halt>
    requires { AreUsable tables.now.people.now.users who.now }
    ensures { Plans result (after (found (parties_of who.now).caller causes.NoToken) (λ caller. delete_app_cred (rows_told tables.now) caller user.now id.now)) }
{
    let caller = caller_in(tables, who)?;
    app_creds::delete_app_cred(tables, caller, user, id)
}

/// A new secret of a user.
#[inline(never)]
pub(crate) fn create_secret(
    alloc: Global,
    tables: &Tables,
    call: &Call,
    asked: &SecretBody,
) -> Result<Plan, Halt>
    ensures { Plans result (after (bytes_drawn call.now.draw) (λ draw. create_secret (rows_told tables.now) draw asked.now)) }
{
    let drawn = bytes_drawn(&call.draw)?;
    factors::create_secret(alloc, tables, drawn, asked)
}
