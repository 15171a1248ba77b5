//! What a call is answered and which change it makes: the machine's checks in their order, but for the last.
ghost use Rattle.std.specs.Prelude.{◌≡◌, ◌≤◌, ◌||◌, not, IfOk, IsSome};
ghost use Rattle.ks_auth.specs.Answers.{Tells, rows_told};
ghost use Rattle.ks_auth.specs.Facts.{told};
ghost use Rattle.ks_base.specs.declared.receipt.Drawn.TheVariants as drawns;
ghost use Rattle.ks_base.specs.Rows.{user_of};
ghost use Rattle.ks_machine.specs.Actions.{requirements};
ghost use Rattle.ks_machine.specs.Attempts.{need, unless};
ghost use Rattle.ks_machine.specs.declared.cause.Cause.TheVariants as causes;
ghost use Rattle.ks_machine.specs.Fit.{Fit};
ghost use Rattle.ks_machine.specs.Moment.{last_moment};
ghost use Rattle.ks_machine.specs.Ranges.{IsSettings};
ghost use Rattle.ks_machine.specs.States.{State};
ghost use Rattle.ks_machine.specs.Steps.{has_drawn, lacking_of, on_subject, own_checks, planned, planned_by, revoked_subject, subject_shown, told_subject};
ghost use Rattle.ks_plan.specs.Parties.{AreUsable, parties_of};
ghost use Rattle.ks_checks.specs.Plans.{Gives, HasBytes, Passes, Plans, valid_of};
ghost use Rattle.ks_targets.specs.Views.{requirements_of};

use crate::allowed::{Parties, admitted};
use crate::events::events;
use crate::given;
use crate::keys::{is_failed, load_keys};
use ks_auth::{Facts, Tables};
use ks_base::{Boxed, Drawn, Text};
use ks_checks::checks::need;
use ks_checks::tokens::missing;
use ks_checks::told::told_token;
use ks_checks::{Caller, Halt, Plan};
use ks_delegations::app_creds::{get_app_cred, list_app_creds};
use ks_delegations::trusts::{delete_trust, get_trust, list_trusts, roles_of_trust};
use ks_listings::listings::list;
use ks_listings::secrets::{get_secret, list_secrets};
use ks_machine::{BodyOut, Call, Cause, Change, Command, RowKind};
use ks_policy::Rules;
use ks_relations::assignments::assignments;
use ks_relations::grants::{grant, grants_of, is_granted, ungrant};
use ks_relations::members::{
    groups_of, implication, implied, imply, is_implied, is_in, join, leave, members_of, unimply,
};
use ks_relations::user_projects::projects_of;
use ks_rows::catalog_updates::update_catalog;
use ks_rows::factors::delete_secret;
use ks_rows::single::{delete, get};
use ks_rows::updates::update;
use ks_targets::{Requirements, required};
use std::alloc::Global;

/// What the call is answered and which change it makes, by the tables of the moment and the facts that are known, in
/// each state that the tables tell; or the first check that fails, or the first that lacks a fact. Whether there is
/// room for the revocations that the change writes is not tested.
pub fn plan_call(
    alloc: Global,
    tables: &Tables,
    rules: &Rules,
    moment: u64,
    call: &Call,
    facts: &Facts,
) -> Result<Plan, Halt>
    requires fit { Fit call.now }
    requires moment { tables.now.revoked.now.high ≤ moment }
    requires last { moment ≤ last_moment }
    requires life { tables.now.revoked.now.life ≡ tables.now.settings.now.life }
    requires settings { IsSettings tables.now.settings.now }
    ensures { (S : State) → Tells tables.now S → S.rules ≡ rules.now → Plans result (planned (told facts.now) S moment call.now) }
{
    let asked = required(&call.command);
    planned_by(alloc, tables, rules, moment, call, &asked, facts)
}

/// The checks of a call by what its command asks for.
#[tactic(auto, unfolding(ks_machine::specs::Steps::planned_by))]
fn planned_by(
    alloc: Global,
    tables: &Tables,
    rules: &Rules,
    moment: u64,
    call: &Call,
    asked: &Requirements,
    facts: &Facts,
) -> Result<Plan, Halt>
    requires fit { Fit call.now }
    requires asked { requirements_of asked.now ≡ requirements call.now.command }
    requires moment { tables.now.revoked.now.high ≤ moment }
    requires last { moment ≤ last_moment }
    requires life { tables.now.revoked.now.life ≡ tables.now.settings.now.life }
    requires settings { IsSettings tables.now.settings.now }
    ensures { (S : State) → Tells tables.now S → Plans result (planned_by (told facts.now) S rules.now (rows_told tables.now) moment call.now (requirements_of asked.now)) }
{
    lacks_nothing(alloc, asked, &call.subject)?;
    are_drawn(asked.draws, &call.draw)?;
    let is_read = !(asked.loads && is_failed(&call.folder));
    need(is_read, Cause::KeyDir)?;
    let who = admitted(alloc, tables, rules, moment, call, asked, facts)?;
    own_checks(alloc, tables, moment, call, &who, facts)
}

/// Goes on where the request lacks neither the token that it is about nor a field of its query.
#[tactic(auto, unfolding(ks_machine::specs::Steps::lacking_of))]
fn lacks_nothing(alloc: Global, asked: &Requirements, subject: &Option<Text>) -> Result<(), Halt>
    ensures { Passes result (unless (lacking_of (requirements_of asked.now) subject.now)) }
{
    if asked.subject && subject.is_none() {
        return Err(Halt::Refused(missing(alloc, "X-Subject-Token")?));
    }
    match asked.lacks {
        Some(name) => Err(Halt::Refused(missing(alloc, name)?)),
        None => Ok(()),
    }
}

/// Goes on where random bytes came, or none are asked for.
fn are_drawn(draws: bool, draw: &Drawn) -> Result<(), Halt>
    ensures drawn { Passes result (need (not draws || has_drawn draw.now) causes.Random) }
    ensures bytes { IfOk result (λ u. HasBytes draws draw.now) }
{
    if !draws {
        return Ok(());
    }
    match draw {
        Drawn::Bytes(_) => Ok(()),
        Drawn::Unused | Drawn::Failed => Err(Halt::Refused(Cause::Random)),
    }
}

/// The token that the call is about, and its text.
fn subject_in<'a>(
    alloc: Global,
    tables: &Tables,
    given: &'a Option<Text>,
    who: &'a Parties,
) -> Result<(&'a Text, &'a Caller), Halt>
    requires { AreUsable tables.now.people.now.users who.now }
    ensures subject { Gives (λ shown. (shown.0.now, valid_of shown.1.now)) result (subject_shown given.now (parties_of who.now).subject) }
    ensures stands { IfOk result (λ shown. IsSome (user_of shown.1.now.payload.user tables.now.people.now.users)) }
{
    let Some(token) = &who.subject else {
        return Err(Halt::Refused(missing(alloc, "X-Subject-Token")?));
    };
    match given {
        Some(text) => Ok((text, token.get())),
        None => Err(Halt::Refused(missing(alloc, "X-Subject-Token")?)),
    }
}

/// What is told of the token that the call is about.
#[inline(never)]
fn told_subject(
    alloc: Global,
    tables: &Tables,
    given: &Option<Text>,
    who: &Parties,
) -> Result<Plan, Halt>
    requires { AreUsable tables.now.people.now.users who.now }
    ensures { Plans result (on_subject given.now (parties_of who.now).subject (told_subject (rows_told tables.now))) }
{
    let (text, token) = subject_in(alloc, tables, given, who)?;
    let Caller {
        payload,
        issued,
        roles,
    } = token;
    let told = told_token(alloc, tables, text.copy()?, false, payload, *issued, roles)?;
    Ok(Plan::tells(BodyOut::Token(Boxed::new(alloc, told)?)))
}

/// Ends the token that the call is about.
#[inline(never)]
fn revoked_subject(
    alloc: Global,
    tables: &Tables,
    given: &Option<Text>,
    who: &Parties,
) -> Result<Plan, Halt>
    requires { AreUsable tables.now.people.now.users who.now }
    ensures { Plans result (on_subject given.now (parties_of who.now).subject revoked_subject) }
{
    let (_text, token) = subject_in(alloc, tables, given, who)?;
    let change = Change::RevokeToken(token.payload.audit);
    Ok(Plan::changes(change, BodyOut::Nothing))
}

/// The command's own checks, once its caller and its subject are admitted.
///
/// Each is one call of a function that stays one: the compiler fills the places of all that a call leaves to be looked at, and of
/// all that is made part of this function, at its entry.
#[tactic(auto, unfolding(ks_machine::specs::Steps::own_checks))]
fn own_checks(
    alloc: Global,
    tables: &Tables,
    moment: u64,
    call: &Call,
    who: &Parties,
    facts: &Facts,
) -> Result<Plan, Halt>
    requires fit { Fit call.now }
    requires usable { AreUsable tables.now.people.now.users who.now }
    requires bytes { HasBytes (requirements call.now.command).draws call.now.draw }
    requires moment { tables.now.revoked.now.high ≤ moment }
    requires last { moment ≤ last_moment }
    requires life { tables.now.revoked.now.life ≡ tables.now.settings.now.life }
    requires settings { IsSettings tables.now.settings.now }
    ensures { (S : State) → Tells tables.now S → Plans result (own_checks (told facts.now) S (rows_told tables.now) moment call.now (parties_of who.now) call.now.command) }
{
    match &call.command {
        Command::Version => Ok(Plan::tells(BodyOut::Version)),
        Command::Versions => Ok(Plan::tells(BodyOut::Versions)),
        Command::Login(asked) => given::login(alloc, tables, moment, call, asked.get(), facts),
        Command::ChangePassword(id, original, password) => {
            given::change_password(alloc, tables, call, facts, id, original, password)
        }
        Command::Validate(_) | Command::Check(_) => told_subject(alloc, tables, &call.subject, who),
        Command::RevokeToken => revoked_subject(alloc, tables, &call.subject, who),
        Command::Create(made) => given::create(alloc, tables, call, who, facts, made.get()),
        Command::List(kind, filters) => list(alloc, tables, *kind, filters),
        Command::Get(kind, id) => get(alloc, tables, *kind, id),
        Command::Update(id, made) => update(alloc, tables, &call.draw, facts, id, made.get()),
        Command::Delete(kind, id) => delete(tables, *kind, id),
        Command::GroupsOf(id) => groups_of(alloc, tables, id),
        Command::ProjectsOf(id) => projects_of(alloc, tables, id),
        Command::MembersOf(id) => members_of(alloc, tables, id),
        Command::Join(row) => join(tables, row),
        Command::IsIn(row) => is_in(tables, row),
        Command::Leave(row) => leave(tables, row),
        Command::Implied(id) => implied(alloc, tables, id),
        Command::Imply(row) => imply(alloc, tables, row),
        Command::Implication(row) => implication(alloc, tables, row),
        Command::IsImplied(row) => is_implied(tables, row),
        Command::Unimply(row) => unimply(tables, row),
        Command::GrantsOf(actor, at, inherited) => grants_of(alloc, tables, actor, at, *inherited),
        Command::Grant(row) => grant(tables, row),
        Command::IsGranted(row) => is_granted(tables, row),
        Command::Ungrant(row) => ungrant(tables, row),
        Command::Assignments(filters) => assignments(alloc, tables, filters),
        Command::CreateTrust(asked) => {
            given::create_trust(alloc, tables, moment, call, who, asked.get())
        }
        Command::Trusts(filters) => list_trusts(alloc, tables, filters),
        Command::Trust(id) => get_trust(alloc, tables, id),
        Command::DeleteTrust(id) => delete_trust(tables, id),
        Command::TrustRoles(id) => roles_of_trust(alloc, tables, id),
        Command::Events => events(alloc, tables, moment),
        Command::RotateKeys => given::rotate_keys(alloc, tables, call),
        Command::LoadKeys => load_keys(alloc, tables, &call.folder),
        Command::CreateCatalog(asked) => given::create_catalog(alloc, tables, call, asked.get()),
        Command::ListCatalog(of, filters) => list(alloc, tables, RowKind::of_catalog(*of), filters),
        Command::GetCatalog(of, id) => get(alloc, tables, RowKind::of_catalog(*of), id),
        Command::UpdateCatalog(id, asked) => update_catalog(alloc, tables, id, asked.get()),
        Command::DeleteCatalog(of, id) => delete(tables, RowKind::of_catalog(*of), id),
        Command::ShowCatalog => given::show_catalog(alloc, tables, moment, call, facts),
        Command::CreateAppCred(user, asked) => {
            given::create_app_cred(alloc, tables, moment, call, who, facts, user, asked.get())
        }
        Command::ListAppCreds(user) => list_app_creds(alloc, tables, user),
        Command::GetAppCred(user, id) => get_app_cred(alloc, tables, user, id),
        Command::DeleteAppCred(user, id) => given::delete_app_cred(tables, who, user, id),
        Command::CreateSecret(asked) => given::create_secret(alloc, tables, call, asked),
        Command::ListSecrets => list_secrets(alloc, tables),
        Command::GetSecret(id) => get_secret(alloc, tables, id),
        Command::DeleteSecret(id) => delete_secret(tables, id),
    }
}
