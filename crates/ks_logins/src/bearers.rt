//! Who a login shows to be (Identity API v3, authentication).
ghost use Rattle.std.specs.Prelude.{◌≡◌, ◌+◌, ◌≤◌, Some, None, IfOk, IfSome, IsSome};
ghost use Rattle.std.specs.Option.{option_copied};
ghost use Rattle.ks_auth.specs.Answers.{Tells};
ghost use Rattle.ks_auth.specs.Facts.{told};
ghost use Rattle.ks_base.specs.declared.limits.TheConstants.{LONGEST_LIFE};
ghost use Rattle.ks_base.specs.Rows.{user_of};
ghost use Rattle.ks_machine.specs.Attempts.{Known};
ghost use Rattle.ks_machine.specs.declared.bodies.Proof.TheVariants as proofs;
ghost use Rattle.ks_machine.specs.Login.{shown, shown_by, shown_by_token, with_token};
ghost use Rattle.ks_machine.specs.Moment.{last_moment};
ghost use Rattle.ks_machine.specs.States.{State};
ghost use Rattle.ks_payload.specs.Payloads.{IsInRange};
ghost use Rattle.ks_logins.specs.Logins.{AreStanding, IsShown, shown_of};
ghost use Rattle.ks_checks.specs.Plans.{Gives, valid_of};

use ks_auth::{Facts, Tables};
use ks_base::{AppCredRow, Id, Text};
use ks_checks::checks::need;
use ks_checks::named::{cred_in, user_in};
use ks_checks::tested::{by_code, by_password, by_secret, meets};
use ks_checks::tokens::{Use, valid};
use ks_checks::{Caller, Halt};
use ks_machine::{Cause, CredNamed, Proof, UserNamed};
use std::alloc::Global;

/// The bit of the method `password`.
const PASSWORD: u8 = 1;
/// The bit of the method `token`.
const TOKEN: u8 = 2;
/// The bit of the method `totp`.
const TOTP: u8 = 4;
/// The bit of the method `application_credential`.
const APP_CRED: u8 = 8;

/// Who shows to be whom, and what a token of theirs takes over: its methods, its expiry and the audit id of its
/// chain; and the application credential by which they log in, if it is one.
#[derive(Clone, Copy)]
pub struct Bearer<'a> {
    pub user: Id,
    pub methods: u8,
    pub expires: u64,
    pub chain: Option<[u8; 16]>,
    pub credential: Option<&'a AppCredRow>,
}

/// The methods with that of a token.
fn with_token(methods: u8) -> u8
    requires { methods ≤ 15 }
    ensures methods { result ≡ with_token methods }
    ensures few { result ≤ 15 }
    ensures some { 1 ≤ result }
{
    if methods / TOKEN % 2 == 1 {
        methods
    } else {
        methods + TOKEN
    }
}

fn shown_by_token<'a>(token: &Caller) -> Bearer<'a>
    requires { IsInRange token.now.payload }
    ensures shown { shown_of result ≡ shown_by_token (valid_of token.now) }
    ensures none { result.credential ≡ None }
    ensures range { IsShown result }
{
    let payload = &token.payload;
    Bearer {
        user: payload.user,
        methods: with_token(payload.methods),
        expires: payload.expires,
        chain: Some(payload.chain.unwrap_or(payload.audit)),
        credential: None,
    }
}

/// A user that shows these methods, for as long as a token lives.
fn shows<'a>(
    tables: &Tables,
    moment: u64,
    user: Id,
    methods: u8,
    credential: Option<&'a AppCredRow>,
) -> Bearer<'a>
    requires last { moment ≤ last_moment }
    requires longest { tables.now.settings.now.life ≤ LONGEST_LIFE }
    requires some { 1 ≤ methods }
    requires few { methods ≤ 15 }
    ensures shown { shown_of result ≡ record { user = user; methods = methods; expires = moment + tables.now.settings.now.life; chain = None; credential = option_copied credential.entry } }
    ensures stands { IsSome (user_of user tables.now.people.now.users) → IfSome credential.entry (λ cred. IsSome (user_of cred.now.user tables.now.people.now.users)) → AreStanding tables.now.people.now.users result }
    ensures range { IsShown result }
{
    Bearer {
        user,
        methods,
        expires: moment + tables.settings.life,
        chain: None,
        credential,
    }
}

/// A user that shows these methods, where its rules ask for no other.
#[tactic(auto, unfolding(ks_machine::specs::Login::shown_by))]
fn shown_by<'a>(
    tables: &Tables<'a>,
    moment: u64,
    user: &Id,
    methods: u8,
) -> Result<Bearer<'a>, Halt>
    requires last { moment ≤ last_moment }
    requires longest { tables.now.settings.now.life ≤ LONGEST_LIFE }
    requires some { 1 ≤ methods }
    requires few { methods ≤ 15 }
    requires stands { IsSome (user_of user.now tables.now.people.now.users) }
    ensures shown { (S : State) → Tells tables.now S → Gives shown_of result (shown_by S moment user.now methods) }
    ensures range { IfOk result IsShown }
    ensures stands { IfOk result (AreStanding tables.now.people.now.users) }
{
    meets(tables, user, methods)?;
    Ok(shows(tables, moment, *user, methods, None))
}

/// By a password.
#[tactic(auto, unfolding(ks_machine::specs::Login::shown))]
fn shown_by_password<'a>(
    alloc: Global,
    tables: &Tables<'a>,
    moment: u64,
    facts: &Facts,
    named: &UserNamed,
    password: &Text,
) -> Result<Bearer<'a>, Halt>
    requires last { moment ≤ last_moment }
    requires longest { tables.now.settings.now.life ≤ LONGEST_LIFE }
    ensures shown { (S : State) → Tells tables.now S → Gives shown_of result (shown (told facts.now) S moment (proofs.Password named.now password.now)) }
    ensures range { IfOk result IsShown }
    ensures stands { IfOk result (AreStanding tables.now.people.now.users) }
{
    let user = by_password(alloc, tables, facts, user_in(tables, named), password)?;
    shown_by(tables, moment, &user.id, PASSWORD)
}

/// By a token, which is of no trust and of no application credential.
#[tactic(auto, unfolding(ks_machine::specs::Login::shown))]
fn shown_by_text<'a>(
    alloc: Global,
    tables: &Tables<'a>,
    moment: u64,
    facts: &Facts,
    text: &Text,
) -> Result<Bearer<'a>, Halt>
    requires moment { tables.now.revoked.now.high ≤ moment }
    requires life { tables.now.revoked.now.life ≡ tables.now.settings.now.life }
    ensures shown { (S : State) → Tells tables.now S → Gives shown_of result (shown (told facts.now) S moment (proofs.Token text.now)) }
    ensures range { IfOk result IsShown }
    ensures stands { IfOk result (AreStanding tables.now.people.now.users) }
{
    let token = valid(alloc, tables, moment, text, false, facts, Use::Login)?;
    need(token.payload.trust.is_none(), Cause::TrustToken)?;
    need(token.payload.credential.is_none(), Cause::TrustToken)?;
    Ok(shown_by_token(&token))
}

/// By an application credential, whose user needs to meet no rules.
#[tactic(auto, unfolding(ks_machine::specs::Login::shown))]
fn shown_by_cred<'a>(
    alloc: Global,
    tables: &Tables<'a>,
    moment: u64,
    facts: &Facts,
    named: &CredNamed,
    secret: &Text,
) -> Result<Bearer<'a>, Halt>
    requires last { moment ≤ last_moment }
    requires longest { tables.now.settings.now.life ≤ LONGEST_LIFE }
    ensures shown { (S : State) → Tells tables.now S → Gives shown_of result (shown (told facts.now) S moment (proofs.AppCred named.now secret.now)) }
    ensures range { IfOk result IsShown }
    ensures stands { IfOk result (AreStanding tables.now.people.now.users) }
{
    let cred = by_secret(alloc, tables, moment, facts, cred_in(tables, named), secret)?;
    Ok(shows(tables, moment, cred.user, APP_CRED, Some(cred)))
}

/// By a one-time code.
#[tactic(auto, unfolding(ks_machine::specs::Login::shown))]
fn shown_by_code<'a>(
    tables: &Tables<'a>,
    moment: u64,
    named: &UserNamed,
    code: u32,
) -> Result<Bearer<'a>, Halt>
    requires last { moment ≤ last_moment }
    requires longest { tables.now.settings.now.life ≤ LONGEST_LIFE }
    ensures shown { (known : Known) (S : State) → Tells tables.now S → Gives shown_of result (shown known S moment (proofs.Totp named.now code)) }
    ensures range { IfOk result IsShown }
    ensures stands { IfOk result (AreStanding tables.now.people.now.users) }
{
    let user = by_code(tables, moment, user_in(tables, named), code)?;
    shown_by(tables, moment, &user.id, TOTP)
}

/// By a password and a one-time code of one user.
#[tactic(auto, unfolding(ks_machine::specs::Login::shown))]
fn shown_by_both<'a>(
    alloc: Global,
    tables: &Tables<'a>,
    moment: u64,
    facts: &Facts,
    named: &UserNamed,
    password: &Text,
    coded: &UserNamed,
    code: u32,
) -> Result<Bearer<'a>, Halt>
    requires last { moment ≤ last_moment }
    requires longest { tables.now.settings.now.life ≤ LONGEST_LIFE }
    ensures shown { (S : State) → Tells tables.now S → Gives shown_of result (shown (told facts.now) S moment (proofs.Both named.now password.now coded.now code)) }
    ensures range { IfOk result IsShown }
    ensures stands { IfOk result (AreStanding tables.now.people.now.users) }
{
    let user = by_password(alloc, tables, facts, user_in(tables, named), password)?;
    let other = by_code(tables, moment, user_in(tables, coded), code)?;
    need(user.id == other.id, Cause::Credentials)?;
    shown_by(tables, moment, &user.id, PASSWORD + TOTP)
}

/// Who a login shows to be.
pub fn shown<'a>(
    alloc: Global,
    tables: &Tables<'a>,
    moment: u64,
    proof: &Proof,
    facts: &Facts,
) -> Result<Bearer<'a>, Halt>
    requires moment { tables.now.revoked.now.high ≤ moment }
    requires life { tables.now.revoked.now.life ≡ tables.now.settings.now.life }
    requires last { moment ≤ last_moment }
    requires longest { tables.now.settings.now.life ≤ LONGEST_LIFE }
    ensures shown { (S : State) → Tells tables.now S → Gives shown_of result (shown (told facts.now) S moment proof.now) }
    ensures range { IfOk result IsShown }
    ensures stands { IfOk result (AreStanding tables.now.people.now.users) }
{
    match proof {
        Proof::Password(named, password) => {
            shown_by_password(alloc, tables, moment, facts, named, password)
        }
        Proof::Token(text) => shown_by_text(alloc, tables, moment, facts, text),
        Proof::AppCred(named, secret) => {
            shown_by_cred(alloc, tables, moment, facts, named, secret)
        }
        Proof::Totp(named, code) => shown_by_code(tables, moment, named, *code),
        Proof::Both(named, password, coded, code) => shown_by_both(
            alloc, tables, moment, facts, named, password, coded, *code,
        ),
    }
}
