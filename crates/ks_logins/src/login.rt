//! Logins (Identity API v3, authentication): who the caller shows to be, and the token that is given.
ghost use Rattle.std.specs.Prelude.{◌≡◌, ◌≤◌, is_some, IfOk, IfSome, IsSome};
ghost use Rattle.ks_auth.specs.Answers.{Tells};
ghost use Rattle.ks_auth.specs.Facts.{told};
ghost use Rattle.ks_base.specs.declared.limits.TheConstants.{LONGEST_LIFE};
ghost use Rattle.ks_base.specs.declared.receipt.Drawn.TheVariants as drawns;
ghost use Rattle.ks_base.specs.Ids.{IsId};
ghost use Rattle.ks_base.specs.Rows.{user_of};
ghost use Rattle.ks_machine.specs.Login.{login, new_payload, seal, token_given, use_of};
ghost use Rattle.ks_machine.specs.Moment.{last_moment};
ghost use Rattle.ks_machine.specs.States.{State};
ghost use Rattle.ks_payload.specs.Payloads.{IsInRange, IsSixteenBytes, has_credential, has_domain, has_project, has_trust, spelling};
ghost use Rattle.ks_logins.specs.Logins.{IsShown, scoped_of, shown_of, trust_at};
ghost use Rattle.ks_checks.specs.Plans.{Plans, outcome_of};

use crate::bearers::{Bearer, shown};
use crate::scopes::{TokenPlace, TokenScope, scoped_by};
use ks_auth::{Facts, Tables};
use ks_base::{Boxed, Id, Memory, Text};
use ks_checks::draws::{id_bytes, salt};
use ks_checks::told::told_token;
use ks_checks::{Halt, Plan};
use ks_fernet::seal;
use ks_machine::{BodyOut, Change, LoginBody};
use ks_payload::Payload;
use std::alloc::Global;

/// Each id is one.
fn is_id(id: &Id)
    ensures { IsId id.now }
{
    let _bytes = id.as_slice();
}

fn is_id_if_any(id: &Option<Id>)
    ensures { IfSome id.now IsId }
{
    match id {
        Some(id) => is_id(id),
        None => {}
    }
}

/// 16 bytes are 16 bytes.
fn is_sixteen(bytes: &[u8; 16])
    ensures { IsSixteenBytes bytes.now }
{
    let _bytes = bytes.as_slice();
}

fn is_sixteen_if_any(bytes: &Option<[u8; 16]>)
    ensures { IfSome bytes.now IsSixteenBytes }
{
    match bytes {
        Some(bytes) => is_sixteen(bytes),
        None => {}
    }
}

/// A payload of this kind, with the ids that it asks for.
fn payload_of(
    shown: &Bearer,
    user: Id,
    audit: [u8; 16],
    kind: u8,
    domain: Option<Id>,
    project: Option<Id>,
    trust: Option<Id>,
    credential: Option<Id>,
) -> Payload
    requires shown { IsShown shown.now }
    requires kind { kind ≤ 5 }
    requires domain { is_some domain ≡ has_domain kind }
    requires project { is_some project ≡ has_project kind }
    requires trust { is_some trust ≡ has_trust kind }
    requires credential { is_some credential ≡ has_credential kind }
    ensures payload { result ≡ record { kind = kind; methods = shown.now.methods; user = user; domain = domain; project = project; trust = trust; expires = shown.now.expires; audit = audit; chain = shown.now.chain; credential = credential } }
    ensures range { IsInRange result }
{
    is_id(&user);
    is_id_if_any(&domain);
    is_id_if_any(&project);
    is_id_if_any(&trust);
    is_id_if_any(&credential);
    is_sixteen(&audit);
    is_sixteen_if_any(&shown.chain);
    Payload {
        kind,
        methods: shown.methods,
        user,
        domain,
        project,
        trust,
        expires: shown.expires,
        audit,
        chain: shown.chain,
        credential,
    }
}

/// What the token says.
fn new_payload(shown: &Bearer, scope: &TokenScope, audit: [u8; 16]) -> Payload
    requires { IsShown shown.now }
    ensures payload { result ≡ new_payload (shown_of shown.now) (scoped_of scope.now) audit }
    ensures range { IsInRange result }
{
    let user = scope.user;
    match scope.place {
        TokenPlace::Unscoped => payload_of(shown, user, audit, 0, None, None, None, None),
        TokenPlace::Domain(id) => payload_of(shown, user, audit, 1, Some(id), None, None, None),
        TokenPlace::Project(id) => payload_of(shown, user, audit, 2, None, Some(id), None, None),
        TokenPlace::Trust(trust, id) => {
            payload_of(shown, user, audit, 3, None, Some(id), Some(trust.id), None)
        }
        TokenPlace::System => payload_of(shown, user, audit, 4, None, None, None, None),
        TokenPlace::AppCred(cred, id) => {
            payload_of(shown, user, audit, 5, None, Some(id), None, Some(cred))
        }
    }
}

/// The use that is taken of a trust whose uses are numbered.
fn use_of(place: &TokenPlace) -> Option<Change>
    ensures { result ≡ use_of (trust_at place.now) }
{
    match place {
        TokenPlace::Trust(trust, _) => trust.remaining.map(|_| Change::UseTrust(trust.id)),
        TokenPlace::Unscoped | TokenPlace::Domain(_) | TokenPlace::Project(_) => None,
        TokenPlace::System | TokenPlace::AppCred(_, _) => None,
    }
}

/// The text of a token: its payload, sealed by the primary key.
fn sealed(
    alloc: Global,
    tables: &Tables,
    moment: u64,
    iv: &[u8; 16],
    payload: &Payload,
) -> Result<Text, Memory>
    requires { IsInRange payload.now }
    ensures { IfOk result (λ text. text ≡ seal tables.now.ring.now.held moment iv.now (spelling payload.now)) }
{
    let plain = payload.write(alloc)?;
    let key = &tables.ring.primary().key;
    seal(alloc, key, moment, iv, plain.as_slice())
}

/// The token that is given.
#[tactic(auto, unfolding(ks_machine::specs::Login::token_given))]
fn token_given(
    alloc: Global,
    tables: &Tables,
    moment: u64,
    drawn: &[u8; 64],
    shown: &Bearer,
    scope: &TokenScope,
) -> Result<Plan, Memory>
    requires shown { IsShown shown.now }
    requires stands { IsSome (user_of scope.now.user tables.now.people.now.users) }
    ensures { (S : State) → Tells tables.now S → IfOk result (λ plan. outcome_of plan ≡ token_given S moment (drawns.Bytes drawn.now) (shown_of shown.now) (scoped_of scope.now)) }
{
    let payload = new_payload(shown, scope, id_bytes(drawn));
    let text = sealed(alloc, tables, moment, &salt(drawn), &payload)?;
    let told = told_token(alloc, tables, text, true, &payload, moment, &scope.roles)?;
    Ok(Plan {
        told: BodyOut::Token(Boxed::new(alloc, told)?),
        change: use_of(&scope.place),
    })
}

/// A login.
#[inline(never)]
#[tactic(auto, unfolding(ks_machine::specs::Login::login))]
pub fn login(
    alloc: Global,
    tables: &Tables,
    moment: u64,
    drawn: &[u8; 64],
    asked: &LoginBody,
    facts: &Facts,
) -> Result<Plan, Halt>
    requires moment { tables.now.revoked.now.high ≤ moment }
    requires life { tables.now.revoked.now.life ≡ tables.now.settings.now.life }
    requires last { moment ≤ last_moment }
    requires longest { tables.now.settings.now.life ≤ LONGEST_LIFE }
    ensures { (S : State) → Tells tables.now S → Plans result (login (told facts.now) S moment (drawns.Bytes drawn.now) asked.now) }
{
    let who = shown(alloc, tables, moment, &asked.proof, facts)?;
    let scope = scoped_by(alloc, tables, moment, &who, &asked.scope)?;
    Ok(token_given(alloc, tables, moment, drawn, &who, &scope)?)
}
