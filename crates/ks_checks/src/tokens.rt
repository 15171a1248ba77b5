//! Tokens that a call shows: which must be valid, and what of.
ghost use Rattle.std.specs.Prelude.{◌≡◌, ◌≤◌, IfOk, false};
ghost use Rattle.ks_auth.specs.Answers.{Tells};
ghost use Rattle.ks_auth.specs.Facts.{told};
ghost use Rattle.ks_machine.specs.Attempts.{blame};
ghost use Rattle.ks_machine.specs.States.{State};
ghost use Rattle.ks_machine.specs.Admission.{caller_of, missing, subject_of};
ghost use Rattle.ks_machine.specs.Validity.{lacking, validity};
ghost use Rattle.ks_checks.specs.Plans.{Gives, valid_of};
ghost use Rattle.ks_checks.specs.Tokens.{IsUsable, blamed};

use crate::{Caller, Halt, Needs};
use ks_auth::{Facts, Tables, Verdict, validate};
use ks_base::{ListOf, Memory, ShapeFault, Text};
use ks_fernet::OpenAnswer;
use ks_machine::{Cause, Why};
use ks_ring::HeldKey;
use std::alloc::Global;

/// What a token is there for.
#[derive(Clone, Copy)]
pub enum Use {
    /// It is the caller's.
    Caller,
    /// The call is about it.
    Subject,
    /// A login shows it.
    Login,
}

/// What a token that is not valid is refused as.
fn blamed(used: Use, why: Why) -> Cause
    ensures { result ≡ blamed used why }
{
    match used {
        Use::Caller => Cause::CallerToken(why),
        Use::Subject => Cause::SubjectToken(why),
        Use::Login => Cause::Credentials,
    }
}

/// The keys without a fact about the text, above which none is known to open it.
#[tactic(auto, unfolding(ks_machine::specs::Validity::lacking))]
fn lacking(
    alloc: Global,
    facts: &Facts,
    keys: &[HeldKey],
    text: &Text,
) -> Result<ListOf<HeldKey>, Memory>
    ensures { IfOk result (λ list. list ≡ lacking (told facts.now) text.now keys.now) }
{
    let mut list = ListOf::new(alloc);
    for key in keys {
        match facts.opened(key, text) {
            None => list.push(*key)?,
            Some(OpenAnswer::Yes { .. }) => return Ok(list),
            Some(OpenAnswer::No | OpenAnswer::NotText) => {}
        }
    }
    Ok(list)
}

/// The token of this text, which must be valid. `late` says whether the call allows one that has expired.
pub fn valid(
    alloc: Global,
    tables: &Tables,
    moment: u64,
    text: &Text,
    late: bool,
    facts: &Facts,
    used: Use,
) -> Result<Caller, Halt>
    requires moment { tables.now.revoked.now.high ≤ moment }
    requires life { tables.now.revoked.now.life ≡ tables.now.settings.now.life }
    ensures valid { (S : State) → Tells tables.now S → Gives valid_of result (blame (blamed used) (validity (told facts.now) S moment late text.now)) }
    ensures usable { IfOk result (λ token. IsUsable tables.now.people.now.users token.payload) }
{
    match validate(alloc, tables, moment, text, late, facts)? {
        Verdict::Valid(payload, issued, roles) => Ok(Caller {
            payload,
            issued,
            roles,
        }),
        Verdict::Refused(why) => Err(Halt::Refused(blamed(used, why))),
        Verdict::Needs => {
            let keys = lacking(alloc, facts, tables.ring.held(), text)?;
            Err(Halt::Needs(Needs {
                keys,
                stored: None,
                fresh: None,
            }))
        }
    }
}

/// A field of the request that is missing.
pub fn missing(alloc: Global, name: &str) -> Result<Cause, Memory>
    ensures { IfOk result (λ cause. cause ≡ missing name.now) }
{
    Ok(Cause::Shape(ShapeFault::Missing(Text::of(alloc, name)?)))
}

/// The caller, by the text of a token.
#[inline(never)]
#[tactic(auto, unfolding(ks_machine::specs::Admission::caller_of))]
pub fn caller_of(
    alloc: Global,
    tables: &Tables,
    moment: u64,
    given: &Option<Text>,
    facts: &Facts,
) -> Result<Caller, Halt>
    requires moment { tables.now.revoked.now.high ≤ moment }
    requires life { tables.now.revoked.now.life ≡ tables.now.settings.now.life }
    ensures caller { (S : State) → Tells tables.now S → Gives valid_of result (caller_of (told facts.now) S moment given.now) }
    ensures usable { IfOk result (λ token. IsUsable tables.now.people.now.users token.payload) }
{
    match given {
        Some(text) => valid(alloc, tables, moment, text, false, facts, Use::Caller),
        None => Err(Halt::Refused(Cause::NoToken)),
    }
}

/// The token that a call is about.
#[tactic(auto, unfolding(ks_machine::specs::Admission::subject_of))]
pub fn subject_of(
    alloc: Global,
    tables: &Tables,
    moment: u64,
    late: bool,
    given: &Option<Text>,
    facts: &Facts,
) -> Result<Caller, Halt>
    requires moment { tables.now.revoked.now.high ≤ moment }
    requires life { tables.now.revoked.now.life ≡ tables.now.settings.now.life }
    ensures subject { (S : State) → Tells tables.now S → Gives valid_of result (subject_of (told facts.now) S moment late given.now) }
    ensures usable { IfOk result (λ token. IsUsable tables.now.people.now.users token.payload) }
{
    match given {
        Some(text) => valid(alloc, tables, moment, text, late, facts, Use::Subject),
        None => Err(Halt::Refused(missing(alloc, "X-Subject-Token")?)),
    }
}
