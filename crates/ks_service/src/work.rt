//! The work that decisions ask for.
ghost use Rattle.std.specs.Prelude.{◌≡◌, true, IfOk, IfSome, OnOk, map, option_copied};
ghost use Rattle.ks_auth.specs.Facts.{has_opened};
ghost use Rattle.ks_fernet.specs.Opening.{open_of};
ghost use Rattle.ks_machine.specs.Ranges.{AreRounds};
ghost use Rattle.ks_service.specs.Work.{AreDerivable, AreKept, IsDerived, IsDone, IsOpened, is_open, secrets_in};

use crate::opens::Opens;
use crate::secrets::{Secrets, new_secret};
use ks_auth::Facts;
use ks_base::{Memory, Text};
use ks_fernet::OpenAnswer;
use ks_machine::{Call, Derived};
use ks_outside::{Gate, Place};
use ks_state::Needs;
use std::alloc::Global;

/// Opens each token text of the call with the keys that are named, as far as the first that opens it, and derives its
/// passwords and secrets with the salts and rounds that are named for them. What is known already is not done again.
#[tactic(auto, using(crate::proofs::FactLemmas::opened_held, crate::proofs::FactLemmas::opened_later))]
pub(crate) fn work<G: Gate>(
    alloc: Global,
    needs: &Needs,
    call: &Call,
    facts: &mut Facts,
    gate: &G,
) -> Result<(), Memory>
    requires { AreDerivable needs.now }
    ensures done { OnOk result (IsDone needs.now call.now facts.new) }
    ensures kept { OnOk result (AreKept facts.old facts.new) }
{
    open_tokens(alloc, needs.keys.as_slice(), call, facts, gate)?;
    let secrets = Secrets::of(call);
    derive(needs.stored.as_ref(), secrets.shown, facts, gate)?;
    let set = new_secret(alloc, call)?;
    derive(needs.fresh.as_ref(), set.as_ref(), facts, gate)
}

/// Opens each token text of the call with these keys, as far as the first that opens it.
#[tactic(auto, using(crate::proofs::FactLemmas::opened_later))]
pub(crate) fn open_tokens<K: Opens, G: Gate>(
    alloc: Global,
    keys: &[K],
    call: &Call,
    facts: &mut Facts,
    gate: &G,
) -> Result<(), Memory>
    ensures caller { OnOk result (IfSome call.now.caller (IsOpened (map K.stands_for keys.now) facts.new)) }
    ensures subject { OnOk result (IfSome call.now.subject (IsOpened (map K.stands_for keys.now) facts.new)) }
    ensures token { OnOk result (IfSome (secrets_in call.now).token (IsOpened (map K.stands_for keys.now) facts.new)) }
    ensures kept { OnOk result (AreKept facts.old facts.new) }
{
    open_with(alloc, keys, call.caller.as_ref(), facts, gate)?;
    open_with(alloc, keys, call.subject.as_ref(), facts, gate)?;
    let secrets = Secrets::of(call);
    open_with(alloc, keys, secrets.token, facts, gate)
}

/// Opens the text, if there is one, with the keys in their order, as far as the first that opens it.
fn open_with<K: Opens, G: Gate>(
    alloc: Global,
    keys: &[K],
    text: Option<&Text>,
    facts: &mut Facts,
    gate: &G,
) -> Result<(), Memory>
    ensures opened { OnOk result (IfSome (option_copied text.entry) (IsOpened (map K.stands_for keys.now) facts.new)) }
    ensures kept { OnOk result (AreKept facts.old facts.new) }
{
    let Some(text) = text else {
        return Ok(());
    };
    for key in keys {
        if open_by(alloc, key, text, facts, gate)? {
            return Ok(());
        }
    }
    Ok(())
}

/// Opens the text with the key, unless what the key makes of it is known, and tells whether the key opens it.
fn open_by<K: Opens, G: Gate>(
    alloc: Global,
    key: &K,
    text: &Text,
    facts: &mut Facts,
    gate: &G,
) -> Result<bool, Memory>
    ensures known { OnOk result (has_opened (K.stands_for key.now) text.now facts.new.opened ≡ true) }
    ensures opens { IfOk result (λ opens. opens ≡ is_open (open_of (K.stands_for key.now).key text.now)) }
    ensures kept { OnOk result (AreKept facts.old facts.new) }
{
    if let Some(answer) = facts.opened(&key.held(), text) {
        return Ok(is_open(answer));
    }
    gate.at(Place::Opening);
    let fact = key.open(alloc, text)?;
    let opens = is_open(fact.answer());
    facts.add_opened(fact)?;
    Ok(opens)
}

fn is_open(answer: &OpenAnswer) -> bool
    ensures { result ≡ is_open answer.now }
{
    matches!(answer, OpenAnswer::Yes { .. })
}

/// Derives the password, if there is one and it is asked for, unless that is known.
fn derive<G: Gate>(
    asked: Option<&([u8; 16], u32)>,
    password: Option<&Text>,
    facts: &mut Facts,
    gate: &G,
) -> Result<(), Memory>
    requires { IfSome (option_copied asked) (λ by. AreRounds by.1) }
    ensures derived { OnOk result (IfSome (option_copied asked.entry) (λ by. IfSome (option_copied password.entry) (IsDerived by facts.new))) }
    ensures kept { OnOk result (AreKept facts.old facts.new) }
{
    let Some(by) = asked else {
        return Ok(());
    };
    let Some(password) = password else {
        return Ok(());
    };
    let (salt, rounds) = *by;
    if facts.derived(password, &salt, rounds).is_some() {
        return Ok(());
    }
    gate.at(Place::Deriving);
    facts.add_derived(Derived::of(password.copy()?, salt, rounds))
}
