//! Who makes a call, by the caller's token alone.
ghost use Rattle.std.specs.Prelude.{◌≡◌, IfSome, None, false};
ghost use Rattle.ks_service.specs.Callers.{IsSaidBy, Says};

use crate::opens::Opens;
use ks_auth::Facts;
use ks_base::{Boxed, Id, Text};
use ks_fernet::OpenAnswer;
use ks_machine::Call;
use ks_payload::Payload;
use ks_ring::HeldKey;
use std::alloc::Global;

/// The payload behind a pointer, where there is memory for it.
fn held_apart(alloc: Global, payload: Payload) -> Option<Boxed<Payload>>
    ensures { IfSome result (λ apart. apart ≡ payload) }
{
    // The borrow checker knows a type that stands in another only where a function names it.
    let _whose: &Id = &payload.user;
    Boxed::new(alloc, payload).ok()
}

/// What the text says, where this key is known to open it.
fn said_with(alloc: Global, facts: &Facts, held: &HeldKey, text: &Text) -> Option<Boxed<Payload>>
    ensures { IfSome result (Says text.now) }
{
    match facts.opened(held, text) {
        Some(OpenAnswer::Yes { time: _, plain }) => match Payload::read(plain.as_slice()) {
            Ok(Some(payload)) => held_apart(alloc, payload),
            Ok(None) | Err(_) => None,
        },
        Some(OpenAnswer::No | OpenAnswer::NotText) | None => None,
    }
}

/// What the text says, where one of these keys is known to open it.
fn said<K: Opens>(alloc: Global, facts: &Facts, keys: &[K], text: &Text) -> Option<Boxed<Payload>>
    ensures { IfSome result (Says text.now) }
{
    for key in keys {
        if let Some(payload) = said_with(alloc, facts, &key.held(), text) {
            return Some(payload);
        }
    }
    None
}

/// Takes down what the caller's token says, where that is asked for, is not known yet, and one of these keys is now known
/// to open it.
pub(crate) fn hear<K: Opens>(
    alloc: Global,
    caller: &mut Option<Boxed<Payload>>,
    hears: bool,
    facts: &Facts,
    keys: &[K],
    call: &Call,
)
    ensures said { IfSome caller.old (IsSaidBy call.now.caller) → IfSome caller.new (IsSaidBy call.now.caller) }
    ensures unheard { hears ≡ false → caller.new ≡ caller.old }
{
    if !hears || caller.is_some() {
        return;
    }
    if let Some(text) = &call.caller {
        *caller = said(alloc, facts, keys, text);
    }
}

/// What the caller's token says, where that is asked for and one of these keys is known to open it before the call is decided.
pub(crate) fn first_heard<K: Opens>(
    alloc: Global,
    hears: bool,
    facts: &Facts,
    keys: &[K],
    call: &Call,
) -> Option<Boxed<Payload>>
    ensures said { IfSome result (IsSaidBy call.now.caller) }
    ensures unheard { hears ≡ false → result ≡ None }
{
    let mut caller = None;
    hear(alloc, &mut caller, hears, facts, keys, call);
    caller
}
