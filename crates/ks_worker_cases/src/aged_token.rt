//! A token whose key is rotated away while it is validated.
ghost use Rattle.std.specs.Prelude.{◌≡◌, ◌≤◌, IfOk};
ghost use Rattle.ks_machine.specs.Fit.{Fit};

use crate::calls::{ANN, BOB, rotate, validate};
use crate::gates::HoldingGate;
use crate::workers::{Replies, beside, make, token_for};
use anyhow::{Result, bail, ensure};
use ks_base::Text;
use ks_machine::{BodyOut, Call, Cause, Reply, Why};
use ks_outside::{Open, Place};
use ks_state::Identity;
use ks_turn::{First, Pass, Turn};
use std::alloc::Global;
use std::sync::Wait;
use std::thread::Threads;

/// bob's token is sealed with the key of index 1. After a rotation ann logs in, so that her token is sealed with the key
/// of index 2, and validates bob's token. Before she does so again, and is about to open it, her own is validated and the
/// keys are rotated, so that the key of index 1 is gone. Then bob's token is unknown.
pub fn try_case<N: First + Send + Sync, R: Threads + Wait + Sync>(
    alloc: Global,
    rt: &R,
    turn: &Turn<Identity, N>,
    pass: Pass<N>,
) -> Result<()>
    requires own { pass.turn ≡ turn.now }
    requires weight { pass.weight ≡ 1000000 }
{
    let (pass, subject) = token_for(alloc, rt, turn, pass, BOB, "hunter2", 1)?;
    let (pass, caller) = token_for(alloc, rt, turn, pass, ANN, "secret", 2)?;
    let pass = rotate_first(alloc, rt, turn, pass, &caller)?;
    let (pass, caller) = token_for(alloc, rt, turn, pass, ANN, "secret", 4)?;
    let held = validate(&caller, &subject)?;
    let pass = validate_first(alloc, rt, turn, pass, &held)?;
    hold_back(alloc, rt, turn, pass, &caller, &held)
}

/// The first rotation, by which the key of index 1 is kept.
fn rotate_first<N: First, R: Wait>(
    alloc: Global,
    rt: &R,
    turn: &Turn<Identity, N>,
    pass: Pass<N>,
    caller: &Text,
) -> Result<Pass<N>>
    requires own { pass.turn ≡ turn.now }
    ensures { IfOk result (λ next. (next.turn ≡ pass.turn) × (next.weight ≡ pass.weight)) }
{
    let call = rotate(caller, 3)?;
    let (pass, reply) = make(alloc, rt, turn, pass, &call, &Open);
    ensure!(are_keys(&reply, &[0, 1, 2]), "the first rotation fails");
    Ok(pass)
}

/// The first validation of bob's token.
fn validate_first<N: First, R: Wait>(
    alloc: Global,
    rt: &R,
    turn: &Turn<Identity, N>,
    pass: Pass<N>,
    call: &Call,
) -> Result<Pass<N>>
    requires own { pass.turn ≡ turn.now }
    requires fit { Fit call.now }
    ensures { IfOk result (λ next. (next.turn ≡ pass.turn) × (next.weight ≡ pass.weight)) }
{
    let (pass, reply) = make(alloc, rt, turn, pass, call, &Open);
    ensure!(is_token(&reply), "the token is refused from the start");
    Ok(pass)
}

/// The validation that is held where it is about to open tokens, and what is done meanwhile.
fn hold_back<N: First + Send + Sync, R: Threads + Wait + Sync>(
    alloc: Global,
    rt: &R,
    turn: &Turn<Identity, N>,
    pass: Pass<N>,
    caller: &Text,
    held: &Call,
) -> Result<()>
    requires own { pass.turn ≡ turn.now }
    requires weight { 2 ≤ pass.weight }
    requires fit { Fit held.now }
{
    let gate = HoldingGate::new(Place::Opening);
    let first = validate(caller, caller)?;
    let second = rotate(caller, 5)?;
    let (_, replies) = beside(alloc, rt, turn, pass, &gate, held, &first, &second);
    gate.ensure_met()?;
    judge(&replies)
}

fn judge(replies: &Replies) -> Result<()> {
    ensure!(
        is_token(&replies.first),
        "the caller's own token is refused"
    );
    ensure!(
        are_keys(&replies.second, &[0, 2, 3]),
        "the second rotation fails"
    );
    match &replies.held {
        Reply::Refused(Cause::SubjectToken(Why::Key)) => Ok(()),
        Reply::Refused(_) => bail!("the token is refused for another cause"),
        Reply::Ok(_) => bail!("the token is opened with a key that is gone"),
    }
}

fn is_token(reply: &Reply) -> bool {
    matches!(reply, Reply::Ok(BodyOut::Token(_)))
}

/// Whether the reply tells that keys of these indices are held.
fn are_keys(reply: &Reply, indices: &[u32]) -> bool {
    match reply {
        Reply::Ok(BodyOut::Keys(held, _)) => held.as_slice() == indices,
        _ => false,
    }
}
