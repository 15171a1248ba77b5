//! A rule of the methods of a login that is set while a password is derived.
ghost use Rattle.std.specs.Prelude.{◌≡◌, ◌≤◌};

use crate::calls::{ANN, BOB, ask_for_code, log_in};
use crate::gates::HoldingGate;
use crate::workers::{Replies, beside, token_for};
use anyhow::{Result, bail, ensure};
use ks_base::Text;
use ks_machine::{BodyOut, Cause, Reply};
use ks_outside::Place;
use ks_state::Identity;
use ks_turn::{First, Pass, Turn};
use std::alloc::Global;
use std::sync::Wait;
use std::thread::Threads;

/// bob logs in with his password, as he did before. Before it is derived, ann has him show a code besides. Then his password
/// alone is refused, to which the rule counts that stands when the login is decided.
pub fn try_case<N: First + Send + Sync, R: Threads + Wait + Sync>(
    alloc: Global,
    rt: &R,
    turn: &Turn<Identity, N>,
    pass: Pass<N>,
) -> Result<()>
    requires own { pass.turn ≡ turn.now }
    requires weight { pass.weight ≡ 1000000 }
{
    let (pass, _) = token_for(alloc, rt, turn, pass, BOB, "hunter2", 1)?;
    let (pass, caller) = token_for(alloc, rt, turn, pass, ANN, "secret", 2)?;
    hold_back(alloc, rt, turn, pass, &caller)
}

/// The login that is held where it is about to derive the password, and what is done meanwhile.
fn hold_back<N: First + Send + Sync, R: Threads + Wait + Sync>(
    alloc: Global,
    rt: &R,
    turn: &Turn<Identity, N>,
    pass: Pass<N>,
    caller: &Text,
) -> Result<()>
    requires own { pass.turn ≡ turn.now }
    requires weight { 2 ≤ pass.weight }
{
    let gate = HoldingGate::new(Place::Deriving);
    let held = log_in(alloc, BOB, "hunter2", 3)?;
    let first = ask_for_code(alloc, caller, BOB, 4)?;
    let second = log_in(alloc, BOB, "hunter2", 5)?;
    let (_, replies) = beside(alloc, rt, turn, pass, &gate, &held, &first, &second);
    // The gate held the one derivation that a login takes.
    gate.ensure_reached(2, 1)?;
    judge(&replies)
}

fn judge(replies: &Replies) -> Result<()> {
    ensure!(
        matches!(&replies.first, Reply::Ok(BodyOut::One(_, false))),
        "the rule is not set"
    );
    ensure!(
        matches!(&replies.second, Reply::Refused(Cause::Credentials)),
        "a later login by the password alone is not refused"
    );
    match &replies.held {
        Reply::Refused(Cause::Credentials) => Ok(()),
        Reply::Refused(_) => bail!("the login is refused for another cause"),
        Reply::Ok(_) => bail!("the login goes by rules that are gone"),
    }
}
