//! A password that is changed while a login with it is derived.
ghost use Rattle.std.specs.Prelude.{◌≡◌, ◌≤◌, IfOk};
ghost use Rattle.ks_machine.specs.Fit.{Fit};
ghost use Rattle.ks_machine.specs.Fronts.{Front};
ghost use Rattle.ks_state.specs.Standing.{StandsWithAllKept};

use crate::calls::{BOB, change_password, id, log_in};
use crate::gates::HoldingGate;
use crate::opening;
use crate::workers::{Replies, beside};
use anyhow::{Context, Result, bail, ensure};
use ks_auth::Facts;
use ks_machine::{BodyOut, Call, Cause, Reply};
use ks_outside::Place;
use ks_state::{Decision, Identity};
use ks_turn::{First, Pass, Turn};
use std::alloc::Global;
use std::sync::Wait;
use std::thread::Threads;

/// bob logs in with the old password. Before it is derived, he changes it, and logs in with the new one. Then the old one
/// is derived with the old salt and, since the salt is another now, once more; and it is refused.
pub fn try_case<N: First + Send + Sync, R: Threads + Wait + Sync>(
    alloc: Global,
    rt: &R,
    turn: Turn<Identity, N>,
    pass: Pass<N>,
    file: &[u8],
) -> Result<()>
    requires own { pass.turn ≡ turn }
    requires weight { pass.weight ≡ 1000000 }
{
    let old_salt = opening::salt_of(&opening::read(alloc, file)?, id(BOB)?)?;
    let gate = HoldingGate::new(Place::Deriving);
    let held = log_in(alloc, BOB, "hunter2", 1)?;
    let pass = change_meanwhile(alloc, rt, &turn, pass, &gate, &held)?;
    let mut identity = turn.close(pass);
    let new_salt = salt_for(alloc, &mut identity, &held).context("no salt is asked for")?;
    ensure!(new_salt != old_salt, "the new salt is the old one");
    // The gate held the first derivation, and was reached as often as two derivations ask for.
    gate.ensure_reached(3, 2)
}

/// bob changes his password and logs in with the new one, while the login with the old one is held.
fn change_meanwhile<N: First + Send + Sync, R: Threads + Wait + Sync>(
    alloc: Global,
    rt: &R,
    turn: &Turn<Identity, N>,
    pass: Pass<N>,
    gate: &HoldingGate,
    held: &Call,
) -> Result<Pass<N>>
    requires own { pass.turn ≡ turn.now }
    requires weight { 2 ≤ pass.weight }
    requires fit { Fit held.now }
    ensures { IfOk result (λ next. (next.turn ≡ pass.turn) × (next.weight ≡ pass.weight)) }
{
    let first = change_password(alloc, BOB, "hunter2", "hunter3", 2)?;
    let second = log_in(alloc, BOB, "hunter3", 3)?;
    let (pass, replies) = beside(alloc, rt, turn, pass, gate, held, &first, &second);
    judge(&replies)?;
    Ok(pass)
}

fn judge(replies: &Replies) -> Result<()> {
    ensure!(
        matches!(&replies.first, Reply::Ok(BodyOut::Nothing)),
        "the password is not changed"
    );
    ensure!(
        matches!(&replies.second, Reply::Ok(BodyOut::Token(_))),
        "the new password is refused"
    );
    match &replies.held {
        Reply::Refused(Cause::Credentials) => Ok(()),
        Reply::Refused(_) => bail!("the old password is refused for another cause"),
        Reply::Ok(_) => bail!("the old password is taken"),
    }
}

/// The salt with which an identity asks for the password of a login to be derived.
fn salt_for(alloc: Global, identity: &mut Identity, login: &Call) -> Option<[u8; 16]>
    requires fit { Fit login.now }
    requires stands { (f : Front) × StandsWithAllKept identity.old f }
{
    match ks_state::Decides::decide(identity, login, &Facts::new(alloc)) {
        Decision::Needs(needs) => needs.stored.map(|(salt, _)| salt),
        Decision::Done(_) => None,
    }
}
