//! Calls through passes of one turn, by one worker and by two.
ghost use Rattle.std.specs.Prelude.{◌≡◌, ◌+◌, ◌≤◌, IfOk};
ghost use Rattle.ks_machine.specs.Fit.{Fit};

use crate::calls::log_in;
use crate::gates::HoldingGate;
use anyhow::{Result, bail};
use ks_base::Text;
use ks_machine::{BodyOut, Call, Reply};
use ks_outside::{Gate, Open};
use ks_service::Answer;
use ks_state::Decides;
use ks_turn::{First, Pass, Turn};
use std::alloc::Global;
use std::sync::Wait;
use std::thread;
use std::thread::Threads;

/// Makes a call through the pass.
pub fn make<I: Decides, N: First, R: Wait, G: Gate>(
    alloc: Global,
    rt: &R,
    turn: &Turn<I, N>,
    pass: Pass<N>,
    call: &Call,
    gate: &G,
) -> (Pass<N>, Reply)
    requires own { pass.turn ≡ turn.now }
    requires fit { Fit call.now }
    ensures { (result.0.turn ≡ pass.turn) × (result.0.weight ≡ pass.weight) }
{
    let (pass, answer) = ks_service::call(alloc, turn, rt, pass, call, gate, false);
    let Answer { reply, .. } = answer;
    (pass, reply)
}

/// The token of a login.
fn token_of(reply: &Reply) -> Result<Text> {
    match reply {
        Reply::Ok(BodyOut::Token(token)) => Ok(token.get().text.copy()?),
        _ => bail!("a login is refused"),
    }
}

/// Logs a user in through the pass: the token. Each byte drawn is this one.
pub fn token_for<I: Decides, N: First, R: Wait>(
    alloc: Global,
    rt: &R,
    turn: &Turn<I, N>,
    pass: Pass<N>,
    user: &str,
    secret: &str,
    byte: u8,
) -> Result<(Pass<N>, Text)>
    requires own { pass.turn ≡ turn.now }
    ensures { IfOk result (λ made. (made.0.turn ≡ pass.turn) × (made.0.weight ≡ pass.weight)) }
{
    let call = log_in(alloc, user, secret, byte)?;
    let (pass, reply) = make(alloc, rt, turn, pass, &call, &Open);
    Ok((pass, token_of(&reply)?))
}

/// The replies to two workers.
pub struct Replies {
    /// To the call of the worker that was held.
    pub held: Reply,
    /// To the calls that the other made meanwhile.
    pub first: Reply,
    pub second: Reply,
}

impl Drop for Replies {
    fn drop(self) {
        let Replies {
            held: _,
            first: _,
            second: _,
        } = self;
    }
}

/// One worker makes a call and is held by the gate, while the other makes two. Then it goes on.
pub fn beside<I: Decides + Send, N: First + Send + Sync, R: Threads + Wait + Sync>(
    alloc: Global,
    rt: &R,
    turn: &Turn<I, N>,
    pass: Pass<N>,
    gate: &HoldingGate,
    held: &Call,
    first: &Call,
    second: &Call,
) -> (Pass<N>, Replies)
where
    I::Fault: Send,
    requires own { pass.turn ≡ turn.now }
    requires weight { 2 ≤ pass.weight }
    requires fit { Fit held.now × Fit first.now × Fit second.now }
    ensures { (result.0.turn ≡ pass.turn) × (result.0.weight ≡ pass.weight) }
{
    let Ok((one, other)) = turn.split(pass) else {
        unreachable!()
    };
    let ((one, held), (other, (first, second))) = thread::join(
        rt,
        move || -> (Pass<N>, Reply)
            requires own { one.turn ≡ turn.now }
            requires fit { Fit held.now }
            ensures { (result.0.turn ≡ one.turn) × (result.0.weight ≡ one.weight) }
        { make(alloc, rt, turn, one, held, gate) },
        move || -> (Pass<N>, (Reply, Reply))
            requires own { other.turn ≡ turn.now }
            requires fit { Fit first.now × Fit second.now }
            ensures { (result.0.turn ≡ other.turn) × (result.0.weight ≡ other.weight) }
        { make_meanwhile(alloc, rt, turn, other, gate, first, second) },
    );
    let replies = Replies {
        held,
        first,
        second,
    };
    (turn.meet(rt, one, other), replies)
}

/// Makes two calls while the other worker is held.
fn make_meanwhile<I: Decides, N: First, R: Wait>(
    alloc: Global,
    rt: &R,
    turn: &Turn<I, N>,
    pass: Pass<N>,
    gate: &HoldingGate,
    first: &Call,
    second: &Call,
) -> (Pass<N>, (Reply, Reply))
    requires own { pass.turn ≡ turn.now }
    requires fit { Fit first.now × Fit second.now }
    ensures { (result.0.turn ≡ pass.turn) × (result.0.weight ≡ pass.weight) }
{
    gate.wait_for_worker();
    let (pass, first) = make(alloc, rt, turn, pass, first, &Open);
    let (pass, second) = make(alloc, rt, turn, pass, second, &Open);
    gate.let_on();
    (pass, (first, second))
}
