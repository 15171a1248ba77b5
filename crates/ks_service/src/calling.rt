ghost use Rattle.std.specs.Prelude.{◌≡◌, IfSome, None, false};
ghost use Rattle.ks_machine.specs.Fit.{Fit};
ghost use Rattle.ks_service.specs.Called.{Called};
ghost use Rattle.ks_service.specs.Callers.{IsSaidBy};

use crate::answer::Answer;
use crate::caller::{first_heard, hear};
use crate::recent::Recent;
use crate::rounds::{ROUNDS, last_round, round, without_memory};
use crate::work::work;
use ks_machine::Call;
use ks_outside::{Gate, Place};
use ks_state::Decides;
use ks_turn::{First, Pass, Turn};
use std::alloc::Global;
use std::sync::Wait;

/// Decides a call through a pass, in one hold of the turn, and keeps its change there. The work on ciphers that a
/// decision asks for is done outside, and the call is then decided anew; where facts are still lacking after four rounds,
/// the work is done in the fifth hold. `Memory` is the reply where there was no memory to decide or to do the work.
///
/// The gate is called before each hold and, outside the turn, before each token is opened and each password derived.
/// `hears` says whether the answer is to tell what the caller's token says.
pub fn call<I: Decides, N: First, R: Wait, G: Gate>(
    alloc: Global,
    turn: &Turn<I, N>,
    rt: &R,
    pass: Pass<N>,
    call: &Call,
    gate: &G,
    hears: bool,
) -> (Pass<N>, Answer<I::Fault>)
    requires own { pass.turn ≡ turn.now }
    requires fit { Fit call.now }
    ensures called { Called pass result.0 call.now result.1 }
    ensures caller { IfSome result.1.caller (IsSaidBy call.now.caller) }
    ensures unheard { hears ≡ false → result.1.caller ≡ None }
{
    let mut recent = Recent::new(alloc);
    next_call(alloc, turn, rt, pass, call, gate, hears, &mut recent)
}

/// Decides a call as `call` does, by what a worker remembers of its calls before: where that is enough, the call's tokens
/// are opened before the first hold, and it is decided there. What is found out is remembered for the next call.
pub fn next_call<I: Decides, N: First, R: Wait, G: Gate>(
    alloc: Global,
    turn: &Turn<I, N>,
    rt: &R,
    mut pass: Pass<N>,
    call: &Call,
    gate: &G,
    hears: bool,
    recent: &mut Recent,
) -> (Pass<N>, Answer<I::Fault>)
    requires own { pass.turn ≡ turn.now }
    requires fit { Fit call.now }
    ensures called { Called pass result.0 call.now result.1 }
    ensures caller { IfSome result.1.caller (IsSaidBy call.now.caller) }
    ensures unheard { hears ≡ false → result.1.caller ≡ None }
{
    let mut facts = recent.begin(call, gate);
    let mut caller = first_heard(alloc, hears, &facts, recent.keys(), call);
    for _ in 0..ROUNDS {
        gate.at(Place::BeforeHold);
        let (next, outcome) = round(turn, rt, pass, call, &facts);
        match outcome {
            Ok(mut answer) => {
                answer.caller = caller;
                recent.end(facts, call);
                return (next, answer);
            }
            Err(needs) => {
                if work(alloc, &needs, call, &mut facts, gate).is_err() {
                    return without_memory(next);
                }
                hear(
                    alloc,
                    &mut caller,
                    hears,
                    &facts,
                    needs.keys.as_slice(),
                    call,
                );
                recent.learn(needs.keys.as_slice());
            }
        }
        pass = next;
    }
    gate.at(Place::BeforeHold);
    let (next, mut answer) = last_round(alloc, turn, rt, pass, call, facts);
    answer.caller = caller;
    (next, answer)
}
