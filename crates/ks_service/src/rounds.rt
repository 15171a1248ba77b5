//! One hold of the turn, in which a call is decided or facts are asked for.
ghost use Rattle.std.specs.Prelude.{◌≡◌, ◌<◌, ◌≤◌, None, length, MatchResult};
ghost use Rattle.ks_machine.specs.declared.call.Call.{Call as PlainCall};
ghost use Rattle.ks_machine.specs.Fit.{Fit};
ghost use Rattle.ks_machine.specs.Fronts.{Front, IsSound};
ghost use Rattle.ks_machine.specs.Told.{IsTellable};
ghost use Rattle.ks_service.specs.Called.{Called, capped};
ghost use Rattle.ks_service.specs.Rounds.{Judged, Waited};
ghost use Rattle.ks_service.specs.Work.{AreDerivable};
ghost use Rattle.ks_state.specs.Decides.{CanBeTold, Replied, with_kept};

use crate::answer::Answer;
use crate::work::work;
use ks_auth::Facts;
use ks_base::limits::{KEYS, LAST_READING};
use ks_machine::{Call, Cause, Reply};
use ks_outside::Open;
use ks_state::{Decides, Decision, Kept, Needs};
use ks_turn::{First, Held, Pass, Turn};
use std::alloc::Global;
use std::sync::Wait;

/// How many rounds of a call do their work outside the turn. Where nothing changes between, two are enough: no call asks
/// for facts more often.
pub(crate) const ROUNDS: u32 = 4;

/// How many decisions a call takes at most while nothing changes: each but the last lacks a fact, of what a held key makes of
/// one of three texts of tokens, or of what is derived of one of two passwords or secrets, and the work finds it.
pub(crate) const DECISIONS: usize = 3 * KEYS + 3;

/// Decides in a hold, and tells how many changes came before.
fn judge<I: Decides, N: First>(held: &mut Held<I, N>, call: &Call, facts: &Facts) -> (u64, Decision)
    requires fit { Fit call.now }
    requires stands { I.stands held.old.value held.old.pass.seen }
    ensures pass { held.new.pass ≡ held.old.pass }
    ensures count { result.0 ≡ length held.new.pass.seen.changes }
    ensures sound { IsSound held.new.pass.seen }
    ensures judged { Judged I.stands I.kept held.new.pass.seen call.now facts.now result.1 held.new.value }
    ensures kept { held.new.pass.seen.kept ≤ I.kept held.new.value }
    ensures tellable { CanBeTold result.1 }
{
    let value = held.value();
    let (changes, _) = value.front();
    (changes, value.decide(call, facts))
}

/// Gives the turn back where nothing changed.
fn step_back<I: Decides, N: First>(turn: &Turn<I, N>, held: Held<I, N>) -> Pass<N>
    requires own { held.pass.turn ≡ turn.now }
    requires stands { I.stands held.value held.pass.seen }
    ensures { result ≡ held.pass }
{
    turn.release(held)
}

/// Keeps the changes behind the event of a call. Where the highest moment stayed below the call's reading there was no event,
/// and nothing is kept.
fn keep<I: Decides>(value: &mut I, reading: u64) -> Kept<I::Fault>
    ensures same { (f : Front) → I.stands value.old f → I.stands value.new (with_kept f (I.kept value.new)) }
    ensures grows { I.kept value.old ≤ I.kept value.new }
    ensures yes { result ≡ Kept.Yes → (f : Front) → I.stands value.new f → f.kept ≡ length f.changes }
    ensures none { (f : Front) → I.stands value.old f → f.high < capped reading → result ≡ Kept.Memory }
{
    let (_, high) = value.front();
    if high < reading.min(LAST_READING) {
        return Kept::Memory;
    }
    value.keep()
}

/// Keeps the changes after a reply, and gives the turn back.
fn settle<I: Decides, N: First>(
    turn: &Turn<I, N>,
    mut held: Held<I, N>,
    changes: u64,
    call: &Call,
    reply: Reply,
) -> (Pass<N>, Answer<I::Fault>)
    requires own { held.pass.turn ≡ turn.now }
    requires count { changes ≡ length held.pass.seen.changes }
    requires sound { IsSound held.pass.seen }
    requires kept { held.pass.seen.kept ≤ I.kept held.value }
    requires tellable { IsTellable reply }
    requires replied { Replied I.stands I.kept held.pass.seen call.now reply held.value }
    ensures { Called held.pass result.0 call.now result.1 }
{
    let kept = keep(held.value(), call.reading);
    let pass = turn.release(held);
    let (_, moment) = pass.front();
    let answer = Answer {
        reply,
        changes,
        moment,
        kept,
        caller: None,
    };
    (pass, answer)
}

/// The answer where there was no memory for the work.
pub(crate) fn without_memory<F: Drop, N: First>(pass: Pass<N>) -> (Pass<N>, Answer<F>)
    ensures called { (call : PlainCall) → Called pass result.0 call result.1 }
    ensures caller { result.1.caller ≡ None }
{
    let (changes, moment) = pass.front();
    let answer = Answer {
        reply: Reply::Refused(Cause::Memory),
        changes,
        moment,
        kept: Kept::Memory,
        caller: None,
    };
    (pass, answer)
}

/// Holds and decides. Where facts are asked for, the turn is given back as it was.
pub(crate) fn round<I: Decides, N: First, R: Wait>(
    turn: &Turn<I, N>,
    rt: &R,
    pass: Pass<N>,
    call: &Call,
    facts: &Facts,
) -> (Pass<N>, Result<Answer<I::Fault>, Needs>)
    requires own { pass.turn ≡ turn.now }
    requires fit { Fit call.now }
    ensures { MatchResult result.1 (λ answer. Called pass result.0 call.now answer) (λ needs. Waited pass result.0 × AreDerivable needs) }
{
    let mut held = turn.hold(rt, pass);
    let (changes, decision) = judge(&mut held, call, facts);
    match decision {
        Decision::Done(reply) => {
            let (pass, answer) = settle(turn, held, changes, call, reply);
            (pass, Ok(answer))
        }
        Decision::Needs(needs) => (step_back(turn, held), Err(needs)),
    }
}

/// Holds and decides, and does the work that is asked for in the same hold, in which nothing can change.
pub(crate) fn last_round<I: Decides, N: First, R: Wait>(
    alloc: Global,
    turn: &Turn<I, N>,
    rt: &R,
    pass: Pass<N>,
    call: &Call,
    mut facts: Facts,
) -> (Pass<N>, Answer<I::Fault>)
    requires own { pass.turn ≡ turn.now }
    requires fit { Fit call.now }
    ensures { Called pass result.0 call.now result.1 }
{
    let mut held = turn.hold(rt, pass);
    for _ in 0..DECISIONS {
        let (changes, decision) = judge(&mut held, call, &facts);
        match decision {
            Decision::Done(reply) => return settle(turn, held, changes, call, reply),
            Decision::Needs(needs) => {
                let Ok(()) = work(alloc, &needs, call, &mut facts, &Open) else {
                    return without_memory(step_back(turn, held));
                };
            }
        }
    }
    // Each work found a fact that was lacking, and so the last decision lacked none.
    unreachable!()
}
