//! Whole turns, from the first pass to the close.
ghost use Rattle.std.specs.Prelude.{◌≡◌, ◌≤◌, length, IfSome, false, []};
ghost use Rattle.ks_turn_cases.specs.Makes.{Made};
ghost use Rattle.ks_turn.specs.Unnamed.{no_front};

use crate::journal::Journal;
use crate::maker::Maker;
use crate::passes::{Work, apart, make_all, spread, together};
use ks_turn::{First, Pass, Turn};
use std::alloc::Global;
use std::sync::Wait;
use std::thread;
use std::thread::Threads;

fn opened<N: First>(alloc: Global) -> Option<(Turn<Journal, N>, Pass<N>)>
    requires { N.front ≡ no_front }
    ensures turn { IfSome result (λ t. t.1.turn ≡ t.0) }
    ensures first { IfSome result (λ t. (t.1.weight ≡ 1000000) × (t.1.own ≡ [])) }
{
    Turn::new(alloc, Journal::new(alloc)).ok()
}

/// The journal at the end has as many changes as were made through the pass.
fn closed<N: First>(turn: Turn<Journal, N>, pass: Pass<N>) -> Journal
    requires own { pass.turn ≡ turn }
    requires weight { pass.weight ≡ 1000000 }
    requires first { N.front ≡ no_front }
    ensures { length result.entries.items ≡ length pass.own }
{
    turn.close(pass)
}

/// One of two passes makes a change, both meet, and what is left holds and sees it. Answers how many changes were
/// seen after the meeting and in that hold, and the journal.
pub fn one_of_two<N: First, R: Wait>(rt: &R, alloc: Global) -> Option<(u64, u64, Journal)>
    requires { N.front ≡ no_front }
    ensures { IfSome result (λ r. r.0 ≡ r.1) }
{
    let (turn, pass) = opened::<N>(alloc)?;
    let (one, other) = apart(&turn, pass);
    let mut maker = Maker::new(0, 0);
    let other = maker.make(&turn, rt, other);
    let pass = together(&turn, rt, one, other);
    let (met, _) = pass.front();
    let mut held = turn.hold(rt, pass);
    let found = held.value().entries.len() as u64;
    let pass = turn.release(held);
    Some((met, found, closed(turn, pass)))
}

/// Two threads each make as many changes, each through a pass of its own. The passes meet.
pub fn two_threads<N: First + Send + Sync, R: Threads + Wait + Sync>(
    rt: &R,
    alloc: Global,
    count: u64,
) -> Option<(Work, Journal)>
    requires first { N.front ≡ no_front }
    requires count { count ≤ 1000000 }
    ensures all { IfSome result (λ r. length r.1.entries.items ≡ r.0.made) }
    ensures ahead { IfSome result (λ r. r.0.fell_behind ≡ false) }
{
    let (turn, pass) = opened::<N>(alloc)?;
    let (first, second) = apart(&turn, pass);
    let shared = &turn;
    let ((first, one), (second, other)) = thread::join(
        rt,
        move || -> (Pass<N>, Maker)
            requires turn { first.turn ≡ shared.now }
            requires count { count ≤ 1000000 }
            ensures made { Made first result.0 0 result.1.made }
            ensures few { result.1.made ≤ count }
            ensures ahead { result.1.fell_behind ≡ false }
        { make_all(shared, rt, first, Maker::new(0, 0), count) },
        move || -> (Pass<N>, Maker)
            requires turn { second.turn ≡ shared.now }
            requires count { count ≤ 1000000 }
            ensures made { Made second result.0 0 result.1.made }
            ensures few { result.1.made ≤ count }
            ensures ahead { result.1.fell_behind ≡ false }
        { make_all(shared, rt, second, Maker::new(1, 0), count) },
    );
    let pass = together(&turn, rt, first, second);
    let work = Work {
        made: one.made + other.made,
        fell_behind: one.fell_behind || other.fell_behind,
    };
    Some((work, closed(turn, pass)))
}

/// Eight threads make changes in each of some rounds, through passes that are split and meet by chance.
pub fn eight_threads<N: First + Send + Sync, R: Threads + Wait + Sync>(
    rt: &R,
    alloc: Global,
    rounds: u64,
    count: u64,
) -> Option<(Work, Journal)>
    requires first { N.front ≡ no_front }
    requires count { (rounds ≤ 1000) × (count ≤ 1000) }
    ensures all { IfSome result (λ r. length r.1.entries.items ≡ r.0.made) }
    ensures ahead { IfSome result (λ r. r.0.fell_behind ≡ false) }
{
    let (turn, mut pass) = opened::<N>(alloc)?;
    let mut all = Work {
        made: 0,
        fell_behind: false,
    };
    for round in 0..rounds {
        let (left, work) = spread(&turn, rt, pass, 8, round * count, count);
        pass = left;
        all.made += work.made;
        all.fell_behind |= work.fell_behind;
    }
    Some((all, closed(turn, pass)))
}
