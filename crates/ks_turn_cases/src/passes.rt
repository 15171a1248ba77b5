//! Changes made through passes that are split and meet, by one thread and by several.
ghost use Rattle.std.specs.Prelude.{◌≡◌, ◌+◌, ◌-◌, ◌*◌, ◌<◌, ◌≤◌, ◌^◌, length, false};
ghost use Rattle.ks_turn_cases.specs.Makes.{Made};

use crate::journal::Journal;
use crate::maker::Maker;
use ks_turn::{First, Pass, Turn};
use std::sync::Wait;
use std::thread;
use std::thread::Threads;

/// Splits a pass.
pub fn apart<N: First>(turn: &Turn<Journal, N>, pass: Pass<N>) -> (Pass<N>, Pass<N>)
    requires own { pass.turn ≡ turn.now }
    requires weight { 2 ≤ pass.weight }
    ensures turns { (result.0.turn ≡ pass.turn) × (result.1.turn ≡ pass.turn) }
    ensures weights { (result.0.weight + 1 ≡ pass.weight) × (result.1.weight ≡ 1) }
    ensures owns { (length result.0.own ≡ length pass.own) × (length result.1.own ≡ 0) }
{
    let Ok((first, second)) = turn.split(pass) else {
        unreachable!()
    };
    (first, second)
}

/// Lets two passes meet.
pub fn together<N: First, R: Wait>(
    turn: &Turn<Journal, N>,
    rt: &R,
    one: Pass<N>,
    other: Pass<N>,
) -> Pass<N>
    requires { (one.turn ≡ turn.now) × (other.turn ≡ turn.now) }
    ensures { (result.turn ≡ one.turn) × (result.weight ≡ one.weight + other.weight) × (length result.own ≡ length one.own + length other.own) }
{
    turn.meet(rt, one, other)
}

/// Makes so many changes through the pass.
pub fn make_all<N: First, R: Wait>(
    turn: &Turn<Journal, N>,
    rt: &R,
    mut pass: Pass<N>,
    mut maker: Maker,
    count: u64,
) -> (Pass<N>, Maker)
    requires own { pass.turn ≡ turn.now }
    requires room { maker.made + count < 2 ^ 63 }
    ensures made { Made pass result.0 maker.made result.1.made }
    ensures few { (maker.made ≤ result.1.made) × (result.1.made ≤ maker.made + count) }
    ensures ahead { result.1.fell_behind ≡ maker.fell_behind }
{
    for _ in 0..count {
        pass = maker.make(turn, rt, pass);
    }
    (pass, maker)
}

/// Makes so many changes through the pass of this weight, which is split by chance on the way. Its parts meet again.
pub fn stir<N: First, R: Wait>(
    turn: &Turn<Journal, N>,
    rt: &R,
    pass: Pass<N>,
    mut maker: Maker,
    count: u64,
    weight: u64,
) -> (Pass<N>, Maker)
    requires own { pass.turn ≡ turn.now }
    requires weight { pass.weight ≡ weight }
    requires room { maker.made + count < 2 ^ 63 }
    ensures made { Made pass result.0 maker.made result.1.made }
    ensures few { (maker.made ≤ result.1.made) × (result.1.made ≤ maker.made + count) }
    ensures ahead { result.1.fell_behind ≡ maker.fell_behind }
{
    if count == 0 {
        return (pass, maker);
    }
    if weight < 2 || maker.roll(3) == 0 {
        let pass = maker.make(turn, rt, pass);
        return stir(turn, rt, pass, maker, count - 1, weight);
    }
    let part = maker.roll(count) + 1;
    let (first, second) = apart(turn, pass);
    let (second, maker) = make_all(turn, rt, second, maker, part);
    let (first, mut maker) = stir(turn, rt, first, maker, count - part, weight - 1);
    if maker.roll(2) == 0 {
        (together(turn, rt, first, second), maker)
    } else {
        (together(turn, rt, second, first), maker)
    }
}

/// Parts a pass of this weight from a pass.
pub fn share<N: First, R: Wait>(
    turn: &Turn<Journal, N>,
    rt: &R,
    pass: Pass<N>,
    weight: u64,
) -> (Pass<N>, Pass<N>)
    requires own { pass.turn ≡ turn.now }
    requires some { 0 < weight }
    requires weight { weight < pass.weight }
    ensures turns { (result.0.turn ≡ pass.turn) × (result.1.turn ≡ pass.turn) }
    ensures weights { (result.0.weight + weight ≡ pass.weight) × (result.1.weight ≡ weight) }
    ensures owns { (length result.0.own ≡ length pass.own) × (length result.1.own ≡ 0) }
{
    let (mut rest, mut part) = apart(turn, pass);
    for _ in 1..weight {
        let (left, more) = apart(turn, rest);
        rest = left;
        part = together(turn, rt, part, more);
    }
    (rest, part)
}

/// How many changes were made, and whether a hold ever told somebody less than was seen.
#[derive(Drop)]
pub struct Work {
    pub made: u64,
    pub fell_behind: bool,
}

/// So many threads each make as many changes, through passes of their own that are split and meet by chance. All of
/// them meet.
pub fn spread<N: First + Send + Sync, R: Threads + Wait + Sync>(
    turn: &Turn<Journal, N>,
    rt: &R,
    pass: Pass<N>,
    threads: u64,
    before: u64,
    count: u64,
) -> (Pass<N>, Work)
    requires own { pass.turn ≡ turn.now }
    requires weight { 8 * threads < pass.weight }
    requires room { (threads ≤ 8) × (before ≤ 1000000) × (count ≤ 1000000) }
    ensures made { Made pass result.0 0 result.1.made }
    ensures few { result.1.made ≤ threads * count }
    ensures ahead { result.1.fell_behind ≡ false }
{
    if threads == 0 {
        let none = Work {
            made: 0,
            fell_behind: false,
        };
        return (pass, none);
    }
    let mut maker = Maker::new(threads - 1, before);
    let weight = maker.roll(8) + 1;
    let (rest, part) = share(turn, rt, pass, weight);
    let ((rest, others), (part, maker)) = thread::join(
        rt,
        move || -> (Pass<N>, Work)
            requires turn { rest.turn ≡ turn.now }
            requires weight { (0 < threads) × (8 * (threads - 1) < rest.weight) }
            requires room { (threads ≤ 8) × (before ≤ 1000000) × (count ≤ 1000000) }
            ensures made { Made rest result.0 0 result.1.made }
            ensures few { result.1.made ≤ (threads - 1) * count }
            ensures ahead { result.1.fell_behind ≡ false }
        { spread(turn, rt, rest, threads - 1, before, count) },
        move || -> (Pass<N>, Maker)
            requires turn { (part.turn ≡ turn.now) × (part.weight ≡ weight) }
            requires room { maker.made + count < 2 ^ 63 }
            ensures made { Made part result.0 maker.made result.1.made }
            ensures few { (maker.made ≤ result.1.made) × (result.1.made ≤ maker.made + count) }
            ensures ahead { result.1.fell_behind ≡ maker.fell_behind }
        { stir(turn, rt, part, maker, count, weight) },
    );
    let work = Work {
        made: others.made + (maker.made - before),
        fell_behind: others.fell_behind || maker.fell_behind,
    };
    (together(turn, rt, rest, part), work)
}
