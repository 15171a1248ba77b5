//! Workers in seats, each with a desk and a pass.
ghost use Rattle.std.specs.Prelude.{◌≡◌, ◌-◌, ◌<◌, ◌≤◌, ℕ, List, [], false, IsSomeAnd, length, map, reverse, slice_index_or, vec_capacity, vec_len};
ghost use Rattle.std.specs.List.{AllByRecursion};
ghost use Rattle.ks_server.specs.Workers.{Place, ServesAll};
ghost use Rattle.ks_server.specs.steps.Seats.{HasWorked, HaveWorked, seat_state, seated};
ghost use Rattle.ks_turn.specs.Passes.{Passed, splitting};

use crate::server::Server;
use crate::worker::Worked;
use crate::workers::Served;
use ks_base::Text;
use ks_outside::{Desk, Gate, KeyDir};
use ks_routes::Routes;
use ks_state::Decides;
use ks_turn::{First, Pass, Turn};
use std::alloc::Global;
use std::sync::Wait;
use std::thread::{Threads, for_each_mut};

/// A desk and its folder with the pass of their worker, and how the worker ended.
#[derive(Drop)]
pub struct Seat<F, N: First, P, D> {
    /// It is lent out while the worker is at work.
    pub pass: Option<Pass<N>>,
    pub desk: P,
    pub dir: D,
    pub failed: bool,
    pub keeper: Option<F>,
}

/// Seats each desk with a pass of its own, the last desk first.
pub fn seat_all<I: Decides, N: First, P: Desk, D: KeyDir>(
    turn: &Turn<I, N>,
    mut pass: Pass<N>,
    desks: &mut Vec<(P, D)>,
    seats: &mut Vec<Seat<I::Fault, N, P, D>>,
) -> Pass<N>
    requires own { pass.turn ≡ turn.now }
    requires heavy { vec_len desks.old < pass.weight }
    requires none { (seats.old.items ≡ []) × (vec_len seats.old ≡ 0) }
    requires room { vec_len desks.old ≤ vec_capacity seats.old }
    ensures rest { result ≡ record pass { weight = pass.weight - vec_len desks.old } }
    ensures seated { reverse (map (λ s. seat_state s.pass (P.desk s.desk) (D.dir s.dir) s.failed s.keeper) seats.new.items) ≡ map (λ d. seated pass (record { desk = P.desk d.0; dir = D.dir d.1 })) desks.old.items }
    ensures ready { AllByRecursion (λ s. IsSomeAnd s.pass (λ p. (p.turn ≡ turn.now) × (p.seen ≡ pass.seen))) seats.new.items }
    ensures none { (desks.new.items ≡ []) × (vec_len desks.new ≡ 0) }
    ensures count { vec_len seats.new ≡ vec_len desks.old }
    ensures room { vec_capacity desks.new ≡ vec_capacity desks.old }
{
    'desks: while let Some((desk, dir)) = desks.pop() {
        let Ok((rest, part)) = turn.split(pass) else {
            unreachable!()
        };
        seats.push_reserved(Seat {
            pass: Some(part),
            desk,
            dir,
            failed: false,
            keeper: None,
        });
        pass = rest;
    }
    pass
}

/// Lets the workers work, each in a thread of its own where one can be made.
pub fn work_all<
    I: Decides + Send,
    N: First + Send + Sync,
    R: Threads + Wait + Sync,
    P: Desk + Send,
    D: KeyDir + Send,
    G: Gate + Sync,
>(
    alloc: Global,
    turn: &Turn<I, N>,
    rt: &R,
    seats: &mut [Seat<I::Fault, N, P, D>],
    connections: u64,
    gate: &G,
    routes: &Routes,
    url: &Text,
)
where
    P::Link: Send,
    I::Fault: Send,
    requires ready { (i : ℕ) (d : _) → i < length seats.old → IsSomeAnd (slice_index_or seats.old i d).pass (λ p. (p.turn ≡ turn.now) × (url.now ≡ p.seen.opening.settings.url)) }
    ensures worked { (i : ℕ) (d : _) → i < length seats.old → HasWorked P.Link.stream connections (seat_state (slice_index_or seats.old i d).pass (P.desk (slice_index_or seats.old i d).desk) (D.dir (slice_index_or seats.old i d).dir) (slice_index_or seats.old i d).failed (slice_index_or seats.old i d).keeper) (seat_state (slice_index_or seats.new i d).pass (P.desk (slice_index_or seats.new i d).desk) (D.dir (slice_index_or seats.new i d).dir) (slice_index_or seats.new i d).failed (slice_index_or seats.new i d).keeper) }
{
    let threads = seats.len().max(1);
    let worker = |_place: usize, seat: &mut Seat<I::Fault, N, P, D>|
        requires { IsSomeAnd seat.now.pass (λ p. (p.turn ≡ turn.now) × (url.now ≡ p.seen.opening.settings.url)) }
        ensures { HasWorked P.Link.stream connections (seat_state seat.entry.now.pass (P.desk seat.entry.now.desk) (D.dir seat.entry.now.dir) seat.entry.now.failed seat.entry.now.keeper) (seat_state seat.exit.now.pass (P.desk seat.exit.now.desk) (D.dir seat.exit.now.dir) seat.exit.now.failed seat.exit.now.keeper) }
    {
        let server = Server {
            alloc,
            turn,
            rt,
            gate,
            routes,
            url,
        };
        server.work_at(seat, connections)
    };
    for_each_mut(rt, seats, threads, &worker);
}

impl<I: Decides, N: First, R: Wait, G: Gate> Server<'_, I, N, R, G> {
    /// Lets the worker of a seat work.
    fn work_at<P: Desk, D: KeyDir>(&self, seat: &mut Seat<I::Fault, N, P, D>, connections: u64)
        requires { IsSomeAnd seat.old.pass (λ p. (p.turn ≡ self.now.turn.now) × (self.now.url.now ≡ p.seen.opening.settings.url)) }
        ensures { HasWorked P.Link.stream connections (seat_state seat.old.pass (P.desk seat.old.desk) (D.dir seat.old.dir) seat.old.failed seat.old.keeper) (seat_state seat.new.pass (P.desk seat.new.desk) (D.dir seat.new.dir) seat.new.failed seat.new.keeper) }
    {
        let Some(pass) = seat.pass.take() else {
            unreachable!()
        };
        let Worked {
            pass,
            failed,
            keeper,
        } = self.work(pass, &mut seat.desk, &mut seat.dir, connections);
        seat.pass = Some(pass);
        seat.failed = failed;
        seat.keeper = keeper;
    }
}

/// Lets the passes of all seats meet, and gives the desks back, in the order in which they were before they were
/// seated.
pub fn meet_all<I: Decides, N: First, R: Wait, P: Desk + Drop, D: KeyDir + Drop>(
    turn: &Turn<I, N>,
    rt: &R,
    mut pass: Pass<N>,
    mut seats: Vec<Seat<I::Fault, N, P, D>>,
    mut desks: Vec<(P, D)>,
) -> Served<I::Fault, N, P, D>
    requires own { pass.turn ≡ turn.now }
    requires passes { AllByRecursion (λ s. IsSomeAnd s.pass (λ p. p.turn ≡ turn.now)) seats.items }
    requires none { (desks.items ≡ []) × (vec_len desks ≡ 0) }
    requires room { vec_len seats ≤ vec_capacity desks }
    ensures memory { result.memory ≡ false }
    ensures served { (connections : ℕ) (old : Passed) (olds : List (Place P.Link)) → HaveWorked P.Link.stream connections (splitting old) olds (reverse (map (λ s. seat_state s.pass (P.desk s.desk) (D.dir s.dir) s.failed s.keeper) seats.items)) → pass ≡ record old { weight = old.weight - length olds } → length olds ≤ old.weight → ServesAll P.Link.stream connections old result.pass olds (map (λ d. record { desk = P.desk d.0; dir = D.dir d.1 }) result.desks.items) result.failed result.keeper }
{
    let mut failed = false;
    let mut keeper = None;
    'seats: while let Some(seat) = seats.pop() {
        let Seat {
            pass: part,
            desk,
            dir,
            failed: at_accept,
            keeper: why,
        } = seat;
        let Some(part) = part else { unreachable!() };
        pass = turn.meet(rt, pass, part);
        desks.push_reserved((desk, dir));
        failed |= at_accept;
        keeper = keeper.or(why);
    }
    Served {
        desks,
        pass,
        failed,
        memory: false,
        keeper,
    }
}
