ghost use Rattle.std.specs.Prelude.{◌≡◌, ◌<◌, true, false, None, length, map};
ghost use Rattle.ks_server.specs.Workers.{ServesAll};

use crate::seats::{meet_all, seat_all, work_all};
use ks_base::Text;
use ks_outside::{Desk, Gate, KeyDir};
use ks_routes::Routes;
use ks_state::Decides;
use ks_turn::{First, Pass, Turn};
use std::alloc::Global;
use std::sync::Wait;
use std::thread::Threads;

/// What workers leave.
#[derive(Drop)]
pub struct Served<F, N: First, P, D> {
    /// The desks and their folders, in their order.
    pub desks: Vec<(P, D)>,
    /// The pass, with all its weight.
    pub pass: Pass<N>,
    /// Some worker ended since an accept failed.
    pub failed: bool,
    /// There was no memory to begin, and nothing was done.
    pub memory: bool,
    /// The first fault of keeping changes, in the order of the desks, with which a worker ended.
    pub keeper: Option<F>,
}

/// Serves the links of each desk by a worker of its own, in threads beside each other, each through a pass of its own
/// that is split off from this one and meets it again.
///
/// A worker accepts one link after the other, answers its requests with `serve_connection`, and gives it back. It ends
/// where no more links come, where an accept fails, after `connections` links, of which 0 says that there is no bound,
/// or where changes could not be kept. A link that fails, or for which there is no memory, ends no worker.
pub fn serve<
    I: Decides + Send,
    N: First + Send + Sync,
    R: Threads + Wait + Sync,
    P: Desk + Send + Drop,
    D: KeyDir + Send + Drop,
    G: Gate + Sync,
>(
    alloc: Global,
    turn: &Turn<I, N>,
    rt: &R,
    pass: Pass<N>,
    mut desks: Vec<(P, D)>,
    connections: u64,
    gate: &G,
    routes: &Routes,
    url: &Text,
) -> Served<I::Fault, N, P, D>
where
    P::Link: Send,
    I::Fault: Send,
    requires own { pass.turn ≡ turn.now }
    requires url { url.now ≡ pass.seen.opening.settings.url }
    requires heavy { length desks.items < pass.weight }
    ensures idle { result.memory ≡ true → (result.pass ≡ pass) × (result.desks.items ≡ desks.items) × (result.failed ≡ false) × (result.keeper ≡ None) }
    ensures served { result.memory ≡ false → ServesAll P.Link.stream connections pass result.pass (map (λ d. record { desk = P.desk d.0; dir = D.dir d.1 }) desks.items) (map (λ d. record { desk = P.desk d.0; dir = D.dir d.1 }) result.desks.items) result.failed result.keeper }
{
    let mut seats = Vec::new(alloc);
    if seats.reserve(desks.len()).is_err() {
        return Served {
            desks,
            pass,
            failed: false,
            memory: true,
            keeper: None,
        };
    }
    let pass = seat_all(turn, pass, &mut desks, &mut seats);
    let lent = seats.as_mut_slice();
    work_all(alloc, turn, rt, lent, connections, gate, routes, url);
    meet_all(turn, rt, pass, seats, desks)
}
