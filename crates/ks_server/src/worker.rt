ghost use Rattle.std.specs.Prelude.{◌≡◌, ◌≢◌, true, false};
ghost use Rattle.ks_server.specs.steps.Shifts.{IsWorked};

use crate::closed::Closed;
use crate::connection::serve_connection;
use crate::server::Server;
use crate::service::Service;
use ks_outside::{Desk, Gate, KeyDir};
use ks_service::Recent;
use ks_state::Decides;
use ks_turn::{First, Pass};
use std::sync::Wait;

/// What a worker leaves beside its desk and its folder.
#[derive(Drop)]
pub struct Worked<F, N: First> {
    pub pass: Pass<N>,
    /// It ended since an accept failed.
    pub failed: bool,
    /// It ended for this fault of keeping changes.
    pub keeper: Option<F>,
}

impl<F, N: First> Worked<F, N> {
    fn new(pass: Pass<N>, failed: bool, keeper: Option<F>) -> Worked<F, N>
        ensures pass { result.pass ≡ pass }
        ensures failed { result.failed ≡ failed }
        ensures keeper { result.keeper ≡ keeper }
    {
        Worked {
            pass,
            failed,
            keeper,
        }
    }
}

impl<I: Decides, N: First, R: Wait, G: Gate> Server<'_, I, N, R, G> {
    /// Serves the links of a desk, one after the other, and gives each one back.
    pub fn work<P: Desk, D: KeyDir>(
        &self,
        mut pass: Pass<N>,
        desk: &mut P,
        dir: &mut D,
        connections: u64,
    ) -> Worked<I::Fault, N>
        requires own { pass.turn ≡ self.now.turn.now }
        requires url { self.now.url.now ≡ pass.seen.opening.settings.url }
        ensures { IsWorked P.Link.stream connections pass result.pass (record { desk = P.desk desk.old; dir = D.dir dir.old }) (record { desk = P.desk desk.new; dir = D.dir dir.new }) result.failed result.keeper }
    {
        let mut number = 0;
        let mut recent = Recent::new(self.alloc);
        'links: for _ in self.rt.forever() {
            if is_enough(number, connections) {
                return Worked::new(pass, false, None);
            }
            let mut link = match desk.accept() {
                Ok(Some(link)) => link,
                Ok(None) => return Worked::new(pass, false, None),
                Err(_) => return Worked::new(pass, true, None),
            };
            let (next, why) = serve_connection(
                self.alloc,
                self.turn,
                self.rt,
                pass,
                desk,
                dir,
                number,
                &mut link,
                Service::UntilRest,
                self.gate,
                self.routes,
                self.url,
                &mut recent,
            );
            desk.give_back(link);
            if let Closed::KeeperFault(fault) = why {
                return Worked::new(next, false, Some(fault));
            }
            pass = next;
            number = number.wrapping_add(1);
        }
        unreachable!()
    }
}

/// Whether so many links are as many as a worker is to serve.
fn is_enough(served: u64, connections: u64) -> bool
    ensures yes { result ≡ true → (connections ≢ 0) × (served ≡ connections) }
    ensures no { result ≡ false → connections ≢ 0 → served ≢ connections }
{
    connections != 0 && served == connections
}
