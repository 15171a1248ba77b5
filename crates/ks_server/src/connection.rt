ghost use Rattle.std.specs.Prelude.{◌≡◌, ◌<◌, [], true};
ghost use Rattle.ks_server.specs.Ties.{KeepsLinks};
ghost use Rattle.ks_server.specs.Work.{ServesLink};

use crate::closed::Closed;
use crate::number::RequestNumber;
use crate::respond::{give_up, refuse_bytes};
use crate::server::Server;
use crate::service::Service;
use ks_base::Text;
use ks_base::limits::CONNECTION_REQUESTS;
use ks_http::{Next, Reader};
use ks_outside::{Desk, Gate, KeyDir, Sink, Source};
use ks_routes::Routes;
use ks_service::Recent;
use ks_state::Decides;
use ks_turn::{First, Pass, Turn};
use std::alloc::Global;
use std::sync::Wait;

/// Answers the requests that come on a link, each before the next one is read, through one pass of the turn. The
/// connection ends with the input, with a request that asks for it or is the 1,000,000th, with bytes that are no
/// request, which are answered too, with a fault of the link, with a fault of keeping changes, or where there is no
/// memory. `service` says whether it may also rest, as the link asks, behind a request that was answered and before one
/// of which nothing was read: who serves that link again misses no byte.
///
/// `connection` is the number of the link on its desk, from 0. `routes` is the table of routes, made once for all
/// links, and `url` the public URL, that of the opening's settings. `recent` is what the worker remembers of its calls.
pub fn serve_connection<
    I: Decides,
    N: First,
    R: Wait,
    P: Desk,
    D: KeyDir,
    L: Source + Sink,
    G: Gate,
>(
    alloc: Global,
    turn: &Turn<I, N>,
    rt: &R,
    mut pass: Pass<N>,
    desk: &mut P,
    dir: &mut D,
    connection: u64,
    link: &mut L,
    service: Service,
    gate: &G,
    routes: &Routes,
    url: &Text,
    recent: &mut Recent,
) -> (Pass<N>, Closed<I::Fault>)
    requires own { pass.turn ≡ turn.now }
    requires url { url.now ≡ pass.seen.opening.settings.url }
    ensures links { KeepsLinks (P.desk desk.old) (P.desk desk.new) }
    ensures serves { ServesLink pass result.0 (P.desk desk.old) (P.desk desk.new) (D.dir dir.old) (D.dir dir.new) connection (L.stream link.old) (L.stream link.new) result.1 }
    ensures rests { result.1 ≡ Closed.Rests → service ≡ Service.UntilRest }
{
    let server = Server {
        alloc,
        turn,
        rt,
        gate,
        routes,
        url,
    };
    let Ok(mut reader) = Reader::new(alloc) else {
        return (pass, give_up(link));
    };
    let mut count = 0;
    'requests: loop {
        if rests(service, count, &reader, link) {
            return (pass, Closed::Rests);
        }
        match reader.next_request(alloc, link) {
            Next::Request(request) => {
                let close = request.close;
                let number = RequestNumber {
                    connection,
                    request: count,
                };
                let (next, answered) = server.answer(
                    pass, desk, dir, number, request, link, recent,
                );
                if let Err(why) = answered {
                    return (next, why);
                }
                if close {
                    return (next, Closed::Asked);
                }
                count += 1;
                if count == CONNECTION_REQUESTS {
                    return (next, Closed::Last);
                }
                pass = next;
            }
            Next::End => return (pass, Closed::End),
            Next::Bad(cause) => return (pass, refuse_bytes(alloc, cause, link)),
            Next::ReadFault => return (pass, Closed::ReadFault),
            Next::Memory => return (pass, give_up(link)),
        }
    }
}

/// Whether a link rests now: it may, a request of it was answered, nothing of a further one was read, and it asks for
/// it.
fn rests<L: Source>(service: Service, answered: u64, reader: &Reader, link: &mut L) -> bool
    ensures may { result ≡ true → service ≡ Service.UntilRest }
    ensures some { result ≡ true → 0 < answered }
    ensures nothing { result ≡ true → reader.now.held ≡ [] }
    ensures same { L.stream link.new ≡ L.stream link.old }
{
    match service {
        Service::UntilRest => answered > 0 && reader.holds_none() && link.rests(),
        Service::ToEnd => false,
    }
}
