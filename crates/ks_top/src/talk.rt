//! One connection, served by an identity that was opened or restored.
ghost use Rattle.std.specs.Prelude.{◌≡◌, ◌≢◌, ◌⊎◌, Some, List};
ghost use Rattle.ks_keep.specs.Books.{IsBookOf, seen_by};
ghost use Rattle.ks_keeper.specs.Keeper.{IsTidy};
ghost use Rattle.ks_outside.specs.Desks.{DeskState};
ghost use Rattle.ks_outside.specs.Files.{DirState};
ghost use Rattle.ks_outside.specs.Streams.{StreamState};
ghost use Rattle.ks_state.specs.Standing.{StandsWithAllKept};
ghost use Rattle.ks_top.specs.Talk.{ServedOne, Talks, ending};
ghost use Rattle.ks_top.specs.steps.Ends.{keeper_at, state_at};

use crate::opened::{NotOpened, OpenIdentity, open};
use crate::outcome::{End, Outcome};
use ks_commands::Fault;
use ks_keep::{Booked, KeeperFailed, Since};
use ks_keeper::Keeper;
use ks_outside::{Desk, KeyDir, Open, Pair, Sink, Source};
use ks_server::{Closed, Service, serve_connection};
use ks_service::Recent;
use ks_turn::{First, NoRoom, Turn};
use std::marker::Brand;
use std::sync::Wait;

/// Opens an identity from the file, and from the folder `dir` where the file takes its keys from there, or goes on from what
/// the keeper holds; and serves one connection over the input and the output. The folder `place` is the one from which
/// calls load keys.
pub fn talk<R: AllocGlobal + Wait, S: Source, F: Source, K: Sink, D: KeyDir, P: Desk, B: Keeper>(
    rt: &R,
    input: &mut S,
    file: &mut F,
    output: &mut K,
    dir: &mut D,
    desk: &mut P,
    place: &mut D,
    keeper: B,
) -> Outcome<B>
    requires tidy { B.whole keeper → IsTidy (B.kept keeper) }
    ensures { (others : List (P × D)) → Talks (seen_by B.kept B.whole B.faults)
        (record { input = S.stream input.old; file = F.stream file.old; output = K.stream output.old; dir = D.dir dir.old; desk = P.desk desk.old; place = D.dir place.old; others = others; keeper = keeper })
        (record { input = S.stream input.new; file = F.stream file.new; output = K.stream output.new; dir = D.dir dir.new; desk = P.desk desk.new; place = D.dir place.new; others = others; keeper = keeper_at result.end })
        result.fault (state_at result.end) }
{
    match open(rt.alloc(), file, dir, desk, keeper) {
        Ok(opened) => {
            let (fault, state) = serve_one::<Brand, R, S, K, D, P, B>(
                rt, opened, input, output, desk, place,
            );
            Outcome {
                fault,
                end: End::Open(state),
            }
        }
        Err(NotOpened { fault, keeper }) => Outcome::stopped(fault, keeper),
    }
}

/// Serves one connection by an identity that was opened.
fn serve_one<
    N: First + Since,
    R: AllocGlobal + Wait,
    S: Source,
    K: Sink,
    D: KeyDir,
    P: Desk,
    B: Keeper,
>(
    rt: &R,
    opened: OpenIdentity<B>,
    input: &mut S,
    output: &mut K,
    desk: &mut P,
    place: &mut D,
) -> (Option<Fault>, Booked<B, Brand>)
    requires stands { StandsWithAllKept opened.identity N.front }
    requires book { B.whole opened.keeper → IsBookOf (B.kept opened.keeper) N.front }
    requires since { B.whole opened.keeper → N.holds }
    requires url { opened.url ≡ N.front.opening.settings.url }
    ensures since { B.whole result.1.keeper → N.holds }
    ensures served { (before : DeskState P.Link) (file file_after : StreamState) (dir dir_after : DirState) (others : List (P × D)) (keeper : B) → ServedOne (seen_by B.kept B.whole B.faults)
        (record { input = S.stream input.old; file = file; output = K.stream output.old; dir = dir; desk = before; place = D.dir place.old; others = others; keeper = keeper })
        (record { input = S.stream input.new; file = file_after; output = K.stream output.new; dir = dir_after; desk = P.desk desk.new; place = D.dir place.new; others = others; keeper = result.1.keeper })
        result.0 N.front (P.desk desk.old) result.1 }
{
    let OpenIdentity {
        identity,
        keeper,
        routes,
        url,
        opening: _,
        past: _,
    } = opened;
    let booked = Booked::<B, N>::new(rt.alloc(), identity, keeper);
    let (turn, pass) = match Turn::<Booked<B, N>, N>::new(rt.alloc(), booked) {
        Ok(made) => made,
        Err(NoRoom { state }) => return (Some(Fault::Memory), state.unnamed()),
    };
    let mut link = Pair {
        source: input,
        sink: output,
    };
    let mut recent = Recent::new(rt.alloc());
    let (pass, closed) = serve_connection(
        rt.alloc(),
        &turn,
        rt,
        pass,
        desk,
        place,
        0,
        &mut link,
        Service::ToEnd,
        &Open,
        &routes,
        &url,
        &mut recent,
    );
    (ending(closed), turn.close(pass).unnamed())
}

/// The fault that an end of the connection is, if it is one.
fn ending(closed: Closed<KeeperFailed>) -> Option<Fault>
    requires { closed ≢ Closed.Rests }
    ensures { ending closed result }
{
    match closed {
        Closed::End | Closed::Asked | Closed::Last | Closed::BadHttp(_) => None,
        Closed::Rests => unreachable!(),
        Closed::ReadFault => Some(Fault::Read),
        Closed::WriteFault => Some(Fault::Write),
        Closed::Memory => Some(Fault::Memory),
        Closed::KeeperFault(why) => Some(Fault::Keeper(Some(why))),
    }
}
