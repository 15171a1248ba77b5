//! What `talk` and `serve` stand on: an identity that an opening gave or that was restored, and the keeper of its changes.
ghost use Rattle.std.specs.Prelude.{◌≡◌, List};
ghost use Rattle.ks_keep.specs.Books.{HasHeader, seen_by};
ghost use Rattle.ks_keeper.specs.Keeper.{IsTidy};
ghost use Rattle.ks_outside.specs.Files.{DirState};
ghost use Rattle.ks_outside.specs.Streams.{StreamState};
ghost use Rattle.ks_policy.specs.Openings.{plain};
ghost use Rattle.ks_top.specs.steps.Beginnings.{GoesOnFrom, IsStart, OpensAt};

use crate::begun::{Begun, Start, begin};
use ks_base::Text;
use ks_commands::Fault;
use ks_keep::{NotRestored, Past, restored};
use ks_keeper::Keeper;
use ks_outside::{Desk, KeyDir, Source};
use ks_policy::Opening;
use ks_routes::Routes;
use ks_state::Identity;
use std::alloc::Global;
use std::snapshot::Snapshot;

/// An identity that was opened or restored, the keeper of its changes, and what it is served with.
#[derive(Drop)]
pub struct OpenIdentity<B> {
    pub identity: Identity,
    pub keeper: B,
    /// The table of routes.
    pub routes: Routes,
    /// The public URL.
    pub url: Text,
    /// The opening, and the changes behind it that were kept. Clauses alone speak of both.
    pub opening: Snapshot<Opening>,
    pub past: Past,
}

/// No identity was opened, for this fault. The keeper comes back.
#[derive(Drop)]
pub struct NotOpened<B> {
    pub fault: Fault,
    pub keeper: B,
}

/// Opens an identity. Where the keeper holds nothing yet it is that of the file, and of the folder where the file takes its
/// keys from there; the desk gives the salts of the users' passwords, and the keeper gets the header of all this. Else the
/// file must be the one of the header that the keeper holds, and the identity is the one of that header, with all changes
/// that are kept.
pub fn open<F: Source, D: KeyDir, P: Desk, B: Keeper>(
    alloc: Global,
    file: &mut F,
    dir: &mut D,
    desk: &mut P,
    keeper: B,
) -> Result<OpenIdentity<B>, NotOpened<B>>
    requires tidy { B.whole keeper → IsTidy (B.kept keeper) }
    ensures opens { (input output : StreamState) (place : DirState) (others : List (P × D)) → OpensAt (seen_by B.kept B.whole B.faults)
        (record { input = input; file = F.stream file.old; output = output; dir = D.dir dir.old; desk = P.desk desk.old; place = place; others = others; keeper = keeper })
        (record { input = input; file = F.stream file.new; output = output; dir = D.dir dir.new; desk = P.desk desk.new; place = place; others = others; keeper = keeper })
        result }
{
    let Ok(routes) = Routes::new(alloc) else {
        return Err(NotOpened {
            fault: Fault::Memory,
            keeper,
        });
    };
    let mut keeper = keeper;
    match begin(alloc, file, dir, desk, &mut keeper) {
        Ok(Begun::Anew(start)) => Ok(begun_anew(start, keeper, routes)),
        Ok(Begun::Again(start)) => go_on(alloc, start, keeper, routes),
        Err(fault) => Err(NotOpened { fault, keeper }),
    }
}

/// What a start is served with, before any change.
fn begun_anew<B>(start: Start, keeper: B, routes: Routes) -> OpenIdentity<B>
    ensures identity { result.identity ≡ start.identity }
    ensures keeper { result.keeper ≡ keeper }
    ensures url { result.url ≡ start.url }
    ensures opening { result.opening ≡ start.opening }
    ensures past { result.past ≡ Past.Start }
{
    let Start {
        identity,
        url,
        opening,
    } = start;
    OpenIdentity {
        identity,
        keeper,
        routes,
        url,
        opening,
        past: Past::Start,
    }
}

/// Makes all changes that the keeper holds once more.
fn go_on<B: Keeper>(
    alloc: Global,
    start: Start,
    keeper: B,
    routes: Routes,
) -> Result<OpenIdentity<B>, NotOpened<B>>
    requires stands { IsStart start }
    requires tidy { B.whole keeper → IsTidy (B.kept keeper) }
    ensures { (B.whole keeper → HasHeader (B.kept keeper) (plain start.opening.value)) → GoesOnFrom (seen_by B.kept B.whole B.faults) keeper start result }
{
    let Start {
        identity,
        url,
        opening,
    } = start;
    match restored(alloc, identity, keeper) {
        Ok((identity, keeper, past)) => Ok(OpenIdentity {
            identity,
            keeper,
            routes,
            url,
            opening,
            past,
        }),
        Err(NotRestored { why, keeper }) => Err(NotOpened {
            fault: Fault::of_unread(why),
            keeper,
        }),
    }
}
