//! Many connections, served by an identity that was opened or restored.
ghost use Rattle.std.specs.Prelude.{◌≡◌, ◌⊎◌, ◌<◌, ◌≤◌, ◌∷◌, List, Some, None, length, if◌then◌else◌};
ghost use Rattle.ks_base.specs.declared.limits.TheConstants.{WORKERS};
ghost use Rattle.ks_keep.specs.Books.{IsBookOf, seen_by};
ghost use Rattle.ks_keeper.specs.Keeper.{IsTidy};
ghost use Rattle.ks_outside.specs.Desks.{DeskState};
ghost use Rattle.ks_outside.specs.Files.{DirState};
ghost use Rattle.ks_outside.specs.Streams.{StreamState};
ghost use Rattle.ks_state.specs.Standing.{StandsWithAllKept};
ghost use Rattle.ks_top.specs.Serve.{Served, Serves, workers_fault};
ghost use Rattle.ks_top.specs.steps.Ends.{keeper_at, state_at};

use crate::opened::{NotOpened, OpenIdentity, open};
use crate::outcome::{End, Outcome};
use ks_commands::Fault;
use ks_keep::{Booked, KeeperFailed, Since};
use ks_keeper::Keeper;
use ks_outside::{Desk, KeyDir, Open, Source};
use ks_turn::{First, NoRoom, Turn};
use std::marker::Brand;
use std::sync::Wait;
use std::thread::Threads;

/// Opens an identity from the file, and from the folder `dir` where the file takes its keys from there, with the first
/// desk, or goes on from what the keeper holds; and serves with the first `workers` desks, at most as many as there are,
/// beside each other. Each serves `connections` links at most, of which 0 says that there is no bound. All desks come back
/// in their order.
pub fn serve<
    R: AllocGlobal + Threads + Wait + Sync,
    F: Source,
    D: KeyDir + Send + Drop,
    P: Desk + Send + Drop,
    B: Keeper + Send + Drop,
>(
    rt: &R,
    file: &mut F,
    dir: &mut D,
    mut desks: Vec<(P, D)>,
    workers: u32,
    connections: u64,
    keeper: B,
) -> (Outcome<B>, Vec<(P, D)>)
where
    P::Link: Send,
    requires some { 0 < length desks.items }
    requires workers { 1 ≤ workers }
    requires few { workers ≤ WORKERS }
    requires tidy { B.whole keeper → IsTidy (B.kept keeper) }
    ensures { (input output : StreamState) (first : P × D) (others : List (P × D)) → desks.items ≡ first ∷ others → (after : P × D) × (rest : List (P × D)) × (result.1.items ≡ after ∷ rest)
        × Serves (seen_by B.kept B.whole B.faults) (λ (d : P × D). record { desk = P.desk d.0; dir = D.dir d.1 }) P.Link.stream workers connections
        (record { input = input; file = F.stream file.old; output = output; dir = D.dir dir.old; desk = P.desk first.0; place = D.dir first.1; others = others; keeper = keeper })
        (record { input = input; file = F.stream file.new; output = output; dir = D.dir dir.new; desk = P.desk after.0; place = D.dir after.1; others = rest; keeper = keeper_at result.0.end })
        result.0.fault (state_at result.0.end) }
{
    let (desk, _place) = &mut desks[0];
    match open(rt.alloc(), file, dir, desk, keeper) {
        Ok(opened) => {
            let (fault, state, desks) = serve_desks::<Brand, R, D, P, B>(
                rt,
                opened,
                desks,
                workers,
                connections,
            );
            let outcome = Outcome {
                fault,
                end: End::Open(state),
            };
            (outcome, desks)
        }
        Err(NotOpened { fault, keeper }) => (Outcome::stopped(fault, keeper), desks),
    }
}

/// Serves desks by an identity that was opened.
fn serve_desks<
    N: First + Since + Send + Sync,
    R: AllocGlobal + Threads + Wait + Sync,
    D: KeyDir + Send + Drop,
    P: Desk + Send + Drop,
    B: Keeper + Send + Drop,
>(
    rt: &R,
    opened: OpenIdentity<B>,
    mut desks: Vec<(P, D)>,
    workers: u32,
    connections: u64,
) -> (Option<Fault>, Booked<B, Brand>, Vec<(P, D)>)
where
    P::Link: Send,
    requires stands { StandsWithAllKept opened.identity N.front }
    requires book { B.whole opened.keeper → IsBookOf (B.kept opened.keeper) N.front }
    requires since { B.whole opened.keeper → N.holds }
    requires url { opened.url ≡ N.front.opening.settings.url }
    requires some { 0 < length desks.items }
    requires workers { 1 ≤ workers }
    requires few { workers ≤ WORKERS }
    ensures since { B.whole result.1.keeper → N.holds }
    ensures served { (input output file file_after : StreamState) (dir dir_after : DirState) (before : DeskState P.Link) (first : P × D) (others : List (P × D)) (keeper : B) → desks.items ≡ first ∷ others
        → (after : P × D) × (rest : List (P × D)) × (result.2.items ≡ after ∷ rest)
        × Served (seen_by B.kept B.whole B.faults) (λ (d : P × D). record { desk = P.desk d.0; dir = D.dir d.1 }) P.Link.stream workers connections
        (record { input = input; file = file; output = output; dir = dir; desk = before; place = D.dir first.1; others = others; keeper = keeper })
        (record { input = input; file = file_after; output = output; dir = dir_after; desk = P.desk after.0; place = D.dir after.1; others = rest; keeper = result.1.keeper })
        result.0 N.front (P.desk first.0) result.1 }
{
    let alloc = rt.alloc();
    let OpenIdentity {
        identity,
        keeper,
        routes,
        url,
        opening: _,
        past: _,
    } = opened;
    let booked = Booked::<B, N>::new(alloc, identity, keeper);
    let (turn, pass) = match Turn::<Booked<B, N>, N>::new(alloc, booked) {
        Ok(made) => made,
        Err(NoRoom { state }) => return (Some(Fault::Memory), state.unnamed(), desks),
    };
    let count = (workers as usize).min(desks.len());
    let Ok(mut all) = Vec::with_capacity(alloc, desks.len()) else {
        return (Some(Fault::Memory), turn.close(pass).unnamed(), desks);
    };
    let Ok(mut others) = desks.split_off(count) else {
        return (Some(Fault::Memory), turn.close(pass).unnamed(), desks);
    };
    let ks_server::Served {
        desks: mut served,
        pass,
        failed,
        memory,
        keeper,
    } = ks_server::serve(
        alloc,
        &turn,
        rt,
        pass,
        desks,
        connections,
        &Open,
        &routes,
        &url,
    );
    // There is room for all desks.
    all.append(&mut served).unwrap();
    all.append(&mut others).unwrap();
    (
        ending(memory, keeper, failed),
        turn.close(pass).unnamed(),
        all,
    )
}

/// The fault with which the workers ended, if with one.
fn ending(memory: bool, keeper: Option<KeeperFailed>, failed: bool) -> Option<Fault>
    ensures { result ≡ (if memory then Some Fault.Memory else workers_fault keeper failed) }
{
    if memory {
        return Some(Fault::Memory);
    }
    match keeper {
        Some(why) => Some(Fault::Keeper(Some(why))),
        None if failed => Some(Fault::Desk),
        None => None,
    }
}
