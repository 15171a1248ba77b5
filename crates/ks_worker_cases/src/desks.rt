//! Two desks that are served beside each other, each by a worker of its own.
ghost use Rattle.std.specs.Prelude.{◌≡◌, ◌<◌};

use crate::gates::MeetingGate;
use crate::links::{Link, Links};
use anyhow::{Result, bail, ensure};
use ks_base::Text;
use ks_outside::{Gate, MemoryDesk, MemoryDir, Open};
use ks_routes::Routes;
use ks_server::{Served, serve};
use ks_state::Identity;
use ks_turn::{First, Pass, Turn};
use std::alloc::Global;
use std::sync::Wait;
use std::thread::Threads;

/// Users log in at both desks. A worker that is about to derive a password waits there until the other is, too.
pub fn try_meeting<N: First + Send + Sync, R: Threads + Wait + Sync>(
    alloc: Global,
    rt: &R,
    turn: &Turn<Identity, N>,
    pass: Pass<N>,
    links: &Links,
    url: &Text,
) -> Result<()>
    requires own { pass.turn ≡ turn.now }
    requires weight { 2 < pass.weight }
    requires url { url.now ≡ pass.seen.opening.settings.url }
{
    let (one, other) = (links.link("ann logs in")?, links.link("bob logs in")?);
    let (first, second) = (one.desk(alloc, &[])?, other.desk(alloc, &[])?);
    let gate = MeetingGate::new();
    let served = serve_both(alloc, rt, turn, pass, first, second, &gate, url)?;
    gate.ensure_met()?;
    ensure!(!served.failed, "an accept fails");
    ensure_answered(&served.first, one)?;
    ensure_answered(&served.second, other)
}

/// A user logs in at one desk, and the version is asked for at the other.
pub fn try_both<N: First + Send + Sync, R: Threads + Wait + Sync>(
    alloc: Global,
    rt: &R,
    turn: &Turn<Identity, N>,
    pass: Pass<N>,
    links: &Links,
    url: &Text,
) -> Result<()>
    requires own { pass.turn ≡ turn.now }
    requires weight { 2 < pass.weight }
    requires url { url.now ≡ pass.seen.opening.settings.url }
{
    let (one, other) = (
        links.link("ann logs in")?,
        links.link("the version is told")?,
    );
    let (first, second) = (one.desk(alloc, &[])?, other.desk(alloc, &[])?);
    let served = serve_both(alloc, rt, turn, pass, first, second, &Open, url)?;
    ensure!(!served.failed, "an accept fails");
    ensure_answered(&served.first, one)?;
    ensure_answered(&served.second, other)
}

/// The first accept of one desk fails, so that its link is left. The other desk is served all the same.
pub fn try_failed_accept<N: First + Send + Sync, R: Threads + Wait + Sync>(
    alloc: Global,
    rt: &R,
    turn: &Turn<Identity, N>,
    pass: Pass<N>,
    links: &Links,
    url: &Text,
) -> Result<()>
    requires own { pass.turn ≡ turn.now }
    requires weight { 2 < pass.weight }
    requires url { url.now ≡ pass.seen.opening.settings.url }
{
    let (one, other) = (links.link("ann logs in")?, links.link("bob logs in")?);
    let (first, second) = (one.desk(alloc, &[1])?, other.desk(alloc, &[])?);
    let served = serve_both(alloc, rt, turn, pass, first, second, &Open, url)?;
    ensure!(served.failed, "no accept fails");
    ensure!(
        served.first.given_back().is_empty(),
        "a link comes all the same"
    );
    ensure_answered(&served.second, other)
}

fn ensure_answered(desk: &MemoryDesk, link: &Link) -> Result<()> {
    ensure!(link.is_answered(desk), "a link has another response");
    Ok(())
}

/// Two desks that were served.
struct Both {
    first: MemoryDesk,
    second: MemoryDesk,
    /// Some accept failed.
    failed: bool,
}

impl Drop for Both {
    fn drop(self) {
        let Both {
            first: _,
            second: _,
            failed: _,
        } = self;
    }
}

/// Serves two desks until no more links come.
fn serve_both<N: First + Send + Sync, R: Threads + Wait + Sync, G: Gate + Sync>(
    alloc: Global,
    rt: &R,
    turn: &Turn<Identity, N>,
    pass: Pass<N>,
    first: MemoryDesk,
    second: MemoryDesk,
    gate: &G,
    url: &Text,
) -> Result<Both>
    requires own { pass.turn ≡ turn.now }
    requires weight { 2 < pass.weight }
    requires url { url.now ≡ pass.seen.opening.settings.url }
{
    let routes = Routes::new(alloc)?;
    let mut desks = Vec::new(alloc);
    desks.push((first, MemoryDir::new(alloc, &[], &[], None)?))?;
    desks.push((second, MemoryDir::new(alloc, &[], &[], None)?))?;
    let served = serve(alloc, turn, rt, pass, desks, 0, gate, &routes, url);
    let Served {
        mut desks,
        failed,
        memory,
        ..
    } = served;
    let (Some((second, _)), Some((first, _))) = (desks.pop(), desks.pop()) else {
        bail!("a desk is missing")
    };
    ensure!(!memory, "no memory");
    Ok(Both {
        first,
        second,
        failed,
    })
}
