//! The cases, each over an identity and a turn of its own.
ghost use Rattle.std.specs.Prelude.{◌≡◌};
ghost use Rattle.ks_policy.specs.Openings.{plain};
ghost use Rattle.ks_machine.specs.Fronts.{first_front};
ghost use Rattle.ks_state.specs.Standing.{StandsWithAllKept};

use crate::links::Links;
use crate::{aged_token, desks, new_rule, old_password, opening};
use anyhow::{Result, bail};
use ks_base::Text;
use ks_policy::Opening;
use ks_state::Identity;
use ks_turn::{First, Turn};
use std::fs;
use std::marker::Brand;
use std::rt::Files;
use std::snapshot::Snapshot;
use std::sync::Wait;
use std::thread::Threads;

#[derive(Clone, Copy)]
pub enum Case {
    AgedToken,
    OldPassword,
    NewRule,
    Meeting,
    TwoDesks,
    FailedAccept,
}

impl Case {
    pub fn name(self) -> &'static str {
        match self {
            Case::AgedToken => "aged token",
            Case::OldPassword => "old password",
            Case::NewRule => "new rule",
            Case::Meeting => "meeting",
            Case::TwoDesks => "two desks",
            Case::FailedAccept => "failed accept",
        }
    }
}

/// What all cases share: the opening file, and the links that desks have.
pub struct World {
    file: String,
    links: Links,
}

impl Drop for World {
    fn drop(self) {
        let World { file: _, links: _ } = self;
    }
}

impl World {
    pub fn read<R: Files + AllocGlobal>(rt: &R) -> Result<World> {
        Ok(World {
            file: fs::read_to_string(rt, "o1.json")?,
            links: Links::read(rt)?,
        })
    }

    /// The bytes of the opening file.
    pub fn file(&self) -> &[u8] {
        self.file.as_str().as_bytes()
    }
}

/// Tries a case over what the file opens with.
pub fn try_case<R: AllocGlobal + Threads + Wait + Sync>(
    rt: &R,
    world: &World,
    case: Case,
) -> Result<()> {
    let opening = opening::read(rt.alloc(), world.file())?;
    let url = opening.settings.url.copy()?;
    let named = Snapshot::of(&opening);
    let Ok(identity) = Identity::open(rt.alloc(), opening) else {
        bail!("the rows of the opening file are refused");
    };
    try_over::<Brand, R>(rt, named, identity, world, &url, case)
}

/// Tries a case over an identity that was opened with this.
fn try_over<N: First + Send + Sync, R: AllocGlobal + Threads + Wait + Sync>(
    rt: &R,
    opening: Snapshot<Opening>,
    identity: Identity,
    world: &World,
    url: &Text,
    case: Case,
) -> Result<()>
    requires front { N.front ≡ first_front (plain opening.value) }
    requires stands { StandsWithAllKept identity N.front }
    requires url { url.now ≡ opening.value.settings.url }
{
    let alloc = rt.alloc();
    let links = &world.links;
    let Ok((turn, pass)) = Turn::<Identity, N>::new(alloc, identity) else {
        bail!("no memory");
    };
    match case {
        Case::AgedToken => aged_token::try_case(alloc, rt, &turn, pass),
        Case::OldPassword => old_password::try_case(alloc, rt, turn, pass, world.file()),
        Case::NewRule => new_rule::try_case(alloc, rt, &turn, pass),
        Case::Meeting => desks::try_meeting(alloc, rt, &turn, pass, links, url),
        Case::TwoDesks => desks::try_both(alloc, rt, &turn, pass, links, url),
        Case::FailedAccept => desks::try_failed_accept(alloc, rt, &turn, pass, links, url),
    }
}
