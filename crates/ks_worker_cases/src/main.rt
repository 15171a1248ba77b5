//! Workers beside each other over one identity. Tries that the turn is free while a worker opens tokens or derives
//! passwords, by gates that hold a worker there while another makes calls, and that desks are served beside each other, by
//! a gate at which their workers meet. Prints of each case whether it held, or what was otherwise.
#![tactic(auto)]

mod aged_token;
mod alone;
mod calls;
mod cases;
mod desks;
mod gates;
mod links;
mod new_rule;
mod old_password;
mod opening;
mod workers;

use crate::cases::{Case, World};
use anyhow::Result;

const CASES: [Case; 6] = [
    Case::AgedToken,
    Case::OldPassword,
    Case::NewRule,
    Case::Meeting,
    Case::TwoDesks,
    Case::FailedAccept,
];

fn main(rt: HostRuntime) -> Result<()> {
    let world = World::read(&rt)?;
    tell(&rt, "alone", alone::try_case(&rt, &world))?;
    for case in CASES {
        tell(&rt, case.name(), cases::try_case(&rt, &world, case))?;
    }
    Ok(())
}

/// Prints what came of a case.
fn tell<R: Print>(rt: &R, name: &str, came: Result<()>) -> Result<()> {
    match came {
        Ok(()) => println!(rt; "{name}: held")?,
        Err(error) => println!(rt; "{name}: {error}")?,
    }
    Ok(())
}
