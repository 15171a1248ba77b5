//! Whole turns over a plain journal: in one thread, in two and in eight. Prints what was made, and what the journal
//! has at the close.
#![tactic(auto)]

mod journal;
mod maker;
mod passes;
mod wholes;

use crate::journal::Journal;
use crate::maker::Maker;
use crate::passes::Work;
use anyhow::{Result, bail};
use std::marker::Brand;

/// Prints how many changes were made and found. Each maker's stand in the journal, each once, in the order in which
/// it made them.
fn tell<R: Print>(rt: &R, name: &str, makers: u64, work: &Work, journal: &Journal) -> Result<()> {
    let mut found = 0u64;
    for maker in 0..makers {
        match Maker::own_among(maker, journal.entries.as_slice()) {
            Some(own) => found = found.wrapping_add(own),
            None => println!(rt; "{name}: changes of {maker} are missing or out of order")?,
        }
    }
    if !journal.is_in_order() {
        println!(rt; "{name}: the journal is out of order")?;
    }
    if work.fell_behind {
        println!(rt; "{name}: a hold told less than was seen")?;
    }
    println!(rt;
        "{name}: {} made, {} in the journal, {found} of them theirs",
        work.made,
        journal.entries.len()
    )?;
    Ok(())
}

fn main(rt: HostRuntime) -> Result<()> {
    let alloc = rt.alloc();
    let Some((met, held, journal)) = wholes::one_of_two::<Brand, _>(&rt, alloc) else {
        bail!("no memory");
    };
    println!(rt;
        "one of two: {met} seen after the meeting, {held} in the hold, {} at the close",
        journal.entries.len()
    )?;
    let Some((work, journal)) = wholes::two_threads::<Brand, _>(&rt, alloc, 100) else {
        bail!("no memory");
    };
    tell(&rt, "two threads", 2, &work, &journal)?;
    let Some((work, journal)) = wholes::eight_threads::<Brand, _>(&rt, alloc, 5, 40) else {
        bail!("no memory");
    };
    tell(&rt, "eight threads", 8, &work, &journal)
}
