//! Tries what no whole session reaches: tables that are full, and long runs of revocations beside a plain list of all that
//! were ever made. Prints for each table of `data/` how many of its cases held, and each that did not.
#![tactic(auto)]

mod answers;
mod events;
mod history;
mod limits;
mod rows;
mod tables;

use anyhow::Result;

fn main(rt: HostRuntime) -> Result<()> {
    limits::try_table(&rt)?;
    ks_tables::try_table(&rt, "revoked", history::run_of)
}
