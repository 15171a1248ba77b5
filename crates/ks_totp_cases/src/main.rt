//! Tries the calls of `ks_totp` on tables of cases, and prints for each table how many of its cases held, and each case
//! that did not. The tables are the files of `data/`.
#![tactic(auto)]

mod codes;
mod steps;

use anyhow::Result;

fn main(rt: HostRuntime) -> Result<()> {
    codes::try_tables(&rt)?;
    ks_tables::try_table(&rt, "factors", steps::answer)
}
