//! Tries the calls of the layers below tokens and policies on tables of cases, and prints for each table how many of its
//! cases held, and each case that did not. The tables are the files of `data/`.
#![tactic(auto)]

mod case;
mod ciphers;
mod key_files;
mod payloads;
mod people;
mod policies;
mod rings;
mod rules;
mod stepped;
mod times;
mod tokens;

use anyhow::Result;
use people::People;

fn main(rt: HostRuntime) -> Result<()> {
    ciphers::try_tables(&rt)?;
    tokens::try_tables(&rt)?;
    payloads::try_tables(&rt)?;
    rings::try_tables(&rt)?;
    key_files::try_tables(&rt)?;
    times::try_tables(&rt)?;
    let people = People::read(&rt)?;
    rules::try_tables(&rt, &people)?;
    policies::try_tables(&rt, &people)
}
