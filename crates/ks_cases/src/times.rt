//! The tables of the texts of moments.

use anyhow::{Result, ensure};
use ks_tables::{Case, try_table};
use ks_time::{read_time, write_time};
use std::alloc::Global;
use std::rt::Files;

/// The last second of the year 9999.
const LAST: u64 = 253_402_300_799;

pub fn try_tables<R: Files + Print + AllocGlobal>(rt: &R) -> Result<()> {
    try_table(rt, "times_written", time_written)?;
    try_table(rt, "times_read", time_read)
}

/// Of a moment.
fn time_written(alloc: Global, case: &Case) -> Result<String> {
    let moment = case.number(0)?;
    ensure!(moment <= LAST, "a moment behind the last one");
    let text = write_time(alloc, moment)?;
    Ok(String::from_str(alloc, text.as_str())?)
}

/// Of a text.
fn time_read(alloc: Global, case: &Case) -> Result<String> {
    match read_time(case.bytes(0)) {
        Some(moment) => Ok(format!(in alloc; "{moment}")?),
        None => Ok(String::from_str(alloc, "none")?),
    }
}
