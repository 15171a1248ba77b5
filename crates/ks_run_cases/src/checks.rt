//! The tables of `check`, of `password` and of `drill`, and of words that are no command's.

use crate::run::{End, Outside, WHOLE, run};
use anyhow::{Result, ensure};
use ks_commands::Fault;
use ks_tables::Case;
use std::alloc::Global;
use std::sync::Wait;
use std::thread::Threads;

/// Of an input: the end of its check and the output, which are the same in other pieces too.
pub fn checks<R: AllocGlobal + Threads + Wait + Sync>(rt: &R, case: &Case) -> Result<String> {
    let whole = check(rt, &Outside::of(case.bytes(0), WHOLE))?;
    for longest in [1, 2] {
        let same = check(rt, &Outside::of(case.bytes(0), longest))?;
        ensure!(
            same.as_str() == whole.as_str(),
            "in pieces of {longest} {}",
            same.as_str()
        );
    }
    Ok(whole)
}

/// Of an input, the length of the pieces, and the read and the write that fail: the end of its check and the output.
pub fn check_faults<R: AllocGlobal + Threads + Wait + Sync>(rt: &R, case: &Case) -> Result<String> {
    let mut outside = Outside::of(case.bytes(0), case.size(1)?);
    outside.fails.read = case.number(2)?;
    outside.fails.write = case.number(3)?;
    check(rt, &outside)
}

/// Of words, an input, random bytes, the length of the pieces, and the read and the write that fail: the end of their run and the
/// output.
pub fn passwords<R: AllocGlobal + Threads + Wait + Sync>(rt: &R, case: &Case) -> Result<String> {
    let mut outside = Outside::of(case.bytes(1), case.size(3)?);
    outside.random = case.bytes(2);
    outside.fails.read = case.number(4)?;
    outside.fails.write = case.number(5)?;
    let end = run(rt, case.str(0)?, &outside)?;
    shown(rt.alloc(), &end)
}

/// Of words, the length of the pieces, and the write that fails: the end of their run and the output.
pub fn drills<R: AllocGlobal + Threads + Wait + Sync>(rt: &R, case: &Case) -> Result<String> {
    let mut outside = Outside::of(&[], case.size(1)?);
    outside.fails.write = case.number(2)?;
    let end = run(rt, case.str(0)?, &outside)?;
    shown(rt.alloc(), &end)
}

fn check<R: AllocGlobal + Threads + Wait + Sync>(rt: &R, outside: &Outside<'_>) -> Result<String> {
    let end = run(rt, "check", outside)?;
    shown(rt.alloc(), &end)
}

/// The status, what it stands for, and the output.
fn shown(alloc: Global, end: &End) -> Result<String> {
    let status = end.status;
    let mut shown = match &end.fault {
        None => format!(in alloc; "{status} whole")?,
        Some(Fault::BadLine(line)) => format!(in alloc; "{status} line {line}")?,
        Some(fault) => format!(in alloc; "{status} {fault}")?,
    };
    if !end.written.is_empty() {
        shown.push_str(", ")?;
        shown.push_str(std::str::from_utf8(end.written.as_slice())?)?;
    }
    Ok(shown)
}

/// Of words in quotes: the status of their run on a key, and how much it wrote.
pub fn words<R: AllocGlobal + Threads + Wait + Sync>(rt: &R, case: &Case) -> Result<String> {
    let key = b"cw_0x689RpI-jtRR7oE8h_eQsKImvJapLeSbXpwF4e4=".as_slice();
    let end = run(rt, case.str(0)?, &Outside::of(key, WHOLE))?;
    Ok(format!(in rt.alloc(); "{}, {} bytes", end.status, end.written.len())?)
}
