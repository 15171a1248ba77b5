//! The table of requests that are made many times.

use crate::names::token_of;
use crate::run::{WHOLE, run};
use crate::session::{Session, TALK};
use crate::world::World;
use anyhow::{Result, ensure};
use ks_tables::Case;
use std::alloc::Global;
use std::rt::Files;
use std::sync::Wait;
use std::thread::Threads;

/// Of a reading of the clock, a login, a request and how often that is granted: the response to the next one.
pub fn many<R: Files + AllocGlobal + Threads + Wait + Sync>(
    rt: &R,
    world: &World,
    case: &Case,
) -> Result<String> {
    let mut session = Session::over(rt, world, "o1")?;
    ask_all(rt, world, &mut session, case)?;
    let end = run(rt, TALK, &session.outside(WHOLE))?;
    last_response(rt.alloc(), end.written.as_slice(), case.number(4)?)
}

/// Adds the login, and then the other request so often and once more, with the token that the login gives.
fn ask_all<R: AllocGlobal + Threads + Wait + Sync>(
    rt: &R,
    world: &World,
    session: &mut Session,
    case: &Case,
) -> Result<()> {
    let (alloc, reading) = (rt.alloc(), case.str(1)?);
    session.ask(alloc, world, reading, "ff", case.str(2)?)?;
    let end = run(rt, TALK, &session.outside(WHOLE))?;
    session
        .names
        .add(alloc, "caller", token_of(end.written.as_slice())?)?;
    drop(end);
    for number in 1..case.number(4)?.saturating_add(2) {
        let drawn = hex::encode(alloc, number.to_be_bytes())?;
        let digits = format!(in alloc; "{number}")?;
        session.names.add(alloc, "number", digits.as_str())?;
        session.ask(alloc, world, reading, drawn.as_str(), case.str(3)?)?;
    }
    Ok(())
}

/// The last response, behind that to the login and so many others that are granted.
fn last_response(alloc: Global, written: &[u8], times: u64) -> Result<String> {
    let mut granted: u64 = 0;
    let mut last = String::new(alloc);
    for response in std::str::from_utf8(written)?.split("HTTP/1.1 ") {
        if response.starts_with("201 Created\r\n") {
            granted = granted.saturating_add(1);
        }
        last = format!(in alloc; "HTTP/1.1 {response}")?;
    }
    ensure!(granted == times.saturating_add(1), "{granted} were granted");
    Ok(last)
}
