//! The tables of sessions.

use crate::names::token_of;
use crate::run::{End, WHOLE, run, run_again};
use crate::session::{Session, TALK};
use crate::world::World;
use anyhow::{Result, bail, ensure};
use ks_tables::{Row, read_rows};
use std::rt::Files;
use std::sync::Wait;
use std::thread::Threads;

/// Longer inputs are given whole alone.
const SHORT: usize = 4_000;

/// Where the connection fails, no piece is longer.
const PIECE: usize = 64;

/// The most of an answer that is printed.
const SHOWN: usize = 400;

/// Tries each session of the table of this name, and prints each that is answered otherwise, and then how many held and
/// how many requests these had.
pub fn try_table<R: Files + Print + AllocGlobal + Threads + Wait + Sync>(
    rt: &R,
    world: &World,
    table: &str,
) -> Result<()> {
    let rows = read_rows(rt, table)?;
    let Tally {
        sessions,
        requests,
        restarted,
    } = held(rt, world, table, rows.as_slice())?;
    println!(rt; "{table} {sessions} with {requests} requests, {restarted} over a restart")?;
    Ok(())
}

/// What held of a table: how many sessions, how many requests these have, and how many of them held over a restart too.
#[derive(Clone, Copy)]
struct Tally {
    sessions: u64,
    requests: usize,
    restarted: u64,
}

/// What holds of these rows. A row with a name begins a session.
fn held<R: Files + Print + AllocGlobal + Threads + Wait + Sync>(
    rt: &R,
    world: &World,
    table: &str,
    rows: &[Row],
) -> Result<Tally> {
    let mut held = Tally {
        sessions: 0,
        requests: 0,
        restarted: 0,
    };
    for (at, row) in rows.iter().enumerate() {
        let name = row.case().str(0)?;
        if name.is_empty() {
            continue;
        }
        let session = front(rows.split_at(at).1);
        match try_session(rt, world, name, session) {
            Ok(restarted) => {
                held.sessions = held.sessions.saturating_add(1);
                held.requests = held.requests.saturating_add(session.len());
                held.restarted = held.restarted.saturating_add(u64::from(restarted));
            }
            Err(found) => println!(rt; "{table}, {name}: {found}")?,
        }
    }
    Ok(held)
}

/// The rows of the session that the first row begins.
fn front(rows: &[Row]) -> &[Row] {
    for (at, row) in rows.iter().enumerate() {
        if at > 0 && !row.case().bytes(0).is_empty() {
            return rows.split_at(at).0;
        }
    }
    rows
}

/// Fails where a session is answered otherwise: whole, or a short one in single bytes, or with a restart in its middle. Says
/// whether there was one.
fn try_session<R: Files + AllocGlobal + Threads + Wait + Sync>(
    rt: &R,
    world: &World,
    name: &str,
    rows: &[Row],
) -> Result<bool> {
    let session = read_session(rt, world, name, rows)?;
    let is_cut = session.fails.read != 0 || session.fails.write != 0;
    let outside = session.outside(if is_cut { PIECE } else { WHOLE });
    try_end(&session, rows, &run(rt, TALK, &outside)?)?;
    if !is_cut && outside.input.len() <= SHORT {
        try_end(&session, rows, &run(rt, TALK, &session.outside(1))?)?;
    }
    try_restart(rt, &session, rows)
}

/// Fails where a session is answered otherwise by two runs, the second of which goes on from what the first one kept. Only a
/// session with time that goes on, where nothing fails and each request is answered, is the same then.
fn try_restart<R: AllocGlobal + Threads + Wait + Sync>(
    rt: &R,
    session: &Session,
    rows: &[Row],
) -> Result<bool> {
    let are_answered = rows.iter().all(|row| !row.case().bytes(5).is_empty());
    if rows.len() < 2 || !are_answered || !session.is_plain() {
        return Ok(false);
    }
    let middle = rows.len() / 2;
    let (before, after) = session.parted(middle)?;
    let (first, second) = rows.split_at(middle);
    let end = run(rt, TALK, &before)?;
    try_end(session, first, &end)?;
    try_end(
        session,
        second,
        &run_again(rt, TALK, &after, end.kept, &[])?,
    )?;
    Ok(true)
}

/// The session of these rows.
fn read_session<R: Files + AllocGlobal>(
    rt: &R,
    world: &World,
    name: &str,
    rows: &[Row],
) -> Result<Session> {
    let mut session = opened_session(rt, world, name)?;
    for row in rows {
        add_row(rt, world, &mut session, row)?;
    }
    Ok(session)
}

/// The session of this name before its requests.
fn opened_session<R: Files + AllocGlobal>(rt: &R, world: &World, name: &str) -> Result<Session> {
    let Some(setting) = world.setting(name) else {
        return Session::over(rt, world, "o1");
    };
    let opening = setting.str(1)?;
    let opening = if opening.is_empty() { "o1" } else { opening };
    let mut session = Session::over(rt, world, opening)?;
    session.set(rt, world, &setting)?;
    Ok(session)
}

/// Adds the request of a row, and lets its name stand for the token of its response.
fn add_row<R: AllocGlobal>(rt: &R, world: &World, session: &mut Session, row: &Row) -> Result<()> {
    let case = row.case();
    let (token, alloc) = (case.str(1)?, rt.alloc());
    session.ask(alloc, world, case.str(2)?, case.str(3)?, case.str(4)?)?;
    if !token.is_empty() {
        session.names.add(alloc, token, token_of(case.bytes(5))?)?;
    }
    Ok(())
}

/// Fails where the end is not that of the session, or what was written is not what these rows expect: all, or where a write
/// fails a front.
fn try_end(session: &Session, rows: &[Row], end: &End) -> Result<()> {
    ensure!(end.status == session.status, "status {}", end.status);
    let is_cut = session.fails.write != 0;
    let mut rest = end.written.as_slice();
    for row in rows {
        let response = row.case().bytes(5);
        match rest.strip_prefix(response) {
            Some(behind) => rest = behind,
            None if is_cut && response.starts_with(rest) => return Ok(()),
            None => bail!("line {}: {}", row.line, shown(rest)?),
        }
    }
    ensure!(!is_cut, "all was written");
    ensure!(rest.is_empty(), "and then {}", shown(rest)?);
    Ok(())
}

/// The front of some bytes.
fn shown(bytes: &[u8]) -> Result<&str> {
    Ok(std::str::from_utf8(&bytes[..bytes.len().min(SHOWN)])?)
}
