//! The tables of keepers that fail, and of journals that were changed.

use crate::kept::Kept;
use crate::names::token_of;
use crate::run::{End, Outside, WHOLE, run, run_again};
use crate::session::{Session, TALK};
use crate::world::World;
use anyhow::{Context, Result, ensure};
use ks_base::Bytes;
use ks_tables::Case;
use std::alloc::Global;
use std::rt::Files;
use std::sync::Wait;
use std::thread::Threads;

/// The first change is kept by the call with this number: the header is read and kept before.
const FIRST: u64 = 3;

/// Of a reading of the clock, a login, a request that makes a change, how many of these there are, and a request that lists what
/// they made: in how many runs a call of the keeper failed, each call in turn, with its change made and not made. Each
/// ended with 13 behind the responses to all changes before, and a restart lists these, and the one that was made.
pub fn keepers<R: Files + AllocGlobal + Threads + Wait + Sync>(
    rt: &R,
    world: &World,
    case: &Case,
) -> Result<String> {
    let changes = case.number(4)?;
    let session = changing(rt, world, case, changes)?;
    let whole = run(rt, TALK, &session.outside(WHOLE))?;
    ensure!(whole.status == 0, "status {}", whole.status);
    let mut tried: u64 = 0;
    for failing in 1..changes.saturating_add(FIRST) {
        for is_made in [false, true] {
            try_failing(rt, world, case, &session, &whole, failing, is_made).with_context(
                || "a call that failed",
            )?;
            tried = tried.saturating_add(1);
        }
    }
    Ok(format!(in rt.alloc(); "{tried}")?)
}

/// A login, and so many requests that make a change.
fn changing<R: Files + AllocGlobal + Threads + Wait + Sync>(
    rt: &R,
    world: &World,
    case: &Case,
    changes: u64,
) -> Result<Session> {
    let mut session = Session::over(rt, world, "o1")?;
    log_in(rt, world, &mut session, case)?;
    for number in 1..changes.saturating_add(1) {
        let drawn = hex::encode(rt.alloc(), number.to_be_bytes())?;
        let digits = format!(in rt.alloc(); "{number}")?;
        session.names.add(rt.alloc(), "number", digits.as_str())?;
        session.ask(
            rt.alloc(),
            world,
            case.str(1)?,
            drawn.as_str(),
            case.str(3)?,
        )?;
    }
    Ok(session)
}

/// Adds the login, and lets `<caller>` stand for its token.
fn log_in<R: AllocGlobal + Threads + Wait + Sync>(
    rt: &R,
    world: &World,
    session: &mut Session,
    case: &Case,
) -> Result<()> {
    session.ask(rt.alloc(), world, case.str(1)?, "ff", case.str(2)?)?;
    let end = run(rt, TALK, &session.outside(WHOLE))?;
    let token = token_of(end.written.as_slice())?;
    session.names.add(rt.alloc(), "caller", token)
}

/// Fails where a run whose call of the keeper with this number fails ends otherwise, or a restart finds something else.
fn try_failing<R: Files + AllocGlobal + Threads + Wait + Sync>(
    rt: &R,
    world: &World,
    case: &Case,
    session: &Session,
    whole: &End,
    failing: u64,
    is_made: bool,
) -> Result<()> {
    let plan = [(failing, is_made)];
    let nothing = Kept::nothing(rt.alloc());
    let end = run_again(rt, TALK, &session.outside(WHOLE), nothing, &plan)?;
    let before = failing.saturating_sub(FIRST);
    let made = before.saturating_add(u64::from(is_made && failing >= FIRST));
    try_end(whole, &end, failing, made)?;
    if failing < FIRST {
        return Ok(());
    }
    let found = listed(rt, world, case, end.kept)?;
    ensure!(found == made, "{failing}: {found} are listed");
    Ok(())
}

/// Fails where such a run answered something else than the whole run before the call, or did not keep so many entries.
fn try_end(whole: &End, end: &End, failing: u64, made: u64) -> Result<()> {
    ensure!(end.status == 13, "{failing}: status {}", end.status);
    // The login is answered without a change.
    let answers = if failing < FIRST {
        0
    } else {
        failing.saturating_sub(FIRST).saturating_add(1)
    };
    let front = front(whole.written.as_slice(), answers)?;
    ensure!(
        end.written.as_slice() == front,
        "{failing}: other responses"
    );
    let entries = u64::try_from(end.kept.entries.len())?;
    ensure!(entries == made, "{failing}: {entries} are kept");
    Ok(())
}

/// The first so many responses.
fn front(written: &[u8], responses: u64) -> Result<&[u8]> {
    let text = std::str::from_utf8(written)?;
    let mut length: usize = 0;
    for (response, _) in text.split("HTTP/1.1 ").skip(1).zip(0..responses) {
        length = length
            .saturating_add("HTTP/1.1 ".len())
            .saturating_add(response.len());
    }
    Ok(&written[..length.min(written.len())])
}

/// How many of what the changes made are listed by a run over this.
fn listed<R: Files + AllocGlobal + Threads + Wait + Sync>(
    rt: &R,
    world: &World,
    case: &Case,
    kept: Kept,
) -> Result<u64> {
    let mut session = Session::over(rt, world, "o1")?;
    log_in(rt, world, &mut session, case)?;
    session.ask(rt.alloc(), world, case.str(1)?, "", case.str(5)?)?;
    // The salts of the opening are kept, and not drawn again.
    let (_, again) = session.parted(0)?;
    let end = run_again(rt, TALK, &again, kept, &[])?;
    ensure!(end.status == 0, "status {} of the restart", end.status);
    count_listed(rt.alloc(), end.written.as_slice())
}

/// How many names that changes give are listed, from the first change on.
fn count_listed(alloc: Global, written: &[u8]) -> Result<u64> {
    let listed = std::str::from_utf8(written)?;
    for found in 0..u64::MAX {
        if !listed.contains(numbered(alloc, found)?.as_str()) {
            return Ok(found);
        }
    }
    Ok(u64::MAX)
}

/// The name that the change behind so many others gives.
fn numbered(alloc: Global, before: u64) -> Result<String> {
    Ok(format!(in alloc; "\"made {}\"", before.saturating_add(1))?)
}

/// Of a reading of the clock, a login, a request that makes a change, how many of these are kept, and a change of what is kept, or
/// of the opening file: the status of a restart, and what it stands for.
pub fn books<R: Files + AllocGlobal + Threads + Wait + Sync>(
    rt: &R,
    world: &World,
    case: &Case,
) -> Result<String> {
    let session = changing(rt, world, case, case.number(4)?)?;
    let outside = session.outside(WHOLE);
    let mut restart = Restart {
        kept: kept_by(rt, &outside)?,
        file: Vec::from_slice(rt.alloc(), outside.file)?,
    };
    if let Some((what, edit)) = case.str(5)?.split_once(' ') {
        restart.change(rt.alloc(), what, edit)?;
    }
    told_again(rt, &outside, restart)
}

/// What a whole run keeps.
fn kept_by<R: AllocGlobal + Threads + Wait + Sync>(rt: &R, outside: &Outside<'_>) -> Result<Kept> {
    let end = run(rt, TALK, outside)?;
    ensure!(end.status == 0, "status {}", end.status);
    Ok(end.kept)
}

/// The status of a restart without requests, and what it stands for.
fn told_again<R: AllocGlobal + Threads + Wait + Sync>(
    rt: &R,
    outside: &Outside<'_>,
    restart: Restart,
) -> Result<String> {
    let Restart { kept, file } = restart;
    let again = Outside {
        input: &[],
        file: file.as_slice(),
        ..*outside
    };
    let End { status, fault, .. } = run_again(rt, TALK, &again, kept, &[])?;
    match fault {
        None => Ok(format!(in rt.alloc(); "{status} whole")?),
        Some(fault) => Ok(format!(in rt.alloc(); "{status} {fault}")?),
    }
}

/// What a restart is over.
#[derive(Drop)]
struct Restart {
    kept: Kept,
    file: Vec<u8>,
}

impl Restart {
    /// Changes the opening file (`file`), what is kept as header (`header`) or the entry with this number.
    fn change(&mut self, alloc: Global, what: &str, edit: &str) -> Result<()> {
        match what {
            "file" => self.file = edited(alloc, self.file.as_slice(), edit)?,
            "header" => {
                let header = self.kept.header.as_ref().context("no header")?;
                self.kept.header = Some(edited_bytes(alloc, header, edit)?);
            }
            number => {
                let number = number.parse::<u64>()?;
                let entry = self.kept.entries.remove(&number).context("no such entry")?;
                let _before = self
                    .kept
                    .entries
                    .insert(number, edited_bytes(alloc, &entry, edit)?)?;
            }
        }
        Ok(())
    }
}

/// Bytes of which so many are left, as `cut 3` says, or behind so many of which others stand in the place of theirs, as
/// `put 3 00ff` says.
fn edited(alloc: Global, bytes: &[u8], edit: &str) -> Result<Vec<u8>> {
    let (what, rest) = edit.split_once(' ').context("no edit")?;
    let (length, hex) = rest.split_once(' ').unwrap_or((rest, ""));
    let length = length.parse::<usize>()?.min(bytes.len());
    let put = hex::decode(alloc, hex)?;
    let mut made = Vec::from_slice(alloc, &bytes[..length])?;
    made.extend_from_slice(put.as_slice())?;
    let rest = length.saturating_add(put.len());
    if what == "put" && rest < bytes.len() {
        made.extend_from_slice(&bytes[rest..])?;
    }
    Ok(made)
}

fn edited_bytes(alloc: Global, bytes: &Bytes, edit: &str) -> Result<Bytes> {
    Ok(Bytes::from_vec(edited(alloc, bytes.as_slice(), edit)?))
}
