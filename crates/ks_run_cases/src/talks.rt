//! The tables of `talk` and of `serve`, which have the same responses.

use crate::run::{End, Outside, WHOLE, run};
use crate::session::TALK;
use anyhow::{Context, Result, bail, ensure};
use ks_tables::{Case, Row};
use std::alloc::Global;
use std::sync::Wait;
use std::thread::Threads;

/// The lengths of pieces in which inputs are given too.
const PIECES: [usize; 3] = [1, 2, 16_384];

/// In at most so many.
const MOST_PIECES: usize = 1_000;

/// The most responses that are named.
const MOST: u32 = 2_000;

/// The bytes of the response of this name, behind which stand `close` where it ends the connection, and `head` where its body
/// is left out.
fn response(alloc: Global, known: &[Row], name: &str) -> Result<Vec<u8>> {
    let (name, marks) = name.split_once(' ').unwrap_or((name, ""));
    for row in known {
        if let [known, head, body] = row.cells.as_slice()
            && name.as_bytes() == known.as_slice()
        {
            let mut bytes = Vec::from_slice(alloc, head.as_slice())?;
            if marks.contains("close") {
                bytes.extend_from_slice(b"Connection: close\r\n")?;
            }
            bytes.extend_from_slice(b"\r\n")?;
            if !marks.contains("head") {
                bytes.extend_from_slice(body.as_slice())?;
            }
            return Ok(bytes);
        }
    }
    bail!("no response {name}")
}

/// The name of the response at the front of some bytes, and its length.
fn first_response(alloc: Global, known: &[Row], bytes: &[u8]) -> Result<(String, usize)> {
    // The head alone is the front of a response with a body.
    for marks in ["", " close", " head", " close head"] {
        for row in known {
            let name = row.cells.first().context("an empty row")?;
            let name = std::str::from_utf8(name.as_slice())?;
            let name = format!(in alloc; "{name}{marks}")?;
            let response = response(alloc, known, name.as_str())?;
            if bytes.starts_with(response.as_slice()) {
                return Ok((name, response.len()));
            }
        }
    }
    bail!("other bytes")
}

/// The names of the responses that some bytes are.
pub fn names(alloc: Global, known: &[Row], bytes: &[u8]) -> Result<String> {
    let mut names = String::new(alloc);
    let mut rest = bytes;
    for at in 0..MOST {
        if rest.is_empty() {
            return Ok(names);
        }
        let (name, length) = first_response(alloc, known, rest)?;
        if at > 0 {
            names.push_str(", ")?;
        }
        names.push_str(name.as_str())?;
        rest = rest.split_at(length.min(rest.len())).1;
    }
    bail!("more responses")
}

/// Of an input: the names of the responses, which are the same in pieces of any of these lengths.
pub fn talks<R: AllocGlobal + Threads + Wait + Sync>(
    rt: &R,
    outside: &Outside<'_>,
    known: &[Row],
    case: &Case,
) -> Result<String> {
    let input = case.bytes(0);
    let whole = talk(rt, outside, input, WHOLE)?;
    for longest in PIECES {
        if input.len() < MOST_PIECES.saturating_mul(longest) {
            let pieces = talk(rt, outside, input, longest)?;
            ensure!(
                pieces.as_slice() == whole.as_slice(),
                "otherwise in pieces of {longest}"
            );
        }
    }
    names(rt.alloc(), known, whole.as_slice())
}

/// What is written for an input in pieces of at most this length, with the status 0.
fn talk<R: AllocGlobal + Threads + Wait + Sync>(
    rt: &R,
    outside: &Outside<'_>,
    input: &[u8],
    longest: usize,
) -> Result<Vec<u8>> {
    let outside = Outside {
        input,
        longest,
        ..*outside
    };
    let end = run(rt, TALK, &outside)?;
    ensure!(end.status == 0, "status {}", end.status);
    Ok(end.written)
}

/// Of an input, the length of the pieces, the read and the write that fail, and responses: the status, and how much of the
/// responses was written.
pub fn talk_faults<R: AllocGlobal + Threads + Wait + Sync>(
    rt: &R,
    outside: &Outside<'_>,
    known: &[Row],
    case: &Case,
) -> Result<String> {
    let alloc = rt.alloc();
    let mut fails = outside.fails;
    fails.read = case.number(2)?;
    fails.write = case.number(3)?;
    let outside = Outside {
        input: case.bytes(0),
        longest: case.size(1)?,
        fails,
        ..*outside
    };
    let all = responses(alloc, known, case.str(4)?)?;
    let end = run(rt, TALK, &outside)?;
    front(alloc, &end, all.as_slice())
}

/// The status, and how much of these bytes was written.
fn front(alloc: Global, end: &End, all: &[u8]) -> Result<String> {
    let (status, written) = (end.status, end.written.as_slice());
    ensure!(all.starts_with(written), "no front of them");
    if written.len() == all.len() {
        return Ok(format!(in alloc; "{status}, whole")?);
    }
    Ok(format!(in alloc; "{status}, {} bytes", written.len())?)
}

/// The bytes of the responses of these names.
fn responses(alloc: Global, known: &[Row], names: &str) -> Result<Vec<u8>> {
    let mut bytes = Vec::new(alloc);
    for name in names.split(", ") {
        bytes.extend_from_slice(response(alloc, known, name)?.as_slice())?;
    }
    Ok(bytes)
}
