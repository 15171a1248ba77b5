//! The tables of `serve`, and of `talk` over two desks.

use crate::kept::Kept;
use crate::run::{End, Outside, ROOM, WHOLE, desk_of, folder, run_over};
use crate::session::TALK;
use crate::talks::names;
use anyhow::Result;
use ks_outside::{MemoryDesk, MemoryDir, MemoryLink, MemorySink, MemorySource};
use ks_tables::{Case, Row};
use std::alloc::Global;
use std::sync::Wait;
use std::thread::Threads;

/// Of the links of two desks, with semicolons between them, of options, and of the accept of the second desk that fails: the
/// status, and the names of the responses on the links that each desk took back.
pub fn serves<R: AllocGlobal + Threads + Wait + Sync>(
    rt: &R,
    outside: &Outside<'_>,
    known: &[Row],
    case: &Case,
) -> Result<String> {
    let alloc = rt.alloc();
    let command = format!(in alloc; "serve o1.json keys 127.0.0.1:0 {}", case.str(2)?)?;
    let mut dir = folder(alloc, "", 0)?;
    let desks = desks(alloc, *outside, case)?;
    let kept = Kept::nothing(alloc);
    let end = run_over(rt, command.as_str(), outside, &mut dir, desks, kept, &[])?;
    said(alloc, known, end.status, end.desks.as_slice())
}

/// Of the links of two desks and the input of a `talk`: the responses to that, and what a `serve` with the same desks and over
/// what that kept then answers on their links, which the talk left to come.
pub fn talk_desks<R: AllocGlobal + Threads + Wait + Sync>(
    rt: &R,
    outside: &Outside<'_>,
    known: &[Row],
    case: &Case,
) -> Result<String> {
    let alloc = rt.alloc();
    let outside = Outside {
        input: case.bytes(2),
        ..*outside
    };
    let mut dir = folder(alloc, "", 0)?;
    let desks = desks(alloc, outside, case)?;
    let kept = Kept::nothing(alloc);
    let end = run_over(rt, TALK, &outside, &mut dir, desks, kept, &[])?;
    let told = names(alloc, known, end.written.as_slice())?;
    let status = end.status;
    let served = served_behind(rt, &outside, &mut dir, known, end)?;
    Ok(format!(in alloc; "{status}: {told}, then {served}")?)
}

/// What a `serve` with the desks that a run left, and over what it kept, answers on their links.
fn served_behind<R: AllocGlobal + Threads + Wait + Sync>(
    rt: &R,
    outside: &Outside<'_>,
    dir: &mut MemoryDir,
    known: &[Row],
    end: End,
) -> Result<String> {
    let command = "serve o1.json keys 127.0.0.1:0";
    let end = run_over(rt, command, outside, dir, end.desks, end.kept, &[])?;
    said(rt.alloc(), known, end.status, end.desks.as_slice())
}

/// The two desks of a case.
fn desks(
    alloc: Global,
    mut outside: Outside<'_>,
    case: &Case,
) -> Result<Vec<(MemoryDesk, MemoryDir)>> {
    let mut desks = Vec::new(alloc);
    desks.push(desk_of(alloc, &outside, links(alloc, case.str(0)?)?)?)?;
    outside.fails.accept = case.number(3)?;
    desks.push(desk_of(alloc, &outside, links(alloc, case.str(1)?)?)?)?;
    Ok(desks)
}

/// The links of these inputs.
fn links(alloc: Global, inputs: &str) -> Result<Vec<MemoryLink>> {
    let mut links = Vec::new(alloc);
    for input in inputs.split(';') {
        if !input.is_empty() {
            let source = MemorySource::new(alloc, input.as_bytes(), &[], WHOLE)?;
            links.push(MemoryLink::new(source, MemorySink::new(alloc, ROOM, &[], WHOLE)?))?;
        }
    }
    Ok(links)
}

/// The status, and the names of what was written to the links of each desk.
fn said(
    alloc: Global,
    known: &[Row],
    status: u8,
    desks: &[(MemoryDesk, MemoryDir)],
) -> Result<String> {
    let mut said = format!(in alloc; "{status}:")?;
    for (at, (desk, _place)) in desks.iter().enumerate() {
        if at > 0 {
            said.push_str(" /")?;
        }
        push_links(alloc, &mut said, known, desk.given_back())?;
    }
    Ok(said)
}

/// What was written to each link.
fn push_links(alloc: Global, said: &mut String, known: &[Row], links: &[MemoryLink]) -> Result<()> {
    for (at, link) in links.iter().enumerate() {
        said.push_str(if at > 0 { "; " } else { " " })?;
        said.push_str(names(alloc, known, link.written())?.as_str())?;
    }
    Ok(())
}
