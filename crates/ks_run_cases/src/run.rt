//! Runs of the program over an input, an opening file, an output, folders, desks and a keeper in memory.
ghost use Rattle.std.specs.Prelude.{◌<◌, length};
ghost use Rattle.ks_keeper.specs.Keeper.{IsTidy};

use crate::fails::Fails;
use crate::kept::Kept;
use anyhow::{Context, Result, bail, ensure};
use ks_base::Text;
use ks_commands::Fault;
use ks_keeper::{Keeper, MemoryKeeper};
use ks_outside::{
    Desk, KeyDir, MemoryDesk, MemoryDir, MemoryLink, MemorySink, MemorySource, Sink, Source,
};
use ks_top::Ended;
use std::alloc::Global;
use std::sync::Wait;
use std::thread::Threads;

/// No piece is longer.
pub const WHOLE: usize = 20_000_000;

/// No output is longer.
pub const ROOM: usize = 1_000_000;

/// The greatest index of a key's file.
const LAST_INDEX: u32 = 999_999_999;

/// What a run reads: the opening file and the folder with which it opens; the input, the clock's readings, the random bytes and
/// the folder beside these; the longest piece of one read or write; and what fails of the opening and of the rest.
#[derive(Clone, Copy)]
pub struct Outside<'a> {
    pub file: &'a [u8],
    pub folder: &'a str,
    pub opening_fails: Fails,
    pub input: &'a [u8],
    pub readings: &'a [u64],
    pub random: &'a [u8],
    pub place: &'a str,
    pub longest: usize,
    pub fails: Fails,
}

impl<'a> Outside<'a> {
    /// This input, in pieces of at most this length, and nothing else.
    pub fn of(input: &'a [u8], longest: usize) -> Outside<'a> {
        Outside {
            file: &[],
            folder: "",
            opening_fails: Fails::NONE,
            input,
            readings: &[],
            random: &[],
            place: "",
            longest,
            fails: Fails::NONE,
        }
    }
}

/// The end of a run: its status, its fault, what it wrote, the desks behind it, each with its folder, and what is kept.
#[derive(Drop)]
pub struct End {
    pub status: u8,
    pub fault: Option<Fault>,
    pub written: Vec<u8>,
    pub desks: Vec<(MemoryDesk, MemoryDir)>,
    pub kept: Kept,
}

/// Runs a command over one desk without links. Nothing is kept before.
pub fn run<R: AllocGlobal + Threads + Wait + Sync>(
    rt: &R,
    command: &str,
    outside: &Outside<'_>,
) -> Result<End> {
    run_again(rt, command, outside, Kept::nothing(rt.alloc()), &[])
}

/// The same where this is kept before, and of the keeper's calls those with these numbers fail.
pub fn run_again<R: AllocGlobal + Threads + Wait + Sync>(
    rt: &R,
    command: &str,
    outside: &Outside<'_>,
    kept: Kept,
    failing: &[(u64, bool)],
) -> Result<End> {
    let alloc = rt.alloc();
    let mut dir = folder(alloc, outside.folder, outside.opening_fails.folder)?;
    let desks = desks_of(alloc, outside)?;
    run_over(rt, command, outside, &mut dir, desks, kept, failing)
}

/// The same over a folder and desks.
pub fn run_over<R: AllocGlobal + Threads + Wait + Sync>(
    rt: &R,
    command: &str,
    outside: &Outside<'_>,
    dir: &mut MemoryDir,
    desks: Vec<(MemoryDesk, MemoryDir)>,
    kept: Kept,
    failing: &[(u64, bool)],
) -> Result<End> {
    let alloc = rt.alloc();
    ensure!(!desks.is_empty(), "no desk");
    let words = words(alloc, command)?;
    let (fails, longest) = (outside.fails, outside.longest.max(1));
    let opening_fails = outside.opening_fails;
    let mut input = MemorySource::new(alloc, outside.input, &[fails.read], longest)?;
    let mut file = MemorySource::new(alloc, outside.file, &[opening_fails.file], WHOLE)?;
    let mut output = MemorySink::new(alloc, ROOM, &[fails.write], longest)?;
    let keeper = MemoryKeeper::new(alloc, kept.header, kept.entries, failing)?;
    let (status, fault, desks, keeper) = done(
        rt,
        words.as_slice(),
        &mut input,
        &mut file,
        &mut output,
        dir,
        desks,
        keeper,
    );
    let (header, entries) = keeper.context("no keeper")?.into_contents();
    Ok(End {
        status,
        fault,
        written: Vec::from_slice(alloc, output.written())?,
        desks,
        kept: Kept { header, entries },
    })
}

/// Does what the words say. No case rests on what `run` of `ks_top` promises, so none of that is said again.
fn done<
    R: AllocGlobal + Threads + Wait + Sync,
    S: Source,
    F: Source,
    K: Sink,
    D: KeyDir + Send + Drop,
    P: Desk + Send + Drop,
    B: Keeper + Send + Drop,
>(
    rt: &R,
    words: &[Text],
    input: &mut S,
    file: &mut F,
    output: &mut K,
    dir: &mut D,
    desks: Vec<(P, D)>,
    keeper: B,
) -> (u8, Option<Fault>, Vec<(P, D)>, Option<B>)
where
    P::Link: Send,
    requires some { 0 < length desks.items }
    requires tidy { B.whole keeper → IsTidy (B.kept keeper) }
{
    let Ended {
        status,
        fault,
        desks,
        state,
        keeper,
    } = ks_top::run(rt, words, input, file, output, dir, desks, keeper);
    let keeper = match state {
        Some(booked) => {
            let (_identity, keeper) = booked.into_parts();
            Some(keeper)
        }
        None => keeper,
    };
    (status, fault, desks, keeper)
}

/// The words of a command line, without the quotes around them.
fn words(alloc: Global, command: &str) -> Result<Vec<Text>> {
    let mut words = Vec::new(alloc);
    for word in command.split_whitespace() {
        words.push(Text::of(alloc, word.trim_matches('"'))?)?;
    }
    Ok(words)
}

/// One desk without links.
pub fn desks_of(alloc: Global, outside: &Outside<'_>) -> Result<Vec<(MemoryDesk, MemoryDir)>> {
    let mut desks = Vec::new(alloc);
    desks.push(desk_of(alloc, outside, Vec::new(alloc))?)?;
    Ok(desks)
}

/// A desk of these links, and the folder beside it.
pub fn desk_of(
    alloc: Global,
    outside: &Outside<'_>,
    links: Vec<MemoryLink>,
) -> Result<(MemoryDesk, MemoryDir)> {
    let (readings, random) = (outside.readings, outside.random);
    let accepts = [outside.fails.accept];
    let fills = [outside.opening_fails.fill, outside.fails.fill];
    let desk = MemoryDesk::new(alloc, links, readings, random, &accepts, &fills)?;
    let place = folder(alloc, outside.place, outside.fails.folder)?;
    Ok((desk, place))
}

/// A folder of these files, `INDEX=CONTENT` with a comma and a blank between them, of which this call fails, counted from
/// 1 behind those that make it.
pub fn folder(alloc: Global, files: &str, failing: u64) -> Result<MemoryDir> {
    let mut made: u64 = 0;
    for file in files.split(", ") {
        if !file.is_empty() {
            made = made.saturating_add(1);
        }
    }
    let failing = if failing == 0 {
        0
    } else {
        failing.saturating_add(made)
    };
    let mut dir = MemoryDir::new(alloc, &[], &[failing], None)?;
    for file in files.split(", ") {
        if !file.is_empty() {
            add_file(&mut dir, file)?;
        }
    }
    Ok(dir)
}

fn add_file(dir: &mut MemoryDir, file: &str) -> Result<()> {
    let (index, content) = file.split_once('=').context("a file without an index")?;
    let index = index.parse::<u32>()?;
    ensure!(index <= LAST_INDEX && !dir.stands(index), "no index");
    match dir.write_new(index, content.as_bytes()) {
        Ok(()) => Ok(()),
        Err(_) => bail!("no memory"),
    }
}
