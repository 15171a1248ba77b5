//! The tables of folders of key files.
ghost use Rattle.std.specs.Prelude.{IfOk};
ghost use Rattle.ks_outside.specs.Files.{AreFiles};

use crate::tokens::key_text;
use anyhow::{Context, Result, ensure};
use ks_base::{Bytes, KeyList, KeysFault};
use ks_keyfiles::read_dir;
use ks_outside::{Folder, MemoryDir};
use ks_tables::{Case, try_table};
use std::alloc::Global;
use std::rt::Files;

const LAST_INDEX: u32 = 999_999_999;

pub fn try_tables<R: Files + Print + AllocGlobal + Clone + Drop>(rt: &R) -> Result<()> {
    try_table(rt, "key_files", files_read)?;
    try_table(
        rt,
        "key_folders",
        |alloc, case| folder_read(rt, alloc, case),
    )
}

/// Of files and the calls that fail, counted from 1.
fn files_read(alloc: Global, case: &Case) -> Result<String> {
    let files = read_files(alloc, case.str(0)?)?;
    let mut failing = Vec::new(alloc);
    for call in case.str(1)?.split_whitespace() {
        failing.push(call.parse::<u64>()?)?;
    }
    let mut dir = MemoryDir::new(alloc, files.as_slice(), failing.as_slice(), None)?;
    let before = files_text(alloc, dir.files())?;
    let read = read_dir(&mut dir);
    ensure!(
        before.as_str() == files_text(alloc, dir.files())?.as_str(),
        "the files were changed"
    );
    answer_text(alloc, &read)
}

/// Of the name of a folder that lies beside the tables.
fn folder_read<R: Files + AllocGlobal + Clone + Drop>(
    rt: &R,
    alloc: Global,
    case: &Case,
) -> Result<String> {
    let mut dir = Folder::new(alloc, rt, case.str(0)?)?;
    answer_text(alloc, &read_dir(&mut dir))
}

/// Files as `INDEX:CONTENT`, with semicolons between them.
#[tactic(auto, using(crate::proofs::FileLemmas::files_append))]
fn read_files(alloc: Global, text: &str) -> Result<Vec<(u32, Bytes)>>
    ensures { IfOk result (λ files. AreFiles files.items) }
{
    let mut files = Vec::new(alloc);
    for word in text.split(';') {
        if word.is_empty() {
            continue;
        }
        let (index, content) = word.split_once(':').context("a file without an index")?;
        let index = index.parse::<u32>()?;
        ensure!(index <= LAST_INDEX, "no index");
        files.push((index, Bytes::of(alloc, content.as_bytes())?))?;
    }
    Ok(files)
}

fn files_text(alloc: Global, files: &[(u32, Bytes)]) -> Result<String> {
    let mut text = String::new(alloc);
    for (index, content) in files {
        let content = hex::encode(alloc, content.as_slice())?;
        text.push_str(format!(in alloc; "{index}:{content};")?.as_str())?;
    }
    Ok(text)
}

/// The keys as `INDEX KEY`, with semicolons between them, or why there are none.
fn answer_text(alloc: Global, read: &Result<KeyList, KeysFault>) -> Result<String> {
    let word = match read {
        Ok(keys) => return keys_text(alloc, keys),
        Err(KeysFault::BadKey(index)) => return Ok(format!(in alloc; "bad key {index}")?),
        Err(KeysFault::NoKeys) => "no keys",
        Err(KeysFault::TooMany) => "too many",
        Err(KeysFault::AlreadySet) => "already set",
        Err(KeysFault::IndexEnd) => "no index left",
        Err(KeysFault::Failed) => "failed",
        Err(KeysFault::Memory) => "memory",
    };
    Ok(String::from_str(alloc, word)?)
}

fn keys_text(alloc: Global, keys: &KeyList) -> Result<String> {
    let mut text = String::new(alloc);
    for (index, key) in keys.as_slice() {
        if !text.is_empty() {
            text.push_str("; ")?;
        }
        let key = key_text(alloc, key)?;
        text.push_str(format!(in alloc; "{index} {key}")?.as_str())?;
    }
    Ok(text)
}
