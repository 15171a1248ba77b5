//! The table of `setup` and `rotate`.

use crate::kept::Kept;
use crate::run::{End, Outside, WHOLE, desks_of, folder, run_over};
use anyhow::Result;
use ks_base::Bytes;
use ks_outside::MemoryDir;
use ks_tables::Case;
use std::sync::Wait;
use std::thread::Threads;

/// Of commands with semicolons between them, which are run one after the other on a folder that is empty at first,
/// the random bytes, the call of the folder that fails and the write of each command that fails: the status of each
/// and what it wrote, and the files that are left.
pub fn folders<R: AllocGlobal + Threads + Wait + Sync>(rt: &R, case: &Case) -> Result<String> {
    let mut outside = Outside::of(&[], WHOLE);
    outside.random = case.bytes(1);
    outside.fails.write = case.number(3)?;
    let mut dir = folder(rt.alloc(), "", case.number(2)?)?;
    let mut said = run_all(rt, case.str(0)?, &outside, &mut dir)?;
    push_files(&mut said, dir.files())?;
    Ok(said)
}

/// Runs the commands on a folder, and gives the status of each and what it wrote.
fn run_all<R: AllocGlobal + Threads + Wait + Sync>(
    rt: &R,
    commands: &str,
    outside: &Outside<'_>,
    dir: &mut MemoryDir,
) -> Result<String> {
    let mut said = String::new(rt.alloc());
    let mut desks = desks_of(rt.alloc(), outside)?;
    for command in commands.split(';') {
        let kept = Kept::nothing(rt.alloc());
        let End {
            status,
            written,
            desks: later,
            ..
        } = run_over(rt, command, outside, dir, desks, kept, &[])?;
        desks = later;
        push_end(&mut said, status, written.as_slice())?;
    }
    Ok(said)
}

/// A status, and what was written, if anything was, behind those of earlier commands.
fn push_end(said: &mut String, status: u8, written: &[u8]) -> Result<()> {
    if !said.is_empty() {
        said.push_str(", ")?;
    }
    write!(said, "{status}")?;
    if !written.is_empty() {
        said.push_str(": ")?;
        said.push_str(std::str::from_utf8(written)?)?;
    }
    Ok(())
}

/// The files by rising index, each with the first four characters of its content.
fn push_files(said: &mut String, files: &[(u32, Bytes)]) -> Result<()> {
    said.push_str(if files.is_empty() { "; no file" } else { ";" })?;
    for (index, content) in files {
        let content = content.as_slice();
        let front = &content[..content.len().min(4)];
        write!(said, " {index}:{}", std::str::from_utf8(front)?)?;
    }
    Ok(())
}
