//! Key folders in memory.

use ks_base::{Bytes, Memory};
use ks_outside::{DirFault, KeyDir, MemoryDir};
use std::alloc::Global;
use std::process::Abort;
use std::test::Fail;

/// Whether these are the indices that stand.
pub fn lists<D: KeyDir>(dir: &mut D, indices: &[u32]) -> Result<bool, DirFault> {
    Ok(dir.list()?.as_slice() == indices)
}

/// Asserts what a folder reads under each of these indices: how long the content is, and its front.
pub fn assert_reads<D: KeyDir>(
    rt: &impl Abort,
    dir: &mut D,
    contents: &[(u32, Option<usize>, &[u8])],
) {
    for (index, length, front) in contents {
        let mut into = [0; 64];
        assert_eq!(rt; dir.read(*index, &mut into), Ok(*length), "{index}");
        assert!(rt; into.starts_with(front), "{index}");
    }
}

fn write_free(dir: &mut MemoryDir, index: u32, content: &[u8]) -> Result<(), DirFault> {
    if index > 999_999_999 || dir.stands(index) {
        return Err(DirFault::Memory);
    }
    dir.write_new(index, content)
}

fn rename_standing(dir: &mut MemoryDir, from: u32, to: u32) -> Result<(), DirFault> {
    if !dir.stands(from) || to > 999_999_999 || dir.stands(to) {
        return Err(DirFault::Memory);
    }
    dir.rename(from, to)
}

fn remove_standing(dir: &mut MemoryDir, index: u32) -> Result<(), DirFault> {
    if !dir.stands(index) {
        return Err(DirFault::Memory);
    }
    dir.remove(index)
}

/// A folder of three files, of which the third is too long. Its second call fails, and so does each after the ninth.
fn three_files(alloc: Global) -> Result<MemoryDir, Memory> {
    let files = [
        (7, Bytes::of(alloc, b"seven")?),
        (0, Bytes::of(alloc, b"none")?),
        (3, Bytes::of(alloc, &[b'x'; 65])?),
    ];
    MemoryDir::new(alloc, &files, &[2], Some(9))
}

/// Makes one change of each kind.
fn change(dir: &mut MemoryDir) -> Result<(), DirFault> {
    write_free(dir, 4, b"four")?;
    rename_standing(dir, 0, 9)?;
    remove_standing(dir, 7)
}

/// What that folder reads, by index: how long the content is, and its front.
const CONTENTS: &[(u32, Option<usize>, &[u8])] = &[
    (7, Some(5), b"seven"),
    (3, None, b""),
    (4, None, b""),
];

#[test]
fn a_folder_in_memory_is_a_map(rt: HostRuntime) -> Result<(), Fail> {
    let mut dir = three_files(rt.alloc())?;
    assert!(rt; lists(&mut dir, &[0, 3, 7])?);
    assert!(rt; dir.list().err() == Some(DirFault::Failed));
    assert_reads(&rt, &mut dir, CONTENTS);
    change(&mut dir)?;
    assert!(rt; lists(&mut dir, &[3, 4, 9])?);
    assert!(rt; write_free(&mut dir, 5, b"five") == Err(DirFault::Failed));
    assert!(rt; !dir.stands(5));
    Ok(())
}
