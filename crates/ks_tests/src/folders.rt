//! Key folders over folders of the system.

use crate::dirs::{assert_reads, lists};
use ks_base::Memory;
use ks_outside::{DirFault, Folder, KeyDir};
use std::os::unix::fs::PermissionsExt;
use std::process::Abort;
use std::test::Fail;
use std::{fs, io};

/// A call that changes a key folder.
#[derive(Clone, Copy)]
enum Change<'a> {
    Write(u32, &'a [u8]),
    Rename(u32, u32),
    Remove(u32),
}

fn make(dir: &mut Folder<HostRuntime>, change: Change) -> Result<(), DirFault> {
    match change {
        Change::Write(index, content) => dir.write_new(index, content),
        Change::Rename(from, to) => dir.rename(from, to),
        Change::Remove(index) => dir.remove(index),
    }
}

/// Asserts how each of these changes is answered, made in turn.
fn assert_changes(
    rt: &impl Abort,
    dir: &mut Folder<HostRuntime>,
    changes: &[(Change, Result<(), DirFault>)],
) {
    for (at, (change, answer)) in changes.iter().enumerate() {
        assert_eq!(rt; make(dir, *change), *answer, "change {at}");
    }
}

/// Makes a folder with files that are no key files, and with one that is too long.
fn make_keys(rt: &HostRuntime) -> io::Result<()> {
    fs::create_dir(rt, "keys")?;
    for name in ["keys/07", "keys/1000000000", "keys/x", "keys/5.new"] {
        fs::write(rt, name, "no key file")?;
    }
    fs::write(rt, "keys/12", &[b'x'; 65])
}

/// Changes to that folder in turn, and how each is answered.
const CHANGES_OF_KEYS: &[(Change, Result<(), DirFault>)] = &[
    (Change::Write(5, b"five"), Ok(())),
    (Change::Write(0, &[b'y'; 64]), Ok(())),
    (Change::Write(1_000_000_000, b"far"), Err(DirFault::Failed)),
    (Change::Rename(3, 4), Err(DirFault::Failed)),
    (Change::Rename(5, 999_999_999), Ok(())),
    (Change::Remove(5), Err(DirFault::Failed)),
];

/// What is read there then, by index: how long the content is, and its front.
const CONTENTS_OF_KEYS: &[(u32, Option<usize>, &[u8])] = &[
    (0, Some(64), &[b'y'; 64]),
    (12, None, b""),
    (5, None, b""),
    (999_999_999, Some(4), b"five"),
];

#[test]
fn a_folder_has_key_files_alone(rt: HostRuntime) -> Result<(), Fail> {
    make_keys(&rt)?;
    let mut dir = Folder::new(rt.alloc(), &rt, "keys")?;
    assert_changes(&rt, &mut dir, CHANGES_OF_KEYS);
    assert!(rt; lists(&mut dir, &[0, 12, 999_999_999])?);
    assert_reads(&rt, &mut dir, CONTENTS_OF_KEYS);
    dir.remove(12)?;
    assert!(rt; lists(&mut dir, &[0, 999_999_999])?);
    fs::remove_dir_all(&rt, "keys")?;
    Ok(())
}

/// Changes to an empty folder in turn, and how each is answered.
const CHANGES_OF_STANDING: &[(Change, Result<(), DirFault>)] = &[
    (Change::Write(5, b"five"), Ok(())),
    (Change::Write(6, b"other"), Ok(())),
    (Change::Write(5, b"other"), Err(DirFault::Failed)),
    (Change::Rename(6, 5), Err(DirFault::Failed)),
];

#[test]
fn a_standing_file_is_not_replaced(rt: HostRuntime) -> Result<(), Fail> {
    fs::create_dir(&rt, "standing")?;
    let mut dir = Folder::new(rt.alloc(), &rt, "standing")?;
    assert_changes(&rt, &mut dir, CHANGES_OF_STANDING);
    assert_reads(&rt, &mut dir, &[(5, Some(4), b"five")]);
    fs::remove_dir_all(&rt, "standing")?;
    Ok(())
}

/// Leaves a part of a key file that all may read, as a stop does.
fn leave_part(rt: &HostRuntime, name: &str) -> io::Result<()> {
    fs::write(rt, name, "part of a key")?;
    fs::set_permissions(rt, name, fs::Permissions::from_mode(0o644))
}

/// Who may do what with a file.
fn mode(rt: &HostRuntime, name: &str) -> io::Result<u32> {
    Ok(fs::metadata(rt, name)?.permissions().mode() & 0o777)
}

/// Writes two key files, one of them where a part of it was left.
fn write_owned(rt: &HostRuntime) -> Result<(), DirFault> {
    let mut dir = Folder::new(rt.alloc(), rt, "owned")?;
    dir.write_new(0, b"zero")?;
    dir.write_new(1, b"one")
}

#[test]
fn a_key_file_is_for_its_owner_alone(rt: HostRuntime) -> Result<(), Fail> {
    fs::create_dir(&rt, "owned")?;
    leave_part(&rt, "owned/1.new")?;
    write_owned(&rt)?;
    assert!(rt; mode(&rt, "owned/0")? == 0o600);
    assert!(rt; mode(&rt, "owned/1")? == 0o600);
    fs::remove_dir_all(&rt, "owned")?;
    Ok(())
}

/// Whether each call to the key folder at this path is a fault.
fn fails(rt: &HostRuntime, path: &str) -> Result<bool, Memory> {
    let mut dir = Folder::new(rt.alloc(), rt, path)?;
    Ok(
        dir.list().err() == Some(DirFault::Failed)
            && dir.write_new(5, b"five") == Err(DirFault::Failed)
            && dir.rename(5, 6) == Err(DirFault::Failed)
            && dir.remove(5) == Err(DirFault::Failed),
    )
}

#[test]
fn a_fault_of_the_disk_is_a_fault(rt: HostRuntime) -> Result<(), Fail> {
    assert!(rt; fails(&rt, "nowhere")?, "where there is no folder");
    fs::write(&rt, "file", "no folder")?;
    assert!(rt; fails(&rt, "file")?, "where there is a file in its place");
    fs::remove_file(&rt, "file")?;
    Ok(())
}

/// Makes a folder where a key file would be, and a key file.
fn make_unread(rt: &HostRuntime) -> io::Result<()> {
    fs::create_dir_all(rt, "unread/7")?;
    fs::write(rt, "unread/8", "eight")
}

/// What a read of this file in the key folder at this path answers.
fn read_at(rt: &HostRuntime, path: &str, index: u32) -> Result<Option<usize>, DirFault> {
    Folder::new(rt.alloc(), rt, path)?.read(index, &mut [0; 64])
}

#[test]
fn a_file_that_cannot_be_read_is_there(rt: HostRuntime) -> Result<(), Fail> {
    make_unread(&rt)?;
    assert!(rt; read_at(&rt, "unread", 7) == Err(DirFault::Failed));
    assert!(rt; read_at(&rt, "unread", 9) == Ok(None));
    // The file 8 is no folder that could hold a file 5.
    assert!(rt; read_at(&rt, "unread/8", 5) == Err(DirFault::Failed));
    fs::remove_dir_all(&rt, "unread")?;
    Ok(())
}
