//! What others may do with the files that hold secrets: others than their owner and their group.

use std::fs;
use std::os::unix::fs::PermissionsExt;
use std::rt::Files;

/// The bits of a mode by which others may read and write.
const READ: u32 = 0o004;

const WRITE: u32 = 0o002;

/// The bits of a mode that say who may do what.
const RIGHTS: u32 = 0o7777;

/// What others may do by a mode, if they may read or write.
fn by_others(mode: u32) -> Option<&'static str> {
    match (mode & READ != 0, mode & WRITE != 0) {
        (true, true) => Some("read and written"),
        (true, false) => Some("read"),
        (false, true) => Some("written"),
        (false, false) => None,
    }
}

/// Says in one line what others may do with what lies at this path, where they may read or write it.
fn tell_of<R: Files + Eprint>(rt: &R, path: &str) {
    let Ok(metadata) = fs::metadata(rt, path) else {
        return;
    };
    let mode = metadata.permissions().mode() & RIGHTS;
    if let Some(done) = by_others(mode) {
        let _ = eprintln!(rt; "ks: {path}: may be {done} by others (mode {mode:04o})");
    }
}

/// Whether a file of this name may hold a key: its name is a number.
fn is_number(name: &str) -> bool {
    name.bytes().all(|byte| byte.is_ascii_digit())
}

/// Says of the opening file, of its book, of the folder of the keys and of each file of a key what others may do with it.
pub fn tell<R: Files + AllocGlobal + Clone + Drop + Eprint>(
    rt: &R,
    file: &str,
    book: &str,
    folder: &str,
) {
    tell_of(rt, file);
    tell_of(rt, book);
    tell_of(rt, folder);
    let Ok(entries) = fs::read_dir(rt, folder) else {
        return;
    };
    for entry in entries {
        match entry {
            Ok(entry) if is_number(entry.file_name()) => tell_of(rt, entry.path().as_str()),
            Ok(_) | Err(_) => {}
        }
    }
}

/// Whether what lies at this path is a file, which is opened and read without a wait: who opens a FIFO waits until
/// somebody writes to it, and who reads a terminal until somebody types.
pub fn may_open<R: Files>(rt: &R, path: &str) -> bool {
    match fs::metadata(rt, path) {
        Ok(metadata) => metadata.is_file(),
        Err(_) => false,
    }
}
