//! The file of the log of requests.

use ks_pool::Log;
use std::fs::{File, OpenOptions};
use std::os::unix::fs::{FileTypeExt, OpenOptionsExt};
use std::{fs, io};

/// What stands for the standard error.
const STANDARD_ERROR: &str = "-";

/// Who may read a log that is made: its owner and its group.
const MODE: u32 = 0o640;

/// The log at this path. A file is made where there is none, and else goes on. Where it is a FIFO nobody is waited for who
/// reads it.
pub fn open_log(rt: &HostRuntime, path: &str) -> io::Result<Log> {
    if path == STANDARD_ERROR {
        return Ok(Log::new(rt.alloc(), None));
    }
    let file = if is_fifo(rt, path) {
        open_fifo(rt, path)?
    } else {
        open_file(rt, path)?
    };
    Ok(Log::new(rt.alloc(), Some(file)))
}

fn is_fifo(rt: &HostRuntime, path: &str) -> bool {
    match fs::metadata(rt, path) {
        Ok(metadata) => metadata.file_type().is_fifo(),
        Err(_) => false,
    }
}

/// Opens a FIFO for reading, too, since else it waits for who reads it.
fn open_fifo(rt: &HostRuntime, path: &str) -> io::Result<File> {
    let mut options = OpenOptions::new();
    let _set = options.read(true).write(true);
    options.open(rt, path)
}

fn open_file(rt: &HostRuntime, path: &str) -> io::Result<File> {
    let mut options = OpenOptions::new();
    let _set = options.append(true).create(true).mode(MODE);
    options.open(rt, path)
}
