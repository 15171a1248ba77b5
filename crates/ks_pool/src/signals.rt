//! The signals that ask the process to end.
//!
//! Nothing here can take a signal. So whoever starts the process has the system keep these: a signal that is blocked stays
//! pending (signal(7)), and Linux tells which do (proc_pid_status(5)). One that is not blocked ends the process at once.

use libc::{close, read};
use os::open_read;
use std::alloc::Global;
use std::str;

/// What Linux tells of the process.
const STATUS: &[u8] = b"/proc/self/status";

/// How many bytes of it are read at once, and how often at most.
const PIECE: usize = 4_096;

const PIECES: u32 = 64;

const SIGINT: u64 = 2;

const SIGTERM: u64 = 15;

/// The signals that ask for the end, as a set in which the signal N is the bit N - 1.
const ENDING: u64 = (1 << (SIGINT - 1)) | (1 << (SIGTERM - 1));

/// Whether one of them is pending. Where Linux does not tell it, or there is no memory to hear it, none is.
pub fn asks_to_end(alloc: Global) -> bool {
    match status(alloc) {
        Some(text) => pending(text.as_slice()) & ENDING != 0,
        None => false,
    }
}

/// What Linux tells of the process.
fn status(alloc: Global) -> Option<Vec<u8>> {
    let descriptor = open_read(STATUS);
    if descriptor < 0 {
        return None;
    }
    let text = read_all(alloc, descriptor);
    let _closed = close(descriptor);
    text
}

/// What is left of this file.
fn read_all(alloc: Global, descriptor: i32) -> Option<Vec<u8>> {
    let mut text = Vec::new(alloc);
    let mut piece = [0; PIECE];
    'pieces: for _ in 0..PIECES {
        let count = usize::try_from(read(descriptor, piece.as_mut_slice())).ok()?;
        if count == 0 {
            return Some(text);
        }
        let came = piece.as_slice().split_at(count.min(PIECE)).0;
        text.extend_from_slice(came).ok()?;
    }
    None
}

/// The signals that are pending for the whole process or for the thread that asks.
fn pending(text: &[u8]) -> u64 {
    let mut found = 0;
    for line in text.split(|byte| *byte == b'\n') {
        found |= set_of(line, b"ShdPnd:") | set_of(line, b"SigPnd:");
    }
    found
}

/// The set of signals that this line tells, if it begins with this name.
fn set_of(line: &[u8], name: &[u8]) -> u64 {
    let Some(digits) = line.strip_prefix(name) else {
        return 0;
    };
    match str::from_utf8(digits.trim_ascii()) {
        Ok(digits) => u64::from_str_radix(digits, 16).unwrap_or(0),
        Err(_) => 0,
    }
}

#[test]
fn pending_signals_are_read(rt: HostRuntime) {
    let text =
        b"Name:\t\xff\nSigQ:\t1/96363\nSigPnd:\t0000000000000002\nShdPnd:\t0000000000004001\nSigBlk:\tffffffffffffffff\n";
    assert!(rt; pending(text.as_slice()) == 0x4003);
    assert!(rt; pending(b"ShdPnd:\t0000000000004000".as_slice()) & ENDING != 0);
    assert!(rt; pending(b"ShdPnd:\t0000000000000001\n".as_slice()) & ENDING == 0);
    assert!(rt; pending(b"".as_slice()) == 0);
}
