//! The log of requests.

use crate::line::Line;
use libc::net::{POLLOUT, poll};
use libc::types::pollfd;
use os::set_nonblocking;
use std::alloc::{AllocError, Global};
use std::fs::File;
use std::os::fd::AsRawFd;
use std::sync::{Mutex, Wait};

const STANDARD_ERROR: i32 = 2;

/// The log of requests, a line each, which all desks of a pool share. A line that can't be written at once, as where a pipe
/// is full or a disk has no room, is lost and counted, and the count is told in a line of its own before the next that can.
/// So no request waits for the log.
#[derive(Drop)]
pub struct Log {
    alloc: Global,
    /// Where it is written, if not on the standard error.
    file: Option<File>,
    state: Mutex<State>,
}

/// What became of the last lines.
#[derive(Clone, Copy)]
struct State {
    /// How many were lost since the last one that was written.
    lost: u64,
    /// Of the last one a part was written.
    is_cut: bool,
}

impl Log {
    /// At this file, or on the standard error. A file that is a pipe is to be open for reading, too, so that the process does
    /// not depend on who reads it.
    pub fn new(alloc: Global, file: Option<File>) -> Log {
        if let Some(file) = &file {
            let _set = set_nonblocking(file.as_raw_fd(), true);
        }
        let state = State {
            lost: 0,
            is_cut: false,
        };
        Log {
            alloc,
            file,
            state: Mutex::new(state),
        }
    }

    fn descriptor(&self) -> i32 {
        match &self.file {
            Some(file) => file.as_raw_fd(),
            None => STANDARD_ERROR,
        }
    }

    /// Writes the line of a request, or counts it.
    pub(crate) fn write<R: Wait>(&self, rt: &R, line: Line) {
        let text = format!(in self.alloc; "{line}\n");
        let mut state = self.state.lock(rt);
        if !self.put(&mut state, line.seen.moment, text) {
            state.lost = state.lost.saturating_add(1);
        }
    }

    /// Says whether the line was written.
    fn put(&self, state: &mut State, moment: u64, text: Result<String, AllocError>) -> bool {
        let Ok(text) = text else {
            return false;
        };
        self.tell_losses(state, moment) && self.put_line(state, text.as_str())
    }

    /// Tells how many lines were lost, if any were. Says whether nothing is left to tell.
    fn tell_losses(&self, state: &mut State, moment: u64) -> bool {
        let lost = state.lost;
        if lost == 0 {
            return true;
        }
        let Ok(text) = format!(in self.alloc; "{moment} lost {lost}\n") else {
            return false;
        };
        if !self.put_line(state, text.as_str()) {
            return false;
        }
        state.lost = 0;
        true
    }

    /// Writes a line by one call. Behind one of which a part was written it begins anew.
    fn put_line(&self, state: &mut State, line: &str) -> bool {
        if state.is_cut {
            if write_now(self.descriptor(), b"\n") != Written::Whole {
                return false;
            }
            state.is_cut = false;
        }
        let written = write_now(self.descriptor(), line.as_bytes());
        state.is_cut = written == Written::Part;
        written == Written::Whole
    }
}

/// What was written of some bytes.
#[derive(Clone, Copy, PartialEq, Eq)]
enum Written {
    Whole,
    Part,
    Nothing,
}

/// Writes what is taken at once.
fn write_now(descriptor: i32, bytes: &[u8]) -> Written {
    let mut waited = [pollfd {
        fd: descriptor,
        events: POLLOUT,
        revents: 0,
    }];
    // A pipe that nobody reads any more has an error beside its room, and a write to it could end the program.
    if poll(waited.as_mut_slice(), 0) <= 0 || waited[0].revents != POLLOUT {
        return Written::Nothing;
    }
    match usize::try_from(libc::write(descriptor, bytes)) {
        Ok(count) if count >= bytes.len() => Written::Whole,
        Ok(count) if count > 0 => Written::Part,
        Ok(_) | Err(_) => Written::Nothing,
    }
}
