//! Calls to a connection that wait for its client.
ghost use Rattle.std.specs.Prelude.{◌<◌, ◌≤◌, IfOk, IfSome, length};

use crate::connection::Connection;
use crate::deadline::Awaited;
use crate::limits::WAIT_MILLIS;
use crate::socket::{read_now, write_now};
use ks_outside::Failed;
use libc::net::{POLLIN, POLLOUT, poll};
use libc::types::pollfd;
use std::os::fd::AsRawFd;
use std::rt::Clock;
use std::time::Instant;

/// What the clock shows.
fn now_of<R: Clock>(clock: &R) -> Result<Instant, Failed> {
    match Instant::now(clock) {
        Ok(now) => Ok(now),
        Err(_) => Err(Failed),
    }
}

impl Connection {
    /// Waits until it may be ready for this, a second at most. It is a fault where its deadline has passed, or the time
    /// that it has once a signal asked the process to end.
    fn wait<R: Clock>(&mut self, clock: &R, awaited: Awaited, events: i16) -> Result<(), Failed> {
        let now = now_of(clock)?;
        self.until = self.until.then(awaited, now);
        let left = self.until.millis_left(now);
        if left == 0 || self.is_over(now) {
            return Err(Failed);
        }
        let mut waited = [pollfd {
            fd: self.stream.as_raw_fd(),
            events,
            revents: 0,
        }];
        // Whatever it says, the next call to the connection finds out.
        let _ready = poll(waited.as_mut_slice(), left.min(WAIT_MILLIS));
        Ok(())
    }

    /// Reads what came ahead, and else what comes in time.
    pub fn read<R: Clock>(&mut self, clock: &R, into: &mut [u8]) -> Result<usize, Failed>
        ensures within { IfOk result (λ n. n ≤ length into.old) }
    {
        let given = self.give(into);
        if given > 0 {
            return Ok(given);
        }
        'waits: for _ in 0..u64::MAX {
            if let Some(count) = read_now(&mut self.stream, into)? {
                self.note_read(count < into.len());
                return Ok(count);
            }
            self.hand_out()?;
            self.wait(clock, Awaited::Body, POLLIN)?;
        }
        Err(Failed)
    }

    /// Writes what the client takes, and has what it does not take wait for it, where there is room in time.
    pub fn write<R: Clock>(&mut self, clock: &R, piece: &[u8]) -> Result<usize, Failed>
        ensures within { IfOk result (λ n. n ≤ length piece.now) }
    {
        'waits: for _ in 0..u64::MAX {
            if let Some(count) = self.write_some(clock, piece)? {
                return Ok(count);
            }
            self.wait(clock, Awaited::Taking, POLLOUT)?;
        }
        Err(Failed)
    }

    /// Gathers it with others, or writes what the client takes now, or has it wait, where there is room. What waits goes
    /// first.
    fn write_some<R: Clock>(&mut self, clock: &R, piece: &[u8]) -> Result<Option<usize>, Failed>
        ensures within { IfOk result (λ went. IfSome went (λ n. n ≤ length piece.now)) }
    {
        if self.gathers() {
            let gathered = self.gather(piece, now_of(clock)?)?;
            if gathered > 0 {
                return Ok(Some(gathered));
            }
        }
        self.hand_out()?;
        if !self.has_waiting() {
            let taken = write_now(&mut self.stream, piece)?;
            if taken.is_some() {
                return Ok(taken);
            }
        }
        // From now on the client has its time to take the response.
        let now = now_of(clock)?;
        self.until = self.until.then(Awaited::Taking, now);
        let aside = self.put_aside(piece);
        Ok((aside > 0).then_some(aside))
    }
}
