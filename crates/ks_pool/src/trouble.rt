//! What an accept that failed says, and how long it was so.
use std::io;
use std::io::ErrorKind;
use std::time::Instant;

// Errors of Linux, which std does not tell apart by their kind.
const BAD_DESCRIPTOR: i32 = 9;

const INVALID: i32 = 22;

const NOT_ON_THE_NETWORK: i32 = 64;

const PROTOCOL: i32 = 71;

const NOT_A_SOCKET: i32 = 88;

const NO_SUCH_PROTOCOL_OPTION: i32 = 92;

const NOT_SUPPORTED: i32 = 95;

const HOST_DOWN: i32 = 112;

/// Why no connection was accepted.
#[derive(Clone, Copy, PartialEq, Eq)]
pub enum Refusal {
    /// None waits.
    Nobody,
    /// A signal came, or something befell the connection that was to be accepted: Linux answers that by the accept
    /// (accept(2), "Error handling"), and the next one takes another connection.
    OneConnection,
    /// The listener can't accept, now or later.
    Listener,
    /// It can't for now, as where the process or the system has no more descriptors or no memory.
    Passing,
}

impl Refusal {
    /// What this error of an accept says.
    pub fn of(error: &io::Error) -> Refusal {
        match error.kind() {
            ErrorKind::WouldBlock => Refusal::Nobody,
            ErrorKind::Interrupted
            | ErrorKind::ConnectionAborted
            | ErrorKind::NetworkDown
            | ErrorKind::NetworkUnreachable
            | ErrorKind::HostUnreachable
            | ErrorKind::TimedOut => Refusal::OneConnection,
            _ => Refusal::of_code(error.raw_os_error()),
        }
    }

    fn of_code(code: Option<i32>) -> Refusal {
        match code {
            Some(NOT_ON_THE_NETWORK | PROTOCOL | NO_SUCH_PROTOCOL_OPTION | HOST_DOWN) => {
                Refusal::OneConnection
            }
            Some(BAD_DESCRIPTOR | INVALID | NOT_A_SOCKET | NOT_SUPPORTED) => Refusal::Listener,
            Some(_) | None => Refusal::Passing,
        }
    }
}

/// A time in which connections can't be accepted, if it is one.
#[derive(Clone, Copy)]
pub struct Trouble {
    /// When an accept failed last.
    last: Option<Instant>,
    /// A connection was accepted since.
    has_accepted: bool,
}

impl Trouble {
    /// None yet.
    pub fn new() -> Trouble {
        Trouble {
            last: None,
            has_accepted: false,
        }
    }

    /// An accept failed. Says whether a time of trouble begins.
    pub fn meet(&mut self, now: Instant) -> bool {
        let begins = self.last.is_none();
        self.last = Some(now);
        self.has_accepted = false;
        begins
    }

    /// A connection was accepted.
    pub fn accept(&mut self) {
        self.has_accepted = true;
    }

    /// Says whether a time of trouble is over: connections are accepted again, and for a second no accept failed.
    pub fn ends(&mut self, now: Instant) -> bool {
        match self.last {
            Some(last) if self.has_accepted && now.duration_since(last).as_secs() > 0 => {
                self.last = None;
                true
            }
            Some(_) | None => false,
        }
    }
}
