//! Where a connection is reported.

use crate::connection::Connection;
use crate::poller::Pollers;
use mio::net::TcpStream;
use mio::{Interest, Token};
use std::io;

/// Under which number a connection is registered, and for whom.
#[derive(Clone, Copy)]
pub struct Registration {
    /// Its place in the pool.
    pub key: usize,
    /// The worker to which it is reported.
    pub worker: usize,
}

/// A connection is reported when more comes of it, and when more may go to it: once at each change, and when it is
/// registered.
fn both_ways() -> Interest {
    Interest::READABLE | Interest::WRITABLE
}

impl Registration {
    /// Has a connection reported from now on.
    pub fn register(self, pollers: &Pollers, stream: &mut TcpStream) -> io::Result<()> {
        pollers
            .of(self.worker)
            .registry()
            .register(stream, Token(self.key), both_ways())
    }

    /// Has a connection reported once more.
    fn register_again(self, pollers: &Pollers, stream: &mut TcpStream) -> io::Result<()> {
        pollers
            .of(self.worker)
            .registry()
            .reregister(stream, Token(self.key), both_ways())
    }
}

impl Connection {
    /// Has it reported to this worker from now on. It is reported once more where that is due, or where the worker is another
    /// one than before.
    pub fn report_to(&mut self, pollers: &Pollers, worker: usize, is_due: bool) -> io::Result<()> {
        let before = self.registration;
        if before.worker == worker {
            if is_due {
                before.register_again(pollers, &mut self.stream)?;
            }
            return Ok(());
        }
        pollers
            .of(before.worker)
            .registry()
            .deregister(&mut self.stream)?;
        self.registration = Registration { worker, ..before };
        self.registration.register(pollers, &mut self.stream)
    }
}
