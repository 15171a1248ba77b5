ghost use Rattle.std.specs.Prelude.{◌≡◌, is_ok, IsErr, IfOk, IfSome, if◌then◌else◌};
ghost use Rattle.ks_outside.specs.Counts.{Counts, next_count};
ghost use Rattle.ks_outside.specs.Real.{untold_desk};

use crate::clock::WatchedClock;
use crate::connection::Connection;
use crate::{Pool, TcpLink};
use ks_base::{Memory, Receipt};
use ks_outside::{Answered, Desk, Failed};
use std::marker::Model;
use std::net::IpAddr;
use std::random::RandomSource;
use std::rt::Clock;
use std::sync::Wait;
use std::time::Instant;

/// A desk over a pool of TCP connections, the clock and the random source. It tells nothing, and counts its faults; the
/// counts stand still at 2^64 - 1. It keeps no receipt. All desks of a program share one pool, which hands out links
/// until a signal asks the process to end. Without a pool, as where the program listens at no address or its address
/// could not be opened, it hands out none, and each `accept` fails.
#[derive(Drop)]
pub struct RealDesk<'a, R> {
    rt: &'a R,
    pool: Option<&'a Pool>,
    /// The clock of a desk without a pool.
    clock: WatchedClock,
    last: u64,
    accept_faults: u64,
    fill_faults: u64,
    /// The number of its worker, by which the log tells its connections from those of others.
    worker: u32,
    /// The client of the link that it handed out last.
    client: Option<IpAddr>,
    /// When it made ready for the request that is answered, where that is to be told.
    began: Option<Instant>,
}

impl<'a, R> Model for RealDesk<'a, R> {
    ghost use Rattle.ks_outside.specs.Real.{RealDeskState};

    ghost Value = { RealDeskState };

    ghost view = { λ d. record { last = d.last; accept_faults = d.accept_faults; fill_faults = d.fill_faults } };
}

impl<'a, R> RealDesk<'a, R> {
    /// A desk that has not failed yet, and whose last reading is 0.
    pub fn new(rt: &'a R, pool: Option<&'a Pool>) -> RealDesk<'a, R>
        ensures { result ≡ record { last = 0; accept_faults = 0; fill_faults = 0 } }
    {
        RealDesk {
            rt,
            pool,
            clock: WatchedClock::new(),
            last: 0,
            accept_faults: 0,
            fill_faults: 0,
            worker: 0,
            client: None,
            began: None,
        }
    }

    /// The same, of the worker of this number.
    pub fn of_worker(self, worker: u32) -> RealDesk<'a, R>
        ensures { result ≡ self.entry }
    {
        RealDesk { worker, ..self }
    }

    /// Which of the pool's workers it has.
    fn place(&self) -> usize {
        usize::try_from(self.worker).unwrap_or(0)
    }
}

impl<'a, R: Clock + RandomSource + Wait + Eprint> Desk for RealDesk<'a, R> {
    type Link = TcpLink<'a, R>;

    ghost desk = { untold_desk };

    /// Waits for a link of which a request looks whole, or of which no more comes. No more links come once a signal
    /// asked the process to end and what was at work has ended or had its time. Where connections can't be accepted for
    /// now, that is said on the standard error, and again when it is over. That the listener can't accept at all, a clock
    /// that can't be read and a want of a pool are faults.
    fn accept(&mut self) -> Result<Option<TcpLink<'a, R>>, Failed>
        ensures faults { Counts (IsErr result) self.old.accept_faults self.new.accept_faults }
        // A link has not failed yet, and the count rises at a fault alone.
        ensures some { IfOk result (λ link. IfSome link (λ new. new ≡ record { reads = 0; writes = 0 })) }
        ensures exact { self.new ≡ record self.old { accept_faults = (if is_ok result then self.old.accept_faults else next_count self.old.accept_faults) } }
    {
        match next_of(self.pool, self.rt, self.place()) {
            Ok(Some(connection)) => {
                self.client = Some(connection.client);
                Ok(Some(TcpLink::new(self.rt, connection)))
            }
            Ok(None) => Ok(None),
            Err(Failed) => {
                self.accept_faults = self.accept_faults.saturating_add(1);
                Err(Failed)
            }
        }
    }

    /// Gives the connection back to the pool. There it waits for its next request, where it may rest, and is else closed
    /// in stages: what its client has not taken still goes to it, and what that still sends is passed over for a while,
    /// so that it does not lose the last response.
    fn give_back(&mut self, link: TcpLink<'a, R>)
        ensures exact { self.new ≡ self.old }
    {
        if let Some(pool) = self.pool {
            link.give_back(pool, self.place());
        }
    }

    /// The clock, or the last reading again, at first 0, where it can't be read or stands before 1970. Where it leaps
    /// forward by more than 60 seconds, that counts once it has stood for 60 seconds; until then the reading goes on by the
    /// monotonic clock from the last that counted. The desks of a pool share what is known of it. On the standard error it
    /// is said when a leap is doubted, when it counts, and when the clock goes back, which it may.
    fn reading(&mut self) -> u64
        ensures last { self.new ≡ record self.old { last = result } }
    {
        if let Some(seconds) = reading_of(self.pool, &mut self.clock, self.rt) {
            self.last = seconds;
        }
        self.last
    }

    /// Fills from the random source of the system, whose every error is a fault.
    fn fill(&mut self, into: &mut [u8]) -> Result<(), Failed>
        ensures faults { Counts (IsErr result) self.old.fill_faults self.new.fill_faults }
        // The count rises at a fault alone.
        ensures exact { self.new ≡ record self.old { fill_faults = (if is_ok result then self.old.fill_faults else next_count self.old.fill_faults) } }
    {
        match self.rt.fill_bytes(into) {
            Ok(()) => Ok(()),
            Err(_) => {
                self.fill_faults = self.fill_faults.saturating_add(1);
                Err(Failed)
            }
        }
    }

    /// There is always room, since no receipt is kept. It looks at the clock where it is to be told how long a request takes.
    fn ready(&mut self) -> Result<(), Memory>
        ensures exact { self.new ≡ self.old }
    {
        if self.logs() {
            self.began = Instant::now(self.rt).ok();
        }
        Ok(())
    }

    /// Drops the receipt.
    fn note(&mut self, receipt: Receipt)
        ensures exact { self.new ≡ self.old }
    {
        drop(receipt);
    }

    /// Whether its pool has a log.
    fn logs(&self) -> bool {
        match self.pool {
            Some(pool) => pool.logs(),
            None => false,
        }
    }

    /// Writes the request's line in the log of its pool.
    fn tell(&mut self, answered: &Answered)
        ensures exact { self.new ≡ self.old }
    {
        if let Some(pool) = self.pool {
            pool.tell(self.rt, self.worker, self.client, self.began, answered);
        }
    }
}

/// The next connection of a pool for its worker of this number, if there is a pool.
fn next_of<R: Clock + Wait + Eprint>(
    pool: Option<&Pool>,
    rt: &R,
    worker: usize,
) -> Result<Option<Connection>, Failed> {
    match pool {
        Some(pool) => pool.next(rt, worker),
        None => Err(Failed),
    }
}

/// What the clock of the pool shows, or this one where there is no pool.
fn reading_of<R: Clock + Wait + Eprint>(
    pool: Option<&Pool>,
    clock: &mut WatchedClock,
    rt: &R,
) -> Option<u64> {
    if let Some(pool) = pool {
        return pool.reading(rt);
    }
    let reading = clock.read(rt)?;
    reading.tell(rt);
    Some(reading.seconds)
}
