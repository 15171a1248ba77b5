use crate::connection::Connection;
use crate::ending::Ending;
use crate::limits::LAST_WAIT_MILLIS;
use crate::poller::{Pollers, Report};
use crate::registration::Registration;
use crate::trouble::Trouble;
use crate::waiters::{Turn, Waiters};
use mio::net::TcpStream;
use slab::Slab;
use std::alloc::{AllocError, Global};
use std::mem;
use std::net::IpAddr;
use std::time::Instant;

/// The place of a connection.
#[derive(Drop)]
enum Slot {
    /// It rests here.
    Resting(Connection),
    /// A worker has it, and whether something was reported of it since.
    Lent(bool),
}

/// What is to be done behind a report.
#[derive(Drop)]
pub enum Step {
    /// Serving is over.
    End,
    /// First a second is over, and those are to go whose time is over, before one of them is lent.
    Sweep,
    /// Connections wait at the listener.
    Accept,
    /// This connection was lent, and this worker is to be woken, if one is.
    Serve(Connection, Option<usize>),
    /// Nothing.
    Wait,
}

/// The places of all connections, by the numbers under which they are registered.
#[derive(Drop)]
pub struct Slots {
    alloc: Global,
    slots: Slab<Slot>,
    /// How many connections there are at most.
    most: usize,
    swept: Instant,
    pub trouble: Trouble,
    ending: Ending,
    waiters: Waiters,
    /// What is to be said before the first connection is waited for.
    pub first_line: Option<String>,
    /// The worker that got the newest connection.
    last: usize,
}

impl Slots {
    /// No connections yet, for so many workers.
    pub fn new(
        alloc: Global,
        most: usize,
        workers: usize,
        now: Instant,
    ) -> Result<Slots, AllocError> {
        Ok(Slots {
            alloc,
            slots: Slab::new(alloc),
            most,
            swept: now,
            trouble: Trouble::new(),
            ending: Ending::new(),
            waiters: Waiters::new(alloc, workers)?,
            first_line: None,
            last: 0,
        })
    }

    /// A worker begins to wait. Once the end has begun no wait is long.
    pub fn begin_wait(&mut self, worker: usize) -> Turn {
        let turn = self.waiters.begin(worker);
        if self.ending.has_begun() {
            return Turn {
                most: turn.most.min(LAST_WAIT_MILLIS),
                ..turn
            };
        }
        turn
    }

    /// Takes a place for a new connection. The workers get them in turn. One for which there is no memory, or which can't be
    /// registered, is let go.
    pub fn admit(
        &mut self,
        pollers: &Pollers,
        mut stream: TcpStream,
        client: IpAddr,
        now: Instant,
    ) {
        if self.slots.len() >= self.most {
            self.let_oldest_go();
        }
        let registration = Registration {
            key: self.slots.vacant_key(),
            worker: pollers.behind(self.last),
        };
        self.last = registration.worker;
        if registration.register(pollers, &mut stream).is_ok() {
            let connection = Connection::new(self.alloc, stream, client, registration, now);
            drop(self.slots.insert(Slot::Resting(connection)));
        }
    }

    /// Lends the connection of this place, if one rests there, and else notes that something was reported of it.
    fn lend(&mut self, key: usize) -> Option<Connection> {
        let slot = self.slots.get_mut(key)?;
        match mem::replace(slot, Slot::Lent(false)) {
            Slot::Resting(connection) => Some(connection),
            Slot::Lent(_) => {
                *slot = Slot::Lent(true);
                None
            }
        }
    }

    /// Takes a connection back, and has it reported to this worker from now on. It is reported again where something was reported
    /// of it meanwhile, or where a further request lies ready. Once the end has begun, one of which nothing is at work is let go.
    pub fn put(&mut self, pollers: &Pollers, mut connection: Connection, worker: usize) {
        let key = connection.registration.key;
        if self.ending.has_begun() && connection.is_idle() {
            self.forget(key);
            return;
        }
        let is_due = self.was_reported(key) || connection.is_whole();
        if connection.report_to(pollers, worker, is_due).is_err() {
            self.forget(key);
            return;
        }
        if let Some(slot) = self.slots.get_mut(key) {
            *slot = Slot::Resting(connection);
        }
    }

    fn was_reported(&self, key: usize) -> bool {
        match self.slots.get(key) {
            Some(Slot::Lent(was_reported)) => *was_reported,
            Some(Slot::Resting(_)) | None => false,
        }
    }

    /// Frees a place, and lets the connection go that rests there.
    pub fn forget(&mut self, key: usize) {
        drop(self.slots.try_remove(key));
    }

    /// What a worker is to do behind this report.
    pub fn step(&mut self, worker: usize, report: Report, now: Instant) -> Step {
        self.waiters.end(worker);
        if self.has_ended(now, report != Report::Nothing) {
            return Step::End;
        }
        if self.begin_sweep(now) {
            return Step::Sweep;
        }
        match report {
            Report::Nothing | Report::Woken => Step::Wait,
            Report::Listener => Step::Accept,
            Report::Connection(key, has_closed) => match self.lend(key) {
                Some(mut connection) => {
                    connection.hear(has_closed);
                    Step::Serve(connection, self.waiters.lend())
                }
                None => Step::Wait,
            },
        }
    }

    /// Whether a second has gone since the last sweep, and another begins.
    fn begin_sweep(&mut self, now: Instant) -> bool {
        if now.duration_since(self.swept).as_secs() == 0 {
            return false;
        }
        self.swept = now;
        true
    }

    /// Whether the end has begun.
    pub fn is_ending(&self) -> bool {
        self.ending.has_begun()
    }

    /// Looks for a signal that asks for the end, and says whether it begins now.
    pub fn look_for_end(&mut self, now: Instant) -> bool {
        self.ending.look(self.alloc, now)
    }

    /// Whether serving is over by now, where a wait told of something or of nothing.
    fn has_ended(&self, now: Instant, was_told: bool) -> bool {
        self.ending.has_begun() && self.ending.is_over(now, was_told || self.is_at_work())
    }

    /// Whether a request or a response of a connection that rests here is under way.
    fn is_at_work(&self) -> bool {
        self.slots.iter().any(|(_, slot)| match slot {
            Slot::Resting(connection) => connection.is_at_work(),
            // Its worker sees to it.
            Slot::Lent(_) => false,
        })
    }

    /// Lets the connections go whose time is over.
    pub fn sweep(&mut self, now: Instant) {
        for key in 0..self.slots.capacity() {
            if self.is_over(key, now) {
                self.forget(key);
            }
        }
    }

    fn is_over(&self, key: usize, now: Instant) -> bool {
        match self.slots.get(key) {
            Some(Slot::Resting(connection)) => connection.until.has_passed(now),
            Some(Slot::Lent(_)) | None => false,
        }
    }

    /// The place of the connection that has rested longest, and since when.
    fn oldest(&self) -> Option<(usize, Instant)> {
        let mut oldest: Option<(usize, Instant)> = None;
        for (key, slot) in self.slots.iter() {
            if let Slot::Resting(connection) = slot {
                oldest = match oldest {
                    Some((_, rested)) if rested <= connection.rested => oldest,
                    Some(_) | None => Some((key, connection.rested)),
                };
            }
        }
        oldest
    }

    /// Lets the connection go that has rested longest, if one rests.
    fn let_oldest_go(&mut self) {
        if let Some((key, _)) = self.oldest() {
            self.forget(key);
        }
    }

    /// Lets the connection go that has rested longest, if that was for a second, and says whether it did. A client that has
    /// just come may have asked already.
    pub fn make_room(&mut self, now: Instant) -> bool {
        match self.oldest() {
            Some((key, rested)) if now.duration_since(rested).as_secs() > 0 => {
                self.forget(key);
                true
            }
            Some(_) | None => false,
        }
    }
}
