use ks_outside::Failed;
use mio::{Events, Poll, Registry, Token, Waker};
use std::alloc::Global;
use std::io;
use std::net::Net;
use std::sync::{Mutex, Wait};
use std::time::Duration;

/// Under which the listener is registered.
pub const LISTENER: Token = Token(usize::MAX);

/// Under which the end of a wait is asked for.
const WAKER: Token = Token(usize::MAX - 1);

/// How many reports one wait gives at most.
const REPORTS: usize = 32;

/// Of what something is reported.
#[derive(Clone, Copy, PartialEq, Eq)]
pub enum Report {
    /// Of nothing, for as long as the wait took at most.
    Nothing,
    /// Of the wait itself: another worker ended it.
    Woken,
    /// Of the listener: a connection is to be accepted.
    Listener,
    /// Of the connection of this place, and whether its client has closed its side.
    Connection(usize, bool),
}

/// The reports that came.
#[derive(Drop)]
struct Reports {
    poll: Poll,
    events: Events,
    /// How many of them were handed on.
    handed_on: usize,
}

impl Reports {
    /// Hands on the next report of those that came, if one is left.
    fn hand_on(&mut self) -> Option<Report> {
        let event = self.events.iter().nth(self.handed_on)?;
        let report = match event.token() {
            LISTENER => Report::Listener,
            WAKER => Report::Woken,
            Token(key) => Report::Connection(key, event.is_read_closed()),
        };
        self.handed_on = self.handed_on.saturating_add(1);
        Some(report)
    }

    /// The next report, for which it waits so many milliseconds at most.
    fn next(&mut self, most: i32) -> Result<Report, Failed> {
        if let Some(report) = self.hand_on() {
            return Ok(report);
        }
        self.handed_on = 0;
        let most = Duration::from_millis(u64::from(most.unsigned_abs()));
        if self.poll.poll(&mut self.events, Some(most)).is_err() {
            return Err(Failed);
        }
        Ok(self.hand_on().unwrap_or(Report::Nothing))
    }
}

/// What one worker waits at for reports of its own connections. Others look there while it is busy.
#[derive(Drop)]
pub struct Poller {
    registry: Registry,
    waker: Waker,
    reports: Mutex<Reports>,
}

impl Poller {
    /// One at which nothing is registered.
    pub fn new<R: Net + AllocGlobal>(rt: &R) -> io::Result<Poller> {
        let poll = Poll::new(rt)?;
        let registry = poll.registry().try_clone()?;
        let waker = Waker::new(&registry, WAKER)?;
        let events = Events::with_capacity(rt.alloc(), REPORTS)?;
        Ok(Poller {
            registry,
            waker,
            reports: Mutex::new(Reports {
                poll,
                events,
                handed_on: 0,
            }),
        })
    }

    /// Where connections are registered for it.
    pub fn registry(&self) -> &Registry {
        &self.registry
    }

    /// The next report, for which it waits so many milliseconds at most.
    pub fn wait<R: Wait>(&self, rt: &R, most: i32) -> Result<Report, Failed> {
        self.reports.lock(rt).next(most)
    }

    /// The next report that has come, unless its worker is here itself.
    pub fn look(&self) -> Result<Report, Failed> {
        match self.reports.try_lock() {
            Some(mut reports) => reports.next(0),
            None => Ok(Report::Nothing),
        }
    }

    /// Ends the wait of its worker, or its next one.
    pub fn wake(&self) {
        // Where that fails its wait ends by itself.
        let _woken = self.waker.wake();
    }
}

/// The pollers of all workers, one for each.
#[derive(Drop)]
pub struct Pollers {
    first: Poller,
    others: Vec<Poller>,
}

impl Pollers {
    /// Those of so many workers, one at least.
    pub fn new<R: Net + AllocGlobal>(rt: &R, workers: u32) -> io::Result<Pollers> {
        let first = Poller::new(rt)?;
        let mut others = Vec::new(rt.alloc());
        'others: for _ in 1..workers {
            others.push(Poller::new(rt)?)?;
        }
        Ok(Pollers { first, others })
    }

    /// How many there are.
    pub fn len(&self) -> usize {
        self.others.len().saturating_add(1)
    }

    /// The one of the worker of this number.
    pub fn of(&self, worker: usize) -> &Poller {
        match worker.checked_sub(1) {
            Some(other) => self.others.get(other).unwrap_or(&self.first),
            None => &self.first,
        }
    }

    /// The number of the worker behind this one; behind the last comes the first.
    pub fn behind(&self, worker: usize) -> usize {
        if worker < self.others.len() {
            worker + 1
        } else {
            0
        }
    }

    /// Ends the waits of all workers.
    pub fn wake_all(&self) {
        self.first.wake();
        for poller in &self.others {
            poller.wake();
        }
    }

    /// The next report that has come for another worker that is busy.
    pub fn look_at_others(&self, worker: usize) -> Result<Report, Failed> {
        let mut other = worker;
        'others: for _ in 0..self.others.len() {
            other = self.behind(other);
            let report = self.of(other).look()?;
            if report != Report::Nothing {
                return Ok(report);
            }
        }
        Ok(Report::Nothing)
    }
}
