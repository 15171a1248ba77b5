use crate::limits::{GUARD_MILLIS, OWN_WAITS, WAIT_MILLIS};
use std::alloc::{AllocError, Global};

/// What a worker does.
#[derive(Clone, Copy, PartialEq, Eq)]
enum Doing {
    /// It is busy.
    Work,
    /// It waits for a short while, and then looks at what came for others.
    Guard,
    /// It waits long.
    Sleep,
}

/// What is known of a worker.
#[derive(Clone, Copy)]
struct Waiter {
    doing: Doing,
    /// How many connections had been lent when it last began to wait.
    seen: u64,
    /// How many times it has waited since it looked at what came for others.
    waits: u32,
}

/// How a worker waits.
#[derive(Clone, Copy)]
pub struct Turn {
    /// First it looks at what came for others.
    pub looks_first: bool,
    /// How many milliseconds it waits at most.
    pub most: i32,
}

/// Who of the workers waits. While one is busy, or was since then, those that have nothing to do are on guard: together they
/// look every few milliseconds at what came for busy ones. Else they sleep.
#[derive(Drop)]
pub struct Waiters {
    waiters: Vec<Waiter>,
    guards: usize,
    sleepers: usize,
    /// How many connections were lent.
    lent: u64,
}

impl Waiters {
    /// So many workers, all of which are busy.
    pub fn new(alloc: Global, workers: usize) -> Result<Waiters, AllocError> {
        let busy = Waiter {
            doing: Doing::Work,
            seen: 0,
            waits: 0,
        };
        Ok(Waiters {
            waiters: Vec::from_elem(alloc, busy, workers)?,
            guards: 0,
            sleepers: 0,
            lent: 0,
        })
    }

    /// How many are busy.
    fn busy(&self) -> usize {
        let waiting = self.guards.saturating_add(self.sleepers);
        self.waiters.len().saturating_sub(waiting)
    }

    /// A worker begins to wait: on guard, where another is busy, or a connection was lent since it last did.
    pub fn begin(&mut self, worker: usize) -> Turn {
        self.end(worker);
        let (lent, others_are_busy) = (self.lent, self.busy() > 1);
        let mut turn = Turn {
            looks_first: false,
            most: WAIT_MILLIS,
        };
        let Some(waiter) = self.waiters.get_mut(worker) else {
            return turn;
        };
        if others_are_busy || waiter.seen != lent {
            waiter.doing = Doing::Guard;
            self.guards = self.guards.saturating_add(1);
            // The more guards there are, the longer each may wait.
            let guards = i32::try_from(self.guards).unwrap_or(i32::MAX);
            turn.most = GUARD_MILLIS.saturating_mul(guards).min(WAIT_MILLIS);
        } else {
            waiter.doing = Doing::Sleep;
            self.sleepers = self.sleepers.saturating_add(1);
        }
        waiter.seen = lent;
        waiter.waits = waiter.waits.saturating_add(1);
        if waiter.waits >= OWN_WAITS {
            waiter.waits = 0;
            turn.looks_first = true;
        }
        turn
    }

    /// A worker has waited.
    pub fn end(&mut self, worker: usize) {
        if let Some(waiter) = self.waiters.get_mut(worker) {
            match waiter.doing {
                Doing::Work => {}
                Doing::Guard => self.guards = self.guards.saturating_sub(1),
                Doing::Sleep => self.sleepers = self.sleepers.saturating_sub(1),
            }
            waiter.doing = Doing::Work;
        }
    }

    /// A connection is lent. Where nobody is on guard then, one that sleeps is to be woken for it.
    pub fn lend(&mut self) -> Option<usize> {
        self.lent = self.lent.wrapping_add(1);
        if self.guards > 0 || self.sleepers == 0 {
            return None;
        }
        self.waiters
            .iter()
            .position(|waiter| waiter.doing == Doing::Sleep)
    }
}
