//! Gates that hold workers, for a bounded number of looks.

use anyhow::{Result, ensure};
use ks_outside::{Gate, Place};
use std::sync::atomic::{AtomicU64, Ordering};
use std::thread;

/// How often a worker that is held looks whether it may go on.
const LOOKS: u32 = 100_000_000;

/// After so many looks another thread may run.
const BETWEEN: u32 = 1_000;

/// Looks until a count has come to the least, and answers whether it has.
fn comes_to(count: &AtomicU64, least: u64) -> bool {
    for look in 0..LOOKS {
        if count.load(Ordering::SeqCst) >= least {
            return true;
        }
        if look % BETWEEN == 0 {
            thread::yield_now();
        }
    }
    false
}

/// Holds a worker where it first comes to one place, until another lets it go on. It counts how often each place was
/// reached.
#[derive(Drop)]
pub struct HoldingGate {
    place: Place,
    openings: AtomicU64,
    derivings: AtomicU64,
    holds: AtomicU64,
    let_on: AtomicU64,
    gave_up: AtomicU64,
}

impl HoldingGate {
    pub fn new(place: Place) -> HoldingGate {
        HoldingGate {
            place,
            openings: AtomicU64::new(0),
            derivings: AtomicU64::new(0),
            holds: AtomicU64::new(0),
            let_on: AtomicU64::new(0),
            gave_up: AtomicU64::new(0),
        }
    }

    fn count(&self, place: Place) -> &AtomicU64 {
        match place {
            Place::Opening => &self.openings,
            Place::Deriving => &self.derivings,
            Place::BeforeHold => &self.holds,
        }
    }

    /// How often the place was reached.
    fn reached(&self, place: Place) -> u64 {
        self.count(place).load(Ordering::SeqCst)
    }

    /// Waits until a worker is held.
    pub fn wait_for_worker(&self) {
        self.wait_for(self.count(self.place));
    }

    /// Lets the worker go on.
    pub fn let_on(&self) {
        self.let_on.store(1, Ordering::SeqCst);
    }

    fn wait_for(&self, count: &AtomicU64) {
        if !comes_to(count, 1) {
            self.gave_up.fetch_add(1, Ordering::SeqCst);
        }
    }

    /// Refuses a case in which a worker gave up waiting for the other.
    pub fn ensure_met(&self) -> Result<()> {
        ensure!(
            self.gave_up.load(Ordering::SeqCst) == 0,
            "a worker waited in vain"
        );
        Ok(())
    }

    /// Refuses a case in which a worker gave up waiting, or the gate was not reached just so often before a hold and before
    /// a derivation.
    pub fn ensure_reached(&self, holds: u64, derivings: u64) -> Result<()> {
        self.ensure_met()?;
        let (held, derived) = (
            self.reached(Place::BeforeHold),
            self.reached(Place::Deriving),
        );
        ensure!(
            held == holds && derived == derivings,
            "the gate was reached {held} times before a hold and {derived} times before a derivation"
        );
        Ok(())
    }
}

impl Gate for HoldingGate {
    fn at(&self, place: Place) {
        let before = self.count(place).fetch_add(1, Ordering::SeqCst);
        if before == 0 && place == self.place {
            self.wait_for(&self.let_on);
        }
    }
}

/// Lets two workers meet: each that is about to derive waits there until both are.
#[derive(Drop)]
pub struct MeetingGate {
    came: AtomicU64,
    gave_up: AtomicU64,
}

impl MeetingGate {
    pub fn new() -> MeetingGate {
        MeetingGate {
            came: AtomicU64::new(0),
            gave_up: AtomicU64::new(0),
        }
    }

    /// Refuses a case in which a worker gave up waiting for the other, or not just two came.
    pub fn ensure_met(&self) -> Result<()> {
        let came = self.came.load(Ordering::SeqCst);
        ensure!(
            self.gave_up.load(Ordering::SeqCst) == 0,
            "a worker waited in vain"
        );
        ensure!(
            came == 2,
            "the gate was reached {came} times before a derivation"
        );
        Ok(())
    }
}

impl Gate for MeetingGate {
    fn at(&self, place: Place) {
        if place == Place::Deriving {
            self.came.fetch_add(1, Ordering::SeqCst);
            if !comes_to(&self.came, 2) {
                self.gave_up.fetch_add(1, Ordering::SeqCst);
            }
        }
    }
}
