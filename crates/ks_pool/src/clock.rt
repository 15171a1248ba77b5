//! The clock that all desks of a program share.
ghost use Rattle.std.specs.Prelude.{◌≡◌, IfSome, None};
ghost use Rattle.ks_pool.specs.Clock.{judged, kept, reading};
ghost use Rattle.ks_pool.specs.declared.watch.Shown.{Shown};

use crate::limits::LEAP_SECONDS;
use crate::watch::{Judged, Shown, Watch};
use std::rt::Clock;
use std::time::{Instant, SystemTime, UNIX_EPOCH};

/// A reading, and how it came about.
#[derive(Clone, Copy)]
pub struct Reading {
    /// Seconds since 1970.
    pub seconds: u64,
    /// What the wall clock shows.
    wall: u64,
    judged: Judged,
}

impl Reading {
    /// Says what became of the wall clock, where it is not as it was.
    pub fn tell<R: Eprint>(self, rt: &R) {
        let Reading {
            seconds,
            wall,
            judged,
        } = self;
        let _ = match judged {
            Judged::Good | Judged::StillDoubted => Ok(()),
            Judged::Back => eprintln!(rt;
                "ks: the clock went back to {wall} seconds since 1970: time stands still until it is where it was"
            ),
            Judged::Doubted => eprintln!(rt;
                "ks: the clock leapt from {seconds} to {wall} seconds since 1970: this counts once it has stood for {LEAP_SECONDS} seconds"
            ),
            Judged::Believed => eprintln!(rt;
                "ks: the clock has stood, and counts: it shows {wall} seconds since 1970"
            ),
        };
    }
}

/// The wall clock, as far as it is believed.
#[derive(Drop)]
pub struct WatchedClock {
    /// When the steady clock was first looked at.
    start: Option<Instant>,
    watch: Watch,
}

impl WatchedClock {
    /// One that was not read yet.
    pub fn new() -> WatchedClock {
        WatchedClock {
            start: None,
            watch: Watch::new(),
        }
    }

    /// Reads it. There is no reading where a clock can't be read, or the wall clock stands before 1970.
    pub fn read<R: Clock>(&mut self, rt: &R) -> Option<Reading>
        ensures reads { IfSome result (λ r. (now : Shown) × (r.wall ≡ now.wall) × (r.seconds ≡ reading self.old.watch now) × (r.judged ≡ judged self.old.watch now) × (self.new.watch ≡ kept self.old.watch now)) }
        ensures none { result ≡ None → self.new.watch ≡ self.old.watch }
    {
        let now = self.shown(rt)?;
        let (seconds, judged) = self.watch.read(now);
        Some(Reading {
            seconds,
            wall: now.wall,
            judged,
        })
    }

    /// What both clocks show now.
    fn shown<R: Clock>(&mut self, rt: &R) -> Option<Shown>
        ensures { self.new.watch ≡ self.old.watch }
    {
        let steady = Instant::now(rt).ok()?;
        let wall = SystemTime::now(rt).ok()?.duration_since(UNIX_EPOCH).ok()?;
        let start = *self.start.get_or_insert(steady);
        Some(Shown {
            wall: wall.as_secs(),
            steady: steady.duration_since(start).as_secs(),
        })
    }
}
