//! How far the wall clock is believed.
ghost use Rattle.std.specs.Prelude.{◌≡◌, None};
ghost use Rattle.ks_pool.specs.Clock.{due, due_now, goes_on, is_ahead, is_behind, has_stood, judged, judged_behind, judged_leap, kept, reading};

use crate::limits::LEAP_SECONDS;

/// What two clocks show at once, in whole seconds.
#[derive(Clone, Copy)]
pub struct Shown {
    /// The wall clock: seconds since 1970. It can be set.
    pub wall: u64,
    /// The steady clock: seconds since some start. It goes on evenly.
    pub steady: u64,
}

impl Shown {
    /// What the wall clock is due to show now, where this was shown before.
    fn due(self, now: Shown) -> u64
        ensures { result ≡ due self now }
    {
        let gone = now.steady.saturating_sub(self.steady);
        self.wall.saturating_add(gone)
    }

    /// Whether it now shows over 60 seconds more.
    fn is_ahead(self, now: Shown) -> bool
        ensures { result ≡ is_ahead self now }
    {
        u128::from(self.due(now)) + u128::from(LEAP_SECONDS) < u128::from(now.wall)
    }

    /// Whether it now shows over 60 seconds less.
    fn is_behind(self, now: Shown) -> bool
        ensures { result ≡ is_behind self now }
    {
        u128::from(now.wall) + u128::from(LEAP_SECONDS) < u128::from(self.due(now))
    }

    /// Whether it went on from here.
    fn goes_on(self, now: Shown) -> bool
        ensures { result ≡ goes_on self now }
    {
        !self.is_ahead(now) && !self.is_behind(now)
    }

    /// Whether this is 60 seconds ago.
    fn has_stood(self, now: Shown) -> bool
        ensures { result ≡ has_stood self now }
    {
        u128::from(self.steady) + u128::from(LEAP_SECONDS) <= u128::from(now.steady)
    }
}

/// What is made of what the clocks show.
#[derive(Clone, Copy, PartialEq, Eq, Debug)]
pub enum Judged {
    /// The wall clock goes on.
    Good,
    /// It went back.
    Back,
    /// It leapt ahead, and is doubted from now on.
    Doubted,
    /// It is doubted already.
    StillDoubted,
    /// The leap has stood, and counts from now on.
    Believed,
}

/// What is known of the wall clock.
#[derive(Clone, Copy)]
pub struct Watch {
    /// What was shown when it last counted.
    last: Option<Shown>,
    /// What was shown when the leap began that is doubted, if one is.
    doubted: Option<Shown>,
}

impl Watch {
    /// Nothing was shown yet.
    pub fn new() -> Watch
        ensures { result ≡ record { last = None; doubted = None } }
    {
        Watch {
            last: None,
            doubted: None,
        }
    }

    /// What is made of a leap ahead.
    fn judge_leap(self, now: Shown) -> Judged
        ensures { result ≡ judged_leap self.doubted now }
    {
        match self.doubted {
            Some(since) if since.goes_on(now) => {
                if since.has_stood(now) {
                    Judged::Believed
                } else {
                    Judged::StillDoubted
                }
            }
            Some(_) | None => Judged::Doubted,
        }
    }

    /// What is made of what is shown behind what last counted.
    fn judge_behind(self, last: Shown, now: Shown) -> Judged
        ensures { result ≡ judged_behind self.doubted last now }
    {
        if last.is_ahead(now) {
            self.judge_leap(now)
        } else if now.wall < last.wall {
            Judged::Back
        } else {
            Judged::Good
        }
    }

    /// What is made of what is shown.
    fn judge(self, now: Shown) -> Judged
        ensures { result ≡ judged self now }
    {
        match self.last {
            Some(last) => self.judge_behind(last, now),
            None => Judged::Good,
        }
    }

    /// What the wall clock is due to show now.
    pub fn due(self, now: Shown) -> u64
        ensures { result ≡ due_now self now }
    {
        match self.last {
            Some(last) => last.due(now),
            None => now.wall,
        }
    }

    /// The reading where this is shown, and what was made of it. A leap forward counts only once it has stood for 60
    /// seconds; until then the reading goes on by the steady clock.
    pub fn read(&mut self, now: Shown) -> (u64, Judged)
        ensures judged { result.1 ≡ judged self.old now }
        ensures reading { result.0 ≡ reading self.old now }
        ensures kept { self.new ≡ kept self.old now }
    {
        let judged = self.judge(now);
        match judged {
            Judged::Good | Judged::Back | Judged::Believed => {
                self.last = Some(now);
                self.doubted = None;
                (now.wall, judged)
            }
            Judged::Doubted => {
                self.doubted = Some(now);
                (self.due(now), judged)
            }
            Judged::StillDoubted => (self.due(now), judged),
        }
    }
}

#[test]
fn a_leap_counts_once_it_has_stood(rt: HostRuntime) {
    let mut watch = Watch::new();
    // What the two clocks show, the reading, and what is made of it.
    for (wall, steady, seconds, judged) in [
        (1_000, 0, 1_000, Judged::Good),
        (1_010, 10, 1_010, Judged::Good),
        // A leap of 60 seconds counts at once, and one of more is doubted for 60 seconds.
        (1_130, 70, 1_130, Judged::Good),
        (1_251, 130, 1_190, Judged::Doubted),
        (1_310, 189, 1_249, Judged::StillDoubted),
        (1_311, 190, 1_311, Judged::Believed),
        // One that goes back in time never counted.
        (9_000, 200, 1_321, Judged::Doubted),
        (1_331, 210, 1_331, Judged::Good),
        // One that leaps again is doubted from then.
        (9_000, 220, 1_341, Judged::Doubted),
        (5_000, 270, 1_391, Judged::Doubted),
        (5_059, 329, 1_450, Judged::StillDoubted),
        (5_061, 331, 5_061, Judged::Believed),
        // The clock may go back.
        (3_000, 341, 3_000, Judged::Back),
        (3_001, 342, 3_001, Judged::Good),
    ] {
        let read = watch.read(Shown { wall, steady });
        assert_eq!(rt; read.0, seconds, "at {steady}");
        assert!(rt; read.1 == judged, "at {steady}");
    }
}
