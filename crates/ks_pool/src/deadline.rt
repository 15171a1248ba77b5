use crate::limits::{
    CLOSING_SECONDS, HEAD_SECONDS, IDLE_SECONDS, REQUEST_SECONDS, RESPONSE_SECONDS,
};
use std::time::Instant;

/// What a connection waits for.
#[derive(Clone, Copy, PartialEq, Eq)]
pub enum Awaited {
    /// The first byte of a request.
    Request,
    /// The rest of a head.
    Head,
    /// The rest of a request whose head has come.
    Body,
    /// That the client takes a response.
    Taking,
    /// That the client closes its side, behind the last response.
    End,
}

impl Awaited {
    /// How many seconds it waits at most.
    fn seconds(self) -> u64 {
        match self {
            Awaited::Request => IDLE_SECONDS,
            Awaited::Head => HEAD_SECONDS,
            Awaited::Body => REQUEST_SECONDS,
            Awaited::Taking => RESPONSE_SECONDS,
            Awaited::End => CLOSING_SECONDS,
        }
    }
}

/// Until when a connection waits. What comes or goes in pieces has one deadline for the whole of it.
#[derive(Clone, Copy)]
pub struct Deadline {
    awaited: Awaited,
    since: Instant,
}

impl Deadline {
    /// It begins to wait for this.
    pub fn new(awaited: Awaited, now: Instant) -> Deadline {
        Deadline {
            awaited,
            since: now,
        }
    }

    /// Whether it waits for this.
    pub fn is_of(self, awaited: Awaited) -> bool {
        self.awaited == awaited
    }

    /// It goes on to wait for this. A request began with its head.
    pub fn then(self, awaited: Awaited, now: Instant) -> Deadline {
        let goes_on = self.awaited == awaited
            || self.awaited == Awaited::Head && awaited == Awaited::Body;
        Deadline {
            awaited,
            since: if goes_on { self.since } else { now },
        }
    }

    /// Whether it has passed.
    pub fn has_passed(self, now: Instant) -> bool {
        now.duration_since(self.since).as_secs() >= self.awaited.seconds()
    }

    /// How many milliseconds are left until then.
    pub fn millis_left(self, now: Instant) -> i32 {
        let whole = u128::from(self.awaited.seconds()).saturating_mul(1_000);
        let gone = now.duration_since(self.since).as_millis();
        i32::try_from(whole.saturating_sub(gone)).unwrap_or(i32::MAX)
    }
}
