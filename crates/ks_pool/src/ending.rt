//! The end of serving.
ghost use Rattle.std.specs.Prelude.{◌≡◌, ◌≢◌, ◌-◌, ◌*◌, ◌≤◌, ◌↔◌, IfSome, None, Some, false, true};
ghost use Rattle.std.specs.Time.{instant_nanos};

use crate::limits::END_SECONDS;
use crate::signals::asks_to_end;
use std::alloc::Global;
use std::time::Instant;

/// Since when a signal asks for the end, if one does.
#[derive(Clone, Copy)]
pub struct Ending {
    since: Option<Instant>,
}

impl Ending {
    /// None was heard yet.
    pub fn new() -> Ending
        ensures { result.since ≡ None }
    {
        Ending { since: None }
    }

    /// Whether the end has begun.
    pub fn has_begun(self) -> bool
        ensures { (result ≡ false) ↔ (self.since ≡ None) }
    {
        self.since.is_some()
    }

    /// Looks for a signal, where none was heard yet, and says whether the end begins with this look. It goes on from then.
    pub fn look(&mut self, alloc: Global, now: Instant) -> bool
        ensures goes_on { IfSome self.old.since (λ _. (self.new ≡ self.old) × (result ≡ false)) }
        ensures begins { self.old.since ≡ None → result ≡ true → self.new.since ≡ Some now }
        ensures none { self.old.since ≡ None → result ≡ false → self.new.since ≡ None }
    {
        if self.since.is_some() || !asks_to_end(alloc) {
            return false;
        }
        self.since = Some(now);
        true
    }

    /// Whether it is over by now: where nothing is at work, or after 5 seconds.
    pub fn is_over(self, now: Instant, is_at_work: bool) -> bool
        ensures begun { result ≡ true → self.since ≢ None }
        ensures over { IfSome self.since (λ since. (result ≡ true) ↔ (is_at_work ≡ true → END_SECONDS * 1_000_000_000 ≤ instant_nanos now - instant_nanos since)) }
    {
        match self.since {
            Some(since) => !is_at_work || now.duration_since(since).as_secs() >= END_SECONDS,
            None => false,
        }
    }
}
