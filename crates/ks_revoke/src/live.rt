//! Which events are live.
ghost use Rattle.std.specs.Prelude.{◌≡◌, ◌≤◌};
ghost use Rattle.std.specs.VecDeque.{deque_len, deque_capacity};
ghost use Rattle.ks_base.specs.Revocation.{is_live, live};
ghost use Rattle.ks_revoke.specs.Holding.{AreInOrder};

use ks_base::EventRow;
use ks_base::limits::EVENT_GRACE;
use std::collections::VecDeque;

/// Whether the event is live at this moment, which may be any.
pub(crate) fn is_live(life: u64, high: u64, event: &EventRow) -> bool
    ensures { result ≡ is_live life high event.now }
{
    high.saturating_sub(event.moment).saturating_sub(life) <= EVENT_GRACE
}

/// Takes the events that are past at this moment from the front. It takes no memory.
pub(crate) fn drop_past(events: &mut VecDeque<EventRow>, life: u64, high: u64)
    requires { AreInOrder high events.old.items }
    ensures live { events.new.items ≡ live life high events.old.items }
    ensures len { deque_len events.new ≤ deque_len events.old }
    ensures capacity { deque_capacity events.new ≡ deque_capacity events.old }
{
    while let Some(first) = events.front() {
        if is_live(life, high, first) {
            break;
        }
        let _past = events.pop_front();
    }
}
