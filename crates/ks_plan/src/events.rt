//! The listing of revocations (OS-REVOKE).
ghost use Rattle.std.specs.Prelude.{◌≡◌, ◌≤◌, filter, IfOk};
ghost use Rattle.ks_auth.specs.Answers.{Tells};
ghost use Rattle.ks_base.specs.Revocation.{is_live};
ghost use Rattle.ks_machine.specs.Attempts.{Go};
ghost use Rattle.ks_machine.specs.Listings.{events};
ghost use Rattle.ks_machine.specs.States.{State};
ghost use Rattle.ks_checks.specs.Plans.{Plans};

use ks_auth::Tables;
use ks_base::limits::EVENT_GRACE;
use ks_base::{EventList, EventRow, Memory, Text};
use ks_checks::{Halt, Plan};
use ks_machine::BodyOut;
use std::alloc::Global;

/// Whether an event is live at this moment.
fn is_live(life: u64, moment: u64, event: &EventRow) -> bool
    ensures { result ≡ is_live life moment event.now }
{
    moment.saturating_sub(event.moment).saturating_sub(life) <= EVENT_GRACE
}

/// The events that are live at this moment.
fn live(alloc: Global, life: u64, moment: u64, kept: &[EventRow]) -> Result<EventList, Memory>
    ensures { IfOk result (λ list. list ≡ filter (is_live life moment) kept.now) }
{
    let mut list = EventList::new(alloc);
    for event in kept {
        if is_live(life, moment, event) {
            let _what = &event.what;
            list.push(*event)?;
        }
    }
    Ok(list)
}

/// The revocations that are live at this moment.
#[inline(never)]
#[tactic(auto, unfolding(ks_machine::specs::Listings::events))]
pub fn events(alloc: Global, tables: &Tables, moment: u64) -> Result<Plan, Halt>
    requires moment { tables.now.revoked.now.high ≤ moment }
    requires life { tables.now.revoked.now.life ≡ tables.now.settings.now.life }
    ensures { (S : State) → Tells tables.now S → Plans result (Go (events S moment)) }
{
    let kept = tables.revoked.kept()?;
    let list = live(alloc, tables.settings.life, moment, kept.as_slice())?;
    let path = Text::of(alloc, "/v3/OS-REVOKE/events")?;
    Ok(Plan::tells(BodyOut::Events(list, path)))
}
