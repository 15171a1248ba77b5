//! Random revocations, moments and tokens, and the answers about them beside those of a plain list of all that was ever
//! added.

use crate::events::Events;
use crate::rows::id;
use anyhow::{Result, bail};
use ks_base::{EventRow, Holder, Id, Revoke};
use ks_tables::Case;
use std::alloc::Global;

/// How long past its expiry a token may still be asked for, in seconds.
const WINDOW: u64 = 172_800;

/// How long an event is kept past the life of the tokens that it revokes, in seconds.
const KEPT: u64 = 174_600;

/// The ids of all things, in their order: capitals before small letters, and a front before what goes on from it.
const IDS: [&str; 4] = ["Z", "a", "aa", "b"];

/// A linear congruential generator, whose high bits are taken.
#[derive(Drop)]
struct Random {
    state: u64,
}

impl Random {
    fn next(&mut self) -> u64 {
        self.state = self
            .state
            .wrapping_mul(6_364_136_223_846_793_005)
            .wrapping_add(1_442_695_040_888_963_407);
        self.state >> 33
    }

    /// One of four ids.
    fn id(&mut self) -> Result<Id> {
        numbered_id(self.next() % 4)
    }

    fn some_id(&mut self) -> Result<Option<Id>> {
        if self.next() % 2 == 0 {
            Ok(Some(self.id()?))
        } else {
            Ok(None)
        }
    }

    fn thing(&mut self) -> Result<Revoke> {
        thing(self.next() % 5, self.next() % 4)
    }

    fn holder(&mut self) -> Result<Holder> {
        Ok(Holder {
            audit: audit(self.next() % 4)?,
            user: self.id()?,
            trustor: self.some_id()?,
            trustee: self.some_id()?,
            project: self.some_id()?,
            trust: self.some_id()?,
            user_domain: self.some_id()?,
            scope_domain: self.some_id()?,
        })
    }
}

fn numbered_id(number: u64) -> Result<Id> {
    match IDS.get(usize::try_from(number)?) {
        Some(word) => id(word),
        None => bail!("no id {number}"),
    }
}

fn audit(number: u64) -> Result<[u8; 16]> {
    Ok([u8::try_from(number)?; 16])
}

fn thing(kind: u64, number: u64) -> Result<Revoke> {
    match kind {
        0 => Ok(Revoke::Audit(audit(number)?)),
        1 => Ok(Revoke::User(numbered_id(number)?)),
        2 => Ok(Revoke::Project(numbered_id(number)?)),
        3 => Ok(Revoke::Domain(numbered_id(number)?)),
        _ => Ok(Revoke::Trust(numbered_id(number)?)),
    }
}

/// Whether the token has what the event names.
fn is_named(what: &Revoke, holder: &Holder) -> bool {
    match what {
        Revoke::Audit(audit) => holder.audit == *audit,
        Revoke::User(id) => {
            holder.user == *id || holder.trustor == Some(*id) || holder.trustee == Some(*id)
        }
        Revoke::Project(id) => holder.project == Some(*id),
        Revoke::Domain(id) => holder.user_domain == Some(*id) || holder.scope_domain == Some(*id),
        Revoke::Trust(id) => holder.trust == Some(*id),
    }
}

/// Whether some event of all revokes a token of this holder that was issued then.
fn is_revoked(all: &[EventRow], holder: &Holder, issued: u64) -> bool {
    for event in all {
        if issued <= event.moment && is_named(&event.what, holder) {
            return true;
        }
    }
    false
}

/// The last moment at which an event is live.
fn end_of(life: u64, event: &EventRow) -> u64 {
    event.moment.saturating_add(life).saturating_add(KEPT)
}

/// The events of all that are live at this moment.
fn live(alloc: Global, all: &[EventRow], life: u64, high: u64) -> Result<Vec<EventRow>> {
    let mut kept = Vec::new(alloc);
    for event in all {
        if high <= end_of(life, event) {
            kept.push(*event)?;
        }
    }
    Ok(kept)
}

/// The last of these events that names this thing.
fn last_of(what: &Revoke, kept: &[EventRow]) -> Option<EventRow> {
    let mut last = None;
    for event in kept {
        if event.what == *what {
            last = Some(*event);
        }
    }
    last
}

/// The last of these events for each thing, in the order of the things.
fn last_of_each(alloc: Global, kept: &[EventRow]) -> Result<Vec<EventRow>> {
    let mut marks = Vec::new(alloc);
    for number in 0..20 {
        let what = thing(number / 4, number % 4)?;
        if let Some(last) = last_of(&what, kept) {
            marks.push(last)?;
        }
    }
    Ok(marks)
}

/// A run of a life of tokens, a seed and a number of steps, each of which adds an event, tests a token or moves the moment
/// on: `agree`, or what differs.
pub fn run_of(alloc: Global, case: &Case) -> Result<String> {
    let mut random = Random {
        state: case.number(1)?,
    };
    let mut events = Events::new(alloc, case.number(0)?);
    let mut all = Vec::new(alloc);
    for step in 0..case.number(2)? {
        let differs = step_differs(alloc, &mut random, &mut events, &mut all)?;
        if let Some(what) = differs {
            return Ok(format!(in alloc; "{what} at step {step}")?);
        }
    }
    Ok(String::from_str(alloc, "agree")?)
}

/// What differs behind a random step, if something does.
fn step_differs(
    alloc: Global,
    random: &mut Random,
    events: &mut Events,
    all: &mut Vec<EventRow>,
) -> Result<Option<&'static str>> {
    match random.next() % 3 {
        0 => {
            add(random, events, all)?;
            Ok(None)
        }
        1 => {
            events.advance(later(random, events, all.as_slice()));
            kept_differs(alloc, events, all.as_slice())
        }
        _ => test_differs(random, events, all.as_slice()),
    }
}

/// A later moment: mostly a little, at times much, and at times that to which the first live event is kept, or the next one.
fn later(random: &mut Random, events: &Events, all: &[EventRow]) -> u64 {
    match random.next() % 10 {
        0 => events.high.saturating_add(random.next() % 100_000),
        1 => first_end(events, all).saturating_add(random.next() % 2),
        _ => events.high.saturating_add(random.next() % 1_000),
    }
}

/// The last moment of the first live event; the greatest moment where there is none.
fn first_end(events: &Events, all: &[EventRow]) -> u64 {
    for event in all {
        let end = end_of(events.life, event);
        if events.high <= end {
            return end;
        }
    }
    events.high
}

/// Adds a random event to those that are kept and to all.
fn add(random: &mut Random, events: &mut Events, all: &mut Vec<EventRow>) -> Result<()> {
    let row = EventRow {
        what: random.thing()?,
        moment: events.high,
    };
    if events.add(&row.what).is_err() {
        bail!("no room");
    }
    all.push(row)?;
    Ok(())
}

/// Whether a random token that may still be asked for is revoked otherwise than by the whole history.
fn test_differs(
    random: &mut Random,
    events: &Events,
    all: &[EventRow],
) -> Result<Option<&'static str>> {
    let holder = random.holder()?;
    let span = events.life.saturating_add(WINDOW);
    let issued = events.high.saturating_sub(random.next() % span);
    let said = events.revoked.test(&holder, issued);
    let differs = said != is_revoked(all, &holder, issued);
    Ok(differs.then_some("is_revoked"))
}

/// Whether the kept events or the marks differ from those of the whole history.
fn kept_differs(alloc: Global, events: &Events, all: &[EventRow]) -> Result<Option<&'static str>> {
    let kept = live(alloc, all, events.life, events.high)?;
    if events.revoked.kept()?.as_slice() != kept.as_slice() {
        return Ok(Some("kept"));
    }
    let marks = last_of_each(alloc, kept.as_slice())?;
    if events.marks(alloc)?.as_slice() != marks.as_slice() {
        return Ok(Some("marks"));
    }
    Ok(None)
}
