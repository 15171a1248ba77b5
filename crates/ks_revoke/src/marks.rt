//! The greatest moments, a row a thing. A row whose events are all past may stand among them.
ghost use Rattle.std.specs.Prelude.{◌≡◌, ◌+◌, ◌<◌, ◌≤◌, ◌↔◌, true, false, length, vec_len, vec_capacity, IsOk, OnOk};
ghost use Rattle.std.specs.List.{list_any};
ghost use Rattle.std.specs.List.Sorted.{IsSearchInRange};
ghost use Rattle.ks_base.specs.Places.{IsPlace};
ghost use Rattle.ks_base.specs.Revocation.{live};
ghost use Rattle.ks_base.specs.Tables.{IsAscending, put_row};
ghost use Rattle.ks_revoke.specs.Marks.{ends_if};
ghost use Rattle.ks_revoke.specs.Things.{rank_of, bytes_of, thing_cmp, thing_of, things_of};

use crate::live::is_live;
use ks_base::{Boxed, EventRow, Holder, Memory, Revoke};
use std::cmp::Ordering;

/// What stands in a spare row.
const BLANK: EventRow = EventRow {
    what: Revoke::Audit([0; 16]),
    moment: 0,
};

fn rank(thing: &Revoke) -> u8
    ensures { result ≡ rank_of thing.now }
{
    match thing {
        Revoke::Audit(_) => 0,
        Revoke::User(_) => 1,
        Revoke::Project(_) => 2,
        Revoke::Domain(_) => 3,
        Revoke::Trust(_) => 4,
    }
}

fn bytes(thing: &Revoke) -> &[u8]
    ensures { result.now ≡ bytes_of thing.now }
{
    match thing {
        Revoke::Audit(audit) => audit.as_slice(),
        Revoke::User(id) | Revoke::Project(id) | Revoke::Domain(id) | Revoke::Trust(id) => {
            id.as_slice()
        }
    }
}

/// Which of two things comes first.
fn compare(a: &Revoke, b: &Revoke) -> Ordering
    ensures { result ≡ thing_cmp a.now b.now }
{
    rank(a).cmp(&rank(b)).then_with(|| bytes(a).cmp(bytes(b)))
}

/// The place of the row of this thing, or the one where it belongs.
fn place(marks: &[Boxed<EventRow>], thing: &Revoke) -> Result<usize, usize>
    requires { IsAscending thing_cmp thing_of marks.now }
    ensures bound { IsSearchInRange result (length marks.now) }
    ensures place { IsPlace thing_cmp thing_of thing.now marks.now result }
{
    marks.binary_search_by(|mark| compare(&mark.get().what, thing))
}

/// Puts rows behind pointers until there are so many to spare. Where memory ends, those that were made stay.
pub(crate) fn provide(spares: &mut Vec<Boxed<EventRow>>, count: usize) -> Result<(), Memory>
    ensures ok { OnOk result (count ≤ length spares.new.items) }
    ensures kept { length spares.old.items ≤ length spares.new.items }
    ensures there { count ≤ length spares.old.items → IsOk result }
{
    let alloc = *spares.allocator();
    while spares.len() < count {
        spares.push(Boxed::new(alloc, BLANK)?)?;
    }
    Ok(())
}

/// Puts the row in the place of its thing, over the one that stands there or in one of the spare ones. There is room for it.
pub(crate) fn put(
    marks: &mut Vec<Boxed<EventRow>>,
    spares: &mut Vec<Boxed<EventRow>>,
    row: &EventRow,
)
    requires ascending { IsAscending thing_cmp thing_of marks.old.items }
    requires room { vec_len marks.old < vec_capacity marks.old }
    requires spare { 1 ≤ length spares.old.items }
    ensures rows { marks.new.items ≡ put_row thing_cmp thing_of row.now marks.old.items }
    ensures len { vec_len marks.new ≤ vec_len marks.old + 1 }
    ensures capacity { vec_capacity marks.new ≡ vec_capacity marks.old }
    ensures spares { length spares.old.items ≤ length spares.new.items + 1 }
{
    match place(marks.as_slice(), &row.what) {
        Ok(at) => marks[at].set(*row),
        Err(at) => {
            let Some(mut spare) = spares.pop() else {
                unreachable!()
            };
            spare.set(*row);
            let _inserted = marks.insert(at, spare);
        }
    }
}

/// Whether to sweep the past rows out of as many rows, where as many events are left: where there are more than two
/// rows for each event.
///
/// A live event names one thing, so there are no more live rows than events, and more than half of the rows are past
/// then. Each of those is past since the last sweep, by an event of its own. So a sweep passes over fewer rows than
/// twice the events that went since the last one.
pub(crate) fn is_sweep_due(rows: usize, events: usize) -> bool
    ensures due { result ≡ true ↔ events + events < rows }
    ensures few { result ≡ false → rows ≤ events + events }
{
    rows.saturating_sub(events) > events
}

/// The things of a holder that an event may name.
fn things(holder: &Holder) -> [Option<Revoke>; 8]
    ensures { result ≡ things_of holder.now }
{
    [
        Some(Revoke::Audit(holder.audit)),
        Some(Revoke::User(holder.user)),
        holder.trustor.map(Revoke::User),
        holder.trustee.map(Revoke::User),
        holder.project.map(Revoke::Project),
        holder.trust.map(Revoke::Trust),
        holder.user_domain.map(Revoke::Domain),
        holder.scope_domain.map(Revoke::Domain),
    ]
}

/// Whether the live row of this thing, if there is one, ends the tokens that were issued then.
fn ends(
    life: u64,
    high: u64,
    marks: &[Boxed<EventRow>],
    thing: &Option<Revoke>,
    issued: u64,
) -> bool
    requires { IsAscending thing_cmp thing_of marks.now }
    ensures { result ≡ ends_if issued (live life high marks.now) thing.now }
{
    let Some(thing) = thing else {
        return false;
    };
    match place(marks, thing) {
        Ok(at) => {
            let mark = marks[at].get();
            is_live(life, high, mark) && issued <= mark.moment
        }
        Err(_) => false,
    }
}

/// Whether the row, live at this moment, of some thing of the holder ends the tokens that were issued then.
pub(crate) fn any_ends(
    life: u64,
    high: u64,
    marks: &[Boxed<EventRow>],
    holder: &Holder,
    issued: u64,
) -> bool
    requires { IsAscending thing_cmp thing_of marks.now }
    ensures { result ≡ list_any (ends_if issued (live life high marks.now)) (things_of holder.now) }
{
    things(holder)
        .iter()
        .any(|thing| ends(life, high, marks, thing, issued))
}
