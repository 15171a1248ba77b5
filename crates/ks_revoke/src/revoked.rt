ghost use Rattle.std.specs.Prelude.{◌≡◌, ◌+◌, ◌<◌, ◌≤◌, ◌↔◌, ◌⊎◌, max, [], ◌∷◌, ◌++◌, length, IfOk, IsOk, OnOk, Err};
ghost use Rattle.std.specs.List.{list_any};
ghost use Rattle.ks_base.specs.declared.limits.TheConstants.{EVENTS};
ghost use Rattle.ks_base.specs.declared.kinds.Kind.{Kind};
ghost use Rattle.ks_base.specs.Revocation.{is_revoked, live, window};
ghost use Rattle.ks_base.specs.Tables.{put_row};
ghost use Rattle.ks_revoke.specs.Marks.{AreMarks, ends_if, lent};
ghost use Rattle.ks_revoke.specs.Histories.{AreFew, History, Stands, added, advanced};
ghost use Rattle.ks_revoke.specs.Things.{thing_cmp, thing_of, things_of};

use crate::live::{drop_past, is_live};
use crate::marks::{any_ends, is_sweep_due, provide, put};
use crate::{LiveMarks, RevokeFault};
use ks_base::limits::EVENTS;
use ks_base::{Boxed, EventList, EventRow, Holder, Kind, Memory};
use std::alloc::Global;
use std::collections::VecDeque;
use std::marker::Model;

/// The live events, in the order in which they were added, and the greatest moment of each thing that one of them
/// names. The greatest moment of a thing that none of them names any more may stand for a while: it is past, and
/// nothing that is told depends on it. The moments stand behind pointers, so that making way for one among them moves
/// little.
#[derive(Drop)]
pub struct Revoked {
    life: u64,
    high: u64,
    events: VecDeque<EventRow>,
    marks: Vec<Boxed<EventRow>>,
    /// Rows for marks to come, since an event that is added takes no memory.
    spares: Vec<Boxed<EventRow>>,
}

impl Model for Revoked {
    ghost use Rattle.std.specs.Prelude.{◌-◌, min, length, vec_len, vec_capacity};
    ghost use Rattle.std.specs.VecDeque.{deque_len, deque_capacity};
    ghost use Rattle.ks_revoke.specs.Histories.{Kept};
    ghost use Rattle.ks_revoke.specs.Holding.{IsHeld, room_of};

    ghost Value = { Kept };

    ghost view = { λ r. record { life = r.life; high = r.high; events = r.events.items; marks = r.marks.items; room = room_of (deque_len r.events) (deque_capacity r.events) (vec_len r.marks) (vec_capacity r.marks) (length r.spares.items) } };

    ghost invariant = { λ r. IsHeld r.life r.high r.events.items r.marks.items };
}

impl Revoked {
    /// No events, for tokens that live as many seconds. It takes no memory yet.
    pub fn new(alloc: Global, life: u64) -> Revoked
        ensures empty { result ≡ record { life = life; high = 0; events = []; marks = []; room = result.room } }
        ensures stands { Stands result (record { life = life; high = 0; events = [] }) }
    {
        Revoked {
            life,
            high: 0,
            events: VecDeque::new(alloc),
            marks: Vec::new(alloc),
            spares: Vec::new(alloc),
        }
    }

    /// Makes room for as many more events. Refused is what would lead to more than 262,144 live events (`Full`), and
    /// then nothing changes; where the room is there already, memory is no cause.
    pub fn room(&mut self, more: usize) -> Result<(), RevokeFault>
        ensures same { self.new ≡ record self.old { room = self.new.room } }
        ensures kept { self.old.room ≤ self.new.room }
        ensures ok { OnOk result (more ≤ self.new.room) }
        ensures full { (result ≡ Err (RevokeFault.Full Kind.Event)) ↔ (EVENTS < length self.old.events + more) }
        ensures kind { (kind : Kind) → result ≡ Err (RevokeFault.Full kind) → kind ≡ Kind.Event }
        ensures stands_there { more ≤ self.old.room → IsOk result }
        ensures history { (history : History) → Stands self.old history → Stands self.new history }
    {
        if more > EVENTS - self.events.len() {
            return Err(RevokeFault::Full(Kind::Event));
        }
        self.events.reserve(more)?;
        self.marks.reserve(more)?;
        provide(&mut self.spares, more)?;
        Ok(())
    }

    /// Adds an event of the greatest moment so far, for which there is room. It takes no memory.
    pub fn add(&mut self, row: EventRow)
        requires room { 1 ≤ self.old.room }
        requires moment { row.moment ≡ self.old.high }
        ensures added { self.new ≡ record self.old { events = self.old.events ++ row ∷ []; marks = put_row thing_cmp thing_of row self.old.marks; room = self.new.room } }
        ensures left { self.old.room ≤ self.new.room + 1 }
        ensures history { (history : History) → Stands self.old history → Stands self.new (added row history) }
    {
        let _what = &row.what;
        put(&mut self.marks, &mut self.spares, &row);
        self.events.push_back_reserved(row);
    }

    /// Raises the greatest moment to this one, if it is greater, and takes the events out that are past then. It
    /// takes no memory, and over any run of calls no more steps than a few for each call and each event that goes.
    pub fn advance(&mut self, high: u64)
        ensures advanced { let top = max self.old.high high in self.new ≡ record self.old { high = top; events = live self.old.life top self.old.events; marks = self.new.marks; room = self.new.room } }
        ensures few { AreFew self.new }
        ensures marks { (self.new.marks ≡ self.old.marks) ⊎ (self.new.marks ≡ live self.old.life high self.old.marks) }
        ensures kept { self.old.room ≤ self.new.room }
        ensures lower { high ≤ self.old.high → self.new ≡ self.old }
        ensures history { (history : History) → Stands self.old history → Stands self.new (advanced high history) }
    {
        if high <= self.high {
            return;
        }
        self.high = high;
        let life = self.life;
        drop_past(&mut self.events, life, high);
        if is_sweep_due(self.marks.len(), self.events.len()) {
            self.marks.retain(|mark| is_live(life, high, mark.get()));
        }
    }

    /// Whether an event revokes a token of this holder that was issued then. It takes no memory.
    pub fn test(&self, holder: &Holder, issued: u64) -> bool
        ensures kept { result ≡ is_revoked self.now.events holder.now issued }
        ensures marks { result ≡ list_any (ends_if issued (live self.now.life self.now.high self.now.marks)) (things_of holder.now) }
        ensures few { AreFew self.now }
        ensures history { (history : History) → Stands self.now history → history.high < issued + history.life + window → result ≡ is_revoked history.events holder.now issued }
    {
        any_ends(self.life, self.high, self.marks.as_slice(), holder, issued)
    }

    /// How many events are live.
    pub fn count(&self) -> usize
        ensures { result ≡ length self.now.events }
    {
        self.events.len()
    }

    /// The live events, in the order in which they were added.
    pub fn kept(&self) -> Result<EventList, Memory>
        ensures events { IfOk result (λ list. list ≡ self.now.events) }
        ensures within { length self.now.events ≤ EVENTS }
        ensures live { live self.now.life self.now.high self.now.events ≡ self.now.events }
        ensures history { (history : History) → Stands self.now history → IfOk result (λ list. list ≡ live history.life history.high history.events) }
    {
        let mut list = Vec::with_capacity(*self.marks.allocator(), self.events.len())?;
        let (front, back) = self.events.as_slices();
        list.extend_from_slice(front)?;
        list.extend_from_slice(back)?;
        Ok(EventList::from_vec(list))
    }

    /// The greatest moments: a row for each thing that a live event names, ordered by the place of its variant in
    /// `Revoke` and then by its bytes. It takes no memory.
    pub fn marks(&self) -> LiveMarks<'_>
        ensures rows { result ≡ record { life = self.now.life; high = self.now.high; rows = self.now.marks } }
        ensures few { AreFew self.now }
        ensures marks { AreMarks self.now.events (lent result) }
        ensures history { (history : History) → Stands self.now history → AreMarks (live history.life history.high history.events) (lent result) }
    {
        LiveMarks::new(self.life, self.high, self.marks.as_slice())
    }
}
