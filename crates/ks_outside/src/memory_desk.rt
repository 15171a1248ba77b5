ghost use Rattle.std.specs.Prelude.{◌≡◌, ◌+◌, ◌-◌, ◌<◌, ◌≤◌, ◌++◌, ◌∷◌, ◌↔◌, ◌⊎◌, [], ℕ, List, Some, length, take, drop, Contains, IsErr, IfOk, IfSome, OnOk, OnErr};
ghost use Rattle.std.specs.Option.{option_map};
ghost use Rattle.ks_outside.specs.Counts.{Counts, next_count};
ghost use Rattle.ks_outside.specs.Streams.{Appends};
ghost use Rattle.ks_outside.specs.Desks.{Accepts, Fills, Makes, next_reading, later_readings};
ghost use Rattle.ks_outside.specs.declared.desk_call.DeskCall.TheVariants as call;
ghost use Rattle.ks_outside.specs.InMemory.{MemoryLinkState, MemoryDeskState, told_desk};

use crate::calls::Calls;
use crate::desk_log::DeskLog;
use crate::readings::Readings;
use crate::{Answered, Desk, DeskCall, Failed, MemoryLink};
use ks_base::{Memory, Receipt};
use std::alloc::Global;
use std::marker::Model;
use std::vec::IntoIter;

/// A desk in memory, which tells all that it holds, and its calls as long as there is memory to note them.
/// Chosen accepts and fills fail.
pub struct MemoryDesk {
    coming: IntoIter<MemoryLink>,
    returned: Vec<MemoryLink>,
    readings: Readings,
    random: Vec<u8>,
    drawn: usize,
    receipts: Vec<Receipt>,
    log: DeskLog,
    accepts: Calls,
    fills: Calls,
}

impl Drop for MemoryDesk {
    fn drop(self) {
        let MemoryDesk {
            coming: _,
            returned: _,
            readings: _,
            random: _,
            drawn: _,
            receipts: _,
            log: _,
            accepts: _,
            fills: _,
        } = self;
    }
}

impl Model for MemoryDesk {
    ghost use Rattle.std.specs.Prelude.{◌+◌, ◌-◌, ◌≤◌, length, drop, vec_len, vec_capacity};
    ghost use Rattle.std.specs.Vec.Iter.{into_iter_items, into_iter_len};
    ghost use Rattle.ks_outside.specs.InMemory.{MemoryDeskState};

    ghost Value = { MemoryDeskState };

    ghost view = { λ d. record {
      coming = into_iter_items d.coming;
      returned = d.returned.items;
      readings = d.readings;
      random = drop d.drawn d.random.items;
      receipts = d.receipts.items;
      calls = d.log;
      link_room = vec_capacity d.returned - (vec_len d.returned + into_iter_len d.coming);
      receipt_room = vec_capacity d.receipts - vec_len d.receipts;
      accepts = d.accepts.made;
      failing_accepts = d.accepts.failing.items;
      accept_faults = d.accepts.faults;
      fills = d.fills.made;
      failing_fills = d.fills.failing.items;
      fill_faults = d.fills.faults;
    } };

    ghost invariant = { λ d. (d.drawn ≤ length d.random.items) × (vec_len d.returned + into_iter_len d.coming ≤ vec_capacity d.returned) };
}

impl MemoryDesk {
    /// A desk of these links, readings and random bytes, all still to come. It takes the room for its links
    /// at once. The accepts and the fills with the numbers `fail_accepts` and `fail_fills`, counted from 1,
    /// will fail.
    pub fn new(
        alloc: Global,
        links: Vec<MemoryLink>,
        readings: &[u64],
        random: &[u8],
        fail_accepts: &[u64],
        fail_fills: &[u64],
    ) -> Result<MemoryDesk, Memory>
        ensures { IfOk result (λ made. made ≡ record {
          coming = links.items;
          returned = [];
          readings = readings.now;
          random = random.now;
          receipts = [];
          calls = Some [];
          link_room = 0;
          receipt_room = 0;
          accepts = 0;
          failing_accepts = fail_accepts.now;
          accept_faults = 0;
          fills = 0;
          failing_fills = fail_fills.now;
          fill_faults = 0;
        }) }
    {
        let returned = Vec::with_capacity(alloc, links.len())?;
        Ok(MemoryDesk {
            coming: links.into_iter(),
            returned,
            readings: Readings::new(alloc, readings)?,
            random: Vec::from_slice(alloc, random)?,
            drawn: 0,
            receipts: Vec::new(alloc),
            log: DeskLog::new(alloc),
            accepts: Calls::new(alloc, fail_accepts)?,
            fills: Calls::new(alloc, fail_fills)?,
        })
    }

    /// The links that were given back, in order.
    pub fn given_back(&self) -> &[MemoryLink]
        ensures { result.now ≡ self.now.returned }
    {
        self.returned.as_slice()
    }

    /// The receipts that were noted, in order.
    pub fn receipts(&self) -> &[Receipt]
        ensures { result.now ≡ self.now.receipts }
    {
        self.receipts.as_slice()
    }

    /// Its calls for a receipt, of the clock and for random bytes, in order. There is none to tell once there was no
    /// memory to note one.
    pub fn calls(&self) -> Option<&[DeskCall]>
        ensures { option_map (λ calls. calls.now) result ≡ self.now.calls }
    {
        self.log.told()
    }
}

impl Desk for MemoryDesk {
    type Link = MemoryLink;

    ghost desk = { told_desk };

    /// Hands out the next link. An accept that is to fail takes none.
    fn accept(&mut self) -> Result<Option<MemoryLink>, Failed>
        ensures told { (coming : List MemoryLinkState) → Some self.old.coming ≡ Some coming → Accepts coming (Some self.new.coming) result }
        ensures room { IfOk result (λ link. IfSome link (λ _. 0 < self.new.link_room)) }
        ensures room_kept { self.old.link_room ≤ self.new.link_room }
        ensures kept { told_desk self.new ≡ record (told_desk self.old) {
          coming = Some self.new.coming;
          link_room = self.new.link_room;
          accept_faults = self.new.accept_faults;
        } }
        ensures faults { Counts (IsErr result) self.old.accept_faults self.new.accept_faults }

        ensures fails { IsErr result ↔ Contains self.old.failing_accepts (self.old.accepts + 1) }
        ensures ok { OnOk result (self.new ≡ record self.old { coming = self.new.coming; link_room = self.new.link_room; accepts = next_count self.old.accepts }) }
        ensures err { OnErr result (self.new ≡ record self.old { accepts = next_count self.old.accepts; accept_faults = next_count self.old.accept_faults }) }
    {
        self.accepts.begin()?;
        Ok(self.coming.next())
    }

    fn give_back(&mut self, link: MemoryLink)
        requires { 0 < self.old.link_room }
        ensures told { Appends (link ∷ []) (Some self.old.returned) (Some self.new.returned) }
        ensures room { self.old.link_room ≤ self.new.link_room + 1 }
        ensures kept { told_desk self.new ≡ record (told_desk self.old) { returned = Some self.new.returned; link_room = self.new.link_room } }

        ensures exact { self.new ≡ record self.old { returned = self.old.returned ++ link ∷ []; link_room = self.new.link_room } }
    {
        let Ok(()) = self.returned.push(link) else {
            unreachable!();
        };
    }

    /// The next reading. The last one comes again where they are used up, and 0 where there was none.
    fn reading(&mut self) -> u64
        ensures told { (readings : List ℕ) → Some self.old.readings ≡ Some readings →
            (result ≡ next_reading readings) × (Some self.new.readings ≡ Some (later_readings readings)) }
        ensures kept { told_desk self.new ≡ record (told_desk self.old) { readings = Some self.new.readings; calls = self.new.calls } }
        ensures calls { Makes (call.Reading ∷ []) self.old.calls self.new.calls }

        ensures exact { self.new ≡ record self.old { readings = later_readings self.old.readings; calls = self.new.calls } }
    {
        self.log.add(DeskCall::Reading);
        self.readings.next()
    }

    /// Fills the piece with the next random bytes. A fill that is to fail, or that finds too few, takes none
    /// and leaves the piece as it is.
    fn fill(&mut self, into: &mut [u8]) -> Result<(), Failed>
        ensures told { (bytes : List ℕ) → Some self.old.random ≡ Some bytes → Fills bytes (Some self.new.random) into.new result }
        ensures kept { told_desk self.new ≡ record (told_desk self.old) { random = Some self.new.random; fill_faults = self.new.fill_faults; calls = self.new.calls } }
        ensures calls { Makes (call.Fill (length into.old) ∷ []) self.old.calls self.new.calls }
        ensures faults { Counts (IsErr result) self.old.fill_faults self.new.fill_faults }

        ensures fails { IsErr result ↔ (Contains self.old.failing_fills (self.old.fills + 1) ⊎ (length self.old.random < length into.old)) }
        ensures ok { OnOk result (self.new ≡ record self.old { random = drop (length into.old) self.old.random; calls = self.new.calls; fills = next_count self.old.fills }) }
        ensures err { OnErr result (self.new ≡ record self.old { calls = self.new.calls; fills = next_count self.old.fills; fill_faults = next_count self.old.fill_faults }) }
        ensures untouched { OnErr result (into.new ≡ into.old) }
    {
        self.log.add(DeskCall::Fill(into.len()));
        self.fills.begin()?;
        let left = self.random.as_slice().split_at(self.drawn).1;
        if left.len() < into.len() {
            return Err(self.fills.fault());
        }
        into.copy_from_slice(left.split_at(into.len()).0);
        self.drawn += into.len();
        Ok(())
    }

    fn ready(&mut self) -> Result<(), Memory>
        ensures ok { OnOk result (0 < self.new.receipt_room) }
        ensures room { self.old.receipt_room ≤ self.new.receipt_room }
        ensures kept { told_desk self.new ≡ record (told_desk self.old) { receipt_room = self.new.receipt_room; calls = self.new.calls } }
        ensures calls { Makes (call.Ready ∷ []) self.old.calls self.new.calls }

        ensures exact { self.new ≡ record self.old { receipt_room = self.new.receipt_room; calls = self.new.calls } }
    {
        self.log.add(DeskCall::Ready);
        self.receipts.reserve(1)?;
        Ok(())
    }

    fn note(&mut self, receipt: Receipt)
        requires { 0 < self.old.receipt_room }
        ensures told { Appends (receipt ∷ []) (Some self.old.receipts) (Some self.new.receipts) }
        ensures room { self.old.receipt_room ≤ self.new.receipt_room + 1 }
        ensures kept { told_desk self.new ≡ record (told_desk self.old) { receipts = Some self.new.receipts; receipt_room = self.new.receipt_room; calls = self.new.calls } }
        ensures calls { Makes (call.Note ∷ []) self.old.calls self.new.calls }

        ensures exact { self.new ≡ record self.old { receipts = self.old.receipts ++ receipt ∷ []; receipt_room = self.new.receipt_room; calls = self.new.calls } }
    {
        self.log.add(DeskCall::Note);
        let Ok(()) = self.receipts.push(receipt) else {
            unreachable!();
        };
    }

    /// It is told of none.
    fn logs(&self) -> bool {
        false
    }

    fn tell(&mut self, _answered: &Answered)
        ensures exact { self.new ≡ self.old }
    {}
}
