ghost use Rattle.std.specs.Prelude.{◌≡◌, ◌+◌, ◌<◌, ◌≤◌, ◌∷◌, [], ℕ, List, Some, length, IsErr, IfOk, IfSome, OnOk};
ghost use Rattle.ks_outside.specs.Counts.{Counts};
ghost use Rattle.ks_outside.specs.Streams.{Appends};
ghost use Rattle.ks_outside.specs.Desks.{DeskState, Accepts, Fills, Makes, next_reading, later_readings};
ghost use Rattle.ks_outside.specs.declared.desk_call.DeskCall.TheVariants as call;

use crate::{Answered, Failed, Sink, Source};
use ks_base::{Memory, Receipt};

/// The outside of one worker: the links that it serves, the clock, random bytes, and where it notes its
/// receipts. Each call leaves as it is what it is not for.
pub trait Desk {
    type Link: Source + Sink;

    ghost desk: { Self → DeskState Self.Link };

    /// The next link, or `None` when no more come.
    fn accept(&mut self) -> Result<Option<Self::Link>, Failed>
        ensures told { (coming : List Self.Link) → (desk self.old).coming ≡ Some coming → Accepts coming (desk self.new).coming result }
        ensures room { IfOk result (λ link. IfSome link (λ _. 0 < (desk self.new).link_room)) }
        ensures room_kept { (desk self.old).link_room ≤ (desk self.new).link_room }
        ensures kept { desk self.new ≡ record (desk self.old) {
          coming = (desk self.new).coming;
          link_room = (desk self.new).link_room;
          accept_faults = (desk self.new).accept_faults;
        } }
        ensures faults { Counts (IsErr result) (desk self.old).accept_faults (desk self.new).accept_faults };

    /// Takes back a link that is done with. Each accept that hands out a link leaves room for one, so
    /// that this takes no memory.
    fn give_back(&mut self, link: Self::Link)
        requires { 0 < (desk self.old).link_room }
        ensures told { Appends (link ∷ []) (desk self.old).returned (desk self.new).returned }
        ensures room { (desk self.old).link_room ≤ (desk self.new).link_room + 1 }
        ensures kept { desk self.new ≡ record (desk self.old) { returned = (desk self.new).returned; link_room = (desk self.new).link_room } };

    /// The clock: whole seconds since 1970-01-01T00:00:00Z.
    fn reading(&mut self) -> u64
        ensures told { (readings : List ℕ) → (desk self.old).readings ≡ Some readings →
            (result ≡ next_reading readings) × ((desk self.new).readings ≡ Some (later_readings readings)) }
        ensures kept { desk self.new ≡ record (desk self.old) { readings = (desk self.new).readings; calls = (desk self.new).calls } }
        ensures calls { Makes (call.Reading ∷ []) (desk self.old).calls (desk self.new).calls };

    /// Fills a whole piece with random bytes. After an error the piece may hold anything.
    fn fill(&mut self, into: &mut [u8]) -> Result<(), Failed>
        ensures told { (bytes : List ℕ) → (desk self.old).random ≡ Some bytes → Fills bytes (desk self.new).random into.new result }
        ensures kept { desk self.new ≡ record (desk self.old) { random = (desk self.new).random; fill_faults = (desk self.new).fill_faults; calls = (desk self.new).calls } }
        ensures calls { Makes (call.Fill (length into.old) ∷ []) (desk self.old).calls (desk self.new).calls }
        ensures faults { Counts (IsErr result) (desk self.old).fill_faults (desk self.new).fill_faults };

    /// Makes room for one receipt.
    fn ready(&mut self) -> Result<(), Memory>
        ensures ok { OnOk result (0 < (desk self.new).receipt_room) }
        ensures room { (desk self.old).receipt_room ≤ (desk self.new).receipt_room }
        ensures kept { desk self.new ≡ record (desk self.old) { receipt_room = (desk self.new).receipt_room; calls = (desk self.new).calls } }
        ensures calls { Makes (call.Ready ∷ []) (desk self.old).calls (desk self.new).calls };

    /// Notes a receipt, for which there is room, so that this takes no memory.
    fn note(&mut self, receipt: Receipt)
        requires { 0 < (desk self.old).receipt_room }
        ensures told { Appends (receipt ∷ []) (desk self.old).receipts (desk self.new).receipts }
        ensures room { (desk self.old).receipt_room ≤ (desk self.new).receipt_room + 1 }
        ensures kept { desk self.new ≡ record (desk self.old) { receipts = (desk self.new).receipts; receipt_room = (desk self.new).receipt_room; calls = (desk self.new).calls } }
        ensures calls { Makes (call.Note ∷ []) (desk self.old).calls (desk self.new).calls };

    /// Whether it is to be told of requests that were answered.
    fn logs(&self) -> bool;

    /// Is told of a request that was answered. That takes no part in any reply, and leaves all that the desk is for.
    fn tell(&mut self, answered: &Answered)
        ensures { desk self.new ≡ desk self.old };
}
