ghost use Rattle.std.specs.Prelude.{◌≡◌, ◌+◌, ◌↔◌, ℕ, Contains, IsErr, IsTrue, IfOk, OnOk, OnErr};
ghost use Rattle.ks_outside.specs.Counts.{next_count};

use crate::Failed;
use ks_base::Memory;
use std::alloc::Global;

/// The calls of an object in memory: how many there were, the numbers of those that are to fail, counted
/// from 1, and how many faults there were. A count that has come to its end stands still.
#[derive(Drop)]
pub struct Calls {
    pub failing: Vec<u64>,
    pub made: u64,
    pub faults: u64,
}

impl Calls {
    /// No call was made yet.
    pub fn new(alloc: Global, failing: &[u64]) -> Result<Calls, Memory>
        ensures failing { IfOk result (λ calls. calls.failing.items ≡ failing.now) }
        ensures made { IfOk result (λ calls. calls.made ≡ 0) }
        ensures faults { IfOk result (λ calls. calls.faults ≡ 0) }
    {
        Ok(Calls {
            failing: Vec::from_slice(alloc, failing)?,
            made: 0,
            faults: 0,
        })
    }

    /// Counts one more call, and a fault where it is one that is to fail.
    pub fn begin(&mut self) -> Result<(), Failed>
        ensures fails { IsErr result ↔ Contains self.old.failing.items (self.old.made + 1) }
        ensures ok { OnOk result (self.new ≡ record self.old { made = next_count self.old.made }) }
        ensures err { OnErr result (self.new ≡ record self.old { made = next_count self.old.made; faults = next_count self.old.faults }) }
    {
        let fails = is_next(self.failing.as_slice(), self.made);
        self.made = self.made.saturating_add(1);
        if fails {
            return Err(self.fault());
        }
        Ok(())
    }

    /// Counts a fault.
    pub fn fault(&mut self) -> Failed
        ensures { self.new ≡ record self.old { faults = next_count self.old.faults } }
    {
        self.faults = self.faults.saturating_add(1);
        Failed
    }
}

/// Whether the call after this many is one of those that are named.
fn is_next(named: &[u64], made: u64) -> bool
    ensures { IsTrue result ↔ Contains named.now (made + 1) }
{
    named.iter().any(|&call| call > made && call - made == 1)
}
