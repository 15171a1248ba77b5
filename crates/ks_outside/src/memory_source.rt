ghost use Rattle.std.specs.Prelude.{◌≡◌, ◌+◌, ◌<◌, ◌≤◌, ◌++◌, ◌↔◌, ℕ, List, Option, Some, length, min, take, drop, Contains, IsErr, IfOk, OnErr};
ghost use Rattle.ks_outside.specs.Counts.{next_count};
ghost use Rattle.ks_outside.specs.Streams.{OnlyReads, Reads};
ghost use Rattle.ks_outside.specs.InMemory.{source_stream};

use crate::calls::Calls;
use crate::{Failed, Source, Stream};
use ks_base::Memory;
use std::alloc::Global;
use std::marker::Model;

/// A source in memory, which tells what it holds. Its reads can be made short, and chosen ones fail.
pub struct MemorySource {
    bytes: Vec<u8>,
    at: usize,
    longest: usize,
    calls: Calls,
}

impl Drop for MemorySource {
    fn drop(self) {
        let MemorySource {
            bytes: _,
            at: _,
            longest: _,
            calls: _,
        } = self;
    }
}

impl Model for MemorySource {
    ghost use Rattle.std.specs.Prelude.{◌<◌, ◌≤◌, length, drop};
    ghost use Rattle.ks_outside.specs.InMemory.{MemorySourceState};

    ghost Value = { MemorySourceState };

    ghost view = { λ s. record { left = drop s.at s.bytes.items; calls = s.calls.made; failing = s.calls.failing.items; longest = s.longest; faults = s.calls.faults } };

    ghost invariant = { λ s. (s.at ≤ length s.bytes.items) × (0 < s.longest) };
}

impl MemorySource {
    /// A source of these bytes. The reads with the numbers `fail_reads`, counted from 1, will fail, and
    /// one read gives at most `longest` bytes.
    pub fn new(
        alloc: Global,
        bytes: &[u8],
        fail_reads: &[u64],
        longest: usize,
    ) -> Result<MemorySource, Memory>
        requires { 0 < longest }
        ensures { IfOk result (λ made. made ≡ record { left = bytes.now; calls = 0; failing = fail_reads.now; longest = longest; faults = 0 }) }
    {
        Ok(MemorySource {
            bytes: Vec::from_slice(alloc, bytes)?,
            at: 0,
            longest,
            calls: Calls::new(alloc, fail_reads)?,
        })
    }
}

impl Stream for MemorySource {
    ghost stream = { source_stream };
}

impl Source for MemorySource {
    /// Gives as many bytes as `longest`, the piece and what is left allow. A read that is to fail takes
    /// nothing. The counts of reads and of faults stand still at 2^64 - 1.
    fn read(&mut self, into: &mut [u8]) -> Result<usize, Failed>
        requires { 0 < length into.old }
        ensures within { IfOk result (λ n. n ≤ length into.old) }
        ensures told { (bytes : List ℕ) → Some self.old.left ≡ Some bytes → Reads bytes (Some self.new.left) into.new result }
        ensures reads { OnlyReads (IsErr result) (source_stream self.old) (source_stream self.new) }

        ensures fails { IsErr result ↔ Contains self.old.failing (self.old.calls + 1) }
        ensures came { IfOk result (λ n. n ≡ min (min self.old.longest (length into.old)) (length self.old.left)) }
        ensures ok { IfOk result (λ n. self.new ≡ record self.old { left = drop n self.old.left; calls = next_count self.old.calls }) }
        ensures given { IfOk result (λ n. into.new ≡ take n self.old.left ++ drop n into.old) }
        ensures err { OnErr result (self.new ≡ record self.old { calls = next_count self.old.calls; faults = next_count self.old.faults }) }
        ensures untouched { OnErr result (into.new ≡ into.old) }
    {
        self.calls.begin()?;
        let left = self.bytes.as_slice().split_at(self.at).1;
        let count = self.longest.min(into.len()).min(left.len());
        into[..count].copy_from_slice(left.split_at(count).0);
        self.at += count;
        Ok(count)
    }
}
