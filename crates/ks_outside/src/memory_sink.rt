ghost use Rattle.std.specs.Prelude.{◌≡◌, ◌+◌, ◌-◌, ◌<◌, ◌≤◌, ◌++◌, ◌↔◌, ◌⊎◌, ℕ, List, Option, Some, [], length, min, take, Contains, IsErr, IfOk, OnErr};
ghost use Rattle.ks_outside.specs.Counts.{next_count};
ghost use Rattle.ks_outside.specs.Streams.{Appends, OnlyWrites, TookNone, taken};
ghost use Rattle.ks_outside.specs.InMemory.{sink_stream};

use crate::calls::Calls;
use crate::{Failed, Sink, Stream};
use ks_base::Memory;
use std::alloc::Global;
use std::marker::Model;

/// A sink in memory, which tells what was written. It takes its room when it is made, so that a write
/// needs no memory. Its writes can be made short, and chosen ones fail.
pub struct MemorySink {
    bytes: Vec<u8>,
    room: usize,
    longest: usize,
    calls: Calls,
}

impl Drop for MemorySink {
    fn drop(self) {
        let MemorySink {
            bytes: _,
            room: _,
            longest: _,
            calls: _,
        } = self;
    }
}

impl Model for MemorySink {
    ghost use Rattle.std.specs.Prelude.{◌<◌, ◌≤◌, vec_len, vec_capacity};
    ghost use Rattle.ks_outside.specs.InMemory.{MemorySinkState};

    ghost Value = { MemorySinkState };

    ghost view = { λ s. record { written = s.bytes.items; room = s.room; calls = s.calls.made; failing = s.calls.failing.items; longest = s.longest; faults = s.calls.faults } };

    ghost invariant = { λ s. (vec_len s.bytes ≤ s.room) × (s.room ≤ vec_capacity s.bytes) × (0 < s.longest) };
}

impl MemorySink {
    /// A sink with room for this many bytes. The writes with the numbers `fail_writes`, counted from 1,
    /// will fail, and one write takes at most `longest` bytes.
    pub fn new(
        alloc: Global,
        room: usize,
        fail_writes: &[u64],
        longest: usize,
    ) -> Result<MemorySink, Memory>
        requires { 0 < longest }
        ensures { IfOk result (λ made. made ≡ record { written = []; room = room; calls = 0; failing = fail_writes.now; longest = longest; faults = 0 }) }
    {
        Ok(MemorySink {
            bytes: Vec::with_capacity(alloc, room)?,
            room,
            longest,
            calls: Calls::new(alloc, fail_writes)?,
        })
    }

    /// The bytes that were written.
    pub fn written(&self) -> &[u8]
        ensures bytes { result.now ≡ self.now.written }
        ensures room { length self.now.written ≤ self.now.room }
    {
        self.bytes.as_slice()
    }
}

impl Stream for MemorySink {
    ghost stream = { sink_stream };
}

impl Sink for MemorySink {
    /// Takes as many bytes as `longest`, the piece and the free room allow. A write that is to fail, or
    /// that finds no room, takes nothing. The counts of writes and of faults stand still at 2^64 - 1.
    fn write(&mut self, piece: &[u8]) -> Result<usize, Failed>
        requires { 0 < length piece.now }
        ensures within { IfOk result (λ n. n ≤ length piece.now) }
        ensures told { Appends (taken piece.now result) (Some self.old.written) (Some self.new.written) }
        ensures writes { OnlyWrites (TookNone result) (sink_stream self.old) (sink_stream self.new) }

        ensures fails { IsErr result ↔ (Contains self.old.failing (self.old.calls + 1) ⊎ (length self.old.written ≡ self.old.room)) }
        ensures took { IfOk result (λ n. n ≡ min (min self.old.longest (length piece.now)) (self.old.room - length self.old.written)) }
        ensures ok { IfOk result (λ n. self.new ≡ record self.old { written = self.old.written ++ take n piece.now; calls = next_count self.old.calls }) }
        ensures err { OnErr result (self.new ≡ record self.old { calls = next_count self.old.calls; faults = next_count self.old.faults }) }
    {
        self.calls.begin()?;
        let free = self.room - self.bytes.len();
        if free == 0 {
            return Err(self.calls.fault());
        }
        let count = self.longest.min(piece.len()).min(free);
        let Ok(()) = self.bytes.extend_from_slice(piece.split_at(count).0) else {
            unreachable!();
        };
        Ok(count)
    }
}
