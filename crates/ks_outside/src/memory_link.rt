ghost use Rattle.std.specs.Prelude.{◌≡◌, ◌+◌, ◌-◌, ◌<◌, ◌≤◌, ◌++◌, ◌↔◌, ◌⊎◌, ℕ, List, Option, Some, length, min, take, drop, Contains, IsErr, IfOk, OnErr};
ghost use Rattle.ks_outside.specs.Counts.{next_count};
ghost use Rattle.ks_outside.specs.Streams.{Appends, OnlyReads, OnlyWrites, Reads, TookNone, taken};
ghost use Rattle.ks_outside.specs.InMemory.{link_stream};

use crate::{Failed, MemorySink, MemorySource, Sink, Source, Stream};
use std::marker::Model;

/// A link in memory: what it gives to read, and what was written to it. Either side leaves the other as it
/// is.
pub struct MemoryLink {
    source: MemorySource,
    sink: MemorySink,
}

impl Drop for MemoryLink {
    fn drop(self) {
        let MemoryLink { source: _, sink: _ } = self;
    }
}

impl Model for MemoryLink {
    ghost use Rattle.ks_outside.specs.InMemory.{MemoryLinkState};

    ghost Value = { MemoryLinkState };

    ghost view = { λ l. record { source = l.source; sink = l.sink } };
}

impl MemoryLink {
    /// The link of this source and this sink.
    pub fn new(source: MemorySource, sink: MemorySink) -> MemoryLink
        ensures { result ≡ record { source = source; sink = sink } }
    {
        MemoryLink { source, sink }
    }

    /// The bytes that were written.
    pub fn written(&self) -> &[u8]
        ensures bytes { result.now ≡ self.now.sink.written }
        ensures room { length self.now.sink.written ≤ self.now.sink.room }
    {
        self.sink.written()
    }
}

impl Stream for MemoryLink {
    ghost stream = { link_stream };
}

impl Source for MemoryLink {
    /// Reads as its source does.
    fn read(&mut self, into: &mut [u8]) -> Result<usize, Failed>
        requires { 0 < length into.old }
        ensures within { IfOk result (λ n. n ≤ length into.old) }
        ensures told { (bytes : List ℕ) → Some self.old.source.left ≡ Some bytes → Reads bytes (Some self.new.source.left) into.new result }
        ensures reads { OnlyReads (IsErr result) (link_stream self.old) (link_stream self.new) }

        ensures fails { IsErr result ↔ Contains self.old.source.failing (self.old.source.calls + 1) }
        ensures came { IfOk result (λ n. n ≡ min (min self.old.source.longest (length into.old)) (length self.old.source.left)) }
        ensures ok { IfOk result (λ n. self.new.source ≡ record self.old.source { left = drop n self.old.source.left; calls = next_count self.old.source.calls }) }
        ensures given { IfOk result (λ n. into.new ≡ take n self.old.source.left ++ drop n into.old) }
        ensures err { OnErr result (self.new.source ≡ record self.old.source { calls = next_count self.old.source.calls; faults = next_count self.old.source.faults }) }
        ensures untouched { OnErr result (into.new ≡ into.old) }
        ensures kept { self.new.sink ≡ self.old.sink }
    {
        self.source.read(into)
    }
}

impl Sink for MemoryLink {
    /// Writes as its sink does.
    fn write(&mut self, piece: &[u8]) -> Result<usize, Failed>
        requires { 0 < length piece.now }
        ensures within { IfOk result (λ n. n ≤ length piece.now) }
        ensures told { Appends (taken piece.now result) (Some self.old.sink.written) (Some self.new.sink.written) }
        ensures writes { OnlyWrites (TookNone result) (link_stream self.old) (link_stream self.new) }

        ensures fails { IsErr result ↔ (Contains self.old.sink.failing (self.old.sink.calls + 1) ⊎ (length self.old.sink.written ≡ self.old.sink.room)) }
        ensures took { IfOk result (λ n. n ≡ min (min self.old.sink.longest (length piece.now)) (self.old.sink.room - length self.old.sink.written)) }
        ensures ok { IfOk result (λ n. self.new.sink ≡ record self.old.sink { written = self.old.sink.written ++ take n piece.now; calls = next_count self.old.sink.calls }) }
        ensures err { OnErr result (self.new.sink ≡ record self.old.sink { calls = next_count self.old.sink.calls; faults = next_count self.old.sink.faults }) }
        ensures kept { self.new.source ≡ self.old.source }
    {
        self.sink.write(piece)
    }
}
