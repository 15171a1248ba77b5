ghost use Rattle.std.specs.Prelude.{◌≡◌, ◌<◌, ◌≤◌, ℕ, List, Some, length, IsErr, IfOk};
ghost use Rattle.ks_outside.specs.Streams.{Appends, OnlyReads, OnlyWrites, Reads, TookNone, taken};
ghost use Rattle.ks_outside.specs.Pairs.{pair_stream};

use crate::{Failed, Sink, Source, Stream};

/// A borrowed source and a borrowed sink as one link. Who lends it the two knows of both afterwards.
#[derive(Drop)]
pub struct Pair<'a, S, K> {
    pub source: &'a mut S,
    pub sink: &'a mut K,
}

impl<S: Stream, K: Stream> Stream for Pair<'_, S, K> {
    ghost stream = { pair_stream S.stream K.stream };
}

impl<S: Source, K: Stream> Source for Pair<'_, S, K> {
    /// Reads from the source, and leaves the sink as it is.
    fn read(&mut self, into: &mut [u8]) -> Result<usize, Failed>
        requires { 0 < length into.old }
        ensures within { IfOk result (λ n. n ≤ length into.old) }
        ensures told { (bytes : List ℕ) → (S.stream self.old.source.now).left ≡ Some bytes → Reads bytes (S.stream self.new.source.now).left into.new result }
        ensures reads { OnlyReads (IsErr result) (pair_stream S.stream K.stream self.old) (pair_stream S.stream K.stream self.new) }

        ensures kept { self.new.sink.now ≡ self.old.sink.now }
    {
        self.source.read(into)
    }
}

impl<S: Stream, K: Sink> Sink for Pair<'_, S, K> {
    /// Writes to the sink, and leaves the source as it is.
    fn write(&mut self, piece: &[u8]) -> Result<usize, Failed>
        requires { 0 < length piece.now }
        ensures within { IfOk result (λ n. n ≤ length piece.now) }
        ensures told { Appends (taken piece.now result) (K.stream self.old.sink.now).written (K.stream self.new.sink.now).written }
        ensures writes { OnlyWrites (TookNone result) (pair_stream S.stream K.stream self.old) (pair_stream S.stream K.stream self.new) }

        ensures kept { self.new.source.now ≡ self.old.source.now }
    {
        self.sink.write(piece)
    }
}
