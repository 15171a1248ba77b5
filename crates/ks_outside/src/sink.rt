ghost use Rattle.std.specs.Prelude.{◌<◌, ◌≤◌, length, IsErr, IfOk};
ghost use Rattle.ks_outside.specs.Streams.{Appends, OnlyWrites, TookNone, Wrote, taken};

use crate::{Failed, Stream};

/// Where bytes go.
pub trait Sink: Stream {
    /// Writes the front of a piece, and says how many bytes it took. A sink that takes none counts a
    /// fault.
    fn write(&mut self, piece: &[u8]) -> Result<usize, Failed>
        requires { 0 < length piece.now }
        ensures within { IfOk result (λ n. n ≤ length piece.now) }
        ensures told { Appends (taken piece.now result) (Self.stream self.old).written (Self.stream self.new).written }
        ensures writes { OnlyWrites (TookNone result) (Self.stream self.old) (Self.stream self.new) };
}

/// Writes a whole piece, in as few writes as the sink allows. After a fault its front was written.
pub fn write_all<K: Sink>(sink: &mut K, piece: &[u8]) -> Result<(), Failed>
    ensures told { Wrote piece.now (K.stream sink.old).written (K.stream sink.new).written result }
    ensures writes { OnlyWrites (IsErr result) (K.stream sink.old) (K.stream sink.new) }
{
    let mut left = piece;
    'writes: while !left.is_empty() {
        let count = sink.write(left)?;
        if count == 0 {
            return Err(Failed);
        }
        left = left.split_at(count).1;
    }
    Ok(())
}
