ghost use Rattle.std.specs.Prelude.{◌≡◌, ◌<◌, ◌≤◌, ℕ, List, Some, length, IsErr, IfOk};
ghost use Rattle.ks_outside.specs.Streams.{OnlyReads, Reads};

use crate::{Failed, Stream};

/// Where bytes come from.
pub trait Source: Stream {
    /// Reads into the front of a piece, and says how many bytes came. Only at the end of the input there
    /// are none.
    fn read(&mut self, into: &mut [u8]) -> Result<usize, Failed>
        requires { 0 < length into.old }
        ensures within { IfOk result (λ n. n ≤ length into.old) }
        ensures told { (bytes : List ℕ) → (Self.stream self.old).left ≡ Some bytes → Reads bytes (Self.stream self.new).left into.new result }
        ensures reads { OnlyReads (IsErr result) (Self.stream self.old) (Self.stream self.new) };

    /// Whether nothing more of it is at hand, and it may be put aside until more comes. It is asked between two
    /// requests. A source that is not put aside answers no.
    fn rests(&mut self) -> bool
        ensures same { Self.stream self.new ≡ Self.stream self.old }
    {
        false
    }
}
