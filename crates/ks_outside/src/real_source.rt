ghost use Rattle.std.specs.Prelude.{◌≡◌, ◌<◌, ◌≤◌, ℕ, List, Option, Some, length, is_ok, IsErr, IfOk, if◌then◌else◌};
ghost use Rattle.std.specs.Io.KnownBytes.{ReadConsumes};
ghost use Rattle.ks_outside.specs.Counts.{next_count};
ghost use Rattle.ks_outside.specs.Streams.{OnlyReads};
ghost use Rattle.ks_outside.specs.Real.{reader_stream};

use crate::{Failed, Source, Stream};
use std::io::{ErrorKind, Read};
use std::marker::Model;

/// A source over a reader of std. It does not tell what it holds, and counts its faults. The count
/// stands still at 2^64 - 1.
#[derive(Drop)]
pub struct RealSource<R> {
    reader: R,
    faults: u64,
}

impl<R> Model for RealSource<R> {
    ghost use Rattle.ks_outside.specs.Real.{RealEndState};

    ghost Value = { RealEndState R };

    ghost view = { λ s. record { under = s.reader; faults = s.faults } };
}

impl<R> RealSource<R> {
    /// A source over this reader, which has not failed yet.
    pub fn new(reader: R) -> RealSource<R>
        ensures { result ≡ record { under = reader; faults = 0 } }
    {
        RealSource { reader, faults: 0 }
    }
}

impl<R> Stream for RealSource<R> {
    ghost stream = { reader_stream };
}

impl<R: Read> Source for RealSource<R> {
    /// Reads from the reader. A read that a signal interrupted is tried again; every other error is a
    /// fault.
    fn read(&mut self, into: &mut [u8]) -> Result<usize, Failed>
        requires { 0 < length into.old }
        ensures within { IfOk result (λ n. n ≤ length into.old) }
        ensures reads { OnlyReads (IsErr result) (reader_stream self.old) (reader_stream self.new) }

        // The count rises at a fault alone. What the reader itself tells is what was read from it.
        ensures exact { self.new.faults ≡ (if is_ok result then self.old.faults else next_count self.old.faults) }
        ensures passed { ReadConsumes (R.remaining self.old.under) (R.remaining self.new.under) result into.new }
    {
        let answer = read_uninterrupted(&mut self.reader, into);
        if answer.is_err() {
            self.faults = self.faults.saturating_add(1);
        }
        answer
    }
}

pub fn read_uninterrupted<R: Read>(reader: &mut R, into: &mut [u8]) -> Result<usize, Failed>
    ensures within { IfOk result (λ n. n ≤ length into.old) }
    ensures passed { ReadConsumes (R.remaining reader.old) (R.remaining reader.new) result into.new }
{
    'tries: for _ in 0..u64::MAX {
        match reader.read(into) {
            Ok(count) => return Ok(count),
            Err(error) if error.kind() == ErrorKind::Interrupted => {}
            Err(_) => return Err(Failed),
        }
    }
    Err(Failed)
}
