ghost use Rattle.std.specs.Prelude.{◌≡◌, ◌<◌, ◌≤◌, ◌++◌, ◌==◌, ℕ, List, Option, Some, length, IsErr, IfOk, OnErr, if◌then◌else◌};
ghost use Rattle.std.specs.Io.KnownBytes.{WriteAppends};
ghost use Rattle.ks_outside.specs.Counts.{next_count};
ghost use Rattle.ks_outside.specs.Streams.{OnlyWrites, TookNone};
ghost use Rattle.ks_outside.specs.Real.{writer_stream};

use crate::{Failed, Sink, Stream};
use std::io::{ErrorKind, Write};
use std::marker::Model;

/// A sink over a writer of std. It does not tell what was written, and counts its faults. The count
/// stands still at 2^64 - 1. It never flushes, so the writer should hold no bytes back: a file, a socket
/// and the standard output hold none.
#[derive(Drop)]
pub struct RealSink<W> {
    writer: W,
    faults: u64,
}

impl<W> Model for RealSink<W> {
    ghost use Rattle.ks_outside.specs.Real.{RealEndState};

    ghost Value = { RealEndState W };

    ghost view = { λ s. record { under = s.writer; faults = s.faults } };
}

impl<W> RealSink<W> {
    /// A sink over this writer, which has not failed yet.
    pub fn new(writer: W) -> RealSink<W>
        ensures { result ≡ record { under = writer; faults = 0 } }
    {
        RealSink { writer, faults: 0 }
    }
}

impl<W> Stream for RealSink<W> {
    ghost stream = { writer_stream };
}

impl<W: Write> Sink for RealSink<W> {
    /// Writes to the writer. A write that a signal interrupted is tried again; every other error is a
    /// fault, and so is a write that took nothing.
    fn write(&mut self, piece: &[u8]) -> Result<usize, Failed>
        requires { 0 < length piece.now }
        ensures within { IfOk result (λ n. n ≤ length piece.now) }
        ensures writes { OnlyWrites (TookNone result) (writer_stream self.old) (writer_stream self.new) }

        // The count rises at a fault alone. What the writer itself tells is what was written to it.
        ensures ok { IfOk result (λ n. self.new.faults ≡ (if n == 0 then next_count self.old.faults else self.old.faults)) }
        ensures err { OnErr result (self.new.faults ≡ next_count self.old.faults) }
        ensures passed { WriteAppends (W.contents self.old.under) (W.contents self.new.under) result piece.now }
    {
        match write_uninterrupted(&mut self.writer, piece) {
            Ok(count) if count > 0 => Ok(count),
            answer => {
                self.faults = self.faults.saturating_add(1);
                answer
            }
        }
    }
}

fn write_uninterrupted<W: Write>(writer: &mut W, piece: &[u8]) -> Result<usize, Failed>
    ensures within { IfOk result (λ n. n ≤ length piece.now) }
    ensures passed { WriteAppends (W.contents writer.old) (W.contents writer.new) result piece.now }
{
    'tries: for _ in 0..u64::MAX {
        match writer.write(piece) {
            Ok(count) => return Ok(count),
            Err(error) if error.kind() == ErrorKind::Interrupted => {}
            Err(_) => return Err(Failed),
        }
    }
    Err(Failed)
}
