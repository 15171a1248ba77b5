ghost use Rattle.std.specs.Prelude.{◌≡◌, ◌<◌, ◌≤◌, length, is_ok, IsErr, IfOk, if◌then◌else◌};
ghost use Rattle.ks_outside.specs.Counts.{next_count};
ghost use Rattle.ks_outside.specs.Real.{untold_stream};
ghost use Rattle.ks_outside.specs.Streams.{OnlyReads};

use ks_outside::{Failed, RealSource, Source, Stream};
use std::io::Read;
use std::marker::Model;

/// What is left to read of it.
#[derive(Drop)]
enum Left<R> {
    Some(RealSource<R>),
    /// It was read to its end, and closed.
    None,
    /// It could not be opened.
    Unopened,
}

/// The opening file. It does not tell what it holds, and counts its faults. It is closed once its end was read, and one
/// that could not be opened fails at each read. The count stands still at 2^64 - 1.
#[derive(Drop)]
pub struct OpeningFile<R> {
    left: Left<R>,
    faults: u64,
}

impl<R> Model for OpeningFile<R> {
    ghost use Rattle.ks_outside.specs.Real.{RealLinkState};

    ghost Value = { RealLinkState };

    ghost view = { λ f. record { reads = f.faults; writes = 0 } };
}

impl<R> OpeningFile<R> {
    /// The file that was opened, if it was. It has not failed yet.
    pub fn new(opened: Option<R>) -> OpeningFile<R>
        ensures { result ≡ record { reads = 0; writes = 0 } }
    {
        OpeningFile {
            left: match opened {
                Some(file) => Left::Some(RealSource::new(file)),
                None => Left::Unopened,
            },
            faults: 0,
        }
    }

    /// Whether a read of it failed.
    pub fn has_failed(&self) -> bool {
        self.faults > 0
    }
}

impl<R> Stream for OpeningFile<R> {
    ghost stream = { untold_stream };
}

impl<R: Read + Drop> Source for OpeningFile<R> {
    /// Reads from the file.
    fn read(&mut self, into: &mut [u8]) -> Result<usize, Failed>
        requires { 0 < length into.old }
        ensures within { IfOk result (λ n. n ≤ length into.old) }
        ensures reads { OnlyReads (IsErr result) (untold_stream self.old) (untold_stream self.new) }
        ensures exact { self.new.reads ≡ (if is_ok result then self.old.reads else next_count self.old.reads) }
    {
        let answer = match &mut self.left {
            Left::Some(source) => source.read(into),
            Left::None => Ok(0),
            Left::Unopened => Err(Failed),
        };
        match answer {
            Ok(0) => self.left = Left::None,
            Ok(_) => {}
            Err(Failed) => self.faults = self.faults.saturating_add(1),
        }
        answer
    }
}
