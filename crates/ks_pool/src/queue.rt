use crate::limits::PIECE;
use crate::socket::read_now;
use ks_base::Memory;
use ks_outside::Failed;
use mio::net::TcpStream;
use std::alloc::Global;

/// Bytes that wait: they come in behind and go in front. Where none wait no memory is held.
#[derive(Drop)]
pub struct Queue {
    alloc: Global,
    bytes: Vec<u8>,
    /// How many of them are gone. Those behind move to the front of the memory only as more come.
    gone: usize,
}

impl Queue {
    /// No bytes yet.
    pub fn new(alloc: Global) -> Queue {
        Queue {
            alloc,
            bytes: Vec::new(alloc),
            gone: 0,
        }
    }

    /// The bytes that wait.
    pub fn as_slice(&self) -> &[u8] {
        let bytes = self.bytes.as_slice();
        bytes.split_at(self.gone.min(bytes.len())).1
    }

    /// How many these are.
    pub fn len(&self) -> usize {
        self.as_slice().len()
    }

    /// Whether there are none.
    pub fn is_empty(&self) -> bool {
        self.as_slice().is_empty()
    }

    /// Moves the bytes that wait over those that are gone.
    fn compact(&mut self) {
        let gone = self.gone.min(self.bytes.len());
        if gone == 0 {
            return;
        }
        let count = self.bytes.len() - gone;
        self.bytes.copy_within(gone.., 0);
        self.bytes.truncate(count);
        self.gone = 0;
    }

    /// Has these bytes wait behind the others.
    pub fn push(&mut self, more: &[u8]) -> Result<(), Memory> {
        self.compact();
        self.bytes.extend_from_slice(more)?;
        Ok(())
    }

    /// Has bytes that are there on a stream wait behind the others, a piece at most, and says how many came. They are
    /// read into the queue itself, so that no copy of a password is left elsewhere.
    pub fn read_from(&mut self, stream: &mut TcpStream) -> Result<Option<usize>, Failed> {
        self.compact();
        let waiting = self.bytes.len();
        if self.bytes.resize(waiting.saturating_add(PIECE), 0).is_err() {
            return Err(Failed);
        }
        let came = read_now(stream, self.bytes.as_mut_slice().split_at_mut(waiting).1);
        let count = match came {
            Ok(Some(count)) => count,
            Ok(None) | Err(Failed) => 0,
        };
        self.bytes.truncate(waiting.saturating_add(count));
        self.let_go();
        came
    }

    /// Holds no memory where no bytes wait.
    fn let_go(&mut self) {
        if self.is_empty() {
            self.bytes = Vec::new(self.alloc);
            self.gone = 0;
        }
    }

    /// Lets so many bytes go in front.
    pub fn advance(&mut self, count: usize) {
        self.gone = self.gone.saturating_add(count);
        self.let_go();
    }
}
