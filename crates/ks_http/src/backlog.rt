ghost use Rattle.std.specs.Prelude.{◌≡◌};

use ks_base::Memory;
use std::alloc::Global;
use std::marker::Model;

/// Bytes that come in behind and are dropped in front. Dropping moves no byte: those that are kept move
/// to the front of the memory only as more come.
#[derive(Drop)]
pub struct Backlog {
    bytes: Vec<u8>,
    start: usize,
}

impl Model for Backlog {
    ghost use Rattle.std.specs.Prelude.{◌≤◌, ℕ, List, length, drop};

    ghost Value = { List ℕ };

    ghost view = { λ backlog. drop backlog.start backlog.bytes.items };

    ghost invariant = { λ backlog. backlog.start ≤ length backlog.bytes.items };
}

impl Backlog {
    ghost use Rattle.std.specs.Prelude.{◌≡◌, ◌≤◌, ◌++◌, ◌↔◌, [], length, drop, IsTrue, IfOk, OnOk, OnErr};

    /// No bytes yet, and room for so many.
    pub fn with_capacity(alloc: Global, room: usize) -> Result<Backlog, Memory>
        ensures { IfOk result (λ made. made ≡ []) }
    {
        Ok(Backlog {
            bytes: Vec::with_capacity(alloc, room)?,
            start: 0,
        })
    }

    /// The bytes that are kept.
    pub fn as_slice(&self) -> &[u8]
        ensures { result.now ≡ self.now }
    {
        self.bytes.as_slice().split_at(self.start).1
    }

    /// How many these are.
    pub fn len(&self) -> usize
        ensures { result ≡ length self.now }
    {
        self.as_slice().len()
    }

    /// Whether there are none.
    pub fn is_empty(&self) -> bool
        ensures { IsTrue result ↔ (self.now ≡ []) }
    {
        self.as_slice().is_empty()
    }

    /// Moves the bytes that are kept over those that were dropped.
    fn compact(&mut self)
        ensures { self.new ≡ self.old }
    {
        if self.start == 0 {
            return;
        }
        let count = self.len();
        let start = self.start;
        self.start = 0;
        self.bytes.copy_within(start.., 0);
        self.bytes.truncate(count);
    }

    /// Keeps these bytes behind the others.
    pub fn push(&mut self, more: &[u8]) -> Result<(), Memory>
        ensures ok { OnOk result (self.new ≡ self.old ++ more.now) }
        ensures err { OnErr result (self.new ≡ self.old) }
    {
        self.compact();
        self.bytes.extend_from_slice(more)?;
        Ok(())
    }

    /// Drops so many bytes in front.
    pub fn advance(&mut self, count: usize)
        requires { count ≤ length self.old }
        ensures { self.new ≡ drop count self.old }
    {
        self.start += count;
    }
}
