ghost use Rattle.std.specs.Prelude.{◌≡◌, ◌↔◌, [], IsTrue, MatchOption};
ghost use Rattle.ks_spelling.specs.Leaves.{cut, read_byte};

use std::marker::Model;

/// The bytes that are still to be read.
#[derive(Drop)]
pub struct Cursor<'a> {
    rest: &'a [u8],
}

impl<'a> Model for Cursor<'a> {
    ghost use Rattle.std.specs.Prelude.{ℕ, List};

    ghost Value = { List ℕ };

    ghost view = { λ cursor. cursor.rest.now };
}

impl<'a> Cursor<'a> {
    /// A cursor before the first of these bytes.
    pub fn new(bytes: &'a [u8]) -> Cursor<'a>
        ensures { result ≡ bytes.now }
    {
        Cursor { rest: bytes }
    }

    /// Whether no byte is left.
    pub fn is_empty(&self) -> bool
        ensures { IsTrue result ↔ (self.now ≡ []) }
    {
        self.rest.is_empty()
    }

    /// The next byte, which is taken off.
    pub fn byte(&mut self) -> Option<u8>
        ensures { MatchOption result (read_byte self.old ≡ None) (λ byte. read_byte self.old ≡ Some (byte, self.new)) }
    {
        let (first, rest) = self.rest.split_first()?;
        self.rest = rest;
        Some(*first)
    }

    /// The next bytes, as many as are asked for, which are taken off.
    pub fn bytes(&mut self, len: usize) -> Option<&'a [u8]>
        ensures { MatchOption result (cut len self.old ≡ None) (λ front. cut len self.old ≡ Some (front.now, self.new)) }
    {
        let (front, rest) = self.rest.split_at_checked(len)?;
        self.rest = rest;
        Some(front)
    }

    /// The next `N` bytes, which are taken off.
    pub fn array<const N: usize>(&mut self) -> Option<[u8; N]>
        ensures { MatchOption result (cut N self.old ≡ None) (λ front. cut N self.old ≡ Some (front, self.new)) }
    {
        let (front, rest) = self.rest.split_first_chunk::<N>()?;
        self.rest = rest;
        Some(*front)
    }
}
