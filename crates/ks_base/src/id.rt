ghost use Rattle.std.specs.Prelude.{◌≡◌, ◌<◌, ◌↔◌, ℕ, [], not, length, IfOk};
ghost use Rattle.std.specs.List.{position};
ghost use Rattle.std.specs.Str.{bytes_eq};
ghost use Rattle.std.specs.Ordering.{nat_cmp, as_partial_cmp};
ghost use Rattle.std.specs.Cmp.Lexicographic.{slice_cmp};
ghost use Rattle.std.specs.Cmp.{partial_order_from_own_ties};
ghost use Rattle.std.specs.Cmp.Rules.{comparing};
ghost use Rattle.std.proofs.Common.{rules};
ghost use Rattle.ks_base.specs.Ids.{IsId, IsFirstBadByte, is_id_byte};
ghost use Rattle.ks_base.specs.IdFields.{head_number};

use crate::limits::ID_BYTES;
use crate::{Memory, TryCopy};
use std::cmp::Ordering;
use std::marker::Model;

/// The id of a row: 1 to 64 bytes of `0-9 A-Z a-z _ -`, held in place and ordered by its bytes.
#[derive(Copy, Clone)]
pub struct Id {
    len: usize,
    bytes: [u8; ID_BYTES],
}

/// Why bytes are no id.
#[derive(Clone, Copy)]
pub enum IdFault {
    /// There are none.
    Empty,
    /// There are more than 64.
    TooLong,
    /// The first byte that is not of `0-9 A-Z a-z _ -`, counted from 0.
    Byte(usize),
}

impl Model for Id {
    ghost use Rattle.std.specs.Prelude.{◌≡◌, ◌-◌, ◌≤◌, ◌++◌, ℕ, List, length, take, drop, replicate};
    ghost use Rattle.ks_base.specs.Ids.{IsId};
    ghost use Rattle.ks_base.specs.IdFields.{filled_length, filled_bytes};

    ghost Value = { List ℕ };

    ghost view = { λ i. take i.len i.bytes };

    ghost invariant = { λ i. (i.len ≤ 64) × (drop i.len i.bytes ≡ replicate (64 - i.len) 0) × (length i.bytes ≡ 64) × IsId (take i.len i.bytes) };

    ghost inverse = { λ bs. record { len = length bs; bytes = bs ++ replicate (64 - length bs) 0 } };

    ghost inverse_ok = { λ a h. λ i. record { len = filled_length a.len a.bytes h.0 h.2 i; bytes = filled_bytes a.len a.bytes h.0 h.1 h.2 i } };
}

/// Whether an id may hold this byte.
fn is_allowed(byte: u8) -> bool
    ensures { result ≡ is_id_byte byte }
{
    matches!(byte, b'0'..=b'9' | b'A'..=b'Z' | b'a'..=b'z' | b'_' | b'-')
}

/// The place of the first byte that no id may hold.
fn first_bad(text: &[u8]) -> Option<usize>
    ensures { result ≡ position (λ b. not (is_id_byte b)) text.now }
{
    text.iter().position(|byte| !is_allowed(*byte))
}

impl Id {
    /// The id that these bytes spell. The refusals are tested in the order of `IdFault`.
    pub fn read(text: &[u8]) -> Result<Id, IdFault>
        ensures ok { IfOk result (λ id. (id ≡ text.now) × IsId text.now) }
        ensures empty { (result ≡ Err IdFault.Empty) ↔ (text.now ≡ []) }
        ensures too_long { (result ≡ Err IdFault.TooLong) ↔ (64 < length text.now) }
        ensures byte { (place : ℕ) → result ≡ Err (IdFault.Byte place) → IsFirstBadByte text.now place }
    {
        if text.is_empty() {
            return Err(IdFault::Empty);
        }
        if text.len() > ID_BYTES {
            return Err(IdFault::TooLong);
        }
        if let Some(place) = first_bad(text) {
            return Err(IdFault::Byte(place));
        }
        Ok(Id::holding(text))
    }

    fn holding(text: &[u8]) -> Id
        requires { IsId text.now }
        ensures { result ≡ text.now }
    {
        let mut bytes = [0u8; ID_BYTES];
        bytes[..text.len()].copy_from_slice(text);
        Id {
            len: text.len(),
            bytes,
        }
    }

    /// The first eight bytes as a number. Of two ids the one with the smaller number comes first.
    fn head(&self) -> u64
        ensures number { result ≡ head_number 8 self.now }
        ensures id { IsId self.now }
    {
        u64::from_be_bytes([
            self.bytes[0],
            self.bytes[1],
            self.bytes[2],
            self.bytes[3],
            self.bytes[4],
            self.bytes[5],
            self.bytes[6],
            self.bytes[7],
        ])
    }

    /// The id's bytes.
    pub fn as_slice(&self) -> &[u8]
        ensures bytes { result.now ≡ self.now }
        ensures id { IsId self.now }
    {
        &self.bytes[..self.len]
    }

    /// The id as a text.
    #[tactic(auto, using(crate::proofs::IdLemmas::id_is_utf8))]
    pub fn as_str(&self) -> &str
        ensures { result.now ≡ self.now }
    {
        unsafe { std::str::from_utf8_unchecked(self.as_slice()) }
    }
}

impl PartialEq for Id {
    ghost eq = { bytes_eq };

    ghost laws = { Prim.search (comparing, rules) };

    fn eq(&self, other: &Id) -> bool {
        self.as_str() == other.as_str()
    }
}

impl Eq for Id {
    ghost laws = { Prim.search (comparing, rules) };
}

impl PartialOrd for Id {
    ghost partial_cmp = { as_partial_cmp (slice_cmp nat_cmp) };

    ghost laws = { partial_order_from_own_ties (Prim.search (comparing, rules)) (Prim.search (comparing, rules)) };

    fn partial_cmp(&self, other: &Id) -> Option<Ordering> {
        Some(self.cmp(other))
    }
}

impl Ord for Id {
    ghost cmp = { slice_cmp nat_cmp };

    ghost total = { Prim.search (comparing, rules) };

    ghost matches_partial_cmp = { Prim.search (comparing, rules) };

    ghost matches_eq = { Prim.search (comparing, rules) };

    fn cmp(&self, other: &Id) -> Ordering {
        let (head, other_head) = (self.head(), other.head());
        if head < other_head {
            return Ordering::Less;
        }
        if other_head < head {
            return Ordering::Greater;
        }
        self.as_str().cmp(other.as_str())
    }
}

impl TryCopy for Id {
    fn copy(&self) -> Result<Id, Memory> {
        Ok(*self)
    }
}
