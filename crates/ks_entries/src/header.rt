//! What a journal stands on: how the server opened.
ghost use Rattle.std.specs.Prelude.{ℕ, List, ◌≡◌, IfOk, IfSome, IfNone};
ghost use Rattle.ks_entries.specs.Headers.{IsHeader};
ghost use Rattle.ks_entries.specs.declared.header.Header.{Header};

use ks_base::{Bytes, KeyList, ListOf, Memory};
use ks_spelling::{Cursor, Spelled, Unread, read_value, spellings_differ, written};
use std::alloc::Global;

/// How the server opened whose changes are kept.
#[derive(Drop)]
pub struct Header {
    /// The bytes of the opening file.
    pub opening: Bytes,
    /// The keys of the folder, each by its index.
    pub keys: KeyList,
    /// The salts of the users with a password, in the order of the opening file.
    pub salts: ListOf<[u8; 16]>,
}

impl Spelled for Header {
    ghost use Rattle.ks_entries.specs.Headers.{header_code};

    ghost code = { header_code };

    #[tactic(auto, unfolding(crate::specs::Headers::header_code))]
    fn write_to(&self, into: &mut Vec<u8>) -> Result<(), Memory> {
        self.opening.write_to(into)?;
        self.keys.write_to(into)?;
        self.salts.write_to(into)
    }

    #[tactic(auto, unfolding(crate::specs::Headers::header_code))]
    fn read_from(alloc: Global, from: &mut Cursor<'_>) -> Result<Header, Unread> {
        let opening = Bytes::read_from(alloc, from)?;
        let keys = KeyList::read_from(alloc, from)?;
        let salts = ListOf::<[u8; 16]>::read_from(alloc, from)?;
        Ok(Header {
            opening,
            keys,
            salts,
        })
    }
}

/// The bytes of the header. `Memory` also where one of its counts is past what four bytes hold.
pub fn write_header(alloc: Global, header: &Header) -> Result<Bytes, Memory>
    ensures { IfOk result (λ bytes. IsHeader bytes header.now) }
{
    written(alloc, header)
}

/// The header that all of the bytes spell, or `None` exactly where they spell none.
pub fn read_header(alloc: Global, bytes: &[u8]) -> Result<Option<Header>, Memory>
    ensures some { IfOk result (λ read. IfSome read (λ header. IsHeader bytes.now header)) }
    ensures none { IfOk result (λ read. IfNone read ((header : Header) → ¬ IsHeader bytes.now header)) }
{
    read_value(alloc, bytes)
}

/// Bytes spell one header at most.
pub fn headers_differ()
    ensures { (bytes : List ℕ) (one other : Header) → IsHeader bytes one → IsHeader bytes other → one ≡ other }
{
    spellings_differ::<Header>()
}
