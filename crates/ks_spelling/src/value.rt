//! A value and all of its bytes.
ghost use Rattle.std.specs.Prelude.{◌≡◌, List, ℕ, IfOk, IfSome, IfNone};
ghost use Rattle.ks_spelling.specs.Codes.{IsSpelling};

use crate::{Cursor, Spelled, Unread};
use ks_base::{Bytes, Memory};
use std::alloc::Global;

/// The spelling of the value. `Memory` also where a count is past what its four bytes hold.
pub fn written<T: Spelled>(alloc: Global, value: &T) -> Result<Bytes, Memory>
    ensures { IfOk result (λ bytes. IsSpelling T.code bytes value.now) }
{
    let mut bytes = Vec::new(alloc);
    value.write_to(&mut bytes)?;
    Ok(Bytes::from_vec(bytes))
}

/// The value that all of the bytes spell, or `None` exactly where they spell none.
pub fn read_value<T: Spelled>(alloc: Global, bytes: &[u8]) -> Result<Option<T>, Memory>
    ensures some { IfOk result (λ read. IfSome read (λ value. IsSpelling T.code bytes.now value)) }
    ensures none { IfOk result (λ read. IfNone read ((value : T) → ¬ IsSpelling T.code bytes.now value)) }
{
    let mut cursor = Cursor::new(bytes);
    match T::read_from(alloc, &mut cursor) {
        Ok(value) => Ok(if cursor.is_empty() { Some(value) } else { None }),
        Err(Unread::NoSpelling) => Ok(None),
        Err(Unread::Memory) => Err(Memory),
    }
}

/// Bytes spell one value at most.
pub fn spellings_differ<T: Spelled>()
    ensures { (bytes : List ℕ) (x y : T) → IsSpelling T.code bytes x → IsSpelling T.code bytes y → x ≡ y }
{}
