//! Ids, texts and bytes.
ghost use Rattle.std.specs.Prelude.{◌≡◌, IfOk, OnOk};
ghost use Rattle.ks_spelling.specs.declared.unread.Unread.TheVariants.{NoSpelling};
ghost use Rattle.ks_spelling.specs.Codes.{Writes};
ghost use Rattle.ks_spelling.specs.Leaves.{counted, number32, read_counted};
ghost use Rattle.ks_spelling.specs.Values.{id_code, text_code, bytes_code};

use crate::{Cursor, Spelled, Unread};
use ks_base::{Bytes, Id, Memory, Text};
use std::alloc::Global;

/// The bytes behind the four bytes of their count.
fn counted<'a>(alloc: Global, from: &mut Cursor<'a>) -> Result<&'a [u8], Unread>
    ensures ok { IfOk result (λ front. read_counted number32 from.old ≡ Some (front.now, from.new)) }
    ensures none { result ≡ Err NoSpelling → read_counted number32 from.old ≡ None }
{
    let len = u32::read_from(alloc, from)?;
    match from.bytes(len as usize) {
        Some(front) => Ok(front),
        None => Err(Unread::NoSpelling),
    }
}

/// `Memory` where four bytes don't hold the count.
fn write_counted(bytes: &[u8], into: &mut Vec<u8>) -> Result<(), Memory>
    ensures { OnOk result (Writes (counted number32) bytes.now into.old.items into.new.items) }
{
    let Ok(count) = u32::try_from(bytes.len()) else {
        return Err(Memory);
    };
    count.write_to(into)?;
    into.extend_from_slice(bytes)?;
    Ok(())
}

impl Spelled for Id {
    ghost code = { id_code };

    #[tactic(auto, unfolding(crate::specs::Values::id_code))]
    fn write_to(&self, into: &mut Vec<u8>) -> Result<(), Memory> {
        let bytes = self.as_slice();
        into.push(bytes.len() as u8)?;
        into.extend_from_slice(bytes)?;
        Ok(())
    }

    #[tactic(auto, unfolding(crate::specs::Values::id_code))]
    fn read_from(_alloc: Global, from: &mut Cursor<'_>) -> Result<Id, Unread> {
        let Some(len) = from.byte() else {
            return Err(Unread::NoSpelling);
        };
        let Some(bytes) = from.bytes(usize::from(len)) else {
            return Err(Unread::NoSpelling);
        };
        match Id::read(bytes) {
            Ok(id) => Ok(id),
            Err(_) => Err(Unread::NoSpelling),
        }
    }
}

impl Spelled for Bytes {
    ghost code = { bytes_code };

    #[tactic(auto, unfolding(crate::specs::Values::bytes_code))]
    fn write_to(&self, into: &mut Vec<u8>) -> Result<(), Memory> {
        write_counted(self.as_slice(), into)
    }

    #[tactic(auto, unfolding(crate::specs::Values::bytes_code))]
    fn read_from(alloc: Global, from: &mut Cursor<'_>) -> Result<Bytes, Unread> {
        let bytes = counted(alloc, from)?;
        Ok(Bytes::of(alloc, bytes)?)
    }
}

impl Spelled for Text {
    ghost code = { text_code };

    #[tactic(auto, unfolding(crate::specs::Values::text_code))]
    fn write_to(&self, into: &mut Vec<u8>) -> Result<(), Memory> {
        write_counted(self.as_slice(), into)
    }

    #[tactic(auto, unfolding(crate::specs::Values::text_code))]
    fn read_from(alloc: Global, from: &mut Cursor<'_>) -> Result<Text, Unread> {
        let bytes = counted(alloc, from)?;
        match Text::read(alloc, bytes)? {
            Some(text) => Ok(text),
            None => Err(Unread::NoSpelling),
        }
    }
}
