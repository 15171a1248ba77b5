ghost use Rattle.std.specs.Prelude.{OnOk};
ghost use Rattle.ks_spelling.specs.Codes.{Code, Writes, Reads};

use crate::{Cursor, Unread};
use ks_base::Memory;
use std::alloc::Global;

/// A value with one spelling as bytes.
pub trait Spelled: Drop {
    ghost code: { Code Self };

    /// Puts the spelling behind the bytes. `Memory` also where a count is past what its four bytes hold; bytes may
    /// stand behind the old ones then.
    fn write_to(&self, into: &mut Vec<u8>) -> Result<(), Memory>
        ensures { OnOk result (Writes code self.now into.old.items into.new.items) };

    /// The value whose spelling stands at the front, which is taken off. After a refusal the cursor stands anywhere.
    fn read_from(alloc: Global, from: &mut Cursor<'_>) -> Result<Self, Unread>
        ensures { Reads (code.read from.old) from.new result };
}
