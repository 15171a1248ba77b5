ghost use Rattle.std.specs.Prelude.{◌≡◌, ◌<◌, length, slice_index, IfOk};
ghost use Rattle.ks_fernet.specs.Opener.{key_of};
ghost use Rattle.ks_fernet.specs.Opening.{answer_of, open_of};
ghost use Rattle.ks_fernet.specs.Token.{parts_of};

use crate::authentic::Authentic;
use crate::envelope::{Parts, ROOM, fault_in, read_text};
use crate::opener::Opener;
use crate::opening_key::OpeningKey;
use ks_base::{Bytes, Key, Memory};
use std::alloc::Global;

/// What a key makes of a text.
#[derive(Drop)]
pub enum OpenAnswer {
    /// The text is no token.
    NotText,
    /// The token's mac is another, or what it holds has no padding.
    No,
    /// The key opens the token.
    Yes {
        /// Seconds since the start of 1970.
        time: u64,
        plain: Bytes,
    },
}

/// What the key makes of the text. Only the plain text takes memory.
pub fn answer(alloc: Global, key: &Key, text: &[u8]) -> Result<OpenAnswer, Memory>
    ensures { IfOk result (λ said. said ≡ open_of key.now text.now) }
{
    answer_by(alloc, &Opener::Plain(key), text)
}

impl OpeningKey {
    /// [`answer`] of this key.
    pub fn answer(&self, alloc: Global, text: &[u8]) -> Result<OpenAnswer, Memory>
        ensures { IfOk result (λ said. said ≡ open_of self.now text.now) }
    {
        answer_by(alloc, &Opener::Taken(self), text)
    }
}

pub(crate) fn answer_by(alloc: Global, opener: &Opener, text: &[u8]) -> Result<OpenAnswer, Memory>
    ensures { IfOk result (λ said. said ≡ open_of (key_of opener.now) text.now) }
{
    let mut buffer = [0u8; ROOM];
    let Some(len) = read_text(text, &mut buffer) else {
        return Ok(OpenAnswer::NotText);
    };
    let bytes = &buffer[..len];
    if let Some(_fault) = fault_in(bytes) {
        return Ok(OpenAnswer::NotText);
    }
    open_bytes(alloc, opener, bytes)
}

fn open_bytes(alloc: Global, opener: &Opener, bytes: &[u8]) -> Result<OpenAnswer, Memory>
    requires long { 57 < length bytes.now }
    requires version { slice_index bytes.now 0 ≡ 0x80 }
    ensures { IfOk result (λ said. said ≡ answer_of (key_of opener.now) (parts_of bytes.now)) }
{
    let parts = Parts::of(bytes);
    let Some(authentic) = Authentic::of(opener, &parts) else {
        return Ok(OpenAnswer::No);
    };
    let time = parts.time;
    match authentic.decipher(alloc)? {
        Some(plain) => Ok(OpenAnswer::Yes { time, plain }),
        None => Ok(OpenAnswer::No),
    }
}
