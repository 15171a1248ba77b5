ghost use Rattle.std.specs.Prelude.{◌≡◌, ◌↔◌, length};
ghost use Rattle.ks_base.specs.declared.key.Key.{Key as FernetKey};
ghost use Rattle.ks_fernet.specs.KeyText.{IsKeyText, key_of, key_read};

use crate::base64_url::read_bytes;
use ks_base::Key;

/// What a text says as a key.
#[derive(Clone, Copy)]
pub enum KeyText {
    Key(Key),
    NotAKey,
}

/// The characters that 32 bytes take with their padding.
const LONGEST: usize = 44;

/// The bytes that so many characters may spell.
const ROOM: usize = 33;

/// Reads a key: base64url of the 16 bytes that sign and the 16 that encipher, with its one `=` or
/// without it. Takes no memory.
pub fn read_key(text: &[u8]) -> KeyText
    ensures key { (key : FernetKey) → (result ≡ KeyText.Key key) ↔ IsKeyText text.now key }
    ensures not_a_key { (result ≡ KeyText.NotAKey) ↔ ((key : FernetKey) → ¬ IsKeyText text.now key) }
    ensures value { key_read result ≡ key_of text.now }
{
    match find_key(text) {
        Some(key) => KeyText::Key(key),
        None => KeyText::NotAKey,
    }
}

fn find_key(text: &[u8]) -> Option<Key>
    ensures { result ≡ key_of text.now }
{
    if text.len() > LONGEST {
        return None;
    }
    let mut buffer = [0u8; ROOM];
    let Some(len) = read_bytes(text, &mut buffer) else {
        return None;
    };
    if len != 32 {
        return None;
    }
    let (signing, encryption) = buffer[..len].split_at(16);
    Some(key_of_halves(signing, encryption))
}

fn key_of_halves(signing_bytes: &[u8], encryption_bytes: &[u8]) -> Key
    requires signing { length signing_bytes.now ≡ 16 }
    requires encryption { length encryption_bytes.now ≡ 16 }
    ensures { result ≡ record { signing = signing_bytes.now; encryption = encryption_bytes.now } }
{
    let mut signing = [0u8; 16];
    let mut encryption = [0u8; 16];
    signing.copy_from_slice(signing_bytes);
    encryption.copy_from_slice(encryption_bytes);
    Key {
        signing,
        encryption,
    }
}
