ghost use Rattle.std.specs.Prelude.{◌≡◌, ◌≤◌, length, IfOk};
ghost use Rattle.ks_base.specs.declared.limits.TheConstants.{KEYS};
ghost use Rattle.ks_setup.specs.Openings.{bad_key_path};
ghost use Rattle.ks_setup.specs.Steps.{AreFew, ReadsKeys, ReadsRing};
ghost use Rattle.ks_setup.specs.declared.keys.RingFault.TheVariants.{Memory};

use itoa::Buffer;
use ks_base::{Key, KeyList, ListOf, Memory, Text};
use ks_fernet::{KeyText, read_key};
use ks_written::KeysFrom;
use std::alloc::{AllocError, AllocFailed, Global};

/// Why keys are not read.
#[derive(Drop)]
pub(crate) enum RingFault {
    /// The entry of `keys` with this path is not the text of a key.
    BadKey(Text),
    /// There was no memory.
    Memory,
}

impl From<Memory> for RingFault {
    ghost from_gives = { λ _ fault. fault ≡ Memory };

    fn from(_memory: Memory) -> RingFault {
        RingFault::Memory
    }
}

impl From<AllocError> for RingFault {
    ghost from_gives = { λ _ fault. fault ≡ Memory };

    fn from(_error: AllocError) -> RingFault {
        RingFault::Memory
    }
}

impl<T: Drop> From<AllocFailed<T>> for RingFault {
    ghost from_gives = { λ _ fault. fault ≡ Memory };

    fn from(_failed: AllocFailed<T>) -> RingFault {
        RingFault::Memory
    }
}

/// The keys of a file with their indices, or those that the folder holds.
pub(crate) fn read_ring(
    alloc: Global,
    keys: &KeysFrom,
    held: &[(u32, Key)],
) -> Result<KeyList, RingFault>
    requires { AreFew keys.now }
    ensures { ReadsRing keys.now held.now result }
{
    match keys {
        KeysFrom::Folder => Ok(ListOf::from_vec(Vec::from_slice(alloc, held)?)),
        KeysFrom::File(texts) => read_keys(alloc, texts.as_slice()),
    }
}

/// The keys that these texts spell, each with the place of its text.
fn read_keys(alloc: Global, texts: &[Text]) -> Result<KeyList, RingFault>
    requires { length texts.now ≤ KEYS }
    ensures { ReadsKeys texts.now result }
{
    let mut ring = Vec::with_capacity(alloc, texts.len())?;
    for (place, text) in texts.iter().enumerate() {
        let KeyText::Key(key) = read_key(text.as_slice()) else {
            return Err(RingFault::BadKey(key_path(alloc, place)?));
        };
        ring.push((place as u32, key))?;
    }
    Ok(ListOf::from_vec(ring))
}

/// The path of the key text at this place.
fn key_path(alloc: Global, place: usize) -> Result<Text, Memory>
    ensures { IfOk result (λ path. path ≡ bad_key_path place) }
{
    let mut path = String::from_str(alloc, "keys[")?;
    path.push_str(Buffer::new().format(place))?;
    path.push(']')?;
    Text::of(alloc, path.as_str())
}
