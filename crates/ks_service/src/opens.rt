//! Keys by which the texts of tokens are opened.
ghost use Rattle.std.specs.Prelude.{◌≡◌, IfOk};

use ks_base::{ListOf, Memory, Text};
use ks_fernet::{Opened, OpeningKey, open};
use ks_ring::HeldKey;
use std::alloc::Global;
use std::marker::Model;

/// A held key, as it is or taken in.
pub(crate) trait Opens {
    ghost use Rattle.ks_ring.specs.declared.held_key.HeldKey.{HeldKey};

    ghost stands_for: { Self → HeldKey };

    fn held(&self) -> HeldKey
        ensures { result ≡ stands_for self.now };

    /// Opens a copy of the text under the key's number.
    fn open(&self, alloc: Global, text: &Text) -> Result<Opened, Memory>
        ensures { IfOk result (λ opened. opened
            ≡ record { number = (stands_for self.now).number; key = (stands_for self.now).key; text = text.now }) };
}

impl Opens for HeldKey {
    ghost stands_for = { λ held. held };

    fn held(&self) -> HeldKey {
        *self
    }

    fn open(&self, alloc: Global, text: &Text) -> Result<Opened, Memory> {
        open(alloc, self.number, &self.key, text)
    }
}

/// A held key that was taken in, so that it opens each text at less cost. Contracts see it as the held key.
#[derive(Drop)]
pub(crate) struct TakenKey {
    index: u32,
    number: u64,
    key: OpeningKey,
}

impl Model for TakenKey {
    ghost use Rattle.ks_ring.specs.declared.held_key.HeldKey.{HeldKey};

    ghost Value = { HeldKey };

    ghost view = { λ taken. record { index = taken.index; number = taken.number; key = taken.key } };
}

impl TakenKey {
    fn of(held: &HeldKey) -> TakenKey
        ensures { result ≡ held.now }
    {
        TakenKey {
            index: held.index,
            number: held.number,
            key: OpeningKey::of(&held.key),
        }
    }
}

impl Opens for TakenKey {
    ghost stands_for = { λ taken. taken };

    fn held(&self) -> HeldKey {
        HeldKey {
            index: self.index,
            number: self.number,
            key: *self.key.key(),
        }
    }

    fn open(&self, alloc: Global, text: &Text) -> Result<Opened, Memory> {
        self.key.open(alloc, self.number, text)
    }
}

/// The keys taken in, in their order.
pub(crate) fn taken_in(alloc: Global, keys: &[HeldKey]) -> Result<ListOf<TakenKey>, Memory>
    ensures { IfOk result (λ taken. taken ≡ keys.now) }
{
    let mut taken = Vec::with_capacity(alloc, keys.len())?;
    for held in keys {
        taken.push(TakenKey::of(held))?;
    }
    Ok(ListOf::from_vec(taken))
}
