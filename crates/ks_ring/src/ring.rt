ghost use Rattle.std.specs.Prelude.{◌≡◌, ◌-◌, ◌^◌, ◌<◌, ◌≤◌, ◌↔◌, ◌==◌, ◌∷◌, List, find, option_copied, OnOk, OnErr};
ghost use Rattle.ks_base.specs.declared.limits.TheConstants.{LAST_KEY_INDEX};
ghost use Rattle.ks_ring.specs.Rings.{IsRing, refusal_of, new_of, load_of, loaded_unless, rotate_of, highest};

use crate::HeldKey;
use crate::numbering::numbered;
use crate::refusal::refusal;
use crate::rotation::promote;
use arrayvec::ArrayVec;
use ks_base::{Key, LoadFault};
use std::marker::Model;

/// At least one key and at most 32, of which the one of the highest index is primary and seals. That of index 0
/// is staged where it isn't alone, and the others are secondary. A ring lies in place and takes no memory.
///
/// This is the rotation of Fernet keys that Keystone's administration guide describes, with a number for
/// each key: the same bytes have the same number as long as they are held, and no number is given twice.
#[derive(Drop)]
pub struct Ring {
    held: ArrayVec<HeldKey, 32>,
    next: u64,
}

impl Model for Ring {
    ghost use Rattle.ks_base.specs.declared.limits.TheConstants.{LAST_KEY_INDEX};
    ghost use Rattle.ks_ring.specs.Rings.{RingState, IsRing};

    ghost Value = { RingState };

    ghost view = { λ r. record { held = r.held.items; next = r.next } };

    ghost invariant = { λ r. IsRing (record { held = r.held.items; next = r.next }) };
}

impl Ring {
    /// The ring of these keys, each with its index, in any order. They get the numbers 0, 1, 2 and so on by
    /// rising index.
    ///
    /// Refused are no keys (`Empty`), more than 32 (`TooMany`) and two of one index (`Repeated`, with the index
    /// of the first key whose index an earlier one has), in this order.
    pub fn new(keys: &[(u32, Key)]) -> Result<Ring, LoadFault>
        ensures { result ≡ loaded_unless (refusal_of keys.now) (new_of keys.now) }
    {
        if let Some(refused) = refusal(keys) {
            return Err(refused);
        }
        let (held, next) = numbered(&[], 0, keys);
        Ok(Ring { held, next })
    }

    /// The key that seals: that of the highest index.
    pub fn primary(&self) -> &HeldKey
        ensures { (rest : List HeldKey) × (self.now.held ≡ result.now ∷ rest) }
    {
        &self.held.as_slice()[0]
    }

    /// The keys by falling index, which is the order in which opening tries them.
    pub fn held(&self) -> &[HeldKey]
        ensures held { result.now ≡ self.now.held }
        ensures ring { IsRing self.now }
    {
        self.held.as_slice()
    }

    /// The key with this number, if it is held still.
    pub fn by_number(&self, number: u64) -> Option<&HeldKey>
        ensures { option_copied result ≡ find (λ held. held.number == number) self.now.held }
    {
        self.held
            .as_slice()
            .iter()
            .find(|held| held.number == number)
    }

    /// Gives a staged key the index above the highest, stages the new one, and lets those of the lowest indices
    /// go until at most `max` keys are left. The staged key keeps its number, and the new one gets the next.
    pub fn rotate(&mut self, new: Key, max: u32)
        requires least { 2 ≤ max }
        requires most { max ≤ 32 }
        requires index { highest self.old.held < LAST_KEY_INDEX }
        requires number { self.old.next < 2 ^ 64 - 32 }
        ensures { self.new ≡ rotate_of self.old new max }
    {
        promote(&mut self.held);
        self.held.truncate(max as usize - 1);
        self.held.push(HeldKey {
            index: 0,
            number: self.next,
            key: new,
        });
        self.next += 1;
    }

    /// Holds these keys, each with its index, in any order, in place of those that are held. By rising index, a key
    /// takes the lowest number of a held one with the same bytes, where there is one that no key before it took,
    /// and else the next number.
    ///
    /// It refuses what [`Ring::new`] refuses, and then the ring stays as it was.
    pub fn load(&mut self, keys: &[(u32, Key)]) -> Result<(), LoadFault>
        requires number { self.old.next < 2 ^ 64 - 32 }
        ensures ok { OnOk result ((refusal_of keys.now ≡ None) × (self.new ≡ load_of self.old keys.now)) }
        ensures err { OnErr result (self.new ≡ self.old) }
        ensures fault { (fault : LoadFault) → (result ≡ Err fault) ↔ (refusal_of keys.now ≡ Some fault) }
    {
        if let Some(fault) = refusal(keys) {
            return Err(fault);
        }
        let (held, next) = numbered(self.held.as_slice(), self.next, keys);
        self.held = held;
        self.next = next;
        Ok(())
    }
}
