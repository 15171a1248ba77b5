ghost use Rattle.std.specs.Prelude.{◌≡◌, replicate};

use ks_base::Key;

/// A key that a ring holds.
#[derive(Clone, Copy)]
pub struct HeldKey {
    /// The name of its file. The highest one is primary, and 0 is staged where it isn't alone.
    pub index: u32,
    /// No other key of the ring's life has it.
    pub number: u64,
    /// Its 32 bytes.
    pub key: Key,
}

// Only what fills the unused room of a ring.
impl Default for HeldKey {
    ghost is_default = { λ held. (held.index ≡ 0) × (held.number ≡ 0) × (held.key.signing ≡ replicate 16 0) × (held.key.encryption ≡ replicate 16 0) };

    fn default() -> HeldKey {
        HeldKey {
            index: 0,
            number: 0,
            key: Key {
                signing: [0; 16],
                encryption: [0; 16],
            },
        }
    }
}
