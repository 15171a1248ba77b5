use ks_base::{ListOf, Memory};
use ks_machine::Cause;
use ks_ring::HeldKey;

/// What a decision lacks to go on: exactly one of the three is there.
#[derive(Drop)]
pub struct Needs {
    /// The keys of which it is to be known what they make of the token's text.
    pub keys: ListOf<HeldKey>,
    /// The salt and the rounds with which the password or the secret that is tested is to be derived.
    pub stored: Option<([u8; 16], u32)>,
    /// The salt and the rounds with which the one that is to be kept is to be derived.
    pub fresh: Option<([u8; 16], u32)>,
}

/// Why there is no plan.
#[derive(Drop)]
pub enum Halt {
    /// The first check that fails.
    Refused(Cause),
    /// The first check that lacks a fact.
    Needs(Needs),
    /// There was no memory.
    Memory,
}

impl From<Memory> for Halt {
    ghost use Rattle.std.specs.Prelude.{◌≡◌};
    ghost use Rattle.ks_checks.specs.declared.halt.Halt.TheVariants as variants;

    ghost from_gives = { λ _ e. e ≡ variants.Memory };

    fn from(_error: Memory) -> Halt {
        Halt::Memory
    }
}
