ghost use Rattle.std.specs.Prelude.{◌≡◌};
ghost use Rattle.ks_policy.specs.declared.fault.PolicyFault.TheVariants.{Memory};

use ks_base::{Memory, Text};
use std::alloc::AllocFailed;

/// Why a policy is not loaded.
#[derive(Drop)]
pub enum PolicyFault {
    /// It is no object.
    NotObject,
    /// The value of the rule with this name, the first such by bytes, is no text.
    NotText(Text),
    /// The rule with this name, the first such by bytes, reaches itself through the names in rules.
    Cycle(Text),
    /// It has more than 1,024 rules, the default ones among them.
    TooMany,
    /// Memory ended.
    Memory,
}

impl From<Memory> for PolicyFault {
    ghost from_gives = { λ _ fault. fault ≡ Memory };

    fn from(_memory: Memory) -> PolicyFault {
        PolicyFault::Memory
    }
}

impl<T: Drop> From<AllocFailed<T>> for PolicyFault {
    ghost from_gives = { λ _ fault. fault ≡ Memory };

    fn from(_failed: AllocFailed<T>) -> PolicyFault {
        PolicyFault::Memory
    }
}
