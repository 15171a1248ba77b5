ghost use Rattle.std.specs.Prelude.{◌≡◌};

use ks_base::Memory;
use std::alloc::AllocError;

/// Why a change is not made.
#[derive(Drop)]
pub(crate) enum Unmade {
    /// There would be too many live revocations.
    Full,
    /// There was no memory, or as many changes were made as may be.
    Memory,
}

impl From<Memory> for Unmade {
    ghost use Rattle.ks_state.specs.declared.unmade.Unmade.TheVariants as variants;

    ghost from_gives = { λ _ e. e ≡ variants.Memory };

    fn from(_error: Memory) -> Unmade {
        Unmade::Memory
    }
}

impl From<AllocError> for Unmade {
    ghost use Rattle.ks_state.specs.declared.unmade.Unmade.TheVariants as variants;

    ghost from_gives = { λ _ e. e ≡ variants.Memory };

    fn from(_error: AllocError) -> Unmade {
        Unmade::Memory
    }
}
