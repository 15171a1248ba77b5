ghost use Rattle.std.specs.Prelude.{◌≡◌};

use ks_base::{Kind, Memory, TryCopy};
use std::alloc::AllocError;

/// Why there is no room for more events.
#[derive(Clone, Copy)]
pub enum RevokeFault {
    /// The live events and those that are to be added would together be more than 262,144. The kind is `Event`.
    Full(Kind),
    /// There was no memory.
    Memory,
}

impl TryCopy for RevokeFault {
    fn copy(&self) -> Result<RevokeFault, Memory> {
        Ok(*self)
    }
}

impl From<AllocError> for RevokeFault {
    ghost use Rattle.ks_revoke.specs.declared.fault.RevokeFault.TheVariants as variants;

    ghost from_gives = { λ _ e. e ≡ variants.Memory };

    fn from(_error: AllocError) -> RevokeFault {
        RevokeFault::Memory
    }
}

impl From<Memory> for RevokeFault {
    ghost use Rattle.ks_revoke.specs.declared.fault.RevokeFault.TheVariants as variants;

    ghost from_gives = { λ _ e. e ≡ variants.Memory };

    fn from(_error: Memory) -> RevokeFault {
        RevokeFault::Memory
    }
}
