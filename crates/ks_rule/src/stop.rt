ghost use Rattle.std.specs.Prelude.{◌≡◌};
ghost use Rattle.ks_rule.specs.declared.stop.Stop.TheVariants.{OutOfMemory};

use ks_base::Memory;
use std::alloc::AllocFailed;

/// Why the reading of a rule ends early.
#[derive(Clone, Copy)]
pub enum Stop {
    /// The text is no rule.
    Unreadable,
    OutOfMemory,
}

impl From<Memory> for Stop {
    ghost from_gives = { λ _ stop. stop ≡ OutOfMemory };

    fn from(_memory: Memory) -> Stop {
        Stop::OutOfMemory
    }
}

impl<T: Drop> From<AllocFailed<T>> for Stop {
    ghost from_gives = { λ _ stop. stop ≡ OutOfMemory };

    fn from(_failed: AllocFailed<T>) -> Stop {
        Stop::OutOfMemory
    }
}
