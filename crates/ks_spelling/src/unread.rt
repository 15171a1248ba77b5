ghost use Rattle.std.specs.Prelude.{◌≡◌};
ghost use Rattle.ks_spelling.specs.declared.unread.Unread.TheVariants.{Memory};

use std::alloc::{AllocError, AllocFailed};

/// Why no value was read.
#[derive(Clone, Copy, Debug, PartialEq, Eq)]
pub enum Unread {
    Memory,
    /// No spelling of a value of the type stands at the front.
    NoSpelling,
}

impl From<ks_base::Memory> for Unread {
    ghost from_gives = { λ _ e. e ≡ Memory };

    fn from(_error: ks_base::Memory) -> Unread {
        Unread::Memory
    }
}

impl From<AllocError> for Unread {
    ghost from_gives = { λ _ e. e ≡ Memory };

    fn from(_error: AllocError) -> Unread {
        Unread::Memory
    }
}

impl<T: Drop> From<AllocFailed<T>> for Unread {
    ghost from_gives = { λ _ e. e ≡ Memory };

    fn from(_error: AllocFailed<T>) -> Unread {
        Unread::Memory
    }
}
