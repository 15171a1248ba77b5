use ks_base::Memory;
use std::alloc::{AllocError, AllocFailed};

/// How a value does not fit what a field takes.
#[derive(Clone, Copy)]
pub enum Misfit {
    /// It has another type.
    Kind,
    /// It has the type, and is outside its limits.
    Range,
}

/// Why a value was not read.
#[derive(Clone, Copy)]
pub enum Unread {
    /// It does not fit.
    Misfit(Misfit),
    /// There was no memory.
    Memory,
}

impl From<Misfit> for Unread {
    ghost use Rattle.std.specs.Prelude.{◌≡◌};
    ghost use Rattle.ks_shape.specs.declared.misfit.Unread.TheVariants as unread;

    ghost from_gives = { λ misfit e. e ≡ unread.Misfit misfit };

    fn from(misfit: Misfit) -> Unread {
        Unread::Misfit(misfit)
    }
}

impl From<Memory> for Unread {
    ghost use Rattle.std.specs.Prelude.{◌≡◌};
    ghost use Rattle.ks_shape.specs.declared.misfit.Unread.TheVariants as unread;

    ghost from_gives = { λ _ e. e ≡ unread.Memory };

    fn from(_error: Memory) -> Unread {
        Unread::Memory
    }
}

impl From<AllocError> for Unread {
    ghost use Rattle.std.specs.Prelude.{◌≡◌};
    ghost use Rattle.ks_shape.specs.declared.misfit.Unread.TheVariants as unread;

    ghost from_gives = { λ _ e. e ≡ unread.Memory };

    fn from(_error: AllocError) -> Unread {
        Unread::Memory
    }
}

impl<T: Drop> From<AllocFailed<T>> for Unread {
    ghost use Rattle.std.specs.Prelude.{◌≡◌};
    ghost use Rattle.ks_shape.specs.declared.misfit.Unread.TheVariants as unread;

    ghost from_gives = { λ _ e. e ≡ unread.Memory };

    fn from(_error: AllocFailed<T>) -> Unread {
        Unread::Memory
    }
}
