use std::error::Error;
use std::fmt;

/// Why a call of a keeper gave nothing.
#[derive(Clone, Copy, Debug, PartialEq, Eq)]
pub enum KeepFault {
    /// A fault of the outside: the keeper has counted one more.
    Failed,
    /// Want of memory, or of room for a number or an entry.
    Memory,
}

impl fmt::Display for KeepFault {
    fn fmt<W: fmt::Write>(&self, f: &mut fmt::Formatter<W>) -> fmt::Result {
        match self {
            KeepFault::Failed => write!(f, "a fault of the keeper"),
            KeepFault::Memory => write!(f, "out of memory"),
        }
    }
}

impl Error for KeepFault {}

impl From<ks_base::Memory> for KeepFault {
    ghost use Rattle.std.specs.Prelude.{◌≡◌};
    ghost use Rattle.ks_keeper.specs.declared.fault.KeepFault.TheVariants as variants;

    ghost from_gives = { λ _ e. e ≡ variants.Memory };

    fn from(_error: ks_base::Memory) -> KeepFault {
        KeepFault::Memory
    }
}
