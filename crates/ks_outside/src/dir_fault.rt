ghost use Rattle.std.specs.Prelude.{◌≡◌};

use crate::Failed;
use std::error::Error;
use std::io::ErrorKind;
use std::{fmt, io};

/// Why a call to a key folder gave nothing.
#[derive(Clone, Copy, Debug, PartialEq, Eq)]
pub enum DirFault {
    /// A fault of the outside: the folder has counted one more.
    Failed,
    /// Want of memory.
    Memory,
}

impl fmt::Display for DirFault {
    fn fmt<W: fmt::Write>(&self, f: &mut fmt::Formatter<W>) -> fmt::Result {
        match self {
            DirFault::Failed => write!(f, "a fault of the key folder"),
            DirFault::Memory => write!(f, "out of memory"),
        }
    }
}

impl Error for DirFault {}

impl From<Failed> for DirFault {
    ghost use Rattle.ks_outside.specs.declared.dir_fault.DirFault.TheVariants as variants;

    ghost from_gives = { λ _ e. e ≡ variants.Failed };

    fn from(_error: Failed) -> DirFault {
        DirFault::Failed
    }
}

impl From<ks_base::Memory> for DirFault {
    ghost use Rattle.ks_outside.specs.declared.dir_fault.DirFault.TheVariants as variants;

    ghost from_gives = { λ _ e. e ≡ variants.Memory };

    fn from(_error: ks_base::Memory) -> DirFault {
        DirFault::Memory
    }
}

impl From<io::Error> for DirFault {
    fn from(error: io::Error) -> DirFault {
        if error.kind() == ErrorKind::OutOfMemory {
            DirFault::Memory
        } else {
            DirFault::Failed
        }
    }
}
