use ks_base::Memory;
use ks_keeper::KeepFault;

/// Why the entries of a keeper were not made once more.
#[derive(Clone, Copy, Debug, PartialEq, Eq)]
pub enum NotRead {
    /// The keeper failed.
    Failed,
    /// What stands at this number is no entry, or one that can't follow those before it.
    BadEntry(u64),
    /// There was no memory.
    Memory,
}

impl From<KeepFault> for NotRead {
    ghost use Rattle.std.specs.Prelude.{◌≡◌};
    ghost use Rattle.ks_keep.specs.Restored.{why_of};

    ghost from_gives = { λ fault why. why ≡ why_of fault };

    fn from(fault: KeepFault) -> NotRead {
        match fault {
            KeepFault::Failed => NotRead::Failed,
            KeepFault::Memory => NotRead::Memory,
        }
    }
}

impl From<Memory> for NotRead {
    ghost use Rattle.std.specs.Prelude.{◌≡◌};
    ghost use Rattle.ks_keep.specs.declared.fault.NotRead.TheVariants as variants;

    ghost from_gives = { λ _ why. why ≡ variants.Memory };

    fn from(_error: Memory) -> NotRead {
        NotRead::Memory
    }
}

/// The entries of a keeper were not made once more. The keeper comes back, with all that it held.
#[derive(Drop)]
pub struct NotRestored<K> {
    pub why: NotRead,
    pub keeper: K,
}
