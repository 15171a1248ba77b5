ghost use Rattle.std.specs.Prelude.{◌≡◌};

use crate::{Id, Kind, Memory, TryCopy};
use std::alloc::{AllocError, AllocFailed};

/// Why a change of the trees of domains and projects is refused.
#[derive(Clone, Copy)]
pub enum TreeFault {
    /// No row of this kind has this id.
    Absent(Kind, Id),
    /// The project with this id, which is to be the parent, stands in another domain.
    NoParent(Id),
    /// The project would be too far below its domain.
    TooDeep,
    /// This row has rows below it.
    HasChildren(Id),
    /// This project below it is enabled.
    EnabledBelow(Id),
    /// This row above it is disabled.
    DisabledAbove(Id),
    /// The domain is enabled.
    DomainEnabled,
    /// This row has the name.
    NameTaken(Id),
    /// The table of this kind is full.
    Full(Kind),
    /// A row has the id that was drawn.
    IdTaken(Id),
    /// Memory ended.
    Memory,
}

/// Why a change of a row is refused.
#[derive(Clone, Copy)]
pub enum RowFault {
    /// No row of this kind has this id.
    Absent(Kind, Id),
    /// It may not be changed in this way.
    Prohibited,
    /// This row has the name.
    NameTaken(Id),
    /// The table of this kind is full.
    Full(Kind),
    /// A row has the id that was drawn.
    IdTaken(Id),
    /// Memory ended.
    Memory,
}

/// Why a trust is not made or used (OS-TRUST), in the order in which the causes are tested.
#[derive(Clone, Copy)]
pub enum TrustFault {
    /// The caller is not the trustor.
    NotTrustor,
    /// The caller's token is not of the trust that is to be redelegated, or the project is not that trust's.
    NotParent,
    /// There is no role.
    NoRoles,
    /// No redelegation is left, or the count is not the next one.
    DepthOut,
    /// The parent has not this role.
    RoleNotInParent(Id),
    /// The parent does not impersonate.
    Impersonation,
    /// A redelegated trust has a number of uses of its own.
    UsesSet,
    /// It would expire later than its parent.
    LaterThanParent,
    /// The first trustor has this role no longer.
    RoleLost(Id),
    /// Its expiry is not above the moment.
    Expired,
    /// No trust has this id.
    Absent(Id),
    /// The user is not the trustee.
    NotTrustee,
    /// No use is left.
    Spent,
    /// This user of the trust is disabled, or in a disabled domain.
    UserOff(Id),
    /// The table of this kind is full.
    Full(Kind),
    /// The drawn id stands already.
    IdTaken(Id),
    /// There was no memory.
    Memory,
}

/// Why a list of keys is no ring. `TooMany` is tested before `Repeated`.
#[derive(Clone, Copy)]
pub enum LoadFault {
    /// There is no key.
    Empty,
    /// Two keys have this index.
    Repeated(u32),
    /// There are more than 32 keys.
    TooMany,
}

/// Why the keys of a folder are not read or changed.
#[derive(Clone, Copy)]
pub enum KeysFault {
    /// The folder failed.
    Failed,
    /// It has no key.
    NoKeys,
    /// The file of this index is missing, too long or no key.
    BadKey(u32),
    /// It has more than 32 keys.
    TooMany,
    /// It has keys already.
    AlreadySet,
    /// The highest index is the last that a file may have.
    IndexEnd,
    /// There was no memory.
    Memory,
}

impl TryCopy for TrustFault {
    fn copy(&self) -> Result<TrustFault, Memory> {
        Ok(*self)
    }
}

impl TryCopy for LoadFault {
    fn copy(&self) -> Result<LoadFault, Memory> {
        Ok(*self)
    }
}

impl TryCopy for KeysFault {
    fn copy(&self) -> Result<KeysFault, Memory> {
        Ok(*self)
    }
}

impl TryCopy for TreeFault {
    fn copy(&self) -> Result<TreeFault, Memory> {
        Ok(*self)
    }
}

impl TryCopy for RowFault {
    fn copy(&self) -> Result<RowFault, Memory> {
        Ok(*self)
    }
}

impl From<Memory> for TreeFault {
    ghost use Rattle.ks_base.specs.declared.faults.TreeFault.TheVariants as variants;

    ghost from_gives = { λ _ e. e ≡ variants.Memory };

    fn from(_error: Memory) -> TreeFault {
        TreeFault::Memory
    }
}

impl From<AllocError> for TreeFault {
    ghost use Rattle.ks_base.specs.declared.faults.TreeFault.TheVariants as variants;

    ghost from_gives = { λ _ e. e ≡ variants.Memory };

    fn from(_error: AllocError) -> TreeFault {
        TreeFault::Memory
    }
}

impl<T: Drop> From<AllocFailed<T>> for TreeFault {
    ghost use Rattle.ks_base.specs.declared.faults.TreeFault.TheVariants as variants;

    ghost from_gives = { λ _ e. e ≡ variants.Memory };

    fn from(_error: AllocFailed<T>) -> TreeFault {
        TreeFault::Memory
    }
}

impl From<Memory> for RowFault {
    ghost use Rattle.ks_base.specs.declared.faults.RowFault.TheVariants as variants;

    ghost from_gives = { λ _ e. e ≡ variants.Memory };

    fn from(_error: Memory) -> RowFault {
        RowFault::Memory
    }
}

impl From<AllocError> for RowFault {
    ghost use Rattle.ks_base.specs.declared.faults.RowFault.TheVariants as variants;

    ghost from_gives = { λ _ e. e ≡ variants.Memory };

    fn from(_error: AllocError) -> RowFault {
        RowFault::Memory
    }
}

impl<T: Drop> From<AllocFailed<T>> for RowFault {
    ghost use Rattle.ks_base.specs.declared.faults.RowFault.TheVariants as variants;

    ghost from_gives = { λ _ e. e ≡ variants.Memory };

    fn from(_error: AllocFailed<T>) -> RowFault {
        RowFault::Memory
    }
}

impl From<Memory> for KeysFault {
    ghost use Rattle.ks_base.specs.declared.faults.KeysFault.TheVariants as variants;

    ghost from_gives = { λ _ e. e ≡ variants.Memory };

    fn from(_error: Memory) -> KeysFault {
        KeysFault::Memory
    }
}
