ghost use Rattle.std.specs.Prelude.{◌≡◌, IfOk};

use crate::{Memory, TryCopy};
use std::alloc::Global;
use std::marker::Model;

/// Bytes of any length.
#[derive(Drop)]
pub struct Bytes {
    bytes: Vec<u8>,
}

impl Model for Bytes {
    ghost use Rattle.std.specs.Prelude.{ℕ, List};

    ghost Value = { List ℕ };

    ghost view = { λ a. a.bytes.items };
}

impl Bytes {
    /// A copy of these bytes.
    pub fn of(alloc: Global, bytes: &[u8]) -> Result<Bytes, Memory>
        ensures { IfOk result (λ made. made ≡ bytes.now) }
    {
        Ok(Bytes {
            bytes: Vec::from_slice(alloc, bytes)?,
        })
    }

    /// These bytes, in place.
    pub fn from_vec(bytes: Vec<u8>) -> Bytes
        ensures { result ≡ bytes.items }
    {
        Bytes { bytes }
    }

    /// An equal value.
    pub fn copy(&self) -> Result<Bytes, Memory>
        ensures { IfOk result (λ made. made ≡ self.now) }
    {
        Ok(Bytes {
            bytes: self.bytes.clone()?,
        })
    }

    /// The bytes.
    pub fn as_slice(&self) -> &[u8]
        ensures { result.now ≡ self.now }
    {
        self.bytes.as_slice()
    }
}

impl TryCopy for Bytes {
    fn copy(&self) -> Result<Bytes, Memory> {
        Bytes::copy(self)
    }
}
