//! Numbers, truth values and arrays.
ghost use Rattle.ks_spelling.specs.Leaves.{byte, fixed, number32, number64};
ghost use Rattle.ks_spelling.specs.Variants.{truth};

use crate::{Cursor, Spelled, Unread, write_place};
use ks_base::Memory;
use std::alloc::Global;

impl Spelled for u8 {
    ghost code = { byte };

    fn write_to(&self, into: &mut Vec<u8>) -> Result<(), Memory> {
        into.push(*self)?;
        Ok(())
    }

    fn read_from(_alloc: Global, from: &mut Cursor<'_>) -> Result<u8, Unread> {
        match from.byte() {
            Some(byte) => Ok(byte),
            None => Err(Unread::NoSpelling),
        }
    }
}

impl Spelled for u32 {
    ghost code = { number32 };

    #[tactic(auto, unfolding(crate::specs::Leaves::number32))]
    fn write_to(&self, into: &mut Vec<u8>) -> Result<(), Memory> {
        into.extend_from_slice(&self.to_be_bytes())?;
        Ok(())
    }

    #[tactic(auto, unfolding(crate::specs::Leaves::number32))]
    fn read_from(_alloc: Global, from: &mut Cursor<'_>) -> Result<u32, Unread> {
        match from.array::<4>() {
            Some(bytes) => Ok(u32::from_be_bytes(bytes)),
            None => Err(Unread::NoSpelling),
        }
    }
}

impl Spelled for u64 {
    ghost code = { number64 };

    #[tactic(auto, unfolding(crate::specs::Leaves::number64))]
    fn write_to(&self, into: &mut Vec<u8>) -> Result<(), Memory> {
        into.extend_from_slice(&self.to_be_bytes())?;
        Ok(())
    }

    #[tactic(auto, unfolding(crate::specs::Leaves::number64))]
    fn read_from(_alloc: Global, from: &mut Cursor<'_>) -> Result<u64, Unread> {
        match from.array::<8>() {
            Some(bytes) => Ok(u64::from_be_bytes(bytes)),
            None => Err(Unread::NoSpelling),
        }
    }
}

impl Spelled for bool {
    ghost code = { truth };

    #[tactic(auto, unfolding(crate::specs::Variants::truth))]
    fn write_to(&self, into: &mut Vec<u8>) -> Result<(), Memory> {
        if *self {
            write_place(1, into)
        } else {
            write_place(0, into)
        }
    }

    #[tactic(auto, unfolding(crate::specs::Variants::truth))]
    fn read_from(_alloc: Global, from: &mut Cursor<'_>) -> Result<bool, Unread> {
        match from.byte() {
            Some(0) => Ok(false),
            Some(1) => Ok(true),
            _ => Err(Unread::NoSpelling),
        }
    }
}

impl<const N: usize> Spelled for [u8; N] {
    ghost code = { fixed N };

    fn write_to(&self, into: &mut Vec<u8>) -> Result<(), Memory> {
        into.extend_from_slice(self)?;
        Ok(())
    }

    fn read_from(_alloc: Global, from: &mut Cursor<'_>) -> Result<[u8; N], Unread> {
        match from.array::<N>() {
            Some(bytes) => Ok(bytes),
            None => Err(Unread::NoSpelling),
        }
    }
}
