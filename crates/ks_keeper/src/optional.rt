//! A keeper where there may be none.
ghost use Rattle.std.specs.Prelude.{MatchOption};
ghost use Rattle.std.specs.Option.{option_map_or};
ghost use Rattle.ks_keeper.specs.Keeper.{nothing_kept};

use crate::{KeepFault, Keeper};
use ks_base::Bytes;

/// `None` holds nothing and keeps nothing: it has no room.
impl<K: Keeper> Keeper for Option<K> {
    ghost kept = { λ keeper. option_map_or K.Keeper.kept keeper nothing_kept };

    ghost whole = { λ keeper. MatchOption keeper (Unit {0}) K.Keeper.whole };

    ghost faults = { λ keeper. option_map_or K.Keeper.faults keeper 0 };

    fn header(&mut self) -> Result<Option<Bytes>, KeepFault> {
        match self {
            Some(keeper) => keeper.header(),
            None => Ok(None),
        }
    }

    fn set_header(&mut self, header: &[u8]) -> Result<(), KeepFault> {
        match self {
            Some(keeper) => keeper.set_header(header),
            None => Err(KeepFault::Memory),
        }
    }

    fn read(&mut self, number: u64) -> Result<Option<Bytes>, KeepFault> {
        match self {
            Some(keeper) => keeper.read(number),
            None => Ok(None),
        }
    }

    fn keep(&mut self, number: u64, entry: &[u8]) -> Result<(), KeepFault> {
        match self {
            Some(keeper) => keeper.keep(number, entry),
            None => Err(KeepFault::Memory),
        }
    }
}
