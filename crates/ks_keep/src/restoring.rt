//! How an identity comes back from what a keeper holds.
ghost use Rattle.std.specs.Prelude.{◌≡◌, Err};
ghost use Rattle.ks_keep.specs.Books.{HasHeader, seen_by};
ghost use Rattle.ks_keep.specs.Pasts.{entries_of};
ghost use Rattle.ks_keep.specs.Redoing.{RedoesAll, RedoesAt};
ghost use Rattle.ks_keep.specs.Restored.{IsRead, Restores};
ghost use Rattle.ks_keep.specs.declared.fault.NotRead.{NotRead};
ghost use Rattle.ks_keeper.specs.Keeper.{IsTidy};
ghost use Rattle.ks_machine.specs.Fronts.{Front, first_front};
ghost use Rattle.ks_machine.specs.Openings.{PlainOpening};
ghost use Rattle.ks_outside.specs.Counts.{Counts};
ghost use Rattle.ks_state.specs.Standing.{StandsWithAllKept};

use crate::{NotRead, NotRestored, Past};
use ks_entries::{entries_differ, read_entry};
use ks_keeper::{KeepFault, Keeper};
use ks_state::{Identity, RedoFault};
use std::alloc::Global;
use std::snapshot::Snapshot;

/// Makes the changes that a keeper holds once more, from the entry with number 0 on to the first number that has none. Each
/// entry is read when it is its turn.
pub fn restored<K: Keeper>(
    alloc: Global,
    identity: Identity,
    keeper: K,
) -> Result<(Identity, K, Past), NotRestored<K>>
    requires opened { (opening : PlainOpening) × StandsWithAllKept identity (first_front opening) }
    requires tidy { K.whole keeper → IsTidy (K.kept keeper) }
    ensures { (opening : PlainOpening) → StandsWithAllKept identity (first_front opening) → (K.whole keeper → HasHeader (K.kept keeper) opening) → Restores (seen_by K.kept K.whole K.faults) keeper opening result }
{
    let mut identity = identity;
    let mut keeper = keeper;
    match redo_all(alloc, &mut identity, &mut keeper) {
        Ok(past) => Ok((identity, keeper, past)),
        Err(why) => Err(NotRestored { why, keeper }),
    }
}

/// Makes the changes of all entries.
fn redo_all<K: Keeper>(
    alloc: Global,
    identity: &mut Identity,
    keeper: &mut K,
) -> Result<Past, NotRead>
    requires opened { (opening : PlainOpening) × StandsWithAllKept identity.old (first_front opening) }
    ensures redoes { (opening : PlainOpening) → StandsWithAllKept identity.old (first_front opening) → RedoesAll (seen_by K.kept K.whole K.faults) keeper.old opening result identity.new keeper.new }
    ensures faults { Counts (result ≡ Err NotRead.Failed) (K.faults keeper.old) (K.faults keeper.new) }
{
    let mut past = Past::Start;
    let mut number = 0;
    while redo_at(alloc, number, identity, keeper, &mut past)? {
        number += 1;
    }
    Ok(past)
}

/// Makes the change of the entry with this number. `false` is that there is none.
fn redo_at<K: Keeper>(
    alloc: Global,
    number: u64,
    identity: &mut Identity,
    keeper: &mut K,
    past: &mut Past,
) -> Result<bool, NotRead>
    requires stands { (f : Front) × StandsWithAllKept identity.old f }
    ensures read { IsRead (seen_by K.kept K.whole K.faults) keeper.old keeper.new }
    ensures redoes { RedoesAt (K.kept keeper.old).entries (K.whole keeper.new) number identity.old (entries_of past.old) result identity.new (entries_of past.new) }
    ensures faults { Counts (result ≡ Err NotRead.Failed) (K.faults keeper.old) (K.faults keeper.new) }
{
    let Some(bytes) = keeper.read(number)? else {
        return Ok(false);
    };
    let Some(entry) = read_entry(alloc, bytes.as_slice())? else {
        return Err(NotRead::BadEntry(number));
    };
    entries_differ();
    *past = Past::Then(Snapshot::of(past), Snapshot::of(&entry));
    match identity.redo(entry) {
        Ok(()) => Ok(true),
        Err(RedoFault::Unfit) => Err(NotRead::BadEntry(number)),
        Err(RedoFault::Memory) => Err(NotRead::Memory),
    }
}
