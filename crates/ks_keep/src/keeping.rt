//! How pending changes come to be kept.
ghost use Rattle.std.specs.Prelude.{◌≡◌, ◌⊎◌, ◌+◌, ◌<◌, ◌≤◌, ℕ, [], ◌∷◌, true, false, length, Ok, Err, IfOk, OnOk};
ghost use Rattle.ks_keep.specs.Books.{AreKept, StandsBooked, seen_by};
ghost use Rattle.ks_keep.specs.Keeping.{GoesOn, IsLacking, IsSpelled};
ghost use Rattle.ks_machine.specs.Fronts.{Front};
ghost use Rattle.ks_outside.specs.Counts.{Counts};

use crate::{Booked, Since};
use ks_base::{Bytes, Memory};
use ks_entries::write_entry;
use ks_keeper::{KeepFault, Keeper};
use ks_state::Kept;

/// A keeper failed while changes were to be kept. Only `keep` of a `Booked` makes one.
#[derive(Debug, Drop)]
pub struct KeeperFailed {
    seen: (),
}

impl<K: Keeper, N: Since> Booked<K, N> {
    /// Keeps what is pending, the oldest first.
    pub(crate) fn keep_changes(&mut self) -> Kept<KeeperFailed>
        ensures on { GoesOn (seen_by K.kept K.whole K.faults) self.old self.new }
        ensures yes { result ≡ Kept.Yes → (self.new.pending ≡ []) × IsSpelled self.new }
        ensures faults { Counts ((why : KeeperFailed) × (result ≡ Kept.Fault why)) (K.faults self.old.keeper) (K.faults self.new.keeper) }
        ensures idle { self.old.pending ≡ [] → self.old.kept ≡ self.old.shown.state.made → (result ≡ Kept.Yes) × (self.new ≡ self.old) }
    {
        match self.keep_pending() {
            Ok(()) => Kept::Yes,
            Err(KeepFault::Failed) => Kept::Fault(KeeperFailed { seen: () }),
            Err(KeepFault::Memory) => Kept::Memory,
        }
    }

    /// Spells the newest change where it lacks that, and keeps what is pending up to the first fault.
    fn keep_pending(&mut self) -> Result<(), KeepFault>
        ensures on { GoesOn (seen_by K.kept K.whole K.faults) self.old self.new }
        ensures ok { OnOk result ((self.new.pending ≡ []) × IsSpelled self.new) }
        ensures faults { Counts (result ≡ Err KeepFault.Failed) (K.faults self.old.keeper) (K.faults self.new.keeper) }
        ensures idle { self.old.pending ≡ [] → self.old.kept ≡ self.old.shown.state.made → (result ≡ Ok tt) × (self.new ≡ self.old) }
    {
        self.spell_newest()?;
        while self.keep_first()? {}
        Ok(())
    }

    /// Keeps the oldest of what is pending. `false` is that nothing is.
    fn keep_first(&mut self) -> Result<bool, KeepFault>
        ensures on { GoesOn (seen_by K.kept K.whole K.faults) self.old self.new }
        ensures one { result ≡ Ok true → (self.new.kept ≡ self.old.kept + 1) × (length self.old.pending ≡ length self.new.pending + 1) }
        ensures none { result ≡ Ok false → (self.old.pending ≡ []) × (self.new ≡ self.old) }
        ensures idle { self.old.pending ≡ [] → result ≡ Ok false }
        ensures faults { Counts (result ≡ Err KeepFault.Failed) (K.faults self.old.keeper) (K.faults self.new.keeper) }
    {
        let Some(bytes) = self.pending.front() else {
            return Ok(false);
        };
        // As many changes as were made can be counted.
        let (_made, _moment) = self.identity.front();
        self.keeper.keep(self.kept, bytes.as_slice())?;
        let _kept = self.pending.pop_front();
        self.kept += 1;
        Ok(true)
    }

    /// Spells the newest change, where it lacks that.
    fn spell_newest(&mut self) -> Result<(), Memory>
        ensures on { GoesOn (seen_by K.kept K.whole K.faults) self.old self.new }
        ensures ok { OnOk result (IsSpelled self.new) }
        ensures keeper { self.new.keeper ≡ self.old.keeper }
        ensures idle { self.old.kept + length self.old.pending ≡ self.old.shown.state.made → (result ≡ Ok tt) × (self.new ≡ self.old) }
    {
        if let Some(bytes) = self.lacking()? {
            self.pending.push_back(bytes)?;
        }
        Ok(())
    }

    /// The spelling that the newest change lacks, if it lacks one.
    pub(crate) fn lacking(&self) -> Result<Option<Bytes>, Memory>
        ensures lacking { IfOk result (λ bytes. IsLacking self.now bytes) }
        ensures idle { self.now.kept + length self.now.pending ≡ self.now.shown.state.made → result ≡ Ok None }
    {
        let (made, _moment) = self.identity.front();
        if self.kept + self.pending.len() as u64 == made {
            return Ok(None);
        }
        match self.identity.newest() {
            None => Ok(None),
            Some(entry) => Ok(Some(write_entry(self.alloc, entry)?)),
        }
    }
}
