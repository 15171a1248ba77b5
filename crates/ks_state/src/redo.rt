//! A change that was kept, made once more.
ghost use Rattle.std.specs.Prelude.{◌≡◌, ◌≤◌, ◌↔◌, Ok, Err, true, false, IsTrue};
ghost use Rattle.ks_base.specs.declared.limits.TheConstants.{EVENTS};
ghost use Rattle.ks_machine.specs.Fronts.{Front};
ghost use Rattle.ks_machine.specs.Lawful.{Fits, TakesKeys};
ghost use Rattle.ks_machine.specs.Moment.{last_moment};
ghost use Rattle.ks_state.specs.Restoring.{MayFollow, redone};
ghost use Rattle.ks_state.specs.Shown.{HasRoom, changed, has_room};
ghost use Rattle.ks_state.specs.Standing.{StandsWithAllKept};
ghost use Rattle.ks_state.specs.declared.redo.RedoFault.{RedoFault};

use crate::Identity;
use crate::unmade::Unmade;
use ks_base::Memory;
use ks_base::limits::{EVENTS, LAST_READING};
use ks_fits::fits;
use ks_laws::lawful_states_are_orderly;
use ks_machine::{Change, Entry};
use std::mem;

/// Why a change is not made once more.
#[derive(Debug, Drop)]
pub enum RedoFault {
    /// It can't follow those before it.
    Unfit,
    /// There was no memory, or as many changes were made as may be.
    Memory,
}

impl From<Memory> for RedoFault {
    ghost use Rattle.ks_state.specs.declared.redo.RedoFault.TheVariants as variants;

    ghost from_gives = { λ _ e. e ≡ variants.Memory };

    fn from(_error: Memory) -> RedoFault {
        RedoFault::Memory
    }
}

impl Identity {
    /// Makes the change of an entry once more, at its moment. After an error the identity is of no further use.
    pub fn redo(&mut self, entry: Entry) -> Result<(), RedoFault>
        requires stands { (f : Front) × StandsWithAllKept self.old f }
        ensures ok { result ≡ Ok tt → (f : Front) → StandsWithAllKept self.old f → StandsWithAllKept self.new (redone f entry) }
        ensures ok_follows { result ≡ Ok tt → (f : Front) → StandsWithAllKept self.old f → f.high ≤ entry.moment }
        ensures unfit { result ≡ Err RedoFault.Unfit → (f : Front) → StandsWithAllKept self.old f → MayFollow f entry → ⊥ }
    {
        lawful_states_are_orderly();
        if !self.is_next(entry.number, entry.moment) {
            return Err(RedoFault::Unfit);
        }
        self.raise(entry.moment);
        self.make_if_fit(change_of(entry))
    }

    /// Whether the next change has this number and may have this moment.
    fn is_next(&self, number: u64, moment: u64) -> bool
        ensures { IsTrue result ↔ ((number ≡ self.now.state.made) × (self.now.state.high ≤ moment) × (moment ≤ last_moment)) }
    {
        number == self.log.made() && self.log.high() <= moment && moment <= LAST_READING
    }

    /// Makes a change at the highest moment, where it fits and finds room.
    fn make_if_fit(&mut self, change: Change) -> Result<(), RedoFault>
        requires keys { TakesKeys self.old.state.ring }
        ensures ok { result ≡ Ok tt → Fits self.old.state self.old.state.high change × HasRoom EVENTS self.old change × (self.new ≡ changed change self.old) }
        ensures unfit { result ≡ Err RedoFault.Unfit → Fits self.old.state self.old.state.high change → has_room EVENTS self.old change ≡ false }
    {
        if !fits(self.alloc, &self.tables(), self.log.high(), &change)? {
            return Err(RedoFault::Unfit);
        }
        match self.make(change, EVENTS) {
            Ok(()) => Ok(()),
            Err(Unmade::Full) => Err(RedoFault::Unfit),
            Err(Unmade::Memory) => Err(RedoFault::Memory),
        }
    }
}

/// The change of an entry. An entry can't be taken apart here, so that another change, which takes no memory, is left in
/// its place.
fn change_of(mut entry: Entry) -> Change
    ensures { result ≡ entry.change }
{
    mem::replace(&mut entry.change, Change::RevokeToken([0; 16]))
}
