//! An identity with its keeper decides calls as the identity does, and its changes are kept when the keeper has them.
ghost use Rattle.std.specs.Prelude.{◌≡◌, ◌≤◌, ℕ, [], length};
ghost use Rattle.ks_keep.specs.Books.{AreKept, StandsSince, kept_of, seen_by};
ghost use Rattle.ks_machine.specs.Fronts.{Front};
ghost use Rattle.ks_outside.specs.Counts.{Counts};
ghost use Rattle.ks_state.specs.Decides.{with_kept};

use crate::{Booked, KeeperFailed, Since, stops_leave_books};
use ks_auth::Facts;
use ks_keeper::Keeper;
use ks_laws::lawful_fronts_go_on;
use ks_machine::{Call, Cause, Reply};
use ks_state::{Decides, Decision, Kept};
use ks_turn::Journaled;

impl<K: Keeper, N: Since> Journaled for Booked<K, N> {
    ghost use Rattle.ks_keep.specs.Books.{StandsSince, kept_of, seen_by};
    ghost use Rattle.ks_keep.specs.BookLaws.{kept_is};

    ghost stands = { StandsSince (seen_by K.kept K.whole K.faults) N.holds };

    ghost kept = { kept_of };

    fn front(&self) -> (u64, u64) {
        lawful_fronts_go_on();
        self.identity.front()
    }

    ghost keeps = { kept_is (seen_by K.kept K.whole K.faults) N.holds };
}

impl<K: Keeper, N: Since> Decides for Booked<K, N> {
    ghost use Rattle.ks_keep.specs.Books.{seen_by};
    ghost use Rattle.ks_keep.specs.BookLaws.{booked_alone};

    type Fault = KeeperFailed;

    fn decide(&mut self, call: &Call, facts: &Facts) -> Decision {
        let Ok(lacking) = self.lacking() else {
            return Decision::Done(Reply::Refused(Cause::Memory));
        };
        // Room for that spelling and for the one of the change that is made now.
        if self.pending.reserve(2).is_err() {
            return Decision::Done(Reply::Refused(Cause::Memory));
        }
        match (Decides::decide(&mut self.identity, call, facts), lacking) {
            (Decision::Done(reply), Some(bytes)) => {
                self.pending.push_back_reserved(bytes);
                Decision::Done(reply)
            }
            (Decision::Done(reply), None) => Decision::Done(reply),
            (Decision::Needs(needs), lacking) => {
                drop(lacking);
                Decision::Needs(needs)
            }
        }
    }

    fn keep(&mut self) -> Kept<KeeperFailed>
        ensures same { (f : Front) → StandsSince (seen_by K.kept K.whole K.faults) N.holds self.old f → StandsSince (seen_by K.kept K.whole K.faults) N.holds self.new (with_kept f (kept_of self.new)) }
        ensures grows { kept_of self.old ≤ kept_of self.new }
        ensures yes { result ≡ Kept.Yes → (f : Front) → StandsSince (seen_by K.kept K.whole K.faults) N.holds self.new f → f.kept ≡ length f.changes }
        ensures faults { Counts ((why : KeeperFailed) × (result ≡ Kept.Fault why)) (K.faults self.old.keeper) (K.faults self.new.keeper) }
        ensures idle { self.old.pending ≡ [] → self.old.kept ≡ self.old.shown.state.made → (result ≡ Kept.Yes) × (self.new ≡ self.old) }
        ensures all { result ≡ Kept.Yes → K.whole self.new.keeper → (f : Front) → StandsSince (seen_by K.kept K.whole K.faults) N.holds self.new f → AreKept (K.kept self.new.keeper).entries f.changes }
    {
        stops_leave_books();
        self.keep_changes()
    }

    ghost alone = { booked_alone (seen_by K.kept K.whole K.faults) N.holds };
}
