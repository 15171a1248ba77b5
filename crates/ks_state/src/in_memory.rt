//! An identity in memory alone: each of its changes counts as kept as soon as it is made.
ghost use Rattle.std.specs.Prelude.{◌≡◌, ◌≤◌, length};
ghost use Rattle.ks_machine.specs.Fronts.{Front};
ghost use Rattle.ks_state.specs.Decides.{with_kept};
ghost use Rattle.ks_state.specs.Standing.{StandsWithAllKept, changes_made};

use crate::{Decides, Decision, Identity, Kept};
use ks_auth::Facts;
use ks_laws::{
    lawful_fronts_go_on, lawful_states_are_orderly, replies_can_be_told,
    steps_lack_what_can_be_found,
};
use ks_machine::Call;
use ks_turn::Journaled;
use std::convert::Infallible;

impl Journaled for Identity {
    ghost use Rattle.ks_state.specs.StandingLaws.{kept_is};

    ghost stands = { StandsWithAllKept };

    ghost kept = { changes_made };

    fn front(&self) -> (u64, u64) {
        lawful_fronts_go_on();
        Identity::front(self)
    }

    ghost keeps = { kept_is };
}

impl Decides for Identity {
    ghost use Rattle.ks_state.specs.StandingLaws.{stands_alone};

    type Fault = Infallible;

    fn decide(&mut self, call: &Call, facts: &Facts) -> Decision {
        lawful_states_are_orderly();
        steps_lack_what_can_be_found();
        replies_can_be_told();
        self.holds_few_keys();
        Identity::decide(self, call, facts)
    }

    fn keep(&mut self) -> Kept<Infallible>
        ensures same { (f : Front) → StandsWithAllKept self.old f → StandsWithAllKept self.new (with_kept f (changes_made self.new)) }
        ensures grows { changes_made self.old ≤ changes_made self.new }
        ensures yes { result ≡ Kept.Yes → (f : Front) → StandsWithAllKept self.new f → f.kept ≡ length f.changes }
        ensures always { result ≡ Kept.Yes }
        ensures nothing { self.new ≡ self.old }
    {
        Kept::Yes
    }

    ghost alone = { stands_alone };
}
