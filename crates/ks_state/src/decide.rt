ghost use Rattle.std.specs.Prelude.{◌≡◌, ◌≤◌};
ghost use Rattle.ks_auth.specs.Facts.{told};
ghost use Rattle.ks_machine.specs.Fit.{Fit};
ghost use Rattle.ks_machine.specs.Fronts.{Front};
ghost use Rattle.ks_machine.specs.Moment.{last_moment, moment_of};
ghost use Rattle.ks_state.specs.Deciding.{Decided, IsPlanned};
ghost use Rattle.ks_state.specs.Standing.{Stands};

use crate::{Decision, Identity};
use ks_auth::Facts;
use ks_checks::{Halt, Plan};
use ks_laws::lawful_fronts_go_on;
use ks_machine::{Call, Command, moment, restricted_tokens_are_held_back};
use ks_plan::plan_call;

impl Identity {
    /// Decides a call: what the machine answers, or which facts of ciphers that takes.
    ///
    /// After a reply the highest moment is the call's. `Refused(Memory)` may come in place of any reply, also where as many
    /// changes were made as may be, and then nothing else changes. Where facts are lacking nothing changes at all.
    pub fn decide(&mut self, call: &Call, facts: &Facts) -> Decision
        requires fit { Fit call.now }
        requires stands { (f : Front) × Stands self.old f }
        ensures { (f : Front) → Stands self.old f → Decided f call.now facts.now result self.old self.new }
    {
        // What the machine answers is such that a restricted application credential makes no other, and no trust.
        restricted_tokens_are_held_back();
        lawful_fronts_go_on();
        self.prepare(call);
        let moment = self.moment_of(call);
        let planned = self.planned(call, facts, moment);
        self.settle(call, facts, moment, planned)
    }

    /// Makes ready what the call may tell of the catalog.
    fn prepare(&mut self, call: &Call)
        ensures { self.new ≡ self.old }
    {
        match call.command {
            Command::Login(_) | Command::Validate(_) | Command::ShowCatalog => self
                .catalog
                .prepare(),
            _ => {}
        }
    }

    /// The moment of the call.
    fn moment_of(&self, call: &Call) -> u64
        requires { (f : Front) × Stands self.now f }
        ensures moment { result ≡ moment_of self.now.state.high call.now.reading }
        ensures high { self.now.state.high ≤ result }
        ensures last { result ≤ last_moment }
    {
        moment(self.log.high(), call.reading)
    }

    /// What is planned of the call.
    fn planned(&self, call: &Call, facts: &Facts, moment: u64) -> Result<Plan, Halt>
        requires fit { Fit call.now }
        requires moment { moment ≡ moment_of self.now.state.high call.now.reading }
        requires high { self.now.state.high ≤ moment }
        requires last { moment ≤ last_moment }
        ensures { (f : Front) → Stands self.now f → IsPlanned (told facts.now) f call.now result }
    {
        let seen = self.tables();
        plan_call(self.alloc, &seen, &self.rules, moment, call, facts)
    }
}
