ghost use Rattle.std.specs.Prelude.{◌≡◌, IfSome};
ghost use Rattle.ks_auth.specs.Answers.{rows_told};
ghost use Rattle.ks_auth.specs.Facts.{told};
ghost use Rattle.ks_machine.specs.Fit.{Fit};
ghost use Rattle.ks_machine.specs.Fronts.{Front};
ghost use Rattle.ks_machine.specs.Moment.{moment_of};
ghost use Rattle.ks_machine.specs.Ranges.{IsSettings};
ghost use Rattle.ks_state.specs.Deciding.{Decided, IsPlanned};
ghost use Rattle.ks_state.specs.Planning.{GoOn};
ghost use Rattle.ks_state.specs.Replies.{CarriesOut, told_if};
ghost use Rattle.ks_state.specs.Shown.{FitsWithRoom};
ghost use Rattle.ks_state.specs.Standing.{Stands};

use crate::unmade::Unmade;
use crate::{Decision, Identity};
use ks_auth::{Facts, Tables};
use ks_base::Kind;
use ks_checks::{Halt, Plan};
use ks_machine::{BodyOut, Call, Cause, Change, Reply, few_facts_suffice};

impl Identity {
    /// What becomes of a call of which this was planned.
    pub(crate) fn settle(
        &mut self,
        call: &Call,
        _facts: &Facts,
        moment: u64,
        planned: Result<Plan, Halt>,
    ) -> Decision
        requires fit { Fit call.now }
        requires moment { moment ≡ moment_of self.old.state.high call.now.reading }
        requires stands { (f : Front) × Stands self.old f }
        requires lawful { GoOn }
        requires planned { (f : Front) → Stands self.old f → IsPlanned (told _facts.now) f call.now planned }
        ensures decided { (f : Front) → Stands self.old f → Decided f call.now _facts.now result self.old self.new }
    {
        few_facts_suffice();
        match planned {
            Ok(plan) => {
                self.raise(moment);
                let most = call.command.event_limit();
                Decision::Done(self.carry_out(plan, most))
            }
            Err(Halt::Refused(cause)) => {
                self.raise(moment);
                Decision::Done(Reply::Refused(cause))
            }
            Err(Halt::Needs(needs)) => Decision::Needs(needs),
            Err(Halt::Memory) => {
                self.raise(moment);
                Decision::Done(Reply::Refused(Cause::Memory))
            }
        }
    }

    /// Makes the change that was planned, if there is one, where at most so many revocations are live then, and tells what
    /// was planned.
    fn carry_out(&mut self, plan: Plan, most: usize) -> Reply
        requires { IfSome plan.change (λ what. FitsWithRoom most self.old what) }
        ensures { CarriesOut plan.told plan.change most self.old result self.new }
    {
        let (told, change) = plan.into_parts();
        self.make_and_tell(told, change, most)
    }

    /// Makes this change, if it is one, and tells this.
    fn make_and_tell(&mut self, told: BodyOut, change: Option<Change>, most: usize) -> Reply
        requires { IfSome change (λ what. FitsWithRoom most self.old what) }
        ensures { CarriesOut told change most self.old result self.new }
    {
        match change {
            None => Reply::Ok(told),
            Some(change) => told_if(self.make(change, most), told),
        }
    }

    /// The tables at which plans look.
    pub(crate) fn tables(&self) -> Tables<'_>
        ensures rows { rows_told result ≡ self.now.state.rows }
        ensures settings { result.settings.now ≡ self.now.state.settings }
        ensures ring { result.ring.now ≡ self.now.state.ring }
        ensures events { result.revoked.now.events ≡ self.now.state.events }
        ensures high { result.revoked.now.high ≡ self.now.state.high }
        ensures life { result.revoked.now.life ≡ self.now.state.settings.life }
        ensures range { IsSettings result.settings.now }
    {
        Tables {
            tree: &self.tree,
            people: &self.people,
            roles: &self.roles,
            grants: &self.grants,
            trusts: &self.trusts,
            catalog: &self.catalog,
            app_creds: &self.app_creds,
            factors: &self.factors,
            revoked: self.log.revoked(),
            ring: &self.ring,
            settings: &self.settings,
        }
    }
}

/// What is told of a change, where it was made.
fn told_if(made: Result<(), Unmade>, told: BodyOut) -> Reply
    ensures { result ≡ told_if made told }
{
    let why = match made {
        Ok(()) => return Reply::Ok(told),
        Err(Unmade::Full) => Cause::Full(Kind::Event),
        Err(Unmade::Memory) => Cause::Memory,
    };
    // By one call, or each exit would spell out how a body of each kind is let go.
    drop(told);
    Reply::Refused(why)
}
