//! Rows that go, with all that hangs on them.
ghost use Rattle.std.specs.Prelude.{◌≡◌};
ghost use Rattle.ks_machine.specs.declared.change.Change.{Change};
ghost use Rattle.ks_state.specs.Shown.{FitsWithRoom, Makes};

use crate::Identity;
use crate::domain_gone::{drop_creds, drop_factors, drop_grants, drop_people};
use crate::domain_rows::DomainRows;
use crate::unmade::Unmade;
use ks_base::{Actor, Id, Target};
use ks_machine::Change;

impl Identity {
    #[tactic(auto, unfolding(ks_machine::specs::Lawful::Fits, ks_machine::specs::Changes::apply, ks_machine::specs::Changes::effect, ks_machine::specs::Changes::domain_dropped))]
    pub(crate) fn drop_domain(&mut self, id: Id, most: usize) -> Result<(), Unmade>
        requires { FitsWithRoom most self.old (Change.DropDomain id) }
        ensures { Makes most self.old (Change.DropDomain id) result self.new }
    {
        let rows = DomainRows::of(&self.tree, &self.people, &id)?;
        let gone = self.domain_gone(&rows)?;
        self.log.ready(most, gone.things.as_slice().len())?;
        self.trusts.drop_all(&gone.ids);
        drop_grants(&mut self.grants, &self.tree, &self.people, &rows);
        drop_creds(&mut self.app_creds, &self.tree, &self.people, &rows);
        drop_factors(&mut self.factors, &self.people, &rows);
        drop_people(&mut self.people, &rows);
        let Ok(()) = self.tree.drop_domain(&id) else {
            unreachable!()
        };
        self.log
            .write(gone.things.as_slice(), Change::DropDomain(id));
        Ok(())
    }

    #[tactic(auto, unfolding(ks_machine::specs::Lawful::Fits, ks_machine::specs::Changes::apply, ks_machine::specs::Changes::effect, ks_machine::specs::Changes::project_dropped))]
    pub(crate) fn drop_project(&mut self, id: Id, most: usize) -> Result<(), Unmade>
        requires { FitsWithRoom most self.old (Change.DropProject id) }
        ensures { Makes most self.old (Change.DropProject id) result self.new }
    {
        let gone = self.project_gone(&id)?;
        self.log.ready(most, gone.things.as_slice().len())?;
        let Ok(()) = self.tree.drop_project(&id) else {
            unreachable!()
        };
        self.grants.drop_target(&Target::Project(id));
        self.app_creds.drop_project(&id);
        self.trusts.drop_all(&gone.ids);
        self.log
            .write(gone.things.as_slice(), Change::DropProject(id));
        Ok(())
    }

    #[tactic(auto, unfolding(ks_machine::specs::Lawful::Fits, ks_machine::specs::Changes::apply, ks_machine::specs::Changes::effect, ks_machine::specs::Changes::user_dropped))]
    pub(crate) fn drop_user(&mut self, id: Id, most: usize) -> Result<(), Unmade>
        requires { FitsWithRoom most self.old (Change.DropUser id) }
        ensures { Makes most self.old (Change.DropUser id) result self.new }
    {
        let gone = self.user_gone(&id)?;
        self.log.ready(most, gone.things.as_slice().len())?;
        let Ok(()) = self.people.drop_user(&id) else {
            unreachable!()
        };
        self.grants.drop_actor(&Actor::User(id));
        self.app_creds.drop_user(&id);
        self.factors.drop_user(&id);
        self.trusts.drop_all(&gone.ids);
        self.log.write(gone.things.as_slice(), Change::DropUser(id));
        Ok(())
    }

    #[tactic(auto, unfolding(ks_machine::specs::Lawful::Fits, ks_machine::specs::Changes::apply, ks_machine::specs::Changes::effect, ks_machine::specs::Changes::group_dropped))]
    pub(crate) fn drop_group(&mut self, id: Id, most: usize) -> Result<(), Unmade>
        requires { FitsWithRoom most self.old (Change.DropGroup id) }
        ensures { Makes most self.old (Change.DropGroup id) result self.new }
    {
        self.log.ready(most, 0)?;
        let Ok(()) = self.people.drop_group(&id) else {
            unreachable!()
        };
        self.grants.drop_actor(&Actor::Group(id));
        self.log.write(&[], Change::DropGroup(id));
        Ok(())
    }

    #[tactic(auto, unfolding(ks_machine::specs::Lawful::Fits, ks_machine::specs::Changes::apply, ks_machine::specs::Changes::effect, ks_machine::specs::Changes::role_dropped))]
    pub(crate) fn drop_role(&mut self, id: Id, most: usize) -> Result<(), Unmade>
        requires { FitsWithRoom most self.old (Change.DropRole id) }
        ensures { Makes most self.old (Change.DropRole id) result self.new }
    {
        let gone = self.role_gone(&id)?;
        self.log.ready(most, gone.things.as_slice().len())?;
        let Ok(()) = self.roles.drop_role(&id) else {
            unreachable!()
        };
        self.grants.drop_role(&id);
        self.app_creds.drop_role(&id);
        self.trusts.drop_all(&gone.ids);
        self.log.write(gone.things.as_slice(), Change::DropRole(id));
        Ok(())
    }

    #[tactic(auto, unfolding(ks_machine::specs::Changes::apply, ks_machine::specs::Changes::effect))]
    pub(crate) fn drop_trust(&mut self, id: Id, most: usize) -> Result<(), Unmade>
        ensures { Makes most self.old (Change.DropTrust id) result self.new }
    {
        let gone = self.trust_gone(&id)?;
        self.log.ready(most, gone.things.as_slice().len())?;
        self.trusts.drop_all(&gone.ids);
        self.log
            .write(gone.things.as_slice(), Change::DropTrust(id));
        Ok(())
    }
}
