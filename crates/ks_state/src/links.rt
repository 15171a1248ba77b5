//! Memberships, implications and grants that come and go.
ghost use Rattle.std.specs.Prelude.{◌≡◌};
ghost use Rattle.ks_machine.specs.declared.change.Change.{Change};
ghost use Rattle.ks_state.specs.Shown.{FitsWithRoom, Makes};

use crate::Identity;
use crate::unmade::Unmade;
use ks_base::{GrantRow, ImplyRow, MemberRow, TryCopy};
use ks_machine::Change;

impl Identity {
    #[tactic(auto, unfolding(ks_machine::specs::Changes::apply, ks_machine::specs::Changes::effect))]
    pub(crate) fn join(&mut self, row: MemberRow, most: usize) -> Result<(), Unmade>
        ensures { Makes most self.old (Change.Join row) result self.new }
    {
        let standing = row.copy()?;
        self.log.ready(most, 0)?;
        let Ok(_) = self.people.join_group(standing) else {
            return Err(Unmade::Memory);
        };
        self.log.write(&[], Change::Join(row));
        Ok(())
    }

    #[tactic(auto, unfolding(ks_machine::specs::Lawful::Fits, ks_machine::specs::Changes::apply, ks_machine::specs::Changes::effect))]
    pub(crate) fn leave(&mut self, row: MemberRow, most: usize) -> Result<(), Unmade>
        requires { FitsWithRoom most self.old (Change.Leave row) }
        ensures { Makes most self.old (Change.Leave row) result self.new }
    {
        self.log.ready(most, 0)?;
        let Ok(()) = self.people.leave_group(&row) else {
            unreachable!()
        };
        self.log.write(&[], Change::Leave(row));
        Ok(())
    }

    #[tactic(auto, unfolding(ks_machine::specs::Changes::apply, ks_machine::specs::Changes::effect))]
    pub(crate) fn imply(&mut self, row: ImplyRow, most: usize) -> Result<(), Unmade>
        ensures { Makes most self.old (Change.Imply row) result self.new }
    {
        let standing = row.copy()?;
        self.log.ready(most, 0)?;
        let Ok(_) = self.roles.imply(standing) else {
            return Err(Unmade::Memory);
        };
        self.log.write(&[], Change::Imply(row));
        Ok(())
    }

    #[tactic(auto, unfolding(ks_machine::specs::Lawful::Fits, ks_machine::specs::Changes::apply, ks_machine::specs::Changes::effect))]
    pub(crate) fn unimply(&mut self, row: ImplyRow, most: usize) -> Result<(), Unmade>
        requires { FitsWithRoom most self.old (Change.Unimply row) }
        ensures { Makes most self.old (Change.Unimply row) result self.new }
    {
        self.log.ready(most, 0)?;
        let Ok(()) = self.roles.unimply(&row) else {
            unreachable!()
        };
        self.log.write(&[], Change::Unimply(row));
        Ok(())
    }

    #[tactic(auto, unfolding(ks_machine::specs::Changes::apply, ks_machine::specs::Changes::effect))]
    pub(crate) fn grant(&mut self, row: GrantRow, most: usize) -> Result<(), Unmade>
        ensures { Makes most self.old (Change.Grant row) result self.new }
    {
        let _actor = &row.actor;
        let standing = row.copy()?;
        self.log.ready(most, 0)?;
        let Ok(_) = self.grants.grant(standing) else {
            return Err(Unmade::Memory);
        };
        self.log.write(&[], Change::Grant(row));
        Ok(())
    }

    #[tactic(auto, unfolding(ks_machine::specs::Lawful::Fits, ks_machine::specs::Changes::apply, ks_machine::specs::Changes::effect))]
    pub(crate) fn ungrant(&mut self, row: GrantRow, most: usize) -> Result<(), Unmade>
        requires { FitsWithRoom most self.old (Change.Ungrant row) }
        ensures { Makes most self.old (Change.Ungrant row) result self.new }
    {
        let _actor = &row.actor;
        self.log.ready(most, 0)?;
        let Ok(()) = self.grants.ungrant(&row) else {
            unreachable!()
        };
        self.log.write(&[], Change::Ungrant(row));
        Ok(())
    }
}
