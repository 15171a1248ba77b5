//! Application credentials that come and go. No token is revoked with them: each validation asks whether they stand.
ghost use Rattle.std.specs.Prelude.{◌≡◌};
ghost use Rattle.ks_machine.specs.declared.change.Change.{Change};
ghost use Rattle.ks_state.specs.Shown.{FitsWithRoom, Makes};

use crate::Identity;
use crate::unmade::Unmade;
use ks_base::{AppCredRow, Id};
use ks_machine::Change;

impl Identity {
    #[tactic(auto, unfolding(ks_machine::specs::Changes::apply, ks_machine::specs::Changes::effect))]
    pub(crate) fn put_app_cred(&mut self, row: AppCredRow, most: usize) -> Result<(), Unmade>
        ensures { Makes most self.old (Change.PutAppCred row) result self.new }
    {
        let standing = row.copy()?;
        self.log.ready(most, 0)?;
        let Ok(()) = self.app_creds.add(standing) else {
            return Err(Unmade::Memory);
        };
        self.log.write(&[], Change::PutAppCred(row));
        Ok(())
    }

    #[tactic(auto, unfolding(ks_machine::specs::Lawful::Fits, ks_machine::specs::Changes::apply, ks_machine::specs::Changes::effect))]
    pub(crate) fn drop_app_cred(&mut self, id: Id, most: usize) -> Result<(), Unmade>
        requires { FitsWithRoom most self.old (Change.DropAppCred id) }
        ensures { Makes most self.old (Change.DropAppCred id) result self.new }
    {
        self.log.ready(most, 0)?;
        let Ok(()) = self.app_creds.drop_row(&id) else {
            unreachable!()
        };
        self.log.write(&[], Change::DropAppCred(id));
        Ok(())
    }
}
