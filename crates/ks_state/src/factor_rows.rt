//! Secrets of one-time codes that come and go, and users who come with rules of the methods that they log in by.
ghost use Rattle.std.specs.Prelude.{◌≡◌};
ghost use Rattle.ks_machine.specs.declared.change.Change.{Change};
ghost use Rattle.ks_state.specs.Shown.{FitsWithRoom, Makes};

use crate::Identity;
use crate::ended::user_ended;
use crate::puts::put_user;
use crate::unmade::Unmade;
use ks_base::{Id, MfaRow, SecretRow, UserRow};
use ks_machine::Change;

impl Identity {
    #[tactic(auto, unfolding(ks_machine::specs::Changes::apply, ks_machine::specs::Changes::effect))]
    pub(crate) fn put_secret(&mut self, row: SecretRow, most: usize) -> Result<(), Unmade>
        ensures { Makes most self.old (Change.PutSecret row) result self.new }
    {
        let standing = row.copy()?;
        self.log.ready(most, 0)?;
        let Ok(()) = self.factors.add_secret(standing) else {
            return Err(Unmade::Memory);
        };
        self.log.write(&[], Change::PutSecret(row));
        Ok(())
    }

    #[tactic(auto, unfolding(ks_machine::specs::Lawful::Fits, ks_machine::specs::Changes::apply, ks_machine::specs::Changes::effect))]
    pub(crate) fn drop_secret(&mut self, id: Id, most: usize) -> Result<(), Unmade>
        requires { FitsWithRoom most self.old (Change.DropSecret id) }
        ensures { Makes most self.old (Change.DropSecret id) result self.new }
    {
        self.log.ready(most, 0)?;
        let Ok(()) = self.factors.drop_secret(&id) else {
            unreachable!()
        };
        self.log.write(&[], Change::DropSecret(id));
        Ok(())
    }

    /// Puts a user and its rules. The room for the rules is made before the user's row changes, so that both are put or neither.
    #[tactic(auto, unfolding(ks_machine::specs::Changes::apply, ks_machine::specs::Changes::effect))]
    pub(crate) fn put_user_with(
        &mut self,
        row: UserRow,
        rules: MfaRow,
        most: usize,
    ) -> Result<(), Unmade>
        ensures { Makes most self.old (Change.PutUserWith row rules) result self.new }
    {
        let things = user_ended(self.alloc, self.people.user(&row.id), &row)?;
        let standing = row.copy()?;
        let standing_rules = rules.copy()?;
        self.log.ready(most, things.as_slice().len())?;
        self.factors.rules_room()?;
        put_user(&mut self.people, standing)?;
        self.factors.put_rules(standing_rules);
        self.log
            .write(things.as_slice(), Change::PutUserWith(row, rules));
        Ok(())
    }
}
