//! Trusts that are used, tokens that end, and keys that change.
ghost use Rattle.std.specs.Prelude.{◌≡◌};
ghost use Rattle.ks_machine.specs.declared.change.Change.{Change};
ghost use Rattle.ks_state.specs.Shown.{FitsWithRoom, Makes};

use crate::Identity;
use crate::unmade::Unmade;
use ks_base::{Id, Key, KeyList, Revoke};
use ks_machine::Change;

impl Identity {
    #[tactic(auto, unfolding(ks_machine::specs::Lawful::Fits, ks_machine::specs::Changes::apply, ks_machine::specs::Changes::effect))]
    pub(crate) fn use_trust(&mut self, id: Id, most: usize) -> Result<(), Unmade>
        requires { FitsWithRoom most self.old (Change.UseTrust id) }
        ensures { Makes most self.old (Change.UseTrust id) result self.new }
    {
        self.log.ready(most, 0)?;
        let Some(trust) = self.trusts.trust(&id) else {
            unreachable!()
        };
        let trustee = trust.trustee;
        let moment = self.log.high();
        let Ok(()) = self.trusts.use_one(&id, &trustee, moment) else {
            unreachable!()
        };
        self.log.write(&[], Change::UseTrust(id));
        Ok(())
    }

    #[tactic(auto, unfolding(ks_machine::specs::Changes::apply, ks_machine::specs::Changes::effect))]
    pub(crate) fn revoke_token(&mut self, audit: [u8; 16], most: usize) -> Result<(), Unmade>
        ensures { Makes most self.old (Change.RevokeToken audit) result self.new }
    {
        self.log.ready(most, 1)?;
        self.log
            .write(&[Revoke::Audit(audit)], Change::RevokeToken(audit));
        Ok(())
    }

    #[tactic(auto, unfolding(ks_machine::specs::Lawful::Fits, ks_machine::specs::Changes::apply, ks_machine::specs::Changes::effect))]
    pub(crate) fn rotate(&mut self, key: Key, most: usize) -> Result<(), Unmade>
        requires { FitsWithRoom most self.old (Change.Rotate key) }
        ensures { Makes most self.old (Change.Rotate key) result self.new }
    {
        self.log.ready(most, 0)?;
        self.ring.rotate(key, self.settings.max_keys);
        self.log.write(&[], Change::Rotate(key));
        Ok(())
    }

    #[tactic(auto, unfolding(ks_machine::specs::Lawful::Fits, ks_machine::specs::Changes::apply, ks_machine::specs::Changes::effect))]
    pub(crate) fn load(&mut self, keys: KeyList, most: usize) -> Result<(), Unmade>
        requires { FitsWithRoom most self.old (Change.Load keys) }
        ensures { Makes most self.old (Change.Load keys) result self.new }
    {
        self.log.ready(most, 0)?;
        let Ok(()) = self.ring.load(keys.as_slice()) else {
            return Err(Unmade::Memory);
        };
        self.log.write(&[], Change::Load(keys));
        Ok(())
    }
}
