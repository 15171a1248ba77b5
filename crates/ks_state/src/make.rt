ghost use Rattle.std.specs.Prelude.{◌≡◌};
ghost use Rattle.ks_state.specs.Shown.{FitsWithRoom, Makes};

use crate::Identity;
use crate::unmade::Unmade;
use ks_machine::Change;

impl Identity {
    /// Makes a change that fits, at the highest moment, and writes down what it revokes, where at most so many revocations
    /// are live then. Where it is not made, nothing changes.
    pub(crate) fn make(&mut self, change: Change, most: usize) -> Result<(), Unmade>
        requires { FitsWithRoom most self.old change }
        ensures { Makes most self.old change result self.new }
    {
        match change {
            Change::PutDomain(row) => self.put_domain(row, most),
            Change::PutProject(row) => self.put_project(row, most),
            Change::PutUser(row) => self.put_user(row, most),
            Change::PutGroup(row) => self.put_group(row, most),
            Change::PutRole(row) => self.put_role(row, most),
            Change::PutTrust(row) => self.put_trust(row, most),
            Change::DropDomain(id) => self.drop_domain(id, most),
            Change::DropProject(id) => self.drop_project(id, most),
            Change::DropUser(id) => self.drop_user(id, most),
            Change::DropGroup(id) => self.drop_group(id, most),
            Change::DropRole(id) => self.drop_role(id, most),
            Change::DropTrust(id) => self.drop_trust(id, most),
            Change::Join(row) => self.join(row, most),
            Change::Leave(row) => self.leave(row, most),
            Change::Imply(row) => self.imply(row, most),
            Change::Unimply(row) => self.unimply(row, most),
            Change::Grant(row) => self.grant(row, most),
            Change::Ungrant(row) => self.ungrant(row, most),
            Change::UseTrust(id) => self.use_trust(id, most),
            Change::RevokeToken(audit) => self.revoke_token(audit, most),
            Change::Rotate(key) => self.rotate(key, most),
            Change::Load(keys) => self.load(keys, most),
            Change::PutRegion(row) => self.put_region(row, most),
            Change::PutService(row) => self.put_service(row, most),
            Change::PutEndpoint(row) => self.put_endpoint(row, most),
            Change::DropRegion(id) => self.drop_region(id, most),
            Change::DropService(id) => self.drop_service(id, most),
            Change::DropEndpoint(id) => self.drop_endpoint(id, most),
            Change::PutAppCred(row) => self.put_app_cred(row, most),
            Change::DropAppCred(id) => self.drop_app_cred(id, most),
            Change::PutSecret(row) => self.put_secret(row, most),
            Change::DropSecret(id) => self.drop_secret(id, most),
            Change::PutUserWith(row, rules) => self.put_user_with(row, rules, most),
        }
    }
}
