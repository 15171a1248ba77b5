ghost use Rattle.std.specs.Prelude.{◌≡◌, ◌≢◌, ◌+◌, ◌≤◌, [], option_copied, Err, IfOk, IsOk, OnOk};
ghost use Rattle.ks_base.specs.declared.limits.TheConstants.{SECRETS};
ghost use Rattle.ks_base.specs.Factors.{add_secret_fault, drop_secret_fault, secret_ids, secret_of, with_rules, with_secret, without_factors, without_secret};
ghost use Rattle.ks_base.specs.Refusals.{fault_in, Changes, Decides};
ghost use Rattle.ks_base.specs.Tables.{id_cmp, IsAscending};
ghost use Rattle.ks_totp.specs.Factors.{fits, met, of_users};

use crate::owners::{Others, OwnerRow};
use crate::{rules, secrets};
use ks_base::limits::SECRETS;
use ks_base::{
    Id, IdList, IdTable, Kind, Memory, MfaRow, RowFault, RowSet, SecretRow, Test, refuse_if,
};
use std::alloc::Global;
use std::marker::Model;

/// The secrets in the order of their ids, beside them whose they are, and the rules in the order of their users.
///
/// Rules are put where there is room for them, which a table has not; so they stand in a vector.
#[derive(Drop)]
pub struct Factors {
    secrets: IdTable<SecretRow>,
    owners: RowSet<OwnerRow>,
    rules: Vec<MfaRow>,
}

impl Model for Factors {
    ghost use Rattle.std.specs.Prelude.{◌-◌, vec_len, vec_capacity};
    ghost use Rattle.ks_base.specs.Tables.{id_cmp, IsAscending};
    ghost use Rattle.ks_totp.specs.Factors.{Kept};
    ghost use Rattle.ks_totp.specs.Owners.{AreOwners};

    ghost Value = { Kept };

    ghost view = { λ f. record { state = record { secrets = f.secrets; rules = f.rules.items }; room = vec_capacity f.rules - vec_len f.rules } };

    ghost invariant = { λ f. AreOwners f.secrets f.owners × IsAscending id_cmp (λ row. row.user) f.rules.items };
}

impl Factors {
    /// No secrets and no rules, which take no memory yet.
    pub fn new(alloc: Global) -> Factors
        ensures { result ≡ record { state = record { secrets = []; rules = [] }; room = result.room } }
    {
        Factors {
            secrets: IdTable::new(alloc),
            owners: RowSet::new(alloc),
            rules: Vec::new(alloc),
        }
    }

    /// Adds a secret. Refused are the 65,537th secret (`Full`) and an id that a secret has (`IdTaken`). Whatever is refused
    /// changes nothing.
    #[tactic(auto, using(ks_base::proofs::RefusalLemmas::refused))]
    pub fn add_secret(&mut self, row: SecretRow) -> Result<(), RowFault>
        ensures { Changes RowFault.Memory (add_secret_fault self.old.state row) self.old (record self.old { state = with_secret row self.old.state }) result self.new }
    {
        self.may_add_secret(&row)?;
        secrets::add(&mut self.secrets, &mut self.owners, row)?;
        Ok(())
    }

    /// Takes a secret out. Refused is an id that no secret has (`Absent`). It takes no memory.
    pub fn drop_secret(&mut self, id: &Id) -> Result<(), RowFault>
        ensures decides { Decides (drop_secret_fault self.old.state id.now) self.old (record self.old { state = without_secret id.now self.old.state }) result self.new }
        ensures memory { result ≢ Err RowFault.Memory }
    {
        self.may_drop_secret(id)?;
        secrets::remove(&mut self.secrets, &mut self.owners, id);
        Ok(())
    }

    /// The secret with this id.
    pub fn secret(&self, id: &Id) -> Option<&SecretRow>
        ensures found { option_copied result ≡ secret_of id.now self.now.state.secrets }
        ensures ascending { IsAscending id_cmp (λ row. row.id) self.now.state.secrets }
    {
        self.secrets.get(id)
    }

    /// The ids of all secrets, in their order.
    pub fn secret_ids(&self) -> Result<IdList, Memory>
        ensures { IfOk result (λ ids. ids ≡ secret_ids self.now.state) }
    {
        self.secrets.ids()
    }

    /// Whether the code of six digits is one that a secret of the user gives at the moment, in seconds since
    /// 1970-01-01T00:00:00Z, or 30 seconds before. All secrets of the user are tried in any case. It takes no memory.
    pub fn fits(&self, user: &Id, code: u32, moment: u64) -> bool
        ensures { result ≡ fits self.now.state user.now code moment }
    {
        secrets::any_fits(&self.secrets, &self.owners, user, code, moment)
    }

    /// Makes room for a row of rules. Where the room is there already, memory is no cause.
    pub fn rules_room(&mut self) -> Result<(), Memory>
        ensures same { self.new.state ≡ self.old.state }
        ensures kept { self.old.room ≤ self.new.room }
        ensures ok { OnOk result (1 ≤ self.new.room) }
        ensures stands { 1 ≤ self.old.room → IsOk result }
    {
        self.rules.reserve(1)?;
        Ok(())
    }

    /// Puts the row in the place of its user's rules, for which there is room. It takes no memory.
    pub fn put_rules(&mut self, row: MfaRow)
        requires { 1 ≤ self.old.room }
        ensures state { self.new.state ≡ with_rules row self.old.state }
        ensures left { self.old.room ≤ self.new.room + 1 }
    {
        rules::put(&mut self.rules, row);
    }

    /// Whether the methods, a bit for each (bit 0 password, bit 2 totp), suffice for the user: it has no rules, or none that
    /// are enabled, or all methods of one of its rules are there. It takes no memory.
    pub fn met(&self, user: &Id, methods: u8) -> bool
        ensures { result ≡ met self.now.state user.now methods }
    {
        match rules::place(self.rules.as_slice(), user) {
            Ok(at) => rules::row_met(&self.rules[at], methods),
            Err(_) => true,
        }
    }

    /// Takes the secrets and the rules of a user out. It takes no memory.
    pub fn drop_user(&mut self, user: &Id)
        ensures state { self.new.state ≡ without_factors user.now self.old.state }
        ensures room { self.old.room ≤ self.new.room }
    {
        secrets::keep_of(&mut self.secrets, &mut self.owners, &Others { user });
        rules::remove(&mut self.rules, user);
    }

    /// Leaves the secrets and the rules of users that pass the test, for which it goes through all, once. It takes no memory.
    pub fn keep_users<T: Test<Id>>(&mut self, users: &T)
        ensures state { self.new.state ≡ of_users (T.test users.now) self.old.state }
        ensures room { self.old.room ≤ self.new.room }
    {
        secrets::keep_of(&mut self.secrets, &mut self.owners, users);
        rules::keep_of(&mut self.rules, users);
    }

    /// The first cause for which `add_secret` refuses the row, found without a change.
    #[tactic(auto, unfolding(ks_base::specs::Factors::add_secret_fault))]
    pub fn may_add_secret(&self, row: &SecretRow) -> Result<(), RowFault>
        ensures { fault_in result ≡ add_secret_fault self.now.state row.now }
    {
        refuse_if(self.secrets.len() >= SECRETS, RowFault::Full(Kind::Secret))?;
        refuse_if(self.secrets.contains(&row.id), RowFault::IdTaken(row.id))
    }

    /// The cause for which `drop_secret` refuses the id, found without a change.
    pub fn may_drop_secret(&self, id: &Id) -> Result<(), RowFault>
        ensures { fault_in result ≡ drop_secret_fault self.now.state id.now }
    {
        refuse_if(
            !self.secrets.contains(id),
            RowFault::Absent(Kind::Secret, *id),
        )
    }
}
