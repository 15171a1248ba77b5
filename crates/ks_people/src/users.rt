//! Users: look-ups, checks and changes.
ghost use Rattle.std.specs.Prelude.{◌≡◌, ◌≢◌, find, option_copied, Err};
ghost use Rattle.ks_base.specs.declared.limits.TheConstants.{USERS};
ghost use Rattle.ks_base.specs.Refusals.{fault_in, Changes, Decides};
ghost use Rattle.ks_base.specs.Rows.{user_of};
ghost use Rattle.ks_base.specs.Tables.{id_cmp, IsAscending};
ghost use Rattle.ks_base.specs.People.{is_user_named, with_user, without_user};
ghost use Rattle.ks_base.specs.PeopleFaults.{user_absent, user_name_taken, other_user_named, add_user_fault, set_user_fault, drop_user_fault};

use crate::People;
use ks_base::limits::USERS;
use ks_base::{Id, Kind, OfUser, RowFault, Text, UserRow, refuse_if};

impl People {
    /// The user with this id.
    pub fn user(&self, id: &Id) -> Option<&UserRow>
        ensures found { option_copied result ≡ user_of id.now self.now.users }
        ensures ascending { IsAscending id_cmp (λ row. row.id) self.now.users }
    {
        self.users.get(id)
    }

    /// The user of this domain with this name, compared by bytes.
    pub fn user_named(&self, domain: &Id, name: &Text) -> Option<&UserRow>
        ensures { option_copied result ≡ find (is_user_named domain.now name.now) self.now.users }
    {
        self.users.named(domain.as_slice(), name)
    }

    /// Adds a user. Refused are a name that a user of the domain has (`NameTaken`), the 65,537th user (`Full`)
    /// and an id that a user has (`IdTaken`).
    #[tactic(auto, using(ks_base::proofs::RefusalLemmas::refused))]
    pub fn add_user(&mut self, row: UserRow) -> Result<(), RowFault>
        ensures { Changes RowFault.Memory (add_user_fault self.old row) self.old (with_user row self.old) result self.new }
    {
        self.may_add_user(&row)?;
        self.users.put(row)?;
        Ok(())
    }

    /// Puts the row in the place of the user with its id. Refused are an id that no user has (`Absent`) and a
    /// name that another user of the row's domain has (`NameTaken`). It takes no memory.
    #[tactic(auto, using(ks_base::proofs::RefusalLemmas::refused), unfolding(ks_base::specs::PeopleFaults::set_user_fault))]
    pub fn set_user(&mut self, row: UserRow) -> Result<(), RowFault>
        ensures changes { Changes RowFault.Memory (set_user_fault self.old row) self.old (with_user row self.old) result self.new }
        ensures memory { result ≢ Err RowFault.Memory }
    {
        self.may_set_user(&row)?;
        self.users.put(row)?;
        Ok(())
    }

    /// Takes a user out, with all its memberships: where they are few, no other is looked at. Refused is an id that no
    /// user has (`Absent`).
    #[tactic(auto, unfolding(ks_base::specs::PeopleFaults::drop_user_fault))]
    pub fn drop_user(&mut self, id: &Id) -> Result<(), RowFault>
        ensures decides { Decides (drop_user_fault self.old id.now) self.old (without_user id.now self.old) result self.new }
        ensures memory { result ≢ Err RowFault.Memory }
    {
        self.may_drop_user(id)?;
        self.users.remove(id);
        self.members.drop_at(&OfUser { user: *id });
        Ok(())
    }

    /// The first cause for which `add_user` refuses the row, found without a change.
    #[tactic(auto, unfolding(ks_base::specs::PeopleFaults::add_user_fault))]
    pub fn may_add_user(&self, row: &UserRow) -> Result<(), RowFault>
        ensures { fault_in result ≡ add_user_fault self.now row.now }
    {
        self.user_name_is_free(row)?;
        refuse_if(self.users.len() >= USERS, RowFault::Full(Kind::User))?;
        refuse_if(self.users.contains(&row.id), RowFault::IdTaken(row.id))
    }

    /// The first cause for which `set_user` refuses the row, found without a change.
    #[tactic(auto, unfolding(ks_base::specs::PeopleFaults::set_user_fault))]
    pub fn may_set_user(&self, row: &UserRow) -> Result<(), RowFault>
        ensures { fault_in result ≡ set_user_fault self.now row.now }
    {
        self.user_stands(&row.id)?;
        match self.users.other_named(row) {
            Some(holder) => Err(RowFault::NameTaken(holder.id)),
            None => Ok(()),
        }
    }

    /// The cause for which `drop_user` refuses the id, found without a change.
    #[tactic(auto, unfolding(ks_base::specs::PeopleFaults::drop_user_fault))]
    pub fn may_drop_user(&self, id: &Id) -> Result<(), RowFault>
        ensures { fault_in result ≡ drop_user_fault self.now id.now }
    {
        self.user_stands(id)
    }

    /// Refuses where no user has the id (`Absent`).
    pub fn user_stands(&self, id: &Id) -> Result<(), RowFault>
        ensures { fault_in result ≡ user_absent self.now id.now }
    {
        refuse_if(!self.users.contains(id), RowFault::Absent(Kind::User, *id))
    }

    /// Refuses where a user of the row's domain has its name (`NameTaken`, with that user's id).
    pub fn user_name_is_free(&self, row: &UserRow) -> Result<(), RowFault>
        ensures { fault_in result ≡ user_name_taken self.now row.now }
    {
        match self.user_named(&row.domain, &row.name) {
            Some(holder) => Err(RowFault::NameTaken(holder.id)),
            None => Ok(()),
        }
    }
}
