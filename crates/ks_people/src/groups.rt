//! Groups: look-ups, checks and changes.
ghost use Rattle.std.specs.Prelude.{◌≡◌, ◌≢◌, find, option_copied, Err};
ghost use Rattle.ks_base.specs.declared.limits.TheConstants.{GROUPS};
ghost use Rattle.ks_base.specs.Refusals.{fault_in, Changes, Decides};
ghost use Rattle.ks_base.specs.Rows.{group_of};
ghost use Rattle.ks_base.specs.Tables.{id_cmp, IsAscending};
ghost use Rattle.ks_base.specs.People.{is_group_named, with_group, without_group};
ghost use Rattle.ks_base.specs.PeopleFaults.{group_absent, group_name_taken, other_group_named, add_group_fault, set_group_fault, drop_group_fault};

use crate::People;
use ks_base::limits::GROUPS;
use ks_base::{GroupRow, Id, InGroup, Kind, RowFault, Text, refuse_if};

impl People {
    /// The group with this id.
    pub fn group(&self, id: &Id) -> Option<&GroupRow>
        ensures found { option_copied result ≡ group_of id.now self.now.groups }
        ensures ascending { IsAscending id_cmp (λ row. row.id) self.now.groups }
    {
        self.groups.get(id)
    }

    /// The group of this domain with this name, compared by bytes.
    fn group_named(&self, domain: &Id, name: &Text) -> Option<&GroupRow>
        ensures { option_copied result ≡ find (is_group_named domain.now name.now) self.now.groups }
    {
        self.groups.named(domain.as_slice(), name)
    }

    /// Adds a group. Refused are a name that a group of the domain has (`NameTaken`), the 16,385th group (`Full`)
    /// and an id that a group has (`IdTaken`).
    #[tactic(auto, using(ks_base::proofs::RefusalLemmas::refused))]
    pub fn add_group(&mut self, row: GroupRow) -> Result<(), RowFault>
        ensures { Changes RowFault.Memory (add_group_fault self.old row) self.old (with_group row self.old) result self.new }
    {
        self.may_add_group(&row)?;
        self.groups.put(row)?;
        Ok(())
    }

    /// Puts the row in the place of the group with its id. Refused are an id that no group has (`Absent`) and a
    /// name that another group of the row's domain has (`NameTaken`). It takes no memory.
    #[tactic(auto, using(ks_base::proofs::RefusalLemmas::refused), unfolding(ks_base::specs::PeopleFaults::set_group_fault))]
    pub fn set_group(&mut self, row: GroupRow) -> Result<(), RowFault>
        ensures changes { Changes RowFault.Memory (set_group_fault self.old row) self.old (with_group row self.old) result self.new }
        ensures memory { result ≢ Err RowFault.Memory }
    {
        self.may_set_group(&row)?;
        self.groups.put(row)?;
        Ok(())
    }

    /// Takes a group out, with all its memberships: where they are few, no other is looked at. Refused is an id that no
    /// group has (`Absent`).
    #[tactic(auto, unfolding(ks_base::specs::PeopleFaults::drop_group_fault))]
    pub fn drop_group(&mut self, id: &Id) -> Result<(), RowFault>
        ensures decides { Decides (drop_group_fault self.old id.now) self.old (without_group id.now self.old) result self.new }
        ensures memory { result ≢ Err RowFault.Memory }
    {
        self.may_drop_group(id)?;
        self.groups.remove(id);
        self.members.drop_of(&InGroup { group: *id });
        Ok(())
    }

    /// The first cause for which `add_group` refuses the row, found without a change.
    #[tactic(auto, unfolding(ks_base::specs::PeopleFaults::add_group_fault))]
    pub fn may_add_group(&self, row: &GroupRow) -> Result<(), RowFault>
        ensures { fault_in result ≡ add_group_fault self.now row.now }
    {
        self.group_name_is_free(row)?;
        refuse_if(self.groups.len() >= GROUPS, RowFault::Full(Kind::Group))?;
        refuse_if(self.groups.contains(&row.id), RowFault::IdTaken(row.id))
    }

    /// The first cause for which `set_group` refuses the row, found without a change.
    #[tactic(auto, unfolding(ks_base::specs::PeopleFaults::set_group_fault))]
    pub fn may_set_group(&self, row: &GroupRow) -> Result<(), RowFault>
        ensures { fault_in result ≡ set_group_fault self.now row.now }
    {
        self.group_stands(&row.id)?;
        match self.groups.other_named(row) {
            Some(holder) => Err(RowFault::NameTaken(holder.id)),
            None => Ok(()),
        }
    }

    /// The cause for which `drop_group` refuses the id, found without a change.
    #[tactic(auto, unfolding(ks_base::specs::PeopleFaults::drop_group_fault))]
    pub fn may_drop_group(&self, id: &Id) -> Result<(), RowFault>
        ensures { fault_in result ≡ drop_group_fault self.now id.now }
    {
        self.group_stands(id)
    }

    /// Refuses where no group has the id (`Absent`).
    pub fn group_stands(&self, id: &Id) -> Result<(), RowFault>
        ensures { fault_in result ≡ group_absent self.now id.now }
    {
        refuse_if(
            !self.groups.contains(id),
            RowFault::Absent(Kind::Group, *id),
        )
    }

    fn group_name_is_free(&self, row: &GroupRow) -> Result<(), RowFault>
        ensures { fault_in result ≡ group_name_taken self.now row.now }
    {
        match self.group_named(&row.domain, &row.name) {
            Some(holder) => Err(RowFault::NameTaken(holder.id)),
            None => Ok(()),
        }
    }
}
