//! Memberships: checks and changes.
ghost use Rattle.std.specs.Prelude.{◌≡◌, ◌≢◌, is_none, IfOk, IsSome, Err};
ghost use Rattle.ks_base.specs.declared.limits.TheConstants.{MEMBERS};
ghost use Rattle.ks_base.specs.Refusals.{fault_in, Changes, Decides};
ghost use Rattle.ks_base.specs.People.{member_of, with_member, without_member};
ghost use Rattle.ks_base.specs.PeopleFaults.{join_group_fault, leave_group_fault};

use crate::People;
use ks_base::limits::MEMBERS;
use ks_base::{Kind, MemberRow, RowFault, refuse_if};

impl People {
    /// Puts a user into a group, and says whether it was not in it. Refused are a group and then a user that
    /// does not stand (`Absent`), and the 262,145th membership (`Full`).
    #[tactic(auto, using(ks_base::proofs::RefusalLemmas::refused), unfolding(ks_base::specs::PeopleFaults::join_group_fault))]
    pub fn join_group(&mut self, row: MemberRow) -> Result<bool, RowFault>
        ensures changes { Changes RowFault.Memory (join_group_fault self.old row) self.old (with_member row self.old) result self.new }
        ensures new { IfOk result (λ new. new ≡ is_none (member_of row self.old.members)) }
        ensures stands { IsSome (member_of row self.old.members) → self.new ≡ self.old }
        ensures memory { IsSome (member_of row self.old.members) → result ≢ Err RowFault.Memory }
    {
        self.may_join(&row)?;
        Ok(self.members.add(row)?)
    }

    /// Takes a user out of a group. Refused are a group and then a user that does not stand (`Absent`), and a
    /// user that is not in the group (`Absent`, of the kind `Member`).
    #[tactic(auto, unfolding(ks_base::specs::PeopleFaults::leave_group_fault))]
    pub fn leave_group(&mut self, row: &MemberRow) -> Result<(), RowFault>
        ensures decides { Decides (leave_group_fault self.old row.now) self.old (without_member row.now self.old) result self.new }
        ensures memory { result ≢ Err RowFault.Memory }
    {
        self.may_leave(row)?;
        self.members.remove(row);
        Ok(())
    }

    /// The first cause for which `join_group` refuses the row, found without a change.
    #[tactic(auto, unfolding(ks_base::specs::PeopleFaults::join_group_fault))]
    pub fn may_join(&self, row: &MemberRow) -> Result<(), RowFault>
        ensures { fault_in result ≡ join_group_fault self.now row.now }
    {
        self.group_stands(&row.group)?;
        self.user_stands(&row.user)?;
        refuse_if(
            self.members.len() >= MEMBERS && !self.members.has(row),
            RowFault::Full(Kind::Member),
        )
    }

    /// The first cause for which `leave_group` refuses the row, found without a change.
    #[tactic(auto, unfolding(ks_base::specs::PeopleFaults::leave_group_fault))]
    pub fn may_leave(&self, row: &MemberRow) -> Result<(), RowFault>
        ensures { fault_in result ≡ leave_group_fault self.now row.now }
    {
        self.group_stands(&row.group)?;
        self.user_stands(&row.user)?;
        refuse_if(
            !self.members.has(row),
            RowFault::Absent(Kind::Member, row.user),
        )
    }
}
