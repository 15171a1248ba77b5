//! The causes for which changes are refused, in the order in which they are tested.
ghost use Rattle.std.specs.Prelude.{◌≡◌};
ghost use Rattle.ks_base.specs.declared.limits.TheConstants.{IMPLICATIONS, ROLES};
ghost use Rattle.ks_base.specs.Refusals.{fault_in};
ghost use Rattle.ks_base.specs.RoleFaults.{role_absent, admin_implied, implications_full, implication_absent, add_fault, set_fault, drop_fault, imply_fault, unimply_fault};

use crate::Roles;
use ks_base::limits::{IMPLICATIONS, ROLES};
use ks_base::{Id, ImplyRow, Kind, RoleRow, RowFault, refuse_if};

/// The name of the role that no other may imply.
const ADMIN: &[u8] = b"admin";

impl Roles {
    /// The first cause for which `add` refuses the row, found without a change.
    #[tactic(auto, unfolding(ks_base::specs::RoleFaults::add_fault))]
    pub fn may_add(&self, row: &RoleRow) -> Result<(), RowFault>
        ensures { fault_in result ≡ add_fault self.now row.now }
    {
        if let Some(holder) = self.named(&row.name) {
            return Err(RowFault::NameTaken(holder.id));
        }
        refuse_if(self.roles.len() >= ROLES, RowFault::Full(Kind::Role))?;
        refuse_if(self.roles.contains(&row.id), RowFault::IdTaken(row.id))
    }

    /// The first cause for which `set` refuses the row, found without a change.
    #[tactic(auto, unfolding(ks_base::specs::RoleFaults::set_fault))]
    pub fn may_set(&self, row: &RoleRow) -> Result<(), RowFault>
        ensures { fault_in result ≡ set_fault self.now row.now }
    {
        self.stands(&row.id)?;
        match self.roles.other_named(row) {
            Some(holder) => Err(RowFault::NameTaken(holder.id)),
            None => Ok(()),
        }
    }

    /// The first cause for which `imply` refuses the row, found without a change.
    #[tactic(auto, unfolding(ks_base::specs::RoleFaults::imply_fault))]
    pub fn may_imply(&self, row: &ImplyRow) -> Result<(), RowFault>
        ensures { fault_in result ≡ imply_fault self.now row.now }
    {
        self.stands(&row.prior)?;
        self.stands(&row.implied)?;
        self.is_not_admin(&row.implied)?;
        self.has_room_for(row)
    }

    /// The first cause for which `unimply` refuses the row, found without a change.
    #[tactic(auto, unfolding(ks_base::specs::RoleFaults::unimply_fault))]
    pub fn may_unimply(&self, row: &ImplyRow) -> Result<(), RowFault>
        ensures { fault_in result ≡ unimply_fault self.now row.now }
    {
        self.stands(&row.prior)?;
        self.stands(&row.implied)?;
        refuse_if(
            !self.implications.has(row),
            RowFault::Absent(Kind::Implication, row.implied),
        )
    }

    /// Refuses where no role has the id (`Absent`).
    pub fn stands(&self, id: &Id) -> Result<(), RowFault>
        ensures { fault_in result ≡ role_absent self.now id.now }
    {
        refuse_if(!self.roles.contains(id), RowFault::Absent(Kind::Role, *id))
    }

    fn is_not_admin(&self, id: &Id) -> Result<(), RowFault>
        ensures { fault_in result ≡ admin_implied self.now id.now }
    {
        match self.role(id) {
            Some(row) => refuse_if(row.name.as_slice() == ADMIN, RowFault::Prohibited),
            None => Ok(()),
        }
    }

    fn has_room_for(&self, row: &ImplyRow) -> Result<(), RowFault>
        ensures { fault_in result ≡ implications_full self.now row.now }
    {
        refuse_if(
            !self.implications.has(row) && self.implications.len() >= IMPLICATIONS,
            RowFault::Full(Kind::Implication),
        )
    }
}
