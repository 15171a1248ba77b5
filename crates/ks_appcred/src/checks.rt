//! The causes for which changes are refused, in the order in which they are tested.
ghost use Rattle.std.specs.Prelude.{◌≡◌};
ghost use Rattle.ks_base.specs.declared.limits.TheConstants.{APP_CREDS};
ghost use Rattle.ks_base.specs.AppCreds.{add_cred_fault, cred_name_taken, drop_cred_fault};
ghost use Rattle.ks_base.specs.Refusals.{fault_in};

use crate::AppCreds;
use ks_base::limits::APP_CREDS;
use ks_base::{AppCredRow, Id, Kind, RowFault, refuse_if};

impl AppCreds {
    /// The first cause for which `add` refuses the row, found without a change.
    #[tactic(auto, unfolding(ks_base::specs::AppCreds::add_cred_fault))]
    pub fn may_add(&self, row: &AppCredRow) -> Result<(), RowFault>
        ensures { fault_in result ≡ add_cred_fault self.now row.now }
    {
        self.name_is_free(row)?;
        refuse_if(self.creds.len() >= APP_CREDS, RowFault::Full(Kind::AppCred))?;
        refuse_if(self.creds.contains(&row.id), RowFault::IdTaken(row.id))
    }

    /// The cause for which `drop_row` refuses the id, found without a change.
    pub fn may_drop_row(&self, id: &Id) -> Result<(), RowFault>
        ensures { fault_in result ≡ drop_cred_fault self.now id.now }
    {
        refuse_if(
            !self.creds.contains(id),
            RowFault::Absent(Kind::AppCred, *id),
        )
    }

    /// Refuses where a credential of the row's user has its name (`NameTaken`, with that credential's id).
    fn name_is_free(&self, row: &AppCredRow) -> Result<(), RowFault>
        ensures { fault_in result ≡ cred_name_taken self.now row.now }
    {
        match self.named(&row.user, &row.name) {
            Some(holder) => Err(RowFault::NameTaken(holder.id)),
            None => Ok(()),
        }
    }
}
