//! Changes of application credentials.
ghost use Rattle.std.specs.Prelude.{◌↔◌, IsTrue};
ghost use Rattle.ks_auth.specs.Answers.{rows_told};
ghost use Rattle.ks_fits.specs.Told.{OwnersStand, SaysFit};
ghost use Rattle.ks_machine.specs.declared.change.Change.TheVariants as changed;

use crate::ranges::is_app_cred_in_range;
use crate::trusts::do_stand;
use ks_auth::Tables;
use ks_base::{AppCredRow, Id};

/// Whether the user, the project and the roles of a credential stand.
fn owners_stand(tables: &Tables, row: &AppCredRow) -> bool
    ensures { IsTrue result ↔ OwnersStand (rows_told tables.now) row.now }
{
    tables.people.user(&row.user).is_some()
        && tables.tree.project(&row.project).is_some()
        && do_stand(tables, row.roles.as_slice())
}

/// Whether the credential may be made. That its roles are effective for its user is no part of it.
#[tactic(auto, unfolding(ks_machine::specs::Lawful::Fits))]
pub fn may_put_app_cred(tables: &Tables, row: &AppCredRow) -> bool
    ensures { SaysFit tables.now result (changed.PutAppCred row.now) }
{
    is_app_cred_in_range(row) && owners_stand(tables, row) && tables.app_creds.may_add(row).is_ok()
}

/// Whether the credential may be dropped.
#[tactic(auto, unfolding(ks_machine::specs::Lawful::Fits))]
pub fn may_drop_app_cred(tables: &Tables, id: &Id) -> bool
    ensures { SaysFit tables.now result (changed.DropAppCred id.now) }
{
    tables.app_creds.may_drop_row(id).is_ok()
}
