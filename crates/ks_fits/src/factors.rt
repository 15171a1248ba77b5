//! Changes of second factors.
ghost use Rattle.ks_fits.specs.Told.{SaysFit};
ghost use Rattle.ks_machine.specs.declared.change.Change.TheVariants as changed;

use crate::people::is_user_put;
use crate::ranges::{are_mfa_rules, is_totp_secret};
use ks_auth::Tables;
use ks_base::{Id, MfaRow, SecretRow, UserRow};

/// Whether the secret may be put.
#[tactic(auto, unfolding(ks_machine::specs::Lawful::Fits))]
pub fn may_put_secret(tables: &Tables, row: &SecretRow) -> bool
    ensures { SaysFit tables.now result (changed.PutSecret row.now) }
{
    is_totp_secret(&row.secret)
        && tables.people.user(&row.user).is_some()
        && tables.factors.may_add_secret(row).is_ok()
}

/// Whether the secret may be dropped.
#[tactic(auto, unfolding(ks_machine::specs::Lawful::Fits))]
pub fn may_drop_secret(tables: &Tables, id: &Id) -> bool
    ensures { SaysFit tables.now result (changed.DropSecret id.now) }
{
    tables.factors.may_drop_secret(id).is_ok()
}

/// Whether the user may be put with these rules.
#[tactic(auto, unfolding(ks_machine::specs::Lawful::Fits))]
pub fn may_put_user_with(tables: &Tables, row: &UserRow, rules: &MfaRow) -> bool
    ensures { SaysFit tables.now result (changed.PutUserWith row.now rules.now) }
{
    is_user_put(tables, row) && rules.user == row.id && are_mfa_rules(&rules.rules)
}
