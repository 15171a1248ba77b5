//! Changes of users and groups.
ghost use Rattle.std.specs.Prelude.{◌↔◌, IsTrue};
ghost use Rattle.ks_auth.specs.Answers.{rows_told};
ghost use Rattle.ks_fits.specs.Told.{SaysFit};
ghost use Rattle.ks_machine.specs.declared.change.Change.TheVariants as changed;
ghost use Rattle.ks_machine.specs.Lawful.{IsUserPut};

use crate::ranges::{is_group_in_range, is_user_in_range};
use ks_auth::Tables;
use ks_base::{GroupRow, Id, MemberRow, UserRow};

/// Whether the user may come, or stand in the place of the one with its id.
pub(crate) fn is_user_put(tables: &Tables, row: &UserRow) -> bool
    ensures { IsTrue result ↔ IsUserPut (rows_told tables.now) row.now }
{
    let is_taken = match tables.people.user(&row.id) {
        Some(standing) => {
            row.domain == standing.domain && tables.people.may_set_user(row).is_ok()
        }
        None => tables.people.may_add_user(row).is_ok(),
    };
    is_taken && is_user_in_range(row) && tables.tree.domain(&row.domain).is_some()
}

/// Whether the user may be put.
#[tactic(auto, unfolding(ks_machine::specs::Lawful::Fits))]
pub fn may_put_user(tables: &Tables, row: &UserRow) -> bool
    ensures { SaysFit tables.now result (changed.PutUser row.now) }
{
    is_user_put(tables, row)
}

/// Whether the group may be put.
#[tactic(auto, unfolding(ks_machine::specs::Lawful::Fits))]
pub fn may_put_group(tables: &Tables, row: &GroupRow) -> bool
    ensures { SaysFit tables.now result (changed.PutGroup row.now) }
{
    let is_taken = match tables.people.group(&row.id) {
        Some(standing) => {
            row.domain == standing.domain && tables.people.may_set_group(row).is_ok()
        }
        None => tables.people.may_add_group(row).is_ok(),
    };
    is_taken && is_group_in_range(row) && tables.tree.domain(&row.domain).is_some()
}

/// Whether the user may be dropped.
#[tactic(auto, unfolding(ks_machine::specs::Lawful::Fits))]
pub fn may_drop_user(tables: &Tables, id: &Id) -> bool
    ensures { SaysFit tables.now result (changed.DropUser id.now) }
{
    tables.people.may_drop_user(id).is_ok()
}

/// Whether the group may be dropped.
#[tactic(auto, unfolding(ks_machine::specs::Lawful::Fits))]
pub fn may_drop_group(tables: &Tables, id: &Id) -> bool
    ensures { SaysFit tables.now result (changed.DropGroup id.now) }
{
    tables.people.may_drop_group(id).is_ok()
}

/// Whether the user may be put into the group.
#[tactic(auto, unfolding(ks_machine::specs::Lawful::Fits))]
pub fn may_join(tables: &Tables, row: &MemberRow) -> bool
    ensures { SaysFit tables.now result (changed.Join row.now) }
{
    tables.people.may_join(row).is_ok()
}

/// Whether the user may be taken out of the group.
#[tactic(auto, unfolding(ks_machine::specs::Lawful::Fits))]
pub fn may_leave(tables: &Tables, row: &MemberRow) -> bool
    ensures { SaysFit tables.now result (changed.Leave row.now) }
{
    tables.people.may_leave(row).is_ok()
}
