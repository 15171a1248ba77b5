//! Changes of roles, and of what they imply.
ghost use Rattle.ks_fits.specs.Told.{SaysFit};
ghost use Rattle.ks_machine.specs.declared.change.Change.TheVariants as changed;

use crate::ranges::is_role_in_range;
use ks_auth::Tables;
use ks_base::{Id, ImplyRow, RoleRow};

/// Whether the role may be put.
#[tactic(auto, unfolding(ks_machine::specs::Lawful::Fits))]
pub fn may_put_role(tables: &Tables, row: &RoleRow) -> bool
    ensures { SaysFit tables.now result (changed.PutRole row.now) }
{
    let taken = match tables.roles.role(&row.id) {
        Some(_) => tables.roles.may_set(row),
        None => tables.roles.may_add(row),
    };
    taken.is_ok() && is_role_in_range(row)
}

/// Whether the role may be dropped.
#[tactic(auto, unfolding(ks_machine::specs::Lawful::Fits))]
pub fn may_drop_role(tables: &Tables, id: &Id) -> bool
    ensures { SaysFit tables.now result (changed.DropRole id.now) }
{
    tables.roles.stands(id).is_ok()
}

/// Whether the one role may imply the other.
#[tactic(auto, unfolding(ks_machine::specs::Lawful::Fits))]
pub fn may_imply(tables: &Tables, row: &ImplyRow) -> bool
    ensures { SaysFit tables.now result (changed.Imply row.now) }
{
    tables.roles.may_imply(row).is_ok()
}

/// Whether the one role may imply the other no longer.
#[tactic(auto, unfolding(ks_machine::specs::Lawful::Fits))]
pub fn may_unimply(tables: &Tables, row: &ImplyRow) -> bool
    ensures { SaysFit tables.now result (changed.Unimply row.now) }
{
    tables.roles.may_unimply(row).is_ok()
}
