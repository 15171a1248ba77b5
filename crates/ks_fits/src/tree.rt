//! Changes of domains and projects.
ghost use Rattle.ks_fits.specs.Told.{SaysFit};
ghost use Rattle.ks_machine.specs.declared.change.Change.TheVariants as changed;

use crate::ranges::{is_domain_in_range, is_project_in_range};
use ks_auth::Tables;
use ks_base::{DomainRow, Id, ProjectRow};

/// Whether the domain may be put.
#[tactic(auto, unfolding(ks_machine::specs::Lawful::Fits))]
pub fn may_put_domain(tables: &Tables, row: &DomainRow) -> bool
    ensures { SaysFit tables.now result (changed.PutDomain row.now) }
{
    let taken = match tables.tree.domain(&row.id) {
        Some(_) => tables.tree.may_set_domain(row),
        None => tables.tree.may_add_domain(row),
    };
    taken.is_ok() && is_domain_in_range(row)
}

/// Whether the project may be put.
#[tactic(auto, unfolding(ks_machine::specs::Lawful::Fits))]
pub fn may_put_project(tables: &Tables, row: &ProjectRow) -> bool
    ensures { SaysFit tables.now result (changed.PutProject row.now) }
{
    let is_taken = match tables.tree.project(&row.id) {
        Some(standing) => {
            row.domain == standing.domain
                && row.parent == standing.parent
                && tables.tree.may_set_project(row).is_ok()
        }
        None => tables.tree.may_add_project(row).is_ok(),
    };
    is_taken && is_project_in_range(row)
}

/// Whether the domain may be dropped.
#[tactic(auto, unfolding(ks_machine::specs::Lawful::Fits))]
pub fn may_drop_domain(tables: &Tables, id: &Id) -> bool
    ensures { SaysFit tables.now result (changed.DropDomain id.now) }
{
    tables.tree.may_drop_domain(id).is_ok()
}

/// Whether the project may be dropped.
#[tactic(auto, unfolding(ks_machine::specs::Lawful::Fits))]
pub fn may_drop_project(tables: &Tables, id: &Id) -> bool
    ensures { SaysFit tables.now result (changed.DropProject id.now) }
{
    tables.tree.may_drop_project(id).is_ok()
}
