//! Changes of domains and projects that the tree allows, and what is told of them.
ghost use Rattle.ks_base.specs.Refusals.{fault_in};
ghost use Rattle.ks_machine.specs.Outcomes.{changes};
ghost use Rattle.ks_checks.specs.Checked.{after_tree};
ghost use Rattle.ks_checks.specs.Plans.{Plans};

use crate::checks::tree;
use crate::{Halt, Plan};
use ks_base::{DomainRow, ProjectRow, TreeFault};
use ks_machine::{BodyOut, Change, Row};
use std::alloc::Global;

/// Puts the domain, unless the tree refuses, and tells it. The truth value says whether the command makes it.
pub fn put_domain(
    alloc: Global,
    checked: Result<(), TreeFault>,
    new: DomainRow,
    made: bool,
) -> Result<Plan, Halt>
    ensures { Plans result (after_tree (fault_in checked) (changes (Change.PutDomain new) (BodyOut.One (Row.Domain new) made))) }
{
    match tree(checked) {
        Ok(()) => {
            let told = BodyOut::one(alloc, Row::Domain(new.copy()?), made)?;
            Ok(Plan::changes(Change::PutDomain(new), told))
        }
        Err(halt) => Err(halt),
    }
}

/// Puts the project, unless the tree refuses, and tells it. The truth value says whether the command makes it.
pub fn put_project(
    alloc: Global,
    checked: Result<(), TreeFault>,
    new: ProjectRow,
    made: bool,
) -> Result<Plan, Halt>
    ensures { Plans result (after_tree (fault_in checked) (changes (Change.PutProject new) (BodyOut.One (Row.Project new) made))) }
{
    match tree(checked) {
        Ok(()) => {
            let told = BodyOut::one(alloc, Row::Project(new.copy()?), made)?;
            Ok(Plan::changes(Change::PutProject(new), told))
        }
        Err(halt) => Err(halt),
    }
}

/// Makes the change, unless the tree refuses, and tells nothing.
pub fn dropped(checked: Result<(), TreeFault>, change: Change) -> Result<Plan, Halt>
    ensures { Plans result (after_tree (fault_in checked) (changes change BodyOut.Nothing)) }
{
    match tree(checked) {
        Ok(()) => Ok(Plan::changes(change, BodyOut::Nothing)),
        Err(halt) => Err(halt),
    }
}
