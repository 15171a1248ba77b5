//! The causes for which changes are refused, in the order in which they are tested.
ghost use Rattle.std.specs.Prelude.{◌≡◌};
ghost use Rattle.ks_base.specs.declared.limits.TheConstants.{DOMAINS, LEVELS, PROJECTS};
ghost use Rattle.ks_base.specs.Refusals.{fault_in};
ghost use Rattle.ks_base.specs.TreeFaults.{domain_absent, project_absent, no_parent, too_deep, has_children, lies_below, is_enabled_below, enabled_below, disabled_above, domain_name_taken, project_name_taken, other_domain_named, other_project_named, disable_fault, enable_fault, add_domain_fault, add_project_fault, set_domain_fault, set_project_fault, drop_domain_fault, drop_project_fault};

use crate::Tree;
use crate::named::{ChildOf, Disabled, WithId};
use ks_base::limits::{DOMAINS, LEVELS, PROJECTS};
use ks_base::{DomainRow, Id, Kind, ProjectRow, Test, TreeFault, refuse_if};

/// Enabled projects below this one.
#[derive(Drop)]
struct EnabledBelow<'a> {
    tree: &'a Tree,
    id: &'a Id,
}

impl Test<ProjectRow> for EnabledBelow<'_> {
    ghost test = { λ wanted row. is_enabled_below wanted.tree.now.projects wanted.id.now row };

    fn test(&self, row: &ProjectRow) -> bool {
        row.enabled && self.tree.lies_below(self.id, row)
    }
}

impl Tree {
    /// The first cause for which `add_domain` refuses the row, found without a change.
    #[tactic(auto, unfolding(ks_base::specs::TreeFaults::add_domain_fault))]
    pub fn may_add_domain(&self, row: &DomainRow) -> Result<(), TreeFault>
        ensures { fault_in result ≡ add_domain_fault self.now row.now }
    {
        self.domain_name_is_free(row)?;
        refuse_if(self.domains.len() >= DOMAINS, TreeFault::Full(Kind::Domain))?;
        refuse_if(self.domains.contains(&row.id), TreeFault::IdTaken(row.id))
    }

    /// The first cause for which `add_project` refuses the row, found without a change.
    #[tactic(auto, unfolding(ks_base::specs::TreeFaults::add_project_fault))]
    pub fn may_add_project(&self, row: &ProjectRow) -> Result<(), TreeFault>
        ensures { fault_in result ≡ add_project_fault self.now row.now }
    {
        self.domain_stands(&row.domain)?;
        self.parent_stands(row)?;
        self.is_high_enough(row)?;
        self.all_above_are_enabled(row)?;
        self.project_name_is_free(row)?;
        refuse_if(
            self.projects.len() >= PROJECTS,
            TreeFault::Full(Kind::Project),
        )?;
        refuse_if(self.projects.contains(&row.id), TreeFault::IdTaken(row.id))
    }

    /// The first cause for which `set_domain` refuses the row, found without a change.
    #[tactic(auto, unfolding(ks_base::specs::TreeFaults::set_domain_fault))]
    pub fn may_set_domain(&self, row: &DomainRow) -> Result<(), TreeFault>
        ensures { fault_in result ≡ set_domain_fault self.now row.now }
    {
        match self.domains.other_named(row) {
            Some(holder) => Err(TreeFault::NameTaken(holder.id)),
            None => Ok(()),
        }
    }

    /// The first cause for which `set_project` refuses the row, found without a change.
    #[tactic(auto, unfolding(ks_base::specs::TreeFaults::set_project_fault))]
    pub fn may_set_project(&self, row: &ProjectRow) -> Result<(), TreeFault>
        ensures { fault_in result ≡ set_project_fault self.now row.now }
    {
        self.may_disable(row)?;
        self.may_enable(row)?;
        match self.projects.other_named(row) {
            Some(holder) => Err(TreeFault::NameTaken(holder.id)),
            None => Ok(()),
        }
    }

    /// The first cause for which `drop_domain` refuses the id, found without a change.
    #[tactic(auto, unfolding(ks_base::specs::TreeFaults::drop_domain_fault))]
    pub fn may_drop_domain(&self, id: &Id) -> Result<(), TreeFault>
        ensures { fault_in result ≡ drop_domain_fault self.now id.now }
    {
        match self.domain(id) {
            None => Err(TreeFault::Absent(Kind::Domain, *id)),
            Some(row) => refuse_if(row.enabled, TreeFault::DomainEnabled),
        }
    }

    /// The first cause for which `drop_project` refuses the id, found without a change.
    #[tactic(auto, unfolding(ks_base::specs::TreeFaults::drop_project_fault))]
    pub fn may_drop_project(&self, id: &Id) -> Result<(), TreeFault>
        ensures { fault_in result ≡ drop_project_fault self.now id.now }
    {
        refuse_if(
            !self.projects.contains(id),
            TreeFault::Absent(Kind::Project, *id),
        )?;
        match self.projects.first(&ChildOf { parent: id }) {
            Some(child) => Err(TreeFault::HasChildren(child.id)),
            None => Ok(()),
        }
    }

    fn domain_stands(&self, id: &Id) -> Result<(), TreeFault>
        ensures { fault_in result ≡ domain_absent self.now id.now }
    {
        refuse_if(
            !self.domains.contains(id),
            TreeFault::Absent(Kind::Domain, *id),
        )
    }

    fn parent_stands(&self, row: &ProjectRow) -> Result<(), TreeFault>
        ensures { fault_in result ≡ no_parent self.now row.now }
    {
        if row.parent == row.domain {
            return Ok(());
        }
        match self.project(&row.parent) {
            None => Err(TreeFault::Absent(Kind::Project, row.parent)),
            Some(parent) => refuse_if(parent.domain != row.domain, TreeFault::NoParent(row.parent)),
        }
    }

    fn is_high_enough(&self, row: &ProjectRow) -> Result<(), TreeFault>
        ensures { fault_in result ≡ too_deep self.now row.now }
    {
        refuse_if(self.count_above(row) >= LEVELS, TreeFault::TooDeep)
    }

    fn all_above_are_enabled(&self, row: &ProjectRow) -> Result<(), TreeFault>
        ensures { fault_in result ≡ disabled_above self.now row.now }
    {
        match self.nearest_above(row, &Disabled) {
            Some(ancestor) => Err(TreeFault::DisabledAbove(ancestor.id)),
            None => Ok(()),
        }
    }

    fn all_below_are_disabled(&self, id: &Id) -> Result<(), TreeFault>
        ensures { fault_in result ≡ enabled_below self.now id.now }
    {
        match self.projects.first(&EnabledBelow { tree: self, id }) {
            Some(row) => Err(TreeFault::EnabledBelow(row.id)),
            None => Ok(()),
        }
    }

    fn lies_below(&self, id: &Id, row: &ProjectRow) -> bool
        ensures { result ≡ lies_below self.now.projects id.now row.now }
    {
        self.nearest_above(row, &WithId { id }).is_some()
    }

    #[tactic(auto, unfolding(ks_base::specs::TreeFaults::disable_fault))]
    fn may_disable(&self, row: &ProjectRow) -> Result<(), TreeFault>
        ensures { fault_in result ≡ disable_fault self.now row.now }
    {
        match self.project(&row.id) {
            Some(standing) if standing.enabled && !row.enabled => {
                self.all_below_are_disabled(&row.id)
            }
            _ => Ok(()),
        }
    }

    #[tactic(auto, unfolding(ks_base::specs::TreeFaults::enable_fault))]
    fn may_enable(&self, row: &ProjectRow) -> Result<(), TreeFault>
        ensures { fault_in result ≡ enable_fault self.now row.now }
    {
        match self.project(&row.id) {
            Some(standing) if !standing.enabled && row.enabled => self.all_above_are_enabled(row),
            _ => Ok(()),
        }
    }

    fn domain_name_is_free(&self, row: &DomainRow) -> Result<(), TreeFault>
        ensures { fault_in result ≡ domain_name_taken self.now row.now }
    {
        match self.domain_named(&row.name) {
            Some(holder) => Err(TreeFault::NameTaken(holder.id)),
            None => Ok(()),
        }
    }

    fn project_name_is_free(&self, row: &ProjectRow) -> Result<(), TreeFault>
        ensures { fault_in result ≡ project_name_taken self.now row.now }
    {
        match self.project_named(&row.domain, &row.name) {
            Some(holder) => Err(TreeFault::NameTaken(holder.id)),
            None => Ok(()),
        }
    }
}
