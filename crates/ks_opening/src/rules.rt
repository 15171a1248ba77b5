//! What lies above the projects of an opening, and which roles are implied.
ghost use Rattle.std.specs.Prelude.{◌≡◌, length, option_copied};
ghost use Rattle.ks_base.specs.Refusals.{fault_in};
ghost use Rattle.ks_base.specs.Tree.{above, parent_of};
ghost use Rattle.ks_base.specs.TreeFaults.{first_disabled};
ghost use Rattle.ks_machine.specs.Opened.{project_below_disabled, prohibited, project_too_deep};
ghost use Rattle.ks_machine.specs.Tables.{trees};
ghost use Rattle.ks_policy.specs.Openings.{plain};
ghost use Rattle.ks_opening.specs.steps.Listed.{AreRowsOf, rows_fault, rows_listed};

use crate::check::{Check, check_each};
use crate::listed::Listed;
use ks_base::limits::LEVELS;
use ks_base::{ImplyRow, ProjectRow, refuse_if};
use ks_machine::OpenFault;
use ks_policy::Opening;

/// The name of the role that none may imply.
const ADMIN: &[u8] = b"admin";

impl<'a> Listed<'a> {
    /// Refuses the first row that names one which does not stand; then the first project that is too far below its domain,
    /// the first one below a disabled project, and the first implication of the role named `admin`.
    pub(crate) fn check_rows(&self, opening: &Opening) -> Result<(), OpenFault>
        requires { AreRowsOf self.now (plain opening.now) }
        ensures { fault_in result ≡ rows_fault (rows_listed self.now) (plain opening.now) }
    {
        self.check_references(opening)?;
        check_each(&Depth { listed: self }, &opening.projects)?;
        check_each(&Enabled { listed: self }, &opening.projects)?;
        check_each(&Implied { listed: self }, &opening.implications)
    }

    /// The project right above this one.
    fn parent(&self, row: &ProjectRow) -> Option<&'a ProjectRow>
        ensures { option_copied result ≡ parent_of self.now.projects row.now }
    {
        if row.parent == row.domain {
            None
        } else {
            self.projects.get(&row.parent)
        }
    }

    /// How many projects lie above this one.
    fn count_above(&self, row: &ProjectRow) -> usize
        ensures { result ≡ length (above self.now.projects row.now) }
    {
        let mut count = 0;
        let mut top = row;
        'up: for _ in 0..self.projects.rows().len() {
            let Some(parent) = self.parent(top) else {
                return count;
            };
            count += 1;
            top = parent;
        }
        count
    }

    /// The nearest disabled project above this one.
    fn first_disabled(&self, row: &ProjectRow) -> Option<&ProjectRow>
        ensures { option_copied result ≡ first_disabled (trees (rows_listed self.now)) row.now }
    {
        let mut top = row;
        'up: for _ in 0..self.projects.rows().len() {
            let parent = self.parent(top)?;
            if !parent.enabled {
                return Some(parent);
            }
            top = parent;
        }
        None
    }
}

/// That a project is not too far below its domain.
#[derive(Drop)]
pub(crate) struct Depth<'a> {
    pub(crate) listed: &'a Listed<'a>,
}

impl Check<ProjectRow> for Depth<'_> {
    ghost fault = { λ check row. project_too_deep (rows_listed check.listed.now) row };

    fn check(&self, row: &ProjectRow) -> Result<(), OpenFault> {
        let levels = self.listed.count_above(row);
        refuse_if(levels >= LEVELS, OpenFault::TooDeep(row.id))
    }
}

/// That no project above one is disabled.
#[derive(Drop)]
pub(crate) struct Enabled<'a> {
    pub(crate) listed: &'a Listed<'a>,
}

impl Check<ProjectRow> for Enabled<'_> {
    ghost fault = { λ check row. project_below_disabled (rows_listed check.listed.now) row };

    fn check(&self, row: &ProjectRow) -> Result<(), OpenFault> {
        match self.listed.first_disabled(row) {
            Some(ancestor) => Err(OpenFault::DisabledAbove(ancestor.id)),
            None => Ok(()),
        }
    }
}

/// That the role which is implied is not the one named `admin`.
#[derive(Drop)]
pub(crate) struct Implied<'a> {
    pub(crate) listed: &'a Listed<'a>,
}

impl Check<ImplyRow> for Implied<'_> {
    ghost fault = { λ check row. prohibited (rows_listed check.listed.now) row };

    fn check(&self, row: &ImplyRow) -> Result<(), OpenFault> {
        match self.listed.roles.get(&row.implied) {
            Some(role) => refuse_if(
                role.name.as_slice() == ADMIN,
                OpenFault::Prohibited(row.implied),
            ),
            None => Ok(()),
        }
    }
}
