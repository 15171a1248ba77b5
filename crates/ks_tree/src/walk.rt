ghost use Rattle.std.specs.Prelude.{◌≡◌, find, length, option_copied};
ghost use Rattle.ks_base.specs.Rows.{same};
ghost use Rattle.ks_base.specs.Tree.{parent_of, above};
ghost use Rattle.ks_base.specs.TreeFaults.{lies_below, is_enabled_below};

use crate::Tree;
use ks_base::{Id, ProjectRow, Test};

impl Tree {
    /// The project right above this one.
    pub(crate) fn parent(&self, row: &ProjectRow) -> Option<&ProjectRow>
        ensures { option_copied result ≡ parent_of self.now.projects row.now }
    {
        if row.parent == row.domain {
            None
        } else {
            self.projects.get(&row.parent)
        }
    }

    /// How many projects lie above this one.
    pub(crate) fn count_above(&self, row: &ProjectRow) -> usize
        ensures { result ≡ length (above self.now.projects row.now) }
    {
        let mut count = 0;
        let mut top = row;
        'up: for _ in 0..self.projects.len() {
            let Some(parent) = self.parent(top) else {
                return count;
            };
            count += 1;
            top = parent;
        }
        count
    }

    /// The nearest project above this one that passes the test.
    pub(crate) fn nearest_above<T: Test<ProjectRow>>(
        &self,
        row: &ProjectRow,
        test: &T,
    ) -> Option<&ProjectRow>
        ensures { option_copied result ≡ find (T.test test.now) (above self.now.projects row.now) }
    {
        let mut top = row;
        'up: for _ in 0..self.projects.len() {
            let parent = self.parent(top)?;
            if test.test(parent) {
                return Some(parent);
            }
            top = parent;
        }
        None
    }
}
