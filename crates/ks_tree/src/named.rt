//! The tests by which rows are looked for and kept.
ghost use Rattle.std.specs.Prelude.{not};
ghost use Rattle.ks_base.specs.Rows.{same};
ghost use Rattle.ks_base.specs.Tree.{is_child_of};

use ks_base::{Id, ProjectRow, Test};

/// Projects right below this one.
#[derive(Drop)]
pub struct ChildOf<'a> {
    pub parent: &'a Id,
}

impl Test<ProjectRow> for ChildOf<'_> {
    ghost test = { λ wanted row. is_child_of wanted.parent.now row };

    fn test(&self, row: &ProjectRow) -> bool {
        row.parent != row.domain && row.parent == *self.parent
    }
}

/// Disabled projects.
#[derive(Drop)]
pub struct Disabled;

impl Test<ProjectRow> for Disabled {
    ghost test = { λ wanted row. not row.enabled };

    fn test(&self, row: &ProjectRow) -> bool {
        !row.enabled
    }
}

/// The project with this id.
#[derive(Drop)]
pub struct WithId<'a> {
    pub id: &'a Id,
}

impl Test<ProjectRow> for WithId<'_> {
    ghost test = { λ wanted row. same row.id wanted.id.now };

    fn test(&self, row: &ProjectRow) -> bool {
        row.id == *self.id
    }
}
