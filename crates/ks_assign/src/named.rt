//! The test by which grants are kept.
ghost use Rattle.std.specs.Prelude.{not};
ghost use Rattle.ks_base.specs.Grants.{is_of_role};

use ks_base::{GrantRow, Id, Test};

/// Grants of any other role.
#[derive(Drop)]
pub struct OfOtherRoles<'a> {
    pub role: &'a Id,
}

impl Test<GrantRow> for OfOtherRoles<'_> {
    ghost test = { λ wanted row. not (is_of_role wanted.role.now row) };

    fn test(&self, row: &GrantRow) -> bool {
        row.role != *self.role
    }
}
