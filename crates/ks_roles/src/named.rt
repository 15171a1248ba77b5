//! By what rows are looked for and kept.
ghost use Rattle.std.specs.Prelude.{not};
ghost use Rattle.ks_base.specs.RoleLists.{names_role};

use ks_base::{Id, ImplyRow, Near, Test};
use std::cmp::Ordering;

/// The implications of this prior role.
#[derive(Clone, Copy)]
pub struct OfPrior {
    pub prior: Id,
}

impl Near<ImplyRow> for OfPrior {
    ghost use Rattle.ks_base.specs.Tables.{id_cmp};
    ghost use Rattle.ks_roles.specs.OrderLaws.{prior_run};

    ghost side = { λ wanted row. id_cmp row.prior wanted.prior };

    ghost run = { λ wanted. prior_run wanted.prior };

    fn side(&self, row: &ImplyRow) -> Ordering {
        row.prior.cmp(&self.prior)
    }
}

/// Implications that do not name this role.
#[derive(Drop)]
pub struct Without<'a> {
    pub role: &'a Id,
}

impl Test<ImplyRow> for Without<'_> {
    ghost test = { λ wanted row. not (names_role wanted.role.now row) };

    fn test(&self, row: &ImplyRow) -> bool {
        !(row.prior == *self.role || row.implied == *self.role)
    }
}
