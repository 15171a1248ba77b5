//! Grants as they are seen from their targets.
ghost use Rattle.std.specs.declared.cmp.Ordering.{Ordering};

use ks_base::{Far, GrantRow, InRuns, Near, OfRun, Ordered, Side, Target};
use std::cmp::Ordering;

/// A grant as it is seen from its target.
#[derive(Clone, Copy)]
pub struct ByTarget {
    pub row: GrantRow,
}

/// The grants at a target.
#[derive(Clone, Copy)]
pub(crate) struct AtTarget {
    pub target: Target,
}

impl Ordered for ByTarget {
    ghost use Rattle.ks_assign.specs.Sides.{by_target_cmp};
    ghost use Rattle.ks_assign.specs.SideLaws.{by_target_total, by_target_exact};

    ghost cmp = { by_target_cmp };

    ghost total = { by_target_total };

    ghost exact = { by_target_exact };

    fn compare(&self, other: &ByTarget) -> Ordering {
        self.row
            .target
            .compare(&other.row.target)
            .then(self.row.compare(&other.row))
    }
}

impl Side<GrantRow> for ByTarget {
    ghost use Rattle.std.specs.Prelude.{refl};

    ghost seen = { λ row. record { row = row } };

    ghost row_of = { λ side. side.row };

    ghost returns = { λ row. refl };

    ghost again = { λ side. refl };

    fn of(row: &GrantRow) -> ByTarget {
        ByTarget { row: *row }
    }

    fn row(&self) -> &GrantRow {
        &self.row
    }
}

impl InRuns for ByTarget {
    ghost use Rattle.ks_base.specs.Orders.{target_cmp};
    ghost use Rattle.ks_assign.specs.SideLaws.{of_targets_total, target_first};

    ghost runs = { λ a b. target_cmp a.row.target b.row.target };

    ghost runs_total = { of_targets_total };

    ghost runs_first = { target_first };

    fn compare_runs(&self, other: &ByTarget) -> Ordering {
        self.row.target.compare(&other.row.target)
    }
}

impl Near<ByTarget> for AtTarget {
    ghost use Rattle.ks_base.specs.Orders.{target_cmp};
    ghost use Rattle.ks_assign.specs.SideLaws.{target_run};

    ghost side = { λ wanted side. target_cmp side.row.target wanted.target };

    ghost run = { λ wanted. target_run wanted.target };

    fn side(&self, side: &ByTarget) -> Ordering {
        side.row.target.compare(&self.target)
    }
}

impl OfRun<ByTarget> for AtTarget {
    ghost use Rattle.ks_assign.specs.SideLaws.{target_whole, target_alone};

    ghost whole = { λ wanted. target_whole wanted.target };

    ghost alone = { λ wanted. target_alone wanted.target };
}

impl Far<GrantRow, ByTarget> for AtTarget {
    ghost use Rattle.ks_assign.specs.SideLaws.{target_within};

    ghost within = { λ wanted. target_within wanted.target };
}
