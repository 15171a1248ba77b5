ghost use Rattle.std.specs.Prelude.{◌≡◌, ◌≤◌, ◌⊎◌, filter, length, not, slice_range};
ghost use Rattle.std.specs.List.{remove_range};
ghost use Rattle.std.specs.declared.cmp.Ordering.{Ordering};
ghost use Rattle.std.specs.declared.cmp.Ordering.TheVariants.{Less, Equal};
ghost use Rattle.std.specs.Cmp.{IsTotalOrder};
ghost use Rattle.std.specs.Ordering.{is_eq};
ghost use Rattle.ks_base.specs.Runs.{IsRun};
ghost use Rattle.ks_base.specs.Tables.{IsAscending};

use crate::{Boxed, Ordered};
use std::cmp::Ordering;

/// What rows have in common that stand side by side in their order.
pub trait Near<R: Ordered> {
    ghost side: { Self → R → Ordering };

    /// Whether the row lies before those rows (`Less`), is one of them (`Equal`) or lies behind them.
    fn side(&self, row: &R) -> Ordering
        ensures { result ≡ side self.now row.now };

    ghost run: { (near : Self) → IsRun R.Ordered.cmp (side near) };
}

/// Rows that stand in runs: those of one run side by side, as the grants of one actor do.
pub trait InRuns: Ordered {
    ghost runs: { Self → Self → Ordering };

    /// Which of two rows is of the run that comes first; those of one run are `Equal`.
    fn compare_runs(&self, other: &Self) -> Ordering
        ensures { result ≡ runs self.now other.now };

    ghost runs_total: { IsTotalOrder runs };

    ghost runs_first: { (a b : Self) → Self.Ordered.cmp a b ≡ Less → (runs a b ≡ Less) ⊎ (runs a b ≡ Equal) };
}

/// What all the rows of one run have in common, and no others.
pub trait OfRun<R: InRuns>: Near<R> {
    ghost whole: { (near : Self) (a b : R) → R.InRuns.runs a b ≡ Equal → Self.side near a ≡ Self.side near b };

    ghost alone: { (near : Self) (a b : R) → Self.side near a ≡ Equal → Self.side near b ≡ Equal → R.InRuns.runs a b ≡ Equal };
}

/// Where those of the rows that have this in common begin, and where they end. Some twice as many rows are looked at
/// as a binary search looks at.
pub(crate) fn bounds_of<R: Ordered, W: Near<R>>(rows: &[Boxed<R>], near: &W) -> (usize, usize)
    requires { IsAscending R.cmp (λ row. row) rows.now }
    ensures order { result.0 ≤ result.1 }
    ensures within { result.1 ≤ length rows.now }
    ensures run { slice_range rows.now result.0 result.1 ≡ filter (λ row. is_eq (W.side near.now row)) rows.now }
    ensures others { remove_range rows.now result.0 result.1 ≡ filter (λ row. not (is_eq (W.side near.now row))) rows.now }
{
    let low = rows.partition_point(|row| near.side(row.get()).is_lt());
    let high = rows.partition_point(|row| near.side(row.get()).is_le());
    (low, high)
}

/// Those of the rows that have this in common, found by where they begin and end.
pub fn run_of<'a, R: Ordered, W: Near<R>>(rows: &'a [Boxed<R>], near: &W) -> &'a [Boxed<R>]
    requires { IsAscending R.cmp (λ row. row) rows.now }
    ensures rows { result.now ≡ filter (λ row. is_eq (W.side near.now row)) rows.now }
    ensures ascending { IsAscending R.cmp (λ row. row) result.now }
{
    let (low, high) = bounds_of(rows, near);
    &rows[low..high]
}
