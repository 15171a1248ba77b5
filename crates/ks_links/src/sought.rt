//! Where the run of a row is among runs.
ghost use Rattle.std.specs.Prelude.{◌≡◌};
ghost use Rattle.ks_base.specs.OrderLaws.{keyed_alone, keyed_run, keyed_whole};
ghost use Rattle.ks_links.specs.RunSets.{AreRuns, IsRunPlace, lead_side};

use ks_base::{InRuns, Near, OfRun, RowSet};
use ks_chunks::{Seek, Sequence};
use std::cmp::Ordering;

/// The run of a row.
#[derive(Drop)]
pub(crate) struct RunOf<'a, R> {
    pub row: &'a R,
}

impl<R: InRuns> Near<R> for RunOf<'_, R> {
    ghost side = { λ sought row. R.runs row sought.row.now };

    ghost run = { λ sought. keyed_run R.runs (λ row. row) R.cmp R.runs_total R.runs_first sought.row.now };

    fn side(&self, row: &R) -> Ordering {
        row.compare_runs(self.row)
    }
}

impl<R: InRuns> OfRun<R> for RunOf<'_, R> {
    ghost whole = { λ sought. keyed_whole R.runs (λ row. row) R.runs_total sought.row.now };

    ghost alone = { λ sought. keyed_alone R.runs (λ row. row) R.runs_total sought.row.now };
}

/// A run, looked for by the first rows of runs.
#[derive(Drop)]
struct Lead<'a, W> {
    near: &'a W,
}

impl<R: InRuns, W: OfRun<R>> Seek<RowSet<R>> for Lead<'_, W> {
    ghost side = { λ lead rows. lead_side (W.side lead.near.now) rows };

    fn side(&self, rows: &RowSet<R>) -> Ordering {
        match rows.rows().first() {
            Some(row) => self.near.side(row.get()),
            None => Ordering::Less,
        }
    }
}

/// The place of the sought run, or the one where it belongs.
pub(crate) fn place_of_run<R: InRuns, W: OfRun<R>>(
    runs: &Sequence<RowSet<R>>,
    near: &W,
) -> Result<usize, usize>
    requires { AreRuns R.cmp R.runs runs.now.items }
    ensures { IsRunPlace (W.side near.now) runs.now.items result }
{
    runs.search(&Lead { near })
}
