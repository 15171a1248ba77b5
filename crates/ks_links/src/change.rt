//! Changes of one run among others. Each run is a set of its own, which is taken out while it changes.
ghost use Rattle.std.specs.Prelude.{◌≡◌, ◌<◌, ◌≤◌, ◌^◌, [], ◌∷◌, filter, get_or, is_none, is_some, length, set, IfOk, IsSome, OnErr, OnOk, Ok, false};
ghost use Rattle.std.specs.List.{insert};
ghost use Rattle.ks_base.specs.Tables.{find_row, put_row, drop_row};
ghost use Rattle.ks_links.specs.RunSets.{all_rows, kept_runs, put_back};

use ks_base::{InRuns, Memory, RowSet, Test};
use ks_chunks::Sequence;
use std::alloc::Global;

/// The run of one row.
fn run_of_one<R: InRuns>(alloc: Global, row: R) -> Result<RowSet<R>, Memory>
    ensures { IfOk result (λ rows. rows ≡ row ∷ []) }
{
    let mut rows = RowSet::new(alloc);
    let _new = rows.add(row)?;
    Ok(rows)
}

/// Puts a row that is of no run there before the run at this place, as a run of its own.
pub(crate) fn add_run<R: InRuns>(
    alloc: Global,
    runs: &mut Sequence<RowSet<R>>,
    at: usize,
    row: R,
) -> Result<(), Memory>
    requires { at ≤ length runs.old.items }
    ensures ok { OnOk result (runs.new.items ≡ insert runs.old.items at (row ∷ [])) }
    ensures err { OnErr result (runs.new.items ≡ runs.old.items) }
{
    runs.reserve()?;
    let rows = run_of_one(alloc, row)?;
    runs.insert(at, rows);
    Ok(())
}

/// Puts the row in the run at this place and says whether it is new.
pub(crate) fn add_to<R: InRuns>(
    alloc: Global,
    runs: &mut Sequence<RowSet<R>>,
    at: usize,
    row: R,
) -> Result<bool, Memory>
    requires { at < length runs.old.items }
    ensures ok { IfOk result (λ new. (runs.new.items ≡ set runs.old.items at (put_row R.cmp (λ next. next) row (get_or runs.old.items at []))) × (new ≡ is_none (find_row R.cmp (λ next. next) row (get_or runs.old.items at [])))) }
    ensures err { OnErr result (runs.new.items ≡ runs.old.items) }
    ensures stands { IsSome (find_row R.cmp (λ next. next) row (get_or runs.old.items at [])) → (result ≡ Ok false) × (runs.new.items ≡ runs.old.items) }
{
    let mut rows = runs.replace(at, RowSet::new(alloc));
    let outcome = rows.add(row);
    runs.set(at, rows);
    outcome
}

/// Puts the rows of a run in its place, which goes where there are none.
fn put_run<R: InRuns>(runs: &mut Sequence<RowSet<R>>, at: usize, rows: RowSet<R>)
    requires { at < length runs.old.items }
    ensures { runs.new.items ≡ put_back runs.old.items at rows }
{
    if rows.len() == 0 {
        drop(runs.remove(at));
    } else {
        runs.set(at, rows);
    }
}

/// Takes the row out of the run at this place and says whether it was there. A run of which nothing is left goes.
pub(crate) fn remove_from<R: InRuns>(
    alloc: Global,
    runs: &mut Sequence<RowSet<R>>,
    at: usize,
    row: &R,
) -> bool
    requires { at < length runs.old.items }
    ensures rows { runs.new.items ≡ put_back runs.old.items at (drop_row R.cmp (λ next. next) row.now (get_or runs.old.items at [])) }
    ensures was { result ≡ is_some (find_row R.cmp (λ next. next) row.now (get_or runs.old.items at [])) }
{
    let mut rows = runs.replace(at, RowSet::new(alloc));
    let was = rows.remove(row);
    put_run(runs, at, rows);
    was
}

/// Leaves the rows of the run at this place that pass the test, and says how many they are. A run of which nothing is left
/// goes.
fn keep_at<R: InRuns, T: Test<R>>(
    alloc: Global,
    runs: &mut Sequence<RowSet<R>>,
    at: usize,
    test: &T,
) -> usize
    requires { at < length runs.old.items }
    ensures rows { runs.new.items ≡ put_back runs.old.items at (filter (T.test test.now) (get_or runs.old.items at [])) }
    ensures left { result ≡ length (filter (T.test test.now) (get_or runs.old.items at [])) }
{
    let mut rows = runs.replace(at, RowSet::new(alloc));
    rows.keep(test);
    let left = rows.len();
    put_run(runs, at, rows);
    left
}

/// Leaves the rows that pass the test, and says how many they are. It goes from the last run to the first, so that runs which
/// go move no other that is still to come.
pub(crate) fn keep<R: InRuns, T: Test<R>>(
    alloc: Global,
    runs: &mut Sequence<RowSet<R>>,
    test: &T,
) -> usize
    requires { length (all_rows runs.old.items) < 2 ^ 64 }
    ensures rows { runs.new.items ≡ kept_runs (T.test test.now) runs.old.items }
    ensures left { result ≡ length (all_rows (kept_runs (T.test test.now) runs.old.items)) }
{
    let mut left = 0;
    let mut at = runs.len();
    while at > 0 {
        at -= 1;
        left += keep_at(alloc, runs, at, test);
    }
    left
}
