//! The rows of runs, one after another.
ghost use Rattle.std.specs.Prelude.{◌≡◌, ◌++◌, [], length};
ghost use Rattle.std.specs.Iterator.{YieldsFirstRef, item_count};
ghost use Rattle.ks_links.specs.RunSets.{AreSome, all_rows};

use ks_base::{Boxed, InRuns, RowSet};
use ks_chunks::{Run, Sequence};
use std::marker::Model;

/// The rows of runs in their order, lent one after another; contracts see those that are still to come.
#[derive(Drop)]
pub struct RunRows<'a, R: InRuns> {
    /// Those of the run that has begun.
    rows: &'a [Boxed<R>],
    runs: Run<'a, RowSet<R>>,
    len: usize,
}

impl<'a, R: InRuns> Model for RunRows<'a, R> {
    ghost use Rattle.std.specs.Prelude.{List, length, ◌≡◌, ◌++◌};
    ghost use Rattle.ks_links.specs.RunSets.{AreSome, all_rows};

    ghost Value = { List R };

    ghost view = { λ all. all.rows.now ++ all_rows all.runs };

    ghost invariant = { λ all. AreSome all.runs × (all.len ≡ length (all.rows.now ++ all_rows all.runs)) };
}

/// These rows of the run that has begun, or those of the next run where none are left.
fn begun<'a, R: InRuns>(rows: &'a [Boxed<R>], runs: &mut Run<'a, RowSet<R>>) -> &'a [Boxed<R>]
    requires { AreSome runs.old }
    ensures rows { result.now ++ all_rows runs.new ≡ rows.now ++ all_rows runs.old }
    ensures some { AreSome runs.new }
    ensures end { result.now ≡ [] → (rows.now ≡ []) × (runs.new ≡ []) }
{
    if !rows.is_empty() {
        return rows;
    }
    match runs.next() {
        Some(run) => run.rows(),
        None => &[],
    }
}

impl<'a, R: InRuns> RunRows<'a, R> {
    pub(crate) fn new(runs: &'a Sequence<RowSet<R>>, len: usize) -> RunRows<'a, R>
        requires some { AreSome runs.now.items }
        requires len { len ≡ length (all_rows runs.now.items) }
        ensures { result ≡ all_rows runs.now.items }
    {
        RunRows {
            rows: &[],
            runs: runs.iter(),
            len,
        }
    }

    /// How many are still to come.
    pub fn len(&self) -> usize
        ensures { result ≡ length self.now }
    {
        self.len
    }
}

impl<'a, R: InRuns> Iterator for RunRows<'a, R> {
    type Item = &'a R;

    ghost next_gives = { YieldsFirstRef (λ rows. rows) };

    ghost remaining = { item_count (λ rows. rows) };

    fn next(&mut self) -> Option<&'a R> {
        let (first, others) = begun(self.rows, &mut self.runs).split_first()?;
        self.rows = others;
        self.len -= 1;
        Some(first.get())
    }

    fn size_hint(&self) -> (usize, Option<usize>) {
        (self.len, Some(self.len))
    }
}
