ghost use Rattle.std.specs.Prelude.{◌≡◌, ◌<◌, [], filter, is_none, is_some, length, not, IfOk, IsSome, OnErr, Ok, IsTrue, IsFalse, true, false};
ghost use Rattle.std.specs.Ordering.{is_eq};
ghost use Rattle.ks_base.specs.Tables.{IsAscending, find_row, put_row, drop_row};

use crate::change;
use crate::rows::RunRows;
use crate::sought::{RunOf, place_of_run};
use ks_base::{Boxed, InRuns, Memory, OfRun, RowSet, Test};
use ks_chunks::Sequence;
use std::alloc::Global;
use std::marker::Model;

/// How many rows a set has at most.
const MOST: usize = 1 << 40;

/// Rows in their order, each once, those of each run side by side. A row that comes or goes moves others of its own run alone,
/// and about as many runs as a chunk of a sequence has.
pub struct RunSet<R: InRuns> {
    alloc: Global,
    runs: Sequence<RowSet<R>>,
    len: usize,
}

impl<R: InRuns> Drop for RunSet<R> {
    fn drop(self) {
        let RunSet {
            alloc: _,
            runs: _,
            len: _,
        } = self;
    }
}

impl<R: InRuns> Model for RunSet<R> {
    ghost use Rattle.std.specs.Prelude.{List, ◌≡◌, ◌≤◌, length};
    ghost use Rattle.ks_links.specs.RunSets.{AreRuns, all_rows};
    ghost use Rattle.ks_links.specs.declared.run_set.TheConstants.{MOST};

    ghost Value = { List R };

    ghost view = { λ rows. all_rows rows.runs.items };

    ghost invariant = { λ rows. AreRuns R.cmp R.runs rows.runs.items × (rows.len ≡ length (all_rows rows.runs.items)) × (rows.len ≤ MOST) };
}

impl<R: InRuns> RunSet<R> {
    /// No rows, which take no memory yet.
    pub fn new(alloc: Global) -> RunSet<R>
        ensures { result ≡ [] }
    {
        RunSet {
            alloc,
            runs: Sequence::new(alloc),
            len: 0,
        }
    }

    /// Whether the row is one of the set.
    pub fn has(&self, row: &R) -> bool
        ensures { result ≡ is_some (find_row R.cmp (λ next. next) row.now self.now) }
    {
        match place_of_run(&self.runs, &RunOf { row }) {
            Ok(at) => self.runs[at].has(row),
            Err(_) => false,
        }
    }

    /// Whether there are so many rows that this one, which is new, has no place.
    fn is_full_for(&self, row: &R) -> bool
        ensures room { IsFalse result → is_none (find_row R.cmp (λ next. next) row.now self.now) ≡ true → length self.now < MOST }
        ensures full { IsTrue result → is_none (find_row R.cmp (λ next. next) row.now self.now) ≡ true }
    {
        self.len >= MOST && !self.has(row)
    }

    /// Puts the row in its place and says whether it is new. Only a new row takes memory; one that
    /// found none is dropped.
    pub fn add(&mut self, row: R) -> Result<bool, Memory>
        ensures ok { IfOk result (λ new. (self.new ≡ put_row R.cmp (λ next. next) row self.old) × (new ≡ is_none (find_row R.cmp (λ next. next) row self.old))) }
        ensures err { OnErr result (self.new ≡ self.old) }
        ensures stands { IsSome (find_row R.cmp (λ next. next) row self.old) → (result ≡ Ok false) × (self.new ≡ self.old) }
    {
        if self.is_full_for(&row) {
            return Err(Memory);
        }
        let place = place_of_run(&self.runs, &RunOf { row: &row });
        match place {
            Ok(at) => {
                let new = change::add_to(self.alloc, &mut self.runs, at, row)?;
                if new {
                    self.len += 1;
                }
                Ok(new)
            }
            Err(at) => {
                change::add_run(self.alloc, &mut self.runs, at, row)?;
                self.len += 1;
                Ok(true)
            }
        }
    }

    /// Takes the row out and says whether it was there. It takes no memory.
    pub fn remove(&mut self, row: &R) -> bool
        ensures rows { self.new ≡ drop_row R.cmp (λ next. next) row.now self.old }
        ensures was { result ≡ is_some (find_row R.cmp (λ next. next) row.now self.old) }
    {
        match place_of_run(&self.runs, &RunOf { row }) {
            Ok(at) => {
                let was = change::remove_from(self.alloc, &mut self.runs, at, row);
                if was {
                    self.len -= 1;
                }
                was
            }
            Err(_) => false,
        }
    }

    /// Leaves the rows that pass the test. It takes no memory.
    pub fn keep<T: Test<R>>(&mut self, test: &T)
        ensures { self.new ≡ filter (T.test test.now) self.old }
    {
        self.len = change::keep(self.alloc, &mut self.runs, test);
    }

    /// Takes the rows of a run out. It takes no memory.
    pub fn drop_of<W: OfRun<R>>(&mut self, near: &W)
        ensures { self.new ≡ filter (λ row. not (is_eq (W.side near.now row))) self.old }
    {
        if let Ok(at) = place_of_run(&self.runs, near) {
            let rows = self.runs.remove(at);
            self.len -= rows.len();
        }
    }

    /// The rows of a run.
    pub fn of<W: OfRun<R>>(&self, near: &W) -> &[Boxed<R>]
        ensures rows { result.now ≡ filter (λ row. is_eq (W.side near.now row)) self.now }
        ensures ascending { IsAscending R.cmp (λ next. next) result.now }
    {
        match place_of_run(&self.runs, near) {
            Ok(at) => self.runs[at].rows(),
            Err(_) => &[],
        }
    }

    /// The rows, in their order.
    pub fn rows(&self) -> RunRows<'_, R>
        ensures rows { result ≡ self.now }
        ensures ascending { IsAscending R.cmp (λ next. next) self.now }
    {
        RunRows::new(&self.runs, self.len)
    }

    /// How many rows there are.
    pub fn len(&self) -> usize
        ensures { result ≡ length self.now }
    {
        self.len
    }
}
