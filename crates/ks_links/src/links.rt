//! Rows in two orders.
ghost use Rattle.std.specs.Prelude.{◌≡◌, List, [], filter, fold, map, is_none, is_some, length, not, IfOk, IsSome, OnErr, Ok, false};
ghost use Rattle.std.specs.Ordering.{is_eq};
ghost use Rattle.ks_base.specs.Links.{AreLinked};
ghost use Rattle.ks_base.specs.Tables.{IsAscending, find_row, put_row, drop_row};

use crate::{RunRows, RunSet};
use ks_base::{Boxed, Far, InRuns, Memory, Near, OfRun, Ordered, Side, Test};
use std::alloc::{AllocError, Global};
use std::marker::{Model, PhantomData};

/// How many rows go one by one at most, each by two searches and a move of those behind it. Where more go, a pass over all rows
/// takes less.
pub const FEW: usize = 128;

/// Rows in their order, each once, and beside them their sides in the second order.
#[derive(Drop)]
pub struct Links<A: InRuns, B: Side<A> + InRuns> {
    rows: RunSet<A>,
    sides: RunSet<B>,
}

impl<A: InRuns, B: Side<A> + InRuns> Model for Links<A, B> {
    ghost use Rattle.std.specs.Prelude.{List};
    ghost use Rattle.ks_base.specs.Links.{AreLinked};

    ghost Value = { List A };

    ghost view = { λ links. links.rows };

    ghost invariant = { λ links. AreLinked B.seen links.rows links.sides };
}

/// The sides whose rows pass.
#[derive(Drop)]
struct RowTest<'a, A, T> {
    test: &'a T,
    rows: PhantomData<A>,
}

impl<A: InRuns, B: Side<A>, T: Test<A>> Test<B> for RowTest<'_, A, T> {
    ghost test = { λ wanted side. T.test wanted.test.now (B.row_of side) };

    fn test(&self, side: &B) -> bool {
        self.test.test(side.row())
    }
}

/// The rows that are none of a run.
#[derive(Drop)]
struct Outside<'a, W> {
    near: &'a W,
}

impl<A: Ordered, W: Near<A>> Test<A> for Outside<'_, W> {
    ghost test = { λ wanted row. not (is_eq (W.side wanted.near.now row)) };

    fn test(&self, row: &A) -> bool {
        self.near.side(row).is_ne()
    }
}

/// The rows whose sides pass.
#[derive(Drop)]
struct SideTest<'a, B, T> {
    test: &'a T,
    sides: PhantomData<B>,
}

impl<A: InRuns, B: Side<A>, T: Test<B>> Test<A> for SideTest<'_, B, T> {
    ghost test = { λ wanted row. T.test wanted.test.now (B.seen row) };

    fn test(&self, row: &A) -> bool {
        self.test.test(&B::of(row))
    }
}

/// The sides of the rows.
fn seen<A: InRuns, B: Side<A>>(alloc: Global, rows: &RunSet<A>) -> Result<Vec<B>, AllocError>
    ensures { IfOk result (λ sides. sides.items ≡ map B.seen rows.now) }
{
    rows.rows().map(|row| B::of(row)).collect(alloc)
}

/// The set of these sides. They go in by their order, so that each comes behind those that stand.
fn sides_of<A: InRuns, B: Side<A> + InRuns>(
    alloc: Global,
    rows: &RunSet<A>,
) -> Result<RunSet<B>, Memory>
    ensures { IfOk result (λ sides. AreLinked B.seen rows.now sides) }
{
    let mut left = seen::<A, B>(alloc, rows)?;
    left.sort_unstable_by(|a, b| b.compare(a));
    let mut sides = RunSet::new(alloc);
    while let Some(side) = left.pop() {
        let _new = sides.add(side)?;
    }
    Ok(sides)
}

/// Takes the sides of these rows out.
fn drop_sides<A: InRuns, B: Side<A> + InRuns>(sides: &mut RunSet<B>, rows: &[Boxed<A>])
    ensures { sides.new ≡ fold (λ left row. drop_row B.cmp (λ next. next) (B.seen row) left) sides.old rows.now }
{
    for row in rows {
        sides.remove(&B::of(row.get()));
    }
}

/// Takes the rows of these sides out.
fn drop_rows<A: InRuns, B: Side<A> + InRuns>(rows: &mut RunSet<A>, sides: &[Boxed<B>])
    ensures { rows.new ≡ fold (λ left side. drop_row A.cmp (λ next. next) (B.row_of side) left) rows.old sides.now }
{
    for side in sides {
        rows.remove(side.get().row());
    }
}

impl<A: InRuns, B: Side<A> + InRuns> Links<A, B> {
    /// No rows, which take no memory yet.
    pub fn new(alloc: Global) -> Links<A, B>
        ensures { result ≡ [] }
    {
        Links {
            rows: RunSet::new(alloc),
            sides: RunSet::new(alloc),
        }
    }

    /// These rows, with the second order made beside their own.
    pub fn from_rows(alloc: Global, rows: RunSet<A>) -> Result<Links<A, B>, Memory>
        ensures { IfOk result (λ links. links ≡ rows) }
    {
        let sides = sides_of(alloc, &rows)?;
        Ok(Links { rows, sides })
    }

    /// Whether the row stands.
    pub fn has(&self, row: &A) -> bool
        ensures { result ≡ is_some (find_row A.cmp (λ next. next) row.now self.now) }
    {
        self.rows.has(row)
    }

    /// Puts the row in its places and says whether it is new. Only a new row takes memory; one that
    /// found none is dropped.
    pub fn add(&mut self, row: A) -> Result<bool, Memory>
        ensures ok { IfOk result (λ new. (self.new ≡ put_row A.cmp (λ next. next) row self.old) × (new ≡ is_none (find_row A.cmp (λ next. next) row self.old))) }
        ensures err { OnErr result (self.new ≡ self.old) }
        ensures stands { IsSome (find_row A.cmp (λ next. next) row self.old) → (result ≡ Ok false) × (self.new ≡ self.old) }
    {
        if self.rows.has(&row) {
            return self.rows.add(row);
        }
        let _ascending = self.rows.rows();
        let side = B::of(&row);
        self.sides.add(B::of(&row))?;
        match self.rows.add(row) {
            Ok(new) => Ok(new),
            Err(memory) => {
                self.sides.remove(&side);
                Err(memory)
            }
        }
    }

    /// Takes the row out and says whether it was there. It takes no memory.
    pub fn remove(&mut self, row: &A) -> bool
        ensures rows { self.new ≡ drop_row A.cmp (λ next. next) row.now self.old }
        ensures was { result ≡ is_some (find_row A.cmp (λ next. next) row.now self.old) }
    {
        self.sides.remove(&B::of(row));
        self.rows.remove(row)
    }

    /// Leaves the rows that pass the test. It takes no memory.
    pub fn keep<T: Test<A>>(&mut self, test: &T)
        ensures { self.new ≡ filter (T.test test.now) self.old }
    {
        self.rows.keep(test);
        self.sides.keep(&RowTest {
            test,
            rows: PhantomData,
        });
    }

    /// Takes the rows of a run out. It takes no memory. Where they are few, no other row is looked at.
    pub fn drop_of<W: OfRun<A>>(&mut self, near: &W)
        ensures { self.new ≡ filter (λ row. not (is_eq (W.side near.now row))) self.old }
    {
        if self.rows.of(near).len() > FEW {
            self.drop_many_of(near);
        } else {
            self.drop_few_of(near);
        }
    }

    /// Takes the rows of a run of the second order out. It takes no memory. Where they are few, no other row is looked at.
    pub fn drop_at<W: OfRun<B>>(&mut self, near: &W)
        ensures { self.new ≡ filter (λ row. not (is_eq (W.side near.now (B.seen row)))) self.old }
    {
        if self.sides.of(near).len() > FEW {
            self.drop_many_at(near);
        } else {
            self.drop_few_at(near);
        }
    }

    /// Takes the rows of a run out as one, and their sides by a pass over all sides.
    fn drop_many_of<W: OfRun<A>>(&mut self, near: &W)
        ensures { self.new ≡ filter (λ row. not (is_eq (W.side near.now row))) self.old }
    {
        self.rows.drop_of(near);
        self.sides.keep(&RowTest {
            test: &Outside { near },
            rows: PhantomData,
        });
    }

    /// Takes the sides of a run of the second order out as one, and their rows by a pass over all rows.
    fn drop_many_at<W: OfRun<B>>(&mut self, near: &W)
        ensures { self.new ≡ filter (λ row. not (is_eq (W.side near.now (B.seen row)))) self.old }
    {
        self.rows.keep(&SideTest {
            test: &Outside { near },
            sides: PhantomData,
        });
        self.sides.drop_of(near);
    }

    /// Takes the rows of a run out as one, and their sides one by one.
    fn drop_few_of<W: OfRun<A>>(&mut self, near: &W)
        ensures { self.new ≡ filter (λ row. not (is_eq (W.side near.now row))) self.old }
    {
        drop_sides(&mut self.sides, self.rows.of(near));
        self.rows.drop_of(near);
    }

    /// Takes the rows of a run of the second order out, from the first order one by one.
    fn drop_few_at<W: OfRun<B>>(&mut self, near: &W)
        ensures { self.new ≡ filter (λ row. not (is_eq (W.side near.now (B.seen row)))) self.old }
    {
        let _ascending = self.rows.rows();
        drop_rows(&mut self.rows, self.sides.of(near));
        self.sides.drop_of(near);
    }

    /// The rows of a run, which lie side by side.
    pub fn of<W: OfRun<A>>(&self, near: &W) -> &[Boxed<A>]
        ensures rows { result.now ≡ filter (λ row. is_eq (W.side near.now row)) self.now }
        ensures ascending { IsAscending A.cmp (λ next. next) result.now }
    {
        self.rows.of(near)
    }

    /// The rows of a run of the second order, seen from that side and in the first order of the rows.
    pub fn at<W: Far<A, B> + OfRun<B>>(&self, far: &W) -> &[Boxed<B>]
        ensures { map B.row_of result.now ≡ filter (λ row. is_eq (W.side far.now (B.seen row))) self.now }
    {
        let _ascending = self.rows.rows();
        let _sides_ascending = self.sides.rows();
        self.sides.of(far)
    }

    /// The rows, in their order.
    pub fn rows(&self) -> RunRows<'_, A>
        ensures rows { result ≡ self.now }
        ensures ascending { IsAscending A.cmp (λ next. next) self.now }
    {
        self.rows.rows()
    }

    /// How many rows there are.
    pub fn len(&self) -> usize
        ensures { result ≡ length self.now }
    {
        self.rows.len()
    }
}
