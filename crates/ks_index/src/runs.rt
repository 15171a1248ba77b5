//! The rows of one name, whose places stand side by side in the index of a table.
ghost use Rattle.std.specs.Prelude.{◌≡◌, ◌<◌, List, filter, get_or, length, map, IfOk};
ghost use Rattle.std.specs.List.{AllByRecursion};
ghost use Rattle.ks_base.specs.Rows.{same};
ghost use Rattle.ks_base.specs.Tables.{id_cmp, IsAscending};
ghost use Rattle.ks_index.specs.Indexes.{AreListed, AreNamesOf, full_cmp, full_name, picked};

use crate::Rows;
use crate::index::row_at;
use crate::ordered::in_order;
use ks_base::{Boxed, Id, IdList, Memory, Named, Test};
use ks_chunks::{Run, Seek, Sequence};
use std::alloc::{AllocError, Global};
use std::cmp::Ordering;

/// How the row's name compares with this one.
fn compare_name<R: Named>(row: &R, name: &str) -> Ordering
    ensures { result ≡ id_cmp (R.naming row.now) name.now }
{
    row.name().as_str().cmp(name)
}

/// A name, looked for among the places of rows.
#[derive(Drop)]
struct RowName<'a, R> {
    rows: &'a [Boxed<R>],
    other: &'a R,
    name: &'a str,
}

impl<R: Named> Seek<u32> for RowName<'_, R> {
    ghost side = { λ sought place. id_cmp (R.naming (get_or sought.rows.now place sought.other.now)) sought.name.now };

    fn side(&self, place: &u32) -> Ordering {
        compare_name(row_at(self.rows, *place, self.other), self.name)
    }
}

/// The places of the rows of this name.
fn run_named<'a, R: Named>(
    rows: &[Boxed<R>],
    places: &'a Sequence<u32>,
    other: &R,
    name: &str,
) -> Run<'a, u32>
    requires { IsAscending full_cmp (λ place. full_name R.within R.naming R.key (get_or rows.now place other.now)) places.now.items }
    ensures { result ≡ filter (λ place. same (R.naming (get_or rows.now place other.now)) name.now) places.now.items }
{
    let sought = RowName { rows, other, name };
    places.range(places.begin_of(&sought), places.end_of(&sought))
}

/// The ids of the rows at these places, as the places stand.
fn ids_there<R: Named>(
    alloc: Global,
    rows: &[Boxed<R>],
    places: Run<'_, u32>,
    other: &R,
) -> Result<Vec<Id>, AllocError>
    ensures { IfOk result (λ ids. ids.items ≡ map (λ place. R.key (get_or rows.now place other.now)) places.entry) }
{
    places
        .map(|place| *row_at(rows, *place, other).id())
        .collect(alloc)
}

/// The ids of the rows at these places, in the order of the places.
pub(crate) fn ids_at<R: Named>(
    alloc: Global,
    rows: &[Boxed<R>],
    places: &Sequence<u32>,
) -> Result<IdList, Memory>
    requires { AllByRecursion (λ place. place < length rows.now) places.now.items }
    ensures { IfOk result (λ ids. ids ≡ map R.key (picked rows.now places.now.items)) }
{
    let Some(first) = rows.first() else {
        return Ok(IdList::new(alloc));
    };
    let ids = ids_there(alloc, rows, places.iter(), first.get())?;
    Ok(IdList::from_vec(ids))
}

/// The same of the rows that pass a test.
pub(crate) fn ids_passing<R: Named, T: Test<R>>(
    alloc: Global,
    rows: &[Boxed<R>],
    places: &Sequence<u32>,
    test: &T,
) -> Result<IdList, Memory>
    requires { AllByRecursion (λ place. place < length rows.now) places.now.items }
    ensures { IfOk result (λ ids. ids ≡ map R.key (filter (T.test test.now) (picked rows.now places.now.items))) }
{
    let mut ids = IdList::new(alloc);
    for row in Rows::new(rows, places) {
        if test.test(row) {
            ids.push(*row.id())?;
        }
    }
    Ok(ids)
}

/// The ids of the rows of this name, in their order. No other rows are gone through.
pub(crate) fn ids_named<R: Named>(
    alloc: Global,
    rows: &[Boxed<R>],
    places: &Sequence<u32>,
    name: &str,
) -> Result<IdList, Memory>
    requires { AreNamesOf R.within R.naming R.key rows.now places.now.items }
    ensures { IfOk result (λ ids. (listed : List R) → AreListed R.key rows.now listed → ids ≡ map R.key (filter (λ row. same (R.naming row) name.now) listed)) }
{
    let Some(first) = rows.first() else {
        return Ok(IdList::new(alloc));
    };
    let other = first.get();
    let run = run_named(rows, places, other, name);
    let left = ids_there(alloc, rows, run, other)?;
    let ids = in_order(left)?;
    Ok(IdList::from_vec(ids))
}
