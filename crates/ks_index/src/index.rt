//! The indexes of a table: the places of its rows in the order of their ids, and in that of their names, homes and ids.
ghost use Rattle.std.specs.Prelude.{◌≡◌, ◌≢◌, ◌+◌, ◌<◌, ℕ, List, [], false, find, length, get_or, option_copied, IfOk, IfSome, IfNone, IsTrue};
ghost use Rattle.std.specs.List.{AllByRecursion};
ghost use Rattle.std.specs.List.Sorted.{IsSearchInRange};
ghost use Rattle.std.specs.declared.cmp.Ordering.TheVariants.{Less};
ghost use Rattle.ks_base.specs.Tables.{id_cmp, IsAscending};
ghost use Rattle.ks_base.specs.Places.{IsPlace};
ghost use Rattle.ks_index.specs.Indexes.{AreListed, AreNamesOf, IsIndex, full_cmp, full_name, is_named, is_other_named, picked, row_in};

use crate::Rows;
use ks_base::{Boxed, Id, Memory, Named, Row, Test};
use ks_chunks::{Seek, Sequence};
use std::cmp::Ordering;

/// The row at this place; the other, where there is none.
pub(crate) fn row_at<'a, R>(rows: &'a [Boxed<R>], place: u32, other: &'a R) -> &'a R
    ensures { result.now ≡ get_or rows.now place other.now }
{
    match rows.get(place as usize) {
        Some(row) => row.get(),
        None => other,
    }
}

/// The place of a row that comes in behind all others.
pub(crate) fn next_place<R>(rows: &[Boxed<R>]) -> Result<u32, Memory>
    ensures { IfOk result (λ place. place ≡ length rows.now) }
{
    match u32::try_from(rows.len()) {
        Ok(place) => Ok(place),
        Err(_) => Err(Memory),
    }
}

/// How the row compares with one of this home, name and id.
pub(crate) fn compare<R: Named>(row: &R, home: &[u8], name: &str, id: &str) -> Ordering
    ensures { result ≡ full_cmp (full_name R.within R.naming R.key row.now) ((name.now, home.now), id.now) }
{
    let by_name = row.name().as_str().cmp(name);
    if by_name.is_ne() {
        return by_name;
    }
    row.home().cmp(home).then(row.id().as_str().cmp(id))
}

/// A home, a name and an id, looked for among the places of rows.
#[derive(Drop)]
struct FullName<'a, R> {
    rows: &'a [Boxed<R>],
    other: &'a R,
    home: &'a [u8],
    name: &'a str,
    id: &'a str,
}

impl<R: Named> Seek<u32> for FullName<'_, R> {
    ghost side = { λ sought place. full_cmp (full_name R.within R.naming R.key (get_or sought.rows.now place sought.other.now)) ((sought.name.now, sought.home.now), sought.id.now) };

    fn side(&self, place: &u32) -> Ordering {
        compare(
            row_at(self.rows, *place, self.other),
            self.home,
            self.name,
            self.id,
        )
    }
}

/// An id, looked for among the places of rows.
#[derive(Drop)]
struct RowId<'a, R> {
    rows: &'a [Boxed<R>],
    other: &'a R,
    id: &'a Id,
}

impl<R: Row> Seek<u32> for RowId<'_, R> {
    ghost side = { λ sought place. id_cmp (R.key (get_or sought.rows.now place sought.other.now)) sought.id.now };

    fn side(&self, place: &u32) -> Ordering {
        row_at(self.rows, *place, self.other).id().cmp(self.id)
    }
}

/// The slot of the row with this home, name and id, or the one where it belongs.
fn slot<R: Named>(
    rows: &[Boxed<R>],
    places: &Sequence<u32>,
    other: &R,
    home: &[u8],
    name: &str,
    id: &str,
) -> Result<usize, usize>
    requires { IsAscending full_cmp (λ place. full_name R.within R.naming R.key (get_or rows.now place other.now)) places.now.items }
    ensures bound { IsSearchInRange result (length places.now.items) }
    ensures place { IsPlace full_cmp (λ place. full_name R.within R.naming R.key (get_or rows.now place other.now)) ((name.now, home.now), id.now) places.now.items result }
{
    places.search(&FullName {
        rows,
        other,
        home,
        name,
        id,
    })
}

/// The slot of this row, or the one where it belongs.
pub(crate) fn slot_of<R: Named>(
    rows: &[Boxed<R>],
    places: &Sequence<u32>,
    row: &R,
) -> Result<usize, usize>
    requires { IsAscending full_cmp (λ place. full_name R.within R.naming R.key (get_or rows.now place row.now)) places.now.items }
    ensures bound { IsSearchInRange result (length places.now.items) }
    ensures place { IsPlace full_cmp (λ place. full_name R.within R.naming R.key (get_or rows.now place row.now)) (full_name R.within R.naming R.key row.now) places.now.items result }
{
    slot(
        rows,
        places,
        row,
        row.home(),
        row.name().as_str(),
        row.id().as_str(),
    )
}

/// The place among the ids of the row with this id, or the one where it belongs.
pub(crate) fn place_of<R: Row>(
    rows: &[Boxed<R>],
    ids: &Sequence<u32>,
    other: &R,
    id: &Id,
) -> Result<usize, usize>
    requires { IsAscending id_cmp (λ place. R.key (get_or rows.now place other.now)) ids.now.items }
    ensures bound { IsSearchInRange result (length ids.now.items) }
    ensures place { IsPlace id_cmp (λ place. R.key (get_or rows.now place other.now)) id.now ids.now.items result }
{
    ids.search(&RowId { rows, other, id })
}

/// The same of the rows as the ids list them.
pub(crate) fn place_among<R: Row>(
    rows: &[Boxed<R>],
    ids: &Sequence<u32>,
    id: &Id,
) -> Result<usize, usize>
    requires { IsIndex id_cmp R.key rows.now ids.now.items }
    ensures bound { IsSearchInRange result (length ids.now.items) }
    ensures place { IsPlace id_cmp R.key id.now (picked rows.now ids.now.items) result }
{
    match rows.first() {
        Some(other) => place_of(rows, ids, other.get(), id),
        None => Err(0),
    }
}

/// The first slot that may have a row of this home and name.
fn first_slot<R: Named>(rows: &[Boxed<R>], places: &Sequence<u32>, home: &[u8], name: &str) -> usize
    requires { AreNamesOf R.within R.naming R.key rows.now places.now.items }
    ensures before { (slot : ℕ) (other : R) → slot < result → slot < length places.now.items → is_named R.within R.naming home.now name.now (row_in rows.now places.now.items slot other) ≡ false }
    ensures behind { (other : R) → result < length places.now.items → full_cmp (full_name R.within R.naming R.key (row_in rows.now places.now.items result other)) ((name.now, home.now), []) ≢ Less }
{
    let Some(other) = rows.first() else {
        return 0;
    };
    match slot(rows, places, other.get(), home, name, "") {
        Ok(slot) => slot,
        Err(slot) => slot,
    }
}

/// The row at a slot, if it has this home and name.
fn named_at<'a, R: Named>(
    rows: &'a [Boxed<R>],
    places: &Sequence<u32>,
    slot: usize,
    home: &[u8],
    name: &str,
) -> Option<&'a R>
    requires { AllByRecursion (λ place. place < length rows.now) places.now.items }
    ensures some { IfSome result (λ row. (slot < length places.now.items) × (row.now ≡ row_in rows.now places.now.items slot row.now) × IsTrue (is_named R.within R.naming home.now name.now row.now)) }
    ensures none { IfNone result ((other : R) → slot < length places.now.items → is_named R.within R.naming home.now name.now (row_in rows.now places.now.items slot other) ≡ false) }
{
    let row = rows[*places.get(slot)? as usize].get();
    if row.home() == home && row.name().as_str() == name {
        Some(row)
    } else {
        None
    }
}

/// The first row of this home and name, in the order of ids.
pub(crate) fn named<'a, R: Named>(
    rows: &'a [Boxed<R>],
    places: &Sequence<u32>,
    home: &[u8],
    name: &str,
) -> Option<&'a R>
    requires { AreNamesOf R.within R.naming R.key rows.now places.now.items }
    ensures { (listed : List R) → AreListed R.key rows.now listed → option_copied result ≡ find (is_named R.within R.naming home.now name.now) listed }
{
    let slot = first_slot(rows, places, home, name);
    named_at(rows, places, slot, home, name)
}

/// The first other row with the home and name of this one, in the order of ids.
pub(crate) fn other_named<'a, R: Named>(
    rows: &'a [Boxed<R>],
    places: &Sequence<u32>,
    row: &R,
) -> Option<&'a R>
    requires { AreNamesOf R.within R.naming R.key rows.now places.now.items }
    ensures { (listed : List R) → AreListed R.key rows.now listed → option_copied result ≡ find (is_other_named R.within R.naming R.key row.now) listed }
{
    let home = row.home();
    let name = row.name().as_str();
    let slot = first_slot(rows, places, home, name);
    let holder = named_at(rows, places, slot, home, name)?;
    if holder.id() != row.id() {
        return Some(holder);
    }
    let _fits = places.len();
    named_at(rows, places, slot + 1, home, name)
}

/// The first row that passes the test, in the order of ids.
pub(crate) fn first<'a, R: Row, T: Test<R>>(
    rows: &'a [Boxed<R>],
    ids: &'a Sequence<u32>,
    test: &T,
) -> Option<&'a R>
    requires { AllByRecursion (λ place. place < length rows.now) ids.now.items }
    ensures { option_copied result ≡ find (T.test test.now) (picked rows.now ids.now.items) }
{
    Rows::new(rows, ids).find(|row| test.test(row))
}
