//! Changes of a table's rows and of both its indexes. The rows stand where they came, but for the last one, which takes the place of
//! one that goes.
ghost use Rattle.std.specs.Prelude.{◌≡◌, ◌<◌, ◌≤◌, filter, length, map, set, get_or, OnOk, OnErr};
ghost use Rattle.std.specs.List.{insert, remove};
ghost use Rattle.ks_base.specs.Tables.{id_cmp};
ghost use Rattle.ks_base.specs.Places.{IsGapAt};
ghost use Rattle.ks_index.specs.Indexes.{AreNamesBut, AreNamesOf, AreUnlike, IsIndex, WasMoved, full_cmp, full_name, picked};

use crate::index::{next_place, place_of, slot_of};
use ks_base::{Boxed, Memory, Named, Test};
use ks_chunks::Sequence;

/// Puts a place into the index by name, which lacks it.
fn put_in<R: Named>(rows: &[Boxed<R>], names: &mut Sequence<u32>, at: u32)
    requires at { at < length rows.now }
    requires room { 0 < names.old.room }
    requires unlike { AreUnlike R.key rows.now }
    requires but { AreNamesBut R.within R.naming R.key rows.now names.old.items at }
    ensures { AreNamesOf R.within R.naming R.key rows.now names.new.items }
{
    let row = rows[at as usize].get();
    match slot_of(rows, names, row) {
        Ok(_) => unreachable!(),
        Err(slot) => names.insert(slot, at),
    }
}

/// Takes a place out of the index by name, which leaves room for one.
fn take_out<R: Named>(rows: &[Boxed<R>], names: &mut Sequence<u32>, at: u32)
    requires at { at < length rows.now }
    requires names { AreNamesOf R.within R.naming R.key rows.now names.old.items }
    ensures but { AreNamesBut R.within R.naming R.key rows.now names.new.items at }
    ensures room { 0 < names.new.room }
{
    let row = rows[at as usize].get();
    match slot_of(rows, names, row) {
        Ok(slot) => {
            let _place = names.remove(slot);
        }
        Err(_) => unreachable!(),
    }
}

/// Puts a new row behind all others, and its place into both indexes. A row that found no memory is dropped.
pub(crate) fn insert<R: Named>(
    rows: &mut Vec<Boxed<R>>,
    ids: &mut Sequence<u32>,
    names: &mut Sequence<u32>,
    at: usize,
    row: R,
) -> Result<(), Memory>
    requires at { at ≤ length ids.old.items }
    requires gap { IsGapAt id_cmp R.key (R.key row) (picked rows.old.items ids.old.items) at }
    requires ids { IsIndex id_cmp R.key rows.old.items ids.old.items }
    requires names { AreNamesOf R.within R.naming R.key rows.old.items names.old.items }
    ensures ok { OnOk result (picked rows.new.items ids.new.items ≡ insert (picked rows.old.items ids.old.items) at row) }
    ensures ids { OnOk result (IsIndex id_cmp R.key rows.new.items ids.new.items) }
    ensures names { OnOk result (AreNamesOf R.within R.naming R.key rows.new.items names.new.items) }
    ensures err { OnErr result ((rows.new.items ≡ rows.old.items) × (ids.new.items ≡ ids.old.items) × (names.new.items ≡ names.old.items)) }
{
    let place = next_place(rows.as_slice())?;
    ids.reserve()?;
    names.reserve()?;
    let behind = rows.len();
    Boxed::insert(rows, behind, row)?;
    ids.insert(at, place);
    put_in(rows.as_slice(), names, place);
    Ok(())
}

/// Puts a row over the one with its id. It takes no memory.
pub(crate) fn replace<R: Named>(
    rows: &mut Vec<Boxed<R>>,
    names: &mut Sequence<u32>,
    at: u32,
    row: R,
)
    requires at { at < length rows.old.items }
    requires key { R.key (get_or rows.old.items at row) ≡ R.key row }
    requires unlike { AreUnlike R.key rows.old.items }
    requires names { AreNamesOf R.within R.naming R.key rows.old.items names.old.items }
    ensures rows { rows.new.items ≡ set rows.old.items at row }
    ensures names { AreNamesOf R.within R.naming R.key rows.new.items names.new.items }
{
    take_out(rows.as_slice(), names, at);
    rows[at as usize].set(row);
    put_in(rows.as_slice(), names, at);
}

/// Tells both indexes that the row at this place was behind all others before.
fn renumber<R: Named>(
    rows: &[Boxed<R>],
    ids: &mut Sequence<u32>,
    names: &mut Sequence<u32>,
    at: u32,
)
    requires at { at < length rows.now }
    requires ids { WasMoved id_cmp R.key rows.now ids.old.items at }
    requires names { WasMoved full_cmp (full_name R.within R.naming R.key) rows.now names.old.items at }
    ensures ids { IsIndex id_cmp R.key rows.now ids.new.items }
    ensures names { AreNamesOf R.within R.naming R.key rows.now names.new.items }
    ensures rows { (row : R) → row ≡ get_or rows.now at row → picked rows.now ids.new.items ≡ map (λ place. get_or rows.now place row) ids.old.items }
{
    let row = rows[at as usize].get();
    match place_of(rows, ids, row, row.id()) {
        Ok(place) => ids.set(place, at),
        Err(_) => unreachable!(),
    }
    match slot_of(rows, names, row) {
        Ok(slot) => names.set(slot, at),
        Err(_) => unreachable!(),
    }
}

/// Takes the row out that stands at this place among the ids. It takes no memory.
pub(crate) fn remove<R: Named>(
    rows: &mut Vec<Boxed<R>>,
    ids: &mut Sequence<u32>,
    names: &mut Sequence<u32>,
    at: usize,
)
    requires at { at < length ids.old.items }
    requires ids { IsIndex id_cmp R.key rows.old.items ids.old.items }
    requires names { AreNamesOf R.within R.naming R.key rows.old.items names.old.items }
    ensures rows { picked rows.new.items ids.new.items ≡ remove (picked rows.old.items ids.old.items) at }
    ensures ids { IsIndex id_cmp R.key rows.new.items ids.new.items }
    ensures names { AreNamesOf R.within R.naming R.key rows.new.items names.new.items }
{
    let place = ids.remove(at);
    take_out(rows.as_slice(), names, place);
    let _row = rows.swap_remove(place as usize);
    if (place as usize) < rows.len() {
        renumber(rows.as_slice(), ids, names, place);
    }
}

/// Takes the rows out that fail a test, the last one first. It takes no memory.
pub(crate) fn keep<R: Named, T: Test<R>>(
    rows: &mut Vec<Boxed<R>>,
    ids: &mut Sequence<u32>,
    names: &mut Sequence<u32>,
    test: &T,
)
    requires ids { IsIndex id_cmp R.key rows.old.items ids.old.items }
    requires names { AreNamesOf R.within R.naming R.key rows.old.items names.old.items }
    ensures rows { picked rows.new.items ids.new.items ≡ filter (T.test test.now) (picked rows.old.items ids.old.items) }
    ensures ids { IsIndex id_cmp R.key rows.new.items ids.new.items }
    ensures names { AreNamesOf R.within R.naming R.key rows.new.items names.new.items }
{
    let mut at = ids.len();
    while at > 0 {
        at -= 1;
        if !test.test(rows[ids[at] as usize].get()) {
            remove(rows, ids, names, at);
        }
    }
}
