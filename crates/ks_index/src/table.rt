ghost use Rattle.std.specs.Prelude.{◌≡◌, [], find, filter, is_some, length, map, option_copied, IfOk, IsOk, IsSome, OnOk, OnErr};
ghost use Rattle.ks_base.specs.Rows.{same};
ghost use Rattle.ks_base.specs.Tables.{id_cmp, IsAscending, find_row, put_row, drop_row};
ghost use Rattle.ks_index.specs.Indexes.{is_named, is_other_named};

use crate::{Rows, change, index, made, runs};
use ks_base::{Boxed, Id, IdList, Memory, Named, Test, Text};
use ks_chunks::Sequence;
use std::alloc::Global;
use std::marker::Model;

/// Rows in the order of their ids, one for each id, which are found by their ids and by their names. A row stays where it
/// came, so that making way for one among them moves no more than numbers of places.
#[derive(Drop)]
pub struct Table<R: Named> {
    rows: Vec<Boxed<R>>,
    /// The places of the rows, in the order of their ids.
    ids: Sequence<u32>,
    /// The places of the rows, in the order of their names, homes and ids.
    names: Sequence<u32>,
}

impl<R: Named> Model for Table<R> {
    ghost use Rattle.std.specs.Prelude.{List};
    ghost use Rattle.ks_base.specs.Tables.{id_cmp};
    ghost use Rattle.ks_index.specs.Indexes.{AreNamesOf, IsIndex, picked};

    ghost Value = { List R };

    ghost view = { λ table. picked table.rows.items table.ids.items };

    ghost invariant = { λ table. IsIndex id_cmp R.key table.rows.items table.ids.items × AreNamesOf R.within R.naming R.key table.rows.items table.names.items };
}

impl<R: Named> Table<R> {
    /// The empty table, which takes no memory yet.
    pub fn new(alloc: Global) -> Table<R>
        ensures { result ≡ [] }
    {
        Table {
            rows: Vec::new(alloc),
            ids: Sequence::new(alloc),
            names: Sequence::new(alloc),
        }
    }

    /// The table of these rows, whose indexes are made at once.
    pub fn from_rows(alloc: Global, rows: Vec<Boxed<R>>) -> Result<Table<R>, Memory>
        requires { IsAscending id_cmp R.key rows.items }
        ensures { IfOk result (λ table. table ≡ rows.items) }
    {
        let ids = made::places_of(alloc, rows.as_slice())?;
        let names = made::names_of(alloc, rows.as_slice())?;
        Ok(Table { rows, ids, names })
    }

    /// The row with this id.
    pub fn get(&self, id: &Id) -> Option<&R>
        ensures found { option_copied result ≡ find_row id_cmp R.key id.now self.now }
        ensures ascending { IsAscending id_cmp R.key self.now }
    {
        match index::place_among(self.rows.as_slice(), &self.ids, id) {
            Ok(at) => Some(self.rows[self.ids[at] as usize].get()),
            Err(_) => None,
        }
    }

    /// Whether a row has this id.
    pub fn contains(&self, id: &Id) -> bool
        ensures { result ≡ is_some (find_row id_cmp R.key id.now self.now) }
    {
        self.get(id).is_some()
    }

    /// Puts the row in its place, over the row with its id, if there is one. Only a row with a new id
    /// takes memory; one that found none is dropped.
    pub fn put(&mut self, row: R) -> Result<(), Memory>
        ensures ok { OnOk result (self.new ≡ put_row id_cmp R.key row self.old) }
        ensures err { OnErr result (self.new ≡ self.old) }
        ensures stands { IsSome (find_row id_cmp R.key (R.key row) self.old) → IsOk result }
    {
        match index::place_among(self.rows.as_slice(), &self.ids, row.id()) {
            Ok(at) => {
                change::replace(&mut self.rows, &mut self.names, self.ids[at], row);
                Ok(())
            }
            Err(at) => {
                change::insert(&mut self.rows, &mut self.ids, &mut self.names, at, row)?;
                Ok(())
            }
        }
    }

    /// Takes the row with this id out, if there is one. It takes no memory.
    pub fn remove(&mut self, id: &Id)
        ensures { self.new ≡ drop_row id_cmp R.key id.now self.old }
    {
        match index::place_among(self.rows.as_slice(), &self.ids, id) {
            Ok(at) => change::remove(&mut self.rows, &mut self.ids, &mut self.names, at),
            Err(_) => {}
        }
    }

    /// Leaves the rows that pass the test. It takes no memory.
    pub fn keep<T: Test<R>>(&mut self, test: &T)
        ensures { self.new ≡ filter (T.test test.now) self.old }
    {
        change::keep(&mut self.rows, &mut self.ids, &mut self.names, test);
    }

    /// The first row of this home and name, in the order of ids. Names are compared by bytes.
    pub fn named(&self, home: &[u8], name: &Text) -> Option<&R>
        ensures { option_copied result ≡ find (is_named R.within R.naming home.now name.now) self.now }
    {
        index::named(self.rows.as_slice(), &self.names, home, name.as_str())
    }

    /// The first other row with the home and the name of this one, in the order of ids.
    pub fn other_named(&self, row: &R) -> Option<&R>
        ensures { option_copied result ≡ find (is_other_named R.within R.naming R.key row.now) self.now }
    {
        index::other_named(self.rows.as_slice(), &self.names, row)
    }

    /// The first row that passes the test, in the order of ids.
    pub fn first<T: Test<R>>(&self, test: &T) -> Option<&R>
        ensures { option_copied result ≡ find (T.test test.now) self.now }
    {
        index::first(self.rows.as_slice(), &self.ids, test)
    }

    /// The rows, in the order of their ids.
    pub fn rows(&self) -> Rows<'_, R>
        ensures rows { result ≡ self.now }
        ensures ascending { IsAscending id_cmp R.key self.now }
    {
        Rows::new(self.rows.as_slice(), &self.ids)
    }

    /// The ids of the rows, in their order.
    pub fn ids(&self) -> Result<IdList, Memory>
        ensures { IfOk result (λ ids. ids ≡ map R.key self.now) }
    {
        runs::ids_at(*self.rows.allocator(), self.rows.as_slice(), &self.ids)
    }

    /// The ids of the rows that pass the test, in their order.
    pub fn ids_where<T: Test<R>>(&self, test: &T) -> Result<IdList, Memory>
        ensures { IfOk result (λ ids. ids ≡ map R.key (filter (T.test test.now) self.now)) }
    {
        runs::ids_passing(
            *self.rows.allocator(),
            self.rows.as_slice(),
            &self.ids,
            test,
        )
    }

    /// The ids of the rows of this name in all homes, in their order. No other rows are gone through.
    pub fn ids_named(&self, name: &Text) -> Result<IdList, Memory>
        ensures { IfOk result (λ ids. ids ≡ map R.key (filter (λ row. same (R.naming row) name.now) self.now)) }
    {
        runs::ids_named(
            *self.rows.allocator(),
            self.rows.as_slice(),
            &self.names,
            name.as_str(),
        )
    }

    /// How many rows there are.
    pub fn len(&self) -> usize
        ensures { result ≡ length self.now }
    {
        self.ids.len()
    }
}
