ghost use Rattle.std.specs.Prelude.{◌≡◌, [], find, filter, is_some, length, map, option_copied, IfOk, IsOk, IsSome, OnOk, OnErr};
ghost use Rattle.ks_base.specs.Tables.{id_cmp, IsAscending, find_row, put_row, drop_row};

use crate::by_id::{ids_of, ids_passing, place};
use crate::{Boxed, Id, IdList, Memory, Row, Test};
use std::alloc::Global;
use std::marker::Model;

/// Rows in the order of their ids, one for each id, which are found by their ids alone. They stand behind pointers, so
/// that making way for one among them moves little.
#[derive(Drop)]
pub struct IdTable<R: Row> {
    rows: Vec<Boxed<R>>,
}

impl<R: Row> Model for IdTable<R> {
    ghost use Rattle.std.specs.Prelude.{List};
    ghost use Rattle.ks_base.specs.Tables.{id_cmp, IsAscending};

    ghost Value = { List R };

    ghost view = { λ table. table.rows.items };

    ghost invariant = { λ table. IsAscending id_cmp R.key table.rows.items };
}

impl<R: Row> IdTable<R> {
    /// The empty table, which takes no memory yet.
    pub fn new(alloc: Global) -> IdTable<R>
        ensures { result ≡ [] }
    {
        IdTable {
            rows: Vec::new(alloc),
        }
    }

    /// The rows, in the order of their ids.
    pub fn into_rows(self) -> Vec<Boxed<R>>
        ensures rows { result.items ≡ self }
        ensures ascending { IsAscending id_cmp R.key result.items }
    {
        let IdTable { rows } = self;
        rows
    }

    /// The row with this id.
    pub fn get(&self, id: &Id) -> Option<&R>
        ensures found { option_copied result ≡ find_row id_cmp R.key id.now self.now }
        ensures ascending { IsAscending id_cmp R.key self.now }
    {
        match place(self.rows.as_slice(), id) {
            Ok(at) => Some(self.rows[at].get()),
            Err(_) => None,
        }
    }

    /// Whether a row has this id.
    pub fn contains(&self, id: &Id) -> bool
        ensures { result ≡ is_some (find_row id_cmp R.key id.now self.now) }
    {
        self.get(id).is_some()
    }

    /// Puts the row in its place, over the row with its id, if there is one. Only a row with a new id
    /// takes memory; one that found none is dropped.
    pub fn put(&mut self, row: R) -> Result<(), Memory>
        ensures ok { OnOk result (self.new ≡ put_row id_cmp R.key row self.old) }
        ensures err { OnErr result (self.new ≡ self.old) }
        ensures stands { IsSome (find_row id_cmp R.key (R.key row) self.old) → IsOk result }
    {
        match place(self.rows.as_slice(), row.id()) {
            Ok(at) => {
                self.rows[at].set(row);
                Ok(())
            }
            Err(at) => {
                Boxed::insert(&mut self.rows, at, row)?;
                Ok(())
            }
        }
    }

    /// Takes the row with this id out, if there is one. It takes no memory.
    pub fn remove(&mut self, id: &Id)
        ensures { self.new ≡ drop_row id_cmp R.key id.now self.old }
    {
        match place(self.rows.as_slice(), id) {
            Ok(at) => {
                let _row = self.rows.remove(at);
            }
            Err(_) => {}
        }
    }

    /// Leaves the rows that pass the test. It takes no memory.
    pub fn keep<T: Test<R>>(&mut self, test: &T)
        ensures { self.new ≡ filter (T.test test.now) self.old }
    {
        self.rows.retain(|row| test.test(row.get()));
    }

    /// The first row that passes the test, in the order of ids.
    pub fn first<T: Test<R>>(&self, test: &T) -> Option<&R>
        ensures { option_copied result ≡ find (T.test test.now) self.now }
    {
        let row = Boxed::first(self.rows.as_slice(), test)?;
        Some(row.get())
    }

    /// The rows, in the order of their ids.
    pub fn rows(&self) -> &[Boxed<R>]
        ensures rows { result.now ≡ self.now }
        ensures ascending { IsAscending id_cmp R.key self.now }
    {
        self.rows.as_slice()
    }

    /// The ids of the rows, in their order.
    pub fn ids(&self) -> Result<IdList, Memory>
        ensures { IfOk result (λ ids. ids ≡ map R.key self.now) }
    {
        let ids = ids_of(*self.rows.allocator(), self.rows.as_slice())?;
        Ok(IdList::from_vec(ids))
    }

    /// The ids of the rows that pass the test, in their order.
    pub fn ids_where<T: Test<R>>(&self, test: &T) -> Result<IdList, Memory>
        ensures { IfOk result (λ ids. ids ≡ map R.key (filter (T.test test.now) self.now)) }
    {
        let ids = ids_passing(*self.rows.allocator(), self.rows.as_slice(), test)?;
        Ok(IdList::from_vec(ids))
    }

    /// How many rows there are.
    pub fn len(&self) -> usize
        ensures { result ≡ length self.now }
    {
        self.rows.len()
    }
}
