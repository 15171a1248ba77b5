//! Rows that are found by their ids, by their homes and by their names there.
ghost use Rattle.std.specs.Prelude.{◌≡◌, [], not, filter, find, is_some, length, map, None, option_copied, IfOk, OnErr, OnOk};
ghost use Rattle.std.specs.Arc.{arc_value};
ghost use Rattle.ks_index.specs.Indexes.{is_named};
ghost use Rattle.ks_base.specs.Rows.{same};
ghost use Rattle.ks_base.specs.Tables.{id_cmp, IsAscending, find_row, put_row, drop_row};

use crate::orders::{drop_run, id_place, ids_of, keep, name_place, put_in_both, run_of, take_out};
use ks_base::{Id, IdList, Memory, Named, Test};
use ks_index::in_order;
use std::alloc::Global;
use std::marker::Model;
use std::sync::Arc;

/// Rows in the order of their ids, one for each id and for each name within a home. Both orders hold handles to the same
/// rows, so a change moves handles and no rows.
#[derive(Drop)]
pub(crate) struct TwoOrders<R: Named> {
    /// By id.
    rows: Vec<Arc<R>>,
    /// By home, and there by name.
    names: Vec<Arc<R>>,
}

impl<R: Named> Model for TwoOrders<R> {
    ghost use Rattle.std.specs.Prelude.{List, map};
    ghost use Rattle.std.specs.Arc.{arc_value};
    ghost use Rattle.ks_appcred.specs.Orders.{AreNamed};

    ghost Value = { List R };

    ghost view = { λ both. map arc_value both.rows.items };

    ghost invariant = { λ both. AreNamed R.within R.naming R.key (map arc_value both.rows.items) (map arc_value both.names.items) };
}

impl<R: Named> TwoOrders<R> {
    /// No rows, which take no memory yet.
    pub(crate) fn new(alloc: Global) -> TwoOrders<R>
        ensures { result ≡ [] }
    {
        TwoOrders {
            rows: Vec::new(alloc),
            names: Vec::new(alloc),
        }
    }

    /// The row with this id.
    pub(crate) fn get(&self, id: &Id) -> Option<&R>
        ensures found { option_copied result ≡ find_row id_cmp R.key id.now self.now }
        ensures ascending { IsAscending id_cmp R.key self.now }
    {
        match id_place(self.rows.as_slice(), id) {
            Ok(at) => Some(&*self.rows[at]),
            Err(_) => None,
        }
    }

    /// Whether a row has this id.
    pub(crate) fn contains(&self, id: &Id) -> bool
        ensures { result ≡ is_some (find_row id_cmp R.key id.now self.now) }
    {
        self.get(id).is_some()
    }

    /// The row of this home with this name. Names are compared by bytes.
    pub(crate) fn named(&self, home: &[u8], name: &[u8]) -> Option<&R>
        ensures { option_copied result ≡ find (is_named R.within R.naming home.now name.now) self.now }
    {
        match name_place(self.names.as_slice(), home, name) {
            Ok(slot) => Some(&*self.names[slot]),
            Err(_) => None,
        }
    }

    /// The ids of the rows of this home, in their order.
    pub(crate) fn ids_within(&self, home: &[u8]) -> Result<IdList, Memory>
        ensures { IfOk result (λ ids. ids ≡ map R.key (filter (λ row. same (R.within row) home.now) self.now)) }
    {
        let run = run_of(self.names.as_slice(), home);
        let left = ids_of(*self.names.allocator(), run)?;
        let ids = in_order(left)?;
        Ok(IdList::from_vec(ids))
    }

    /// Puts a new row, with a new name, in its places. One that finds no memory is dropped.
    pub(crate) fn add(&mut self, row: R) -> Result<(), Memory>
        requires new { find_row id_cmp R.key (R.key row) self.old ≡ None }
        requires unnamed { find (is_named R.within R.naming (R.within row) (R.naming row)) self.old ≡ None }
        ensures ok { OnOk result (self.new ≡ put_row id_cmp R.key row self.old) }
        ensures err { OnErr result (self.new ≡ self.old) }
    {
        put_in_both(&mut self.rows, &mut self.names, row)?;
        Ok(())
    }

    /// Takes the row with this id out, if there is one. It takes no memory.
    pub(crate) fn remove(&mut self, id: &Id)
        ensures { self.new ≡ drop_row id_cmp R.key id.now self.old }
    {
        take_out(&mut self.rows, &mut self.names, id);
    }

    /// Takes the rows of this home out, and touches no others. It takes no memory.
    pub(crate) fn remove_within(&mut self, home: &[u8])
        ensures { self.new ≡ filter (λ row. not (same (R.within row) home.now)) self.old }
    {
        drop_run(&mut self.rows, &mut self.names, home);
    }

    /// Leaves the rows that pass the test, for which it goes through all. It takes no memory.
    pub(crate) fn keep<T: Test<R>>(&mut self, test: &T)
        ensures { self.new ≡ filter (T.test test.now) self.old }
    {
        keep(&mut self.rows, test);
        keep(&mut self.names, test);
    }

    /// The rows, in the order of their ids.
    pub(crate) fn rows(&self) -> &[Arc<R>]
        ensures rows { map arc_value result.now ≡ self.now }
        ensures ascending { IsAscending id_cmp R.key self.now }
    {
        self.rows.as_slice()
    }

    /// How many rows there are.
    pub(crate) fn len(&self) -> usize
        ensures { result ≡ length self.now }
    {
        self.rows.len()
    }
}
