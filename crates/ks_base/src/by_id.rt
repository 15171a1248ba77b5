//! Lists of rows in the order of their ids.
ghost use Rattle.std.specs.Prelude.{◌≡◌, filter, length, map, IfOk};
ghost use Rattle.std.specs.List.Sorted.{IsSearchInRange};
ghost use Rattle.ks_base.specs.Tables.{id_cmp, IsAscending};
ghost use Rattle.ks_base.specs.Places.{IsPlace};

use crate::{Boxed, Id, Row, Test};
use std::alloc::{AllocError, Global};

/// The place of the row with this id, or the one where it belongs.
pub fn place<R: Row>(rows: &[R], id: &Id) -> Result<usize, usize>
    requires { IsAscending id_cmp R.key rows.now }
    ensures bound { IsSearchInRange result (length rows.now) }
    ensures place { IsPlace id_cmp R.key id.now rows.now result }
{
    rows.binary_search_by(|row| row.id().cmp(id))
}

/// The ids of the rows.
pub fn ids_of<R: Row>(alloc: Global, rows: &[R]) -> Result<Vec<Id>, AllocError>
    ensures { IfOk result (λ ids. ids.items ≡ map R.key rows.now) }
{
    rows.iter().map(|row| *row.id()).collect(alloc)
}

/// The ids of the rows that pass the test.
pub fn ids_passing<R: Row, T: Test<R>>(
    alloc: Global,
    rows: &[Boxed<R>],
    test: &T,
) -> Result<Vec<Id>, AllocError>
    ensures { IfOk result (λ ids. ids.items ≡ map R.key (filter (T.test test.now) rows.now)) }
{
    rows.iter()
        .filter(|row| test.test(row.get()))
        .map(|row| *row.id())
        .collect(alloc)
}
