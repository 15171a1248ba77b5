//! The rows of a table, one after another.
ghost use Rattle.std.specs.Prelude.{◌≡◌, ◌<◌, length};
ghost use Rattle.std.specs.List.{AllByRecursion};
ghost use Rattle.std.specs.Iterator.{YieldsFirstRef, item_count};
ghost use Rattle.ks_index.specs.Indexes.{picked};

use ks_base::Boxed;
use ks_chunks::{Run, Sequence};
use std::marker::Model;

/// The rows of a table in the order of their ids, lent one after another; contracts see those that are still to come.
#[derive(Drop)]
pub struct Rows<'a, R> {
    rows: &'a [Boxed<R>],
    places: Run<'a, u32>,
}

impl<'a, R> Model for Rows<'a, R> {
    ghost use Rattle.std.specs.Prelude.{List, length, ◌<◌};
    ghost use Rattle.std.specs.List.{AllByRecursion};
    ghost use Rattle.ks_index.specs.Indexes.{picked};

    ghost Value = { List R };

    ghost view = { λ all. picked all.rows.now all.places };

    ghost invariant = { λ all. AllByRecursion (λ place. place < length all.rows.now) all.places };
}

impl<'a, R> Rows<'a, R> {
    pub(crate) fn new(rows: &'a [Boxed<R>], places: &'a Sequence<u32>) -> Rows<'a, R>
        requires { AllByRecursion (λ place. place < length rows.now) places.now.items }
        ensures { result ≡ picked rows.now places.now.items }
    {
        Rows {
            rows,
            places: places.iter(),
        }
    }

    /// How many are still to come.
    pub fn len(&self) -> usize
        ensures { result ≡ length self.now }
    {
        self.places.len()
    }
}

impl<'a, R> Iterator for Rows<'a, R> {
    type Item = &'a R;

    ghost next_gives = { YieldsFirstRef (λ rows. rows) };

    ghost remaining = { item_count (λ rows. rows) };

    fn next(&mut self) -> Option<&'a R> {
        let first = self.places.next()?;
        Some(self.rows[*first as usize].get())
    }
}
