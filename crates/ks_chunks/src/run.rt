//! Items of a sequence, side by side.
ghost use Rattle.std.specs.Prelude.{◌≡◌, ◌≤◌, length, slice_range};
ghost use Rattle.std.specs.Iterator.{YieldsFirstRef, item_count};

use crate::Sequence;
use std::marker::Model;

/// Items that stand side by side, lent one after another; contracts see those that are still to come.
#[derive(Drop)]
pub struct Run<'a, T> {
    sequence: &'a Sequence<T>,
    from: usize,
    to: usize,
}

impl<'a, T> Model for Run<'a, T> {
    ghost use Rattle.std.specs.Prelude.{List, length, slice_range, ◌≤◌};

    ghost Value = { List T };

    ghost view = { λ run. slice_range run.sequence.now.items run.from run.to };

    ghost invariant = { λ run. (run.from ≤ run.to) × (run.to ≤ length run.sequence.now.items) };
}

impl<'a, T: Drop> Run<'a, T> {
    /// How many are still to come.
    pub fn len(&self) -> usize
        ensures { result ≡ length self.now }
    {
        self.to - self.from
    }
}

impl<'a, T: Drop> Iterator for Run<'a, T> {
    type Item = &'a T;

    ghost next_gives = { YieldsFirstRef (λ items. items) };

    ghost remaining = { item_count (λ items. items) };

    fn next(&mut self) -> Option<&'a T> {
        if self.from == self.to {
            return None;
        }
        let item = self.sequence.get(self.from)?;
        self.from += 1;
        Some(item)
    }
}

impl<T: Drop> Sequence<T> {
    /// The items from a place up to another.
    pub fn range(&self, from: usize, to: usize) -> Run<'_, T>
        requires order { from ≤ to }
        requires within { to ≤ length self.now.items }
        ensures { result ≡ slice_range self.now.items from to }
    {
        Run {
            sequence: self,
            from,
            to,
        }
    }

    /// All items.
    pub fn iter(&self) -> Run<'_, T>
        ensures { result ≡ self.now.items }
    {
        self.range(0, self.len())
    }
}
