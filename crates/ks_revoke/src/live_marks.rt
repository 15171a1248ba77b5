//! The rows that are lent.
ghost use Rattle.std.specs.Prelude.{◌≡◌};
ghost use Rattle.std.specs.Iterator.{YieldsFirstRef, item_count};
ghost use Rattle.ks_revoke.specs.Marks.{lent};

use crate::live::is_live;
use ks_base::{Boxed, EventRow};
use std::marker::Model;

/// The rows of a table that are live at a moment, lent one after another in their order; contracts see those that are
/// still to come. Each row that is past is passed over.
#[derive(Drop)]
pub struct LiveMarks<'a> {
    life: u64,
    high: u64,
    rows: &'a [Boxed<EventRow>],
}

impl<'a> Model for LiveMarks<'a> {
    ghost use Rattle.ks_revoke.specs.Marks.{Lent};

    ghost Value = { Lent };

    ghost view = { λ marks. record { life = marks.life; high = marks.high; rows = marks.rows.now } };
}

impl<'a> LiveMarks<'a> {
    pub(crate) fn new(life: u64, high: u64, rows: &'a [Boxed<EventRow>]) -> LiveMarks<'a>
        ensures { result ≡ record { life = life; high = high; rows = rows.now } }
    {
        LiveMarks { life, high, rows }
    }
}

impl<'a> Iterator for LiveMarks<'a> {
    type Item = &'a EventRow;

    ghost next_gives = { YieldsFirstRef lent };

    ghost remaining = { item_count lent };

    fn next(&mut self) -> Option<&'a EventRow> {
        while let Some((first, others)) = self.rows.split_first() {
            self.rows = others;
            let row = first.get();
            if is_live(self.life, self.high, row) {
                return Some(row);
            }
        }
        None
    }
}
