ghost use Rattle.std.specs.Prelude.{◌≡◌, ◌<◌, IfOk, length, take, option_copied};
ghost use Rattle.ks_base.specs.Tables.{find_row, id_cmp};
ghost use Rattle.ks_machine.specs.Opened.{first_fault, id_repeated};
ghost use Rattle.ks_opening.specs.Opened.{TellsFault};
ghost use Rattle.ks_opening.specs.steps.Indexed.{AreApart};

use ks_base::{Id, Kind, Row};
use ks_machine::OpenFault;
use std::alloc::Global;
use std::collections::BTreeMap;
use std::marker::Model;

/// Rows in the order of a file, of which no two have one id, found by their ids.
#[derive(Drop)]
pub(crate) struct Index<'a, R: Row> {
    rows: &'a [R],
    places: BTreeMap<Id, usize>,
}

impl<'a, R: Row> Model for Index<'a, R> {
    ghost use Rattle.std.specs.Prelude.{List};
    ghost use Rattle.ks_opening.specs.steps.Indexed.{IsIndex};

    ghost Value = { List R };

    ghost view = { λ index. index.rows.now };

    ghost invariant = { λ index. IsIndex R.key index.rows.now index.places };
}

impl<'a, R: Row> Index<'a, R> {
    /// An index of these rows. Refused is the first row whose id an earlier one has.
    pub(crate) fn new(alloc: Global, kind: Kind, rows: &'a [R]) -> Result<Index<'a, R>, OpenFault>
        ensures rows { IfOk result (λ index. index ≡ rows.now) }
        ensures tells { TellsFault (first_fault (id_repeated kind R.key) rows.now) result }
    {
        let mut places = BTreeMap::new(alloc);
        for (at, row) in rows.iter().enumerate() {
            let Ok(earlier) = places.insert(*row.id(), at) else {
                return Err(OpenFault::Memory);
            };
            if earlier.is_some() {
                return Err(OpenFault::IdRepeated(kind, *row.id()));
            }
        }
        Ok(Index { rows, places })
    }

    /// The rows, in the order of the file.
    pub(crate) fn rows(&self) -> &'a [R]
        ensures rows { result.now ≡ self.now }
        ensures apart { AreApart id_cmp R.key self.now }
    {
        let _places = &self.places;
        self.rows
    }

    /// The row with this id.
    pub(crate) fn get(&self, id: &Id) -> Option<&'a R>
        ensures { option_copied result ≡ find_row id_cmp R.key id.now self.now }
    {
        let at = self.places.get(id)?;
        self.rows.get(*at)
    }

    /// The row with this id, if it stands before this place.
    pub(crate) fn get_before(&self, at: usize, id: &Id) -> Option<&'a R>
        ensures found { option_copied result ≡ find_row id_cmp R.key id.now (take at self.now) }
        ensures apart { AreApart id_cmp R.key self.now }
    {
        let place = self.places.get(id)?;
        if *place < at {
            self.rows.get(*place)
        } else {
            None
        }
    }
}
