ghost use Rattle.std.specs.Prelude.{Result};
ghost use Rattle.ks_json.specs.View.{items_view};
ghost use Rattle.ks_base.specs.declared.shapes.ShapeFault.{ShapeFault};
ghost use Rattle.ks_shape.specs.Places.{Place, names_in, place_of};
ghost use Rattle.ks_shape.specs.Readings.{Reads};
ghost use Rattle.ks_written.specs.Entries.{entries, entries_from, listed};

use ks_base::limits::OPENING_BYTES;
use ks_base::{ListOf, ShapeRefusal};
use ks_json::Value;
use ks_shape::Node;
use std::alloc::Global;

/// What an entry of a list is read as.
pub(crate) trait Entry: Drop {
    ghost reads: { Place → Result Self ShapeFault };

    fn read(alloc: Global, entry: &Node) -> Result<Self, ShapeRefusal>
        ensures { Reads result (reads (place_of entry.now)) };
}

/// The values, as entries of the list to which the names lead.
pub(crate) fn each<'v, 'a, E: Entry>(
    alloc: Global,
    file: &Node<'v, 'a>,
    names: &[&str],
    values: &'v [Value<'a>],
) -> Result<ListOf<E>, ShapeRefusal>
    ensures { Reads result (entries_from E.reads (names_in names.now) (place_of file.now) 0 (items_view values.now)) }
{
    let mut rows = ListOf::from_vec(Vec::with_capacity(alloc, values.len())?);
    for (number, value) in values.iter().enumerate() {
        let entry = file.entry(names, number, value)?;
        let row = E::read(alloc, &entry)?;
        rows.push(row)?;
    }
    Ok(rows)
}

/// The entries of the list to which the names lead, where it is given.
#[tactic(auto, unfolding(crate::specs::Entries::listed))]
pub(crate) fn listed<E: Entry>(
    alloc: Global,
    file: &Node,
    names: &[&str],
) -> Result<Option<ListOf<E>>, ShapeRefusal>
    ensures { Reads result (listed E.reads (names_in names.now) (place_of file.now)) }
{
    let Some(values) = file.optional_list(names, OPENING_BYTES)? else {
        return Ok(None);
    };
    let rows = each(alloc, file, names, values.as_slice())?;
    Ok(Some(rows))
}

/// The entries of the list to which the names lead; none where it is absent.
#[tactic(auto, unfolding(crate::specs::Entries::entries))]
pub(crate) fn entries<E: Entry>(
    alloc: Global,
    file: &Node,
    names: &[&str],
) -> Result<ListOf<E>, ShapeRefusal>
    ensures { Reads result (entries E.reads (names_in names.now) (place_of file.now)) }
{
    match listed(alloc, file, names)? {
        Some(rows) => Ok(rows),
        None => Ok(ListOf::new(alloc)),
    }
}
