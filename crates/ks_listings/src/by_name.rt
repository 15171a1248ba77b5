//! Rows of the five kinds that all filters list. Where one asks for a name, only the rows of this name are looked at.
ghost use Rattle.std.specs.Prelude.{◌≡◌, ◌&&◌, filter, map, IfOk};
ghost use Rattle.ks_base.specs.Rows.{same};
ghost use Rattle.ks_machine.specs.Listings.{passes_name};

use crate::filtered::Listed;
use crate::shelf::Shelf;
use ks_base::{FieldList, Id, Memory, Text};
use ks_checks::filters::value_in;
use ks_index::Rows;
use ks_machine::RowList;
use std::alloc::Global;

/// Those of the rows on which the filters agree, all but the one by name.
fn listed_among<R: Listed>(
    alloc: Global,
    rows: Rows<'_, R>,
    fields: &FieldList,
) -> Result<RowList, Memory>
    ensures { IfOk result (λ listed. listed ≡ map R.told (filter (R.agrees fields.now) rows.entry)) }
{
    let mut listed = RowList::new(alloc);
    for row in rows {
        if row.agrees(fields) {
            listed.push(row.told()?)?;
        }
    }
    Ok(listed)
}

/// The same of the rows of this name, whose ids these are.
fn listed_at<R: Listed, S: Shelf<R>>(
    alloc: Global,
    shelf: &S,
    name: &Text,
    ids: &[Id],
    fields: &FieldList,
) -> Result<RowList, Memory>
    requires { ids.now ≡ map R.key (filter (λ row. same (R.naming row) name.now) (S.rows shelf.now)) }
    ensures { IfOk result (λ listed. listed ≡ map R.told (filter (R.agrees fields.now) (filter (λ row. same (R.naming row) name.now) (S.rows shelf.now)))) }
{
    let mut listed = RowList::new(alloc);
    for id in ids {
        match shelf.of_id(id) {
            Some(row) => {
                if row.agrees(fields) {
                    listed.push(row.told()?)?;
                }
            }
            None => unreachable!(),
        }
    }
    Ok(listed)
}

/// The rows on which all filters agree.
pub(crate) fn listed_on<R: Listed, S: Shelf<R>>(
    alloc: Global,
    shelf: &S,
    fields: &FieldList,
) -> Result<RowList, Memory>
    ensures { IfOk result (λ listed. listed ≡ map R.told (filter (λ row. passes_name fields.now (R.naming row) && R.agrees fields.now row) (S.rows shelf.now))) }
{
    match value_in(fields, "name") {
        Some(name) => {
            let ids = shelf.of_name(name)?;
            listed_at::<R, S>(alloc, shelf, name, ids.as_slice(), fields)
        }
        None => listed_among(alloc, shelf.all(), fields),
    }
}
