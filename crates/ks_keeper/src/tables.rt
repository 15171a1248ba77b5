//! Which schema is that of a book.
ghost use Rattle.std.specs.Prelude.{◌≡◌, [], Some, IsTrue};
ghost use Rattle.ks_keeper.specs.Book.{book_schema, table_of, name_of, tree_of, column_of};

use crate::shelf::Shelf;
use sqlite_schema::code::Terms;
use sqlite_schema::schema::{Column, Kind, Schema, Stamps, Table};
use sqlite_value::keys::Collation;
use sqlite_value::value::Value;

/// Whether the tables are those of a book, and there is nothing else.
pub(crate) fn is_book(schema: &Schema) -> bool
    ensures { IsTrue result → schema.now ≡ book_schema }
{
    if !schema.indexes.is_empty() || !schema.views.is_empty() || schema.tables.len() != 2 {
        return false;
    }
    let tables = schema.tables.as_slice();
    is_shelf(&tables[0], Shelf::Entries) && is_shelf(&tables[1], Shelf::Header)
}

/// Whether the table is this one of a book.
fn is_shelf(table: &Table, shelf: Shelf) -> bool
    ensures { IsTrue result → table.now ≡ table_of shelf }
{
    is_named(table, shelf) && has_columns(table) && has_key(table) && is_plain(table)
}

fn is_named(table: &Table, shelf: Shelf) -> bool
    ensures name { IsTrue result → table.now.name ≡ name_of shelf }
    ensures tree { IsTrue result → table.now.tree ≡ tree_of shelf }
{
    let (name, tree) = match shelf {
        Shelf::Entries => ("entry", 0),
        Shelf::Header => ("header", 1),
    };
    table.name.as_slice() == name.as_bytes() && table.tree == tree
}

fn has_columns(table: &Table) -> bool
    ensures { IsTrue result → table.now.columns ≡ (table_of Shelf.Entries).columns }
{
    if table.columns.len() != 2 {
        return false;
    }
    let columns = table.columns.as_slice();
    is_column(&columns[0], b"id", Kind::Integer, false)
        && is_column(&columns[1], b"body", Kind::Blob, true)
}

fn is_column(column: &Column, name: &[u8], kind: Kind, not_null: bool) -> bool
    ensures { IsTrue result → column.now ≡ column_of name.now kind not_null }
{
    if column.name.as_slice() != name || column.kind != kind {
        return false;
    }
    if !column.is_strict || column.not_null != not_null {
        return false;
    }
    matches!(
        (&column.default, column.collation),
        (Value::Null, Collation::Binary)
    )
}

/// Whether the key is the first column, and there is no other.
fn has_key(table: &Table) -> bool
    ensures key { IsTrue result → table.now.key ≡ Some 0 }
    ensures primary { IsTrue result → table.now.primary ≡ (table_of Shelf.Entries).primary }
    ensures uniques { IsTrue result → table.now.uniques ≡ [] }
    ensures orders { IsTrue result → table.now.orders ≡ [] }
{
    table.key == Some(0)
        && table.primary.as_slice() == [0].as_slice()
        && table.uniques.is_empty()
        && table.orders.is_empty()
}

/// Whether the table has no checks, references, computed columns or counter.
fn is_plain(table: &Table) -> bool
    ensures checks { IsTrue result → table.now.checks ≡ [] }
    ensures references { IsTrue result → table.now.references ≡ [] }
    ensures computed { IsTrue result → table.now.computed ≡ [] }
    ensures stamps { IsTrue result → table.now.stamps ≡ (table_of Shelf.Entries).stamps }
    ensures counted { IsTrue result → table.now.is_counted ≡ (table_of Shelf.Entries).is_counted }
{
    has_no_terms(&table.checks)
        && table.references.is_empty()
        && table.computed.is_empty()
        && has_no_stamps(&table.stamps)
        && !table.is_counted
}

fn has_no_stamps(stamps: &Stamps) -> bool
    ensures { IsTrue result → stamps.now ≡ (table_of Shelf.Entries).stamps }
{
    stamps.places.is_empty() && has_no_terms(&stamps.terms) && stamps.formats.is_empty()
}

fn has_no_terms(terms: &Terms) -> bool
    ensures { IsTrue result → terms.now ≡ [] }
{
    terms.roots.is_empty()
}
