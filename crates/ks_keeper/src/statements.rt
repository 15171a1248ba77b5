//! The statements over the tables of a book.
ghost use Rattle.std.specs.Prelude.{◌≡◌, true, map, IsTrue, IfOk, OnOk, OnErr, IsPermutation, option_map};
ghost use Rattle.sqlite.specs.Held.{state};
ghost use Rattle.sqlite_value.specs.Order.{column, bytes};
ghost use Rattle.sqlite_trees.specs.View.{is_int};
ghost use Rattle.ks_keeper.specs.Book.{IsReady, IsWhole, IsPut, Moves, HasOneNumber, insert_text, replace_text, select_text, shown, rows_at, only, found_at};

use crate::shelf::Shelf;
use ks_base::{Bytes, Memory};
use sqlite::types::ValueRef;
use sqlite::{Alter, Connection, Constraint, Error, ErrorCode, Row, params};
use std::alloc::Global;

fn insert_text(shelf: Shelf) -> &'static str
    ensures { result.now ≡ insert_text shelf }
{
    match shelf {
        Shelf::Entries => "INSERT INTO entry (id, body) VALUES (?1, ?2)",
        Shelf::Header => "INSERT INTO header (id, body) VALUES (?1, ?2)",
    }
}

fn replace_text(shelf: Shelf) -> &'static str
    ensures { result.now ≡ replace_text shelf }
{
    match shelf {
        Shelf::Entries => "INSERT OR REPLACE INTO entry (id, body) VALUES (?1, ?2)",
        Shelf::Header => "INSERT OR REPLACE INTO header (id, body) VALUES (?1, ?2)",
    }
}

fn select_text(shelf: Shelf) -> &'static str
    ensures { result.now ≡ select_text shelf }
{
    match shelf {
        Shelf::Entries => "SELECT id, body FROM entry WHERE id = ?1",
        Shelf::Header => "SELECT id, body FROM header WHERE id = ?1",
    }
}

/// Makes the tables of a book, both or none.
pub(crate) fn create<S: Alter>(conn: &mut Connection<S>) -> Result<(), Error> {
    conn.execute_batch(
        "BEGIN;
        CREATE TABLE entry (id INTEGER PRIMARY KEY, body BLOB NOT NULL) STRICT;
        CREATE TABLE header (id INTEGER PRIMARY KEY, body BLOB NOT NULL) STRICT;
        COMMIT",
    )
}

/// Puts the bytes at a number that no row has.
fn insert<S: Alter>(
    conn: &mut Connection<S>,
    shelf: Shelf,
    number: i64,
    body: &[u8],
) -> Result<usize, Error>
    requires { IsReady (state S.Store conn.old) }
    ensures moves { IsWhole (state S.Store conn.new) → Moves (state S.Store conn.old) (state S.Store conn.new) }
    ensures err { IsWhole (state S.Store conn.new) → OnErr result ((state S.Store conn.new).now ≡ (state S.Store conn.old).now) }
    ensures put { IsWhole (state S.Store conn.new) → OnOk result (IsPut shelf number body.now (state S.Store conn.old).now.trees (state S.Store conn.new).now.trees) }
{
    conn.execute(insert_text(shelf), params![number, body])
}

/// Puts the bytes at a number, in the place of the row that has it.
fn replace<S: Alter>(
    conn: &mut Connection<S>,
    shelf: Shelf,
    number: i64,
    body: &[u8],
) -> Result<usize, Error>
    requires ready { IsReady (state S.Store conn.old) }
    requires one { IsWhole (state S.Store conn.old) → HasOneNumber (rows_at shelf (state S.Store conn.old).now.trees number) }
    ensures moves { IsWhole (state S.Store conn.new) → Moves (state S.Store conn.old) (state S.Store conn.new) }
    ensures err { IsWhole (state S.Store conn.new) → OnErr result ((state S.Store conn.new).now ≡ (state S.Store conn.old).now) }
    ensures put { IsWhole (state S.Store conn.new) → OnOk result (IsPut shelf number body.now (state S.Store conn.old).now.trees (state S.Store conn.new).now.trees) }
{
    conn.execute(replace_text(shelf), params![number, body])
}

/// The rows that have this number.
fn find<S: Alter>(conn: &mut Connection<S>, shelf: Shelf, number: i64) -> Result<Vec<Row>, Error>
    requires { IsReady (state S.Store conn.old) }
    ensures moves { IsWhole (state S.Store conn.new) → Moves (state S.Store conn.old) (state S.Store conn.new) }
    ensures same { IsWhole (state S.Store conn.new) → (state S.Store conn.new).now ≡ (state S.Store conn.old).now }
    ensures shows { IsWhole (state S.Store conn.new) → IfOk result (λ rows. IsPermutation (map shown (rows_at shelf (state S.Store conn.old).now.trees number)) rows.items) }
{
    conn.query_all(select_text(shelf), params![number])
}

/// The one row of the list.
fn only(mut rows: Vec<Row>) -> Option<Row>
    ensures { result ≡ only rows.items }
{
    let last = rows.pop()?;
    if rows.is_empty() { Some(last) } else { None }
}

/// Whether the number of a row is an integer.
fn has_number(row: &Row) -> bool
    ensures { IsTrue result → is_int (column row.now 0) ≡ true }
{
    matches!(row.get_ref(0), Ok(ValueRef::Int(_)))
}

/// The bytes of a row that a statement shows.
fn body_of(alloc: Global, row: &Row) -> Result<Bytes, Error>
    ensures { IfOk result (λ body. body ≡ bytes (column row.now 1)) }
{
    match row.get_ref(1)? {
        ValueRef::Text(body) | ValueRef::Blob(body) => copied(alloc, body),
        ValueRef::Null | ValueRef::Int(_) | ValueRef::Real(_) => copied(alloc, &[]),
    }
}

fn copied(alloc: Global, bytes: &[u8]) -> Result<Bytes, Error>
    ensures { IfOk result (λ copy. copy ≡ bytes.now) }
{
    match Bytes::of(alloc, bytes) {
        Ok(copy) => Ok(copy),
        Err(Memory) => Err(Error::SqliteFailure(ErrorCode::OutOfMemory)),
    }
}

/// The bytes at this number, where there are any.
pub(crate) fn read<S: Alter>(
    alloc: Global,
    conn: &mut Connection<S>,
    shelf: Shelf,
    number: i64,
) -> Result<Option<Bytes>, Error>
    requires { IsReady (state S.Store conn.old) }
    ensures moves { IsWhole (state S.Store conn.new) → Moves (state S.Store conn.old) (state S.Store conn.new) }
    ensures same { IsWhole (state S.Store conn.new) → (state S.Store conn.new).now ≡ (state S.Store conn.old).now }
    ensures told { IsWhole (state S.Store conn.new) → IfOk result (λ found. found ≡ found_at shelf (state S.Store conn.old).now.trees number) }
{
    let rows = find(conn, shelf, number)?;
    match only(rows) {
        Some(row) => Ok(Some(body_of(alloc, &row)?)),
        None => Ok(None),
    }
}

/// Puts the bytes at this number, also where a row has it.
pub(crate) fn put<S: Alter>(
    conn: &mut Connection<S>,
    shelf: Shelf,
    number: i64,
    body: &[u8],
) -> Result<(), Error>
    requires { IsReady (state S.Store conn.old) }
    ensures moves { IsWhole (state S.Store conn.new) → Moves (state S.Store conn.old) (state S.Store conn.new) }
    ensures err { IsWhole (state S.Store conn.new) → OnErr result ((state S.Store conn.new).now ≡ (state S.Store conn.old).now) }
    ensures put { IsWhole (state S.Store conn.new) → OnOk result (IsPut shelf number body.now (state S.Store conn.old).now.trees (state S.Store conn.new).now.trees) }
{
    match insert(conn, shelf, number, body) {
        Ok(_) => Ok(()),
        Err(Error::SqliteFailure(ErrorCode::ConstraintViolation(Constraint::PrimaryKey))) =>
            put_again(conn, shelf, number, body),
        Err(error) => Err(error),
    }
}

/// Puts the bytes at a number that a row has.
fn put_again<S: Alter>(
    conn: &mut Connection<S>,
    shelf: Shelf,
    number: i64,
    body: &[u8],
) -> Result<(), Error>
    requires { IsReady (state S.Store conn.old) }
    ensures moves { IsWhole (state S.Store conn.new) → Moves (state S.Store conn.old) (state S.Store conn.new) }
    ensures err { IsWhole (state S.Store conn.new) → OnErr result ((state S.Store conn.new).now ≡ (state S.Store conn.old).now) }
    ensures put { IsWhole (state S.Store conn.new) → OnOk result (IsPut shelf number body.now (state S.Store conn.old).now.trees (state S.Store conn.new).now.trees) }
{
    if !stands_alone(conn, shelf, number)? {
        return Err(Error::SqliteFailure(ErrorCode::NoRowid));
    }
    replace(conn, shelf, number, body)?;
    Ok(())
}

/// Whether one row has this number, as an integer.
fn stands_alone<S: Alter>(
    conn: &mut Connection<S>,
    shelf: Shelf,
    number: i64,
) -> Result<bool, Error>
    requires { IsReady (state S.Store conn.old) }
    ensures moves { IsWhole (state S.Store conn.new) → Moves (state S.Store conn.old) (state S.Store conn.new) }
    ensures same { IsWhole (state S.Store conn.new) → (state S.Store conn.new).now ≡ (state S.Store conn.old).now }
    ensures one { IsWhole (state S.Store conn.new) → IfOk result (λ alone. IsTrue alone → HasOneNumber (rows_at shelf (state S.Store conn.old).now.trees number)) }
{
    let rows = find(conn, shelf, number)?;
    match only(rows) {
        Some(row) => Ok(has_number(&row)),
        None => Ok(false),
    }
}
