ghost use Rattle.std.specs.Prelude.{◌≡◌, ◌⊎◌, ◌<◌, ◌≤◌, ◌^◌, ℕ, pos, None, IfOk, IfSome, OnOk, OnErr};
ghost use Rattle.sqlite.specs.Held.{state};
ghost use Rattle.ks_outside.specs.Counts.{Counts};
ghost use Rattle.ks_keeper.specs.Keeper.{IsTidy, with_entry, with_header};
ghost use Rattle.ks_keeper.specs.Book.{kept_by, found_at, IsWhole, IsWholeBook, IsPut};

use crate::shelf::Shelf;
use crate::statements::{put, read};
use crate::tables::is_book;
use crate::{KeepFault, Keeper};
use ks_base::Bytes;
use sqlite::{Alter, Connection, Error, ErrorCode};
use std::alloc::Global;
use std::marker::Model;
use std::snapshot::Snapshot;

/// A keeper over a database with a table of the entries and a table of the header. A change is one statement,
/// which is committed before its answer: after an error it was not made.
///
/// The clauses on what it holds are of a book that is whole: nobody else wrote the file, the disk gave back
/// what was written, no failure shut the connection, and what it held at first was tidy. The count of faults stands still at 2^64 - 1.
pub struct Book<S: Alter> {
    conn: Connection<S>,
    alloc: Global,
    faults: u64,
    first: Snapshot<Connection<S>>,
}

impl<S: Alter + Drop> Drop for Book<S> {
    fn drop(self) {
        let Book {
            conn: _,
            alloc: _,
            faults: _,
            first: _,
        } = self;
    }
}

impl<S: Alter> Model for Book<S> {
    ghost use Rattle.sqlite.specs.Held.{state};
    ghost use Rattle.ks_keeper.specs.Book.{BookState, IsReady, book_code};

    ghost Value = { BookState S };

    ghost coded = { book_code S.code };

    ghost view = { λ b. record { held = b.conn; faults = b.faults; first = b.first.value } };

    ghost invariant = { λ b. IsReady (state S.Store b.conn) };
}

impl<S: Alter> Book<S> {
    /// A book over this connection, which is handed back where its tables are not those of a book or it is in
    /// a transaction.
    pub fn over(alloc: Global, conn: Connection<S>) -> Result<Book<S>, Connection<S>>
        ensures is { IfOk result (λ book. book ≡ record { held = conn; faults = 0; first = conn }) }
        ensures tidy { IfOk result (λ book. IsWholeBook S.Store book → IsTidy (kept_by S.Store book)) }
    {
        if conn.is_autocommit() && is_book(conn.schema()) {
            let first = Snapshot::of(&conn);
            Ok(Book {
                conn,
                alloc,
                faults: 0,
                first,
            })
        } else {
            Err(conn)
        }
    }

    /// The bytes at this number of a table, where there are any.
    fn find(&mut self, shelf: Shelf, number: i64) -> Result<Option<Bytes>, KeepFault>
        ensures since { IsWhole (state S.Store self.new.held) → IsWhole (state S.Store self.old.held) }
        ensures told { IsWhole (state S.Store self.new.held) → IfOk result (λ found. found ≡ found_at shelf (state S.Store self.old.held).now.trees number) }
        ensures same { IsWhole (state S.Store self.new.held) → (state S.Store self.new.held).now ≡ (state S.Store self.old.held).now }
        ensures faults { Counts (result ≡ Err KeepFault.Failed) self.old.faults self.new.faults }
        ensures first { self.new.first ≡ self.old.first }
    {
        match read(self.alloc, &mut self.conn, shelf, number) {
            Ok(found) => Ok(found),
            Err(error) => Err(fault_of(&error, &mut self.faults)),
        }
    }

    /// Puts the bytes at this number of a table.
    fn put(&mut self, shelf: Shelf, number: i64, body: &[u8]) -> Result<(), KeepFault>
        ensures since { IsWhole (state S.Store self.new.held) → IsWhole (state S.Store self.old.held) }
        ensures ok { IsWhole (state S.Store self.new.held) → OnOk result (IsPut shelf number body.now (state S.Store self.old.held).now.trees (state S.Store self.new.held).now.trees) }
        ensures err { IsWhole (state S.Store self.new.held) → OnErr result ((state S.Store self.new.held).now ≡ (state S.Store self.old.held).now) }
        ensures faults { Counts (result ≡ Err KeepFault.Failed) self.old.faults self.new.faults }
        ensures first { self.new.first ≡ self.old.first }
    {
        match put(&mut self.conn, shelf, number, body) {
            Ok(()) => Ok(()),
            Err(error) => Err(fault_of(&error, &mut self.faults)),
        }
    }
}

/// What an error of a statement is to a caller. One that is not want of memory or room is counted.
fn fault_of(error: &Error, faults: &mut u64) -> KeepFault
    ensures { Counts (result ≡ KeepFault.Failed) faults.old faults.new }
{
    match error {
        Error::SqliteFailure(ErrorCode::OutOfMemory | ErrorCode::TooBig) => KeepFault::Memory,
        _ => {
            *faults = faults.saturating_add(1);
            KeepFault::Failed
        }
    }
}

/// The number of a row for this entry. The table has none from 2^63 on.
fn place_of(number: u64) -> Option<i64>
    ensures some { IfSome result (λ place. (number < 2 ^ 63) × (place ≡ pos number)) }
    ensures none { result ≡ None → 2 ^ 63 ≤ number }
{
    if number < 1 << 63 {
        Some(number as i64)
    } else {
        None
    }
}

impl<S: Alter> Keeper for Book<S> {
    ghost kept = { kept_by S.Store };

    ghost whole = { IsWholeBook S.Store };

    ghost faults = { λ b. b.faults };

    fn header(&mut self) -> Result<Option<Bytes>, KeepFault> {
        self.find(Shelf::Header, 0)
    }

    fn set_header(&mut self, header: &[u8]) -> Result<(), KeepFault> {
        self.put(Shelf::Header, 0, header)
    }

    fn read(&mut self, number: u64) -> Result<Option<Bytes>, KeepFault> {
        match place_of(number) {
            Some(place) => self.find(Shelf::Entries, place),
            None => Ok(None),
        }
    }

    fn keep(&mut self, number: u64, entry: &[u8]) -> Result<(), KeepFault> {
        match place_of(number) {
            Some(place) => self.put(Shelf::Entries, place, entry),
            None => Err(KeepFault::Memory),
        }
    }
}
