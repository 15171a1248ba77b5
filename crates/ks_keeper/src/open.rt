//! A book at a path.
ghost use Rattle.std.specs.Prelude.{◌≡◌, IfOk};
ghost use Rattle.ks_keeper.specs.Keeper.{IsTidy};

use crate::statements::create;
use crate::tables::is_book;
use crate::tidy::{Untidy, untidiness};
use crate::{Book, Keeper};
use sqlite::{Alter, Connection, Error, ErrorCode, File, FileStore};
use std::alloc::AllocError;
use std::fs::OpenOptions;
use std::io::ErrorKind;
use std::os::unix::fs::OpenOptionsExt;
use std::{fmt, fs, io};

/// The mode of a new file: its owner reads and writes it.
const OWNER_ALONE: u32 = 0o600;

/// A book in a file.
pub type FileBook = Book<FileStore<File>>;

/// Why a file is not opened as a book. It is then as it was, and a log that is empty may stand beside it.
#[derive(Debug, Drop)]
pub enum NotBook {
    /// Another process has it open.
    Held,
    /// It stands, and is empty.
    Empty,
    /// Its log stands without it.
    LogAlone,
    /// Its tables are not those of a book.
    OtherTables,
    /// It has no entry with this number, and one behind it.
    Gap(u64),
    /// It has entries, and no header.
    NoHeader,
    /// It is no database, or it could not be read or written.
    Database(Error),
    /// It could not be looked at or made.
    File(io::Error),
    /// There was no memory.
    Memory,
}

impl fmt::Display for NotBook {
    fn fmt<W: fmt::Write>(&self, f: &mut fmt::Formatter<W>) -> fmt::Result {
        match self {
            NotBook::Held => write!(f, "another process has it open"),
            NotBook::Empty => write!(f, "it is empty"),
            NotBook::LogAlone => write!(f, "it is missing, and its log is not"),
            NotBook::OtherTables => write!(f, "its tables are not those of a book"),
            NotBook::Gap(number) => write!(
                f,
                "entry {number} is missing, and one behind it is not"
            ),
            NotBook::NoHeader => write!(f, "it has entries and no header"),
            NotBook::Database(error) => write!(f, "{error}"),
            NotBook::File(error) => write!(f, "{error}"),
            NotBook::Memory => write!(f, "out of memory"),
        }
    }
}

impl std::error::Error for NotBook {}

impl From<AllocError> for NotBook {
    fn from(_error: AllocError) -> NotBook {
        NotBook::Memory
    }
}

impl From<Error> for NotBook {
    fn from(error: Error) -> NotBook {
        match error {
            Error::SqliteFailure(ErrorCode::DatabaseBusy) => NotBook::Held,
            Error::SqliteFailure(ErrorCode::OutOfMemory) => NotBook::Memory,
            other => NotBook::Database(other),
        }
    }
}

impl From<Untidy> for NotBook {
    fn from(why: Untidy) -> NotBook {
        match why {
            Untidy::Gap(number) => NotBook::Gap(number),
            Untidy::NoHeader => NotBook::NoHeader,
            Untidy::OtherNumbers => NotBook::OtherTables,
        }
    }
}

impl From<io::Error> for NotBook {
    fn from(error: io::Error) -> NotBook {
        if error.kind() == ErrorKind::OutOfMemory {
            NotBook::Memory
        } else {
            NotBook::File(error)
        }
    }
}

impl Book<FileStore<File>> {
    /// Opens the book at this path, or makes it, so that its owner alone may read it. It has one writer:
    /// while a process has it open, no other can open it.
    pub fn open(rt: &HostRuntime, path: &str) -> Result<Book<FileStore<File>>, NotBook>
        ensures begins { IfOk result (λ book. book.faults ≡ 0) }
        ensures tidy { IfOk result (λ book. ⟦<Book<FileStore<File>> as Keeper>⟧.whole book → IsTidy (⟦<Book<FileStore<File>> as Keeper>⟧.kept book)) }
    {
        make(rt, path)?;
        let mut conn = Connection::open(rt, path)?;
        prepare(&mut conn)?;
        match Book::over(rt.alloc(), conn) {
            Ok(book) => Ok(book),
            Err(_) => Err(NotBook::OtherTables),
        }
    }
}

/// Makes the tables of a book where there are none, and refuses those of no book and what is not tidy.
fn prepare<S: Alter>(conn: &mut Connection<S>) -> Result<(), NotBook> {
    let schema = conn.schema();
    // A stop may have come before the tables were made.
    if schema.tables.is_empty() && schema.indexes.is_empty() && schema.views.is_empty() {
        create(conn)?;
    }
    if !is_book(conn.schema()) {
        return Err(NotBook::OtherTables);
    }
    match untidiness(conn)? {
        Some(why) => Err(why.into()),
        None => Ok(()),
    }
}

/// Makes the file where it is missing. The log is made first, so that a stop in between leaves no file that
/// is taken for one that lost what it held.
fn make(rt: &HostRuntime, path: &str) -> Result<(), NotBook> {
    let log = format!(in rt.alloc(); "{path}-wal")?;
    match (length(rt, path)?, length(rt, log.as_str())?) {
        (Some(0), None) => Err(NotBook::Empty),
        (Some(_), _) => Ok(()),
        (None, Some(0)) => make_new(rt, path),
        (None, Some(_)) => Err(NotBook::LogAlone),
        (None, None) => {
            make_new(rt, log.as_str())?;
            make_new(rt, path)
        }
    }
}

fn make_new(rt: &HostRuntime, path: &str) -> Result<(), NotBook> {
    let _file = OpenOptions::new()
        .write(true)
        .create_new(true)
        .mode(OWNER_ALONE)
        .open(rt, path)?;
    Ok(())
}

/// How long the file is, where it stands.
fn length(rt: &HostRuntime, path: &str) -> Result<Option<u64>, NotBook> {
    match fs::metadata(rt, path) {
        Ok(found) => Ok(Some(found.len())),
        Err(error) if error.kind() == ErrorKind::NotFound => Ok(None),
        Err(error) => Err(error.into()),
    }
}

#[cfg(test)]
mod tests;
