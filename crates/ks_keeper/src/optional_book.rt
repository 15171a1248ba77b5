//! A book in a file, where there is one.
ghost use Rattle.std.specs.Prelude.{IfOk};
ghost use Rattle.ks_keeper.specs.Keeper.{IsTidy};

use crate::{FileBook, KeepFault, Keeper, NotBook};
use ks_base::Bytes;

/// A book in a file, or a keeper of nothing. A type of its own hides those of the database, which would otherwise be compared
/// wherever it is handed on.
#[derive(Drop)]
pub struct OptionalBook {
    book: Option<FileBook>,
}

impl OptionalBook {
    /// The keeper of nothing.
    pub fn none() -> OptionalBook
        ensures { ⟦<OptionalBook as Keeper>⟧.whole result → IsTidy (⟦<OptionalBook as Keeper>⟧.kept result) }
    {
        OptionalBook { book: None }
    }

    /// The book at this path, as `FileBook::open` opens it.
    pub fn open(rt: &HostRuntime, path: &str) -> Result<OptionalBook, NotBook>
        ensures { IfOk result (λ book. ⟦<OptionalBook as Keeper>⟧.whole book → IsTidy (⟦<OptionalBook as Keeper>⟧.kept book)) }
    {
        Ok(OptionalBook {
            book: Some(FileBook::open(rt, path)?),
        })
    }
}

impl Keeper for OptionalBook {
    ghost kept = { λ keeper. ⟦<Option<FileBook> as Keeper>⟧.kept keeper.book };

    ghost whole = { λ keeper. ⟦<Option<FileBook> as Keeper>⟧.whole keeper.book };

    ghost faults = { λ keeper. ⟦<Option<FileBook> as Keeper>⟧.faults keeper.book };

    fn header(&mut self) -> Result<Option<Bytes>, KeepFault> {
        self.book.header()
    }

    fn set_header(&mut self, header: &[u8]) -> Result<(), KeepFault> {
        self.book.set_header(header)
    }

    fn read(&mut self, number: u64) -> Result<Option<Bytes>, KeepFault> {
        self.book.read(number)
    }

    fn keep(&mut self, number: u64, entry: &[u8]) -> Result<(), KeepFault> {
        self.book.keep(number, entry)
    }
}
