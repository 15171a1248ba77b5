//! The book beside an opening file, in which its changes are kept.
ghost use Rattle.std.specs.Prelude.{IfOk};
ghost use Rattle.ks_keeper.specs.Keeper.{IsTidy};

use ks_commands::Fault;
use ks_keeper::{Keeper, OptionalBook};
use ks_words::Words;
use std::alloc::{AllocError, Global};
use std::process::ExitCode;

/// The path of the book of an opening file.
pub fn path_of_book(alloc: Global, file: &str) -> Result<String, AllocError> {
    format!(in alloc; "{file}.book")
}

/// Whether the command keeps its changes.
fn keeps(command: &Words) -> bool {
    match command {
        Words::Talk(_) | Words::Serve(_, _) => true,
        Words::Check => false,
        Words::Setup(_) => false,
        Words::Rotate(_, _) => false,
        Words::Password(_) => false,
        Words::Drill(_, _) => false,
        Words::Usage => false,
    }
}

/// The book at this path, where the command keeps its changes and its opening file could be opened. Where it can't be opened one
/// line says so, and the status is that of a keeper that failed.
pub fn book_of(
    rt: &HostRuntime,
    command: &Words,
    path: &str,
    has_file: bool,
) -> Result<OptionalBook, ExitCode>
    ensures { IfOk result (λ book. ⟦<OptionalBook as Keeper>⟧.whole book → IsTidy (⟦<OptionalBook as Keeper>⟧.kept book)) }
{
    if !has_file || !keeps(command) {
        return Ok(OptionalBook::none());
    }
    match OptionalBook::open(rt, path) {
        Ok(book) => Ok(book),
        Err(error) => {
            let _ = eprintln!(rt; "ks: {path}: {error}");
            Err(ExitCode::from(Fault::Keeper(None).status()))
        }
    }
}
