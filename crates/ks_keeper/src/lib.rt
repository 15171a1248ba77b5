//! The keepers of the kept journal: a keeper holds a header and entries by number, and what it answered to
//! have kept stands after a stop. One is in memory, and one is a book, a file of SQLite.
#![tactic(auto)]

mod book;
mod fault;
mod keeper;
mod memory;
mod open;
mod optional;
mod optional_book;
mod shelf;
mod statements;
mod tables;
mod tidy;

pub use book::Book;
pub use fault::KeepFault;
pub use keeper::Keeper;
pub use memory::MemoryKeeper;
pub use open::{FileBook, NotBook};
pub use optional_book::OptionalBook;
