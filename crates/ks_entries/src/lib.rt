//! One spelling as bytes for each entry of the journal: its number, its moment, the place of its change among the
//! variants, and what the change holds. The header of a journal beside it says how the server opened.
#![tactic(auto)]

mod changes;
mod header;

pub use changes::{entries_differ, read_entry, write_entry};
pub use header::{Header, headers_differ, read_header, write_header};
