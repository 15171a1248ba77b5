//! How the rows of an opening come into tables, and for which fault an opening is refused.
#![tactic(auto)]

mod check;
mod filled;
mod index;
mod limits;
mod listed;
mod names;
mod opened;
mod rules;
mod tables;

pub use opened::{OpenedTables, open_tables};
