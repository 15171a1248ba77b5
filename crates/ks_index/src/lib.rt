//! Tables whose rows are found by their names too.
#![tactic(auto)]

mod change;
mod index;
mod made;
mod ordered;
mod rows;
mod runs;
mod table;

pub use ordered::in_order;
pub use rows::Rows;
pub use table::Table;
