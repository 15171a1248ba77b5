//! Rows in runs, kept in two orders.
#![tactic(auto)]

mod change;
mod links;
mod rows;
mod run_set;
mod sought;

pub use links::{FEW, Links};
pub use rows::RunRows;
pub use run_set::RunSet;
