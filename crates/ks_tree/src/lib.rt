//! Domains and the projects in them (Identity API v3): the rows, how they are found, and which changes of them
//! are refused.
#![tactic(auto)]

mod changes;
mod checks;
mod lists;
mod named;
mod tree;
mod walk;

pub use tree::Tree;
