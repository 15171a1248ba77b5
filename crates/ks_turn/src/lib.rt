//! One value that many callers use, one at a time, each knowing what it has seen.
#![tactic(auto)]

mod first;
mod pass;
mod turn;
mod view;

pub use first::{First, Journaled};
pub use pass::{NoSplit, Pass};
pub use turn::{Held, NoRoom, Turn};
