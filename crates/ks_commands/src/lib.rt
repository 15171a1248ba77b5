//! The commands that open no identity: `check`, `setup`, `rotate` and `password`; what is read before one is opened; and
//! why a command did not end whole.
#![tactic(auto)]

mod answer;
pub mod check;
mod checker;
mod fault;
mod fault_lines;
pub mod key_folder;
mod lines;
pub mod opening;
pub mod password;

pub use fault::Fault;
