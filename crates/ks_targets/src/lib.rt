//! What a command asks for before it is carried out, and what rules see of it: its caller, what it names and what it
//! says.
#![tactic(auto)]

mod actions;
mod catalog_targets;
pub mod credentials;
mod fields;
mod requirements;
mod seen;
pub mod targets;

pub use requirements::{Requirements, required};
