//! The rule language of oslo.policy: texts that say which callers may do what to which target, their trees, and
//! where a tree holds.
#![tactic(auto)]

mod check;
mod credentials;
mod filling;
mod kind;
pub mod laws;
mod pieces;
mod reader;
mod rule;
mod stop;
mod tokens;
mod truth;
mod writer;

pub use credentials::{Attributes, Credentials};
pub use kind::value_in;
pub use rule::Rule;
pub use truth::NamedRules;
