//! Trusts (OS-TRUST): how they are found, made, used and ended, and which of them hang on which.
#![tactic(auto)]

mod changes;
mod checks;
mod descent;
mod laws;
mod lists;
mod sides;
mod trusts;
mod walk;

pub use laws::{gone_by_their_ids, left_without_their_ids, named_by_their_ids};
pub use trusts::Trusts;
