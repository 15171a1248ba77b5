//! Sequences in chunks, in which an item comes and goes anywhere without a move of all behind it.
#![tactic(auto)]

mod chunk;
mod run;
mod search;
mod sequence;

pub use run::Run;
pub use search::Seek;
pub use sequence::Sequence;
