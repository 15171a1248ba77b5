//! What a server opens with: an opening file with the keys and the passwords that it needs, and the header of a journal.
#![tactic(auto)]

mod derive;
mod form;
mod header;
mod keys;
mod laws;
mod opening;
mod policy;

pub use derive::derive_password;
pub use form::OpeningFile;
pub use header::{first_opening, opening_of};
pub use laws::openings_are_in_range;
pub use opening::{OpeningFault, read_opening};
