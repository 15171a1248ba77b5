//! A ring of Fernet keys: which key seals, in which order opening tries them, how they rotate, and a number for
//! each key that no other key of the same run ever gets.
#![tactic(auto)]

mod held_key;
mod laws;
mod numbering;
mod refusal;
mod ring;
mod rotation;
mod sorting;

pub use held_key::HeldKey;
pub use laws::{loaded_numbers, new_numbers, next_number, rotated_numbers};
pub use ring::Ring;
