//! JSON documents (RFC 8259), read as trees over their own texts.
#![tactic(auto)]

mod number;
mod owned;
mod read;
mod value;

pub use json::Scratch;
pub use read::ReadFault;
pub use value::Value;
