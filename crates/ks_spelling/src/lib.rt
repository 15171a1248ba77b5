//! One spelling as bytes for each value: what is read is what was written, each value has one spelling, and nothing
//! else is read. Numbers have 8 or 4 bytes by their type, the high byte first. A truth value is 0 or 1. An absent
//! value is 0, a present one 1 and the value. A text, bytes or a list has a count of four bytes before it, an id a
//! length of one byte. An enum has the place of its variant in a byte, and then what the variant holds. Arrays stand
//! as they are, and the fields of a struct one behind the other.
#![tactic(auto)]

mod catalog;
mod credentials;
mod cursor;
mod grants;
mod leaves;
mod rows;
mod spelled;
mod unread;
mod value;
mod values;
mod variants;
mod wholes;

pub use cursor::Cursor;
pub use spelled::Spelled;
pub use unread::Unread;
pub use value::{read_value, spellings_differ, written};
pub use variants::{write_at, write_place, write_two_at};
