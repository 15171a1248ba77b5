//! The opening file: what it says, or the first fault of its form; and the record of a password as a text.
#![tactic(auto)]

mod entries;
mod file;
mod grants;
mod key_texts;
mod laws;
mod password;
mod record;
mod rows;
mod settings;
mod texts;
mod written;

pub use file::{is_folder, read_file, read_written};
pub use laws::records_are_read;
pub use record::record_text;
pub use texts::joined;
pub use written::{KeysFrom, Written, WrittenPassword, WrittenUser};
