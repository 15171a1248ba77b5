//! The keys of a folder of key files, as the administration guide of Keystone lays out a key repository:
//! a file for each key, whose name is the key's index.
#![tactic(auto)]

mod laws;
mod reading;
mod rotating;
mod writing;

pub use laws::{file_is_key, rotation_leaves_the_newest, set_up_is_read};
pub use reading::read_dir;
pub use rotating::rotate_dir;
pub use writing::setup;
