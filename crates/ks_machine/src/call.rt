use crate::Command;
use ks_base::{Drawn, KeyList, KeysFault, Text};

/// What was read of the folder of keys for a call.
pub enum FolderRead {
    /// The command does not ask for it.
    Unused,
    /// Its keys by their indices, rising.
    Keys(KeyList),
    Fault(KeysFault),
}

impl Drop for FolderRead {
    fn drop(self) {
        match self {
            FolderRead::Unused | FolderRead::Keys(_) | FolderRead::Fault(_) => {}
        }
    }
}

/// A request to the machine, with all that it may know of the outside.
pub struct Call {
    pub command: Command,
    /// The text of the token of who asks.
    pub caller: Option<Text>,
    /// The text of the token that is asked about.
    pub subject: Option<Text>,
    /// The clock's reading, in whole seconds since 1970-01-01T00:00:00Z.
    pub reading: u64,
    /// The random bytes that were drawn for it.
    pub draw: Drawn,
    pub folder: FolderRead,
}

impl Drop for Call {
    fn drop(self) {
        let Call {
            command: _,
            caller: _,
            subject: _,
            reading: _,
            draw: _,
            folder: _,
        } = self;
    }
}
