//! What is said on the standard error where a command did not end whole.

use ks_base::{KeysFault, Memory, Text};
use ks_commands::Fault;
use ks_lines::{opening_line, state_line};
use ks_machine::OpenFault;
use std::rt::Files;
use std::{fs, io};

/// Tells faults, each behind the path of what it is about, as the words name it.
#[derive(Drop)]
pub struct Teller<'a> {
    pub file: &'a str,
    pub book: &'a str,
    pub folder: &'a str,
    pub address: &'a str,
    /// Whether the file could not be read.
    pub has_failed: bool,
    /// Why nothing listens at the address.
    pub unbound: Option<io::Error>,
    /// Whether an identity was opened.
    pub is_open: bool,
}

/// The path, or none.
pub fn path_of(named: Option<&Text>) -> &str {
    match named {
        Some(path) => path.as_str(),
        None => "",
    }
}

/// Says one line, which names no file and no folder.
pub fn tell<R: Eprint>(rt: &R, fault: &Fault) {
    let _ = match fault {
        Fault::Usage => eprintln!(rt; "{fault}"),
        _ => eprintln!(rt; "ks: {fault}"),
    };
}

impl Teller<'_> {
    /// Says in one line why a command did not end whole.
    pub fn tell<R: AllocGlobal + Files + Eprint>(
        &self,
        rt: &R,
        fault: &Fault,
    ) -> Result<(), Memory> {
        match fault {
            Fault::Opening(why) => {
                let line = opening_line(rt.alloc(), why)?;
                self.tell_of_file(rt, line.as_str());
            }
            Fault::State(why) => self.tell_of_rows(rt, why)?,
            Fault::Read if self.has_failed => self.tell_of_file(rt, "it could not be read"),
            Fault::Keys(KeysFault::BadKey(index)) => {
                let _ = eprintln!(rt; "ks: {}/{index}: not a Fernet key", self.folder);
            }
            Fault::Keys(_) | Fault::Folder => {
                let _ = eprintln!(rt; "ks: {}: {fault}", self.folder);
            }
            Fault::Keeper(_) if self.is_open => self.tell_of_book(rt, "a change could not be kept"),
            Fault::Keeper(_) => self.tell_of_book(rt, "it could not be read or written"),
            Fault::OtherOpening => self.tell_of_other(rt),
            Fault::BadEntry(number) => {
                let _ = eprintln!(rt;
                    "ks: {}: entry {number} can't follow those before it",
                    self.book
                );
            }
            // Once an identity is open, all that fails of a desk is to accept a connection.
            Fault::Desk if self.is_open => self.tell_of_address(rt),
            Fault::Desk => {
                let _ = eprintln!(rt; "ks: there were no random bytes");
            }
            _ => tell(rt, fault),
        }
        Ok(())
    }

    fn tell_of_address<R: Eprint>(&self, rt: &R) {
        let _ = match &self.unbound {
            Some(error) => eprintln!(rt; "ks: {}: {error}", self.address),
            None => eprintln!(rt;
                "ks: {}: no more connections could be accepted",
                self.address
            ),
        };
    }

    /// Says what is wrong with the rows of the opening file, which is read again to find them.
    fn tell_of_rows<R: AllocGlobal + Files + Eprint>(
        &self,
        rt: &R,
        why: &OpenFault,
    ) -> Result<(), Memory> {
        match fs::read(rt, self.file) {
            Ok(text) => {
                let line = state_line(rt.alloc(), text.as_slice(), why)?;
                self.tell_of_file(rt, line.as_str());
            }
            Err(_) => self.tell_of_file(rt, "it is refused, and could not be read again"),
        }
        Ok(())
    }

    fn tell_of_book<R: Eprint>(&self, rt: &R, line: &str) {
        let _ = eprintln!(rt; "ks: {}: {line}", self.book);
    }

    fn tell_of_other<R: Eprint>(&self, rt: &R) {
        let _ = eprintln!(rt;
            "ks: {}: is not the file with which {} began",
            self.file, self.book
        );
    }

    fn tell_of_file<R: Eprint>(&self, rt: &R, line: &str) {
        let _ = eprintln!(rt; "ks: {}: {line}", self.file);
    }
}
