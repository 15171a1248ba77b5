//! What the program says of each fault: one line.

use crate::fault::Fault;
use ks_base::KeysFault;
use ks_base::limits::CHECK_LINES;
use std::fmt;

const USAGE: &str =
    "usage: ks check | ks talk FILE FOLDER | ks serve FILE FOLDER ADDRESS [--workers N] [--connections N] [--log FILE] | ks setup FOLDER | ks rotate FOLDER [--max N] | ks password [--rounds N] | ks drill START COUNT";

const FAILED: &str =
    "the key folder could not be read or written; if there is none yet, make it first";

impl fmt::Display for Fault {
    fn fmt<W: fmt::Write>(&self, f: &mut fmt::Formatter<W>) -> fmt::Result {
        match self {
            Fault::Usage => write!(f, "{USAGE}"),
            Fault::Read => write!(f, "standard input could not be read"),
            Fault::Write => write!(f, "standard output could not be written"),
            Fault::Memory => write!(f, "out of memory"),
            Fault::BadLine(1) => write!(f, "line 1 is not a Fernet key"),
            Fault::BadLine(n) if *n > CHECK_LINES => {
                write!(f, "line {n} is behind the last that is read")
            }
            Fault::BadLine(n) => write!(f, "line {n} is not a moment, one space and a token"),
            Fault::BadPassword => write!(
                f,
                "the first line of the standard input is not a password of 1 to 4096 bytes in UTF-8"
            ),
            // `opening_line` and `state_line` of ks_setup say why, and where in the file.
            Fault::Opening(_) | Fault::State(_) => write!(f, "the opening file is refused"),
            Fault::Folder => write!(f, "{FAILED}"),
            Fault::Keys(fault) => write_keys(f, fault),
            Fault::Desk => { write!(f, "there were no random bytes, or no more connections") }
            Fault::Keeper(Some(_)) => write!(f, "a change could not be kept"),
            Fault::Keeper(None) => write!(f, "the kept journal could not be read or written"),
            Fault::OtherOpening => write!(
                f,
                "the opening file is not the one with which the kept journal began"
            ),
            Fault::BadEntry(number) => write!(
                f,
                "entry {number} of the kept journal can't follow those before it"
            ),
        }
    }
}

/// Why a folder of keys is refused.
fn write_keys<W: fmt::Write>(f: &mut fmt::Formatter<W>, fault: &KeysFault) -> fmt::Result {
    match fault {
        KeysFault::Failed => write!(f, "{FAILED}"),
        KeysFault::NoKeys => write!(f, "the key folder has no key"),
        KeysFault::BadKey(index) => write!(f, "file {index} of the key folder is no Fernet key"),
        KeysFault::TooMany => write!(f, "the key folder has more than 32 keys"),
        KeysFault::AlreadySet => write!(f, "the key folder has keys already"),
        KeysFault::IndexEnd => write!(
            f,
            "the key folder has a file 999999999, and none can follow it"
        ),
        KeysFault::Memory => write!(f, "out of memory"),
    }
}
