ghost use Rattle.std.specs.Prelude.{◌≡◌, Some};
ghost use Rattle.ks_commands.specs.Ending.{status_of};
ghost use Rattle.ks_commands.specs.steps.KeyCalls.{named};
ghost use Rattle.ks_commands.specs.steps.Openings.{of_header, of_keeper, of_opening, of_state, of_unread};

use ks_base::KeysFault;
use ks_keep::{KeeperFailed, NotRead};
use ks_keeper::KeepFault;
use ks_machine::OpenFault;
use ks_setup::OpeningFault;

/// Why a command did not end whole.
pub enum Fault {
    /// The words are not a command's.
    Usage,
    /// The input or the opening file could not be read.
    Read,
    /// The output could not be written.
    Write,
    /// There was no memory.
    Memory,
    /// The line of this number, counted from 1, is not in the grammar of `check`.
    BadLine(u64),
    /// The first line of the input is not a password.
    BadPassword,
    /// The opening file is refused. It is never `Random` or `Memory`: these are faults of their own.
    Opening(OpeningFault),
    /// What the opening file says is refused. It is never `Memory`.
    State(OpenFault),
    /// The folder of the keys failed.
    Folder,
    /// The folder of the keys is refused. It is never `Failed` or `Memory`: these are faults of their own.
    Keys(KeysFault),
    /// The first desk had no random bytes; or, once an identity was opened, a desk accepted no more connections.
    Desk,
    /// The keeper failed: while a change was to be kept, where that is told, and else before an identity was opened.
    Keeper(Option<KeeperFailed>),
    /// The keeper holds the header of another opening file.
    OtherOpening,
    /// What the keeper holds at this number is no entry, or one that can't follow those before it.
    BadEntry(u64),
}

impl Drop for Fault {
    fn drop(self) {
        match self {
            Fault::Usage
            | Fault::Read
            | Fault::Write
            | Fault::Memory
            | Fault::BadLine(_)
            | Fault::BadPassword
            | Fault::Opening(_)
            | Fault::State(_)
            | Fault::Folder
            | Fault::Keys(_)
            | Fault::Desk
            | Fault::Keeper(_)
            | Fault::OtherOpening
            | Fault::BadEntry(_) => {}
        }
    }
}

impl Fault {
    /// The status of the process.
    pub fn status(&self) -> u8
        ensures { result ≡ status_of (Some self.now) }
    {
        match self {
            Fault::Usage => 2,
            Fault::Read => 3,
            Fault::Write => 4,
            Fault::Memory => 5,
            Fault::BadLine(_) | Fault::BadPassword => 6,
            Fault::Opening(_) | Fault::State(_) => 7,
            Fault::Folder => 8,
            Fault::Keys(fault) => keys_status(fault),
            Fault::Desk => 10,
            Fault::Keeper(_) => 13,
            Fault::OtherOpening => 14,
            Fault::BadEntry(_) => 15,
        }
    }

    /// A fault of the keys, as one of the program.
    pub fn of_keys(fault: KeysFault) -> Fault
        ensures { result ≡ named fault }
    {
        match fault {
            KeysFault::Failed => Fault::Folder,
            KeysFault::Memory => Fault::Memory,
            refusal => Fault::Keys(refusal),
        }
    }

    /// A fault of the opening, as one of the program.
    pub fn of_opening(fault: OpeningFault) -> Fault
        ensures { result ≡ of_opening fault }
    {
        match fault {
            OpeningFault::Random => Fault::Desk,
            OpeningFault::Memory => Fault::Memory,
            refusal => Fault::Opening(refusal),
        }
    }

    /// A fault of the opening that a header gives, as one of the program.
    pub fn of_header(fault: OpeningFault) -> Fault
        ensures { result ≡ of_header fault }
    {
        match fault {
            OpeningFault::Random => Fault::OtherOpening,
            OpeningFault::Memory => Fault::Memory,
            refusal => Fault::Opening(refusal),
        }
    }

    /// A fault of the keeper before an identity was opened, as one of the program.
    pub fn of_keeper(fault: KeepFault) -> Fault
        ensures { result ≡ of_keeper fault }
    {
        match fault {
            KeepFault::Failed => Fault::Keeper(None),
            KeepFault::Memory => Fault::Memory,
        }
    }

    /// Why the entries of a keeper were not read, as a fault of the program.
    pub fn of_unread(why: NotRead) -> Fault
        ensures { result ≡ of_unread why }
    {
        match why {
            NotRead::Failed => Fault::Keeper(None),
            NotRead::BadEntry(number) => Fault::BadEntry(number),
            NotRead::Memory => Fault::Memory,
        }
    }

    /// A fault of what the file says, as one of the program.
    pub fn of_state(fault: OpenFault) -> Fault
        ensures { result ≡ of_state fault }
    {
        match fault {
            OpenFault::Memory => Fault::Memory,
            refusal => Fault::State(refusal),
        }
    }
}

/// The status of a process that a folder of keys ends.
fn keys_status(fault: &KeysFault) -> u8
    ensures { result ≡ status_of (Some (Fault.Keys fault.now)) }
{
    match fault {
        KeysFault::Memory => 5,
        KeysFault::Failed => 8,
        KeysFault::NoKeys | KeysFault::BadKey(_) | KeysFault::TooMany => 9,
        KeysFault::AlreadySet => 11,
        KeysFault::IndexEnd => 12,
    }
}
