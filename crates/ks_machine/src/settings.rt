ghost use Rattle.std.specs.Prelude.{◌≡◌, IfOk};

use ks_base::{Id, Kind, LoadFault, Memory, Text};

/// The settings of an opening file.
#[derive(Drop)]
pub struct Settings {
    /// The URL under which clients reach the server, with no slash at its end.
    pub url: Text,
    /// How long a token lives, from 60 to 604,800 seconds.
    pub life: u64,
    /// The iteration count of new passwords, from 1 to 100,000.
    pub rounds: u32,
    /// How many keys are held at most after a rotation, from 2 to 32.
    pub max_keys: u32,
    /// Whether the keys come from the folder.
    pub folder: bool,
}

/// Why an opening is refused, in the order in which the causes are tested.
#[derive(Clone, Copy)]
pub enum OpenFault {
    /// Two rows of this kind have this id.
    IdRepeated(Kind, Id),
    /// The row of this kind with this id has the name of a later one.
    Name(Kind, Id),
    /// No row of this kind has this id, which another row names.
    Absent(Kind, Id),
    /// The project with this id is too far below its domain.
    TooDeep(Id),
    /// This project is above the project, and disabled.
    DisabledAbove(Id),
    /// This role is named `admin`, and may not be implied.
    Prohibited(Id),
    /// There are too many rows of this kind.
    Full(Kind),
    /// The keys are no ring.
    Ring(LoadFault),
    /// There was no memory.
    Memory,
}

impl Settings {
    /// Equal settings.
    pub fn copy(&self) -> Result<Settings, Memory>
        ensures { IfOk result (λ made. made ≡ self.now) }
    {
        Ok(Settings {
            url: self.url.copy()?,
            life: self.life,
            rounds: self.rounds,
            max_keys: self.max_keys,
            folder: self.folder,
        })
    }
}
