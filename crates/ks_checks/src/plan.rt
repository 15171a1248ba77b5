ghost use Rattle.std.specs.Prelude.{◌≡◌, Some, None};

use ks_machine::{BodyOut, Change};

/// What a command that is granted is answered, and the change that it makes, if any.
pub struct Plan {
    pub told: BodyOut,
    pub change: Option<Change>,
}

impl Drop for Plan {
    fn drop(self) {
        let Plan { told: _, change: _ } = self;
    }
}

impl Plan {
    /// Nothing changes.
    pub fn tells(told: BodyOut) -> Plan
        ensures { result ≡ record { told = told; change = None } }
    {
        Plan { told, change: None }
    }

    /// The change is made.
    pub fn changes(change: Change, told: BodyOut) -> Plan
        ensures { result ≡ record { told = told; change = Some change } }
    {
        Plan {
            told,
            change: Some(change),
        }
    }

    /// What is told, and the change.
    pub fn into_parts(self) -> (BodyOut, Option<Change>)
        ensures told { result.0 ≡ self.told }
        ensures change { result.1 ≡ self.change }
    {
        let Plan { told, change } = self;
        (told, change)
    }
}
